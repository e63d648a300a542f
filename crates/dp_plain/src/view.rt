//! What is read of a board.

ghost use Rattle.std.specs.Prelude.{◌≡◌, ◌+◌, ◌*◌, ◌<◌, ◌≤◌, [], length, IfSome, true};
ghost use Rattle.dp_blend.specs.Canvas.{part_of_row};
ghost use Rattle.dp_layers.specs.Layers.{is_paint_row};
ghost use Rattle.dp_layers.specs.Rows.{layers_of};
ghost use Rattle.dp_pixels.specs.Tiles.{ShowsTile};
ghost use Rattle.dp_plain.specs.Board.{Board, HasPixels, IsBoard};
ghost use Rattle.dp_plain.specs.Picture.{pixels_of};
ghost use Rattle.dp_plain.specs.View.{pixel_in};

use dp_blend::Pixel;
use dp_layers::LayerRow;

/// A board that can be looked at: its sides, its background, its rows, and their pixels a part of a
/// row or a tile at a time. No call takes memory.
pub trait BoardView {
    /// The board that it is.
    ghost board: { Self → Board };

    /// The width in pixels, at most 4096.
    fn width(&self) -> u32
        ensures value { result ≡ (board self.now).width }
        ensures board { IsBoard (board self.now) };

    /// The height in pixels, at most 4096.
    fn height(&self) -> u32
        ensures value { result ≡ (board self.now).height }
        ensures board { IsBoard (board self.now) };

    /// The background, an ARGB number.
    fn background(&self) -> u32
        ensures { result ≡ (board self.now).background };

    /// The rows of layers and groups, the bottom one first.
    fn rows(&self) -> &[LayerRow]
        ensures { result.now ≡ layers_of (board self.now).rows };

    /// Its layers hold pixels, whatever was drawn on it. The call does nothing.
    fn known_pixels(&self)
        ensures { HasPixels (board self.now) };

    /// Copies a part of the row y of the pixels of the paint layer of the id, from x on.
    fn copy_part(&self, id: u16, x: u32, y: u32, part: &mut [Pixel])
        requires paint { is_paint_row (layers_of (board self.now).rows) id ≡ true }
        requires inside { y < (board self.now).height }
        requires within { x + length part.old ≤ (board self.now).width }
        ensures { part.new ≡ part_of_row (board self.now).width
            (pixels_of (board self.now) id) x y (length part.old) };

    /// The colour of the tile at a column and a row of tiles, of the paint layer of the id. It is
    /// `None` if the tile isn't of one, or that isn't known without reading it.
    fn tile_color(&self, id: u16, col: u32, row: u32) -> Option<Pixel>
        requires paint { is_paint_row (layers_of (board self.now).rows) id ≡ true }
        requires across { col * 64 < (board self.now).width }
        requires down { row * 64 < (board self.now).height }
        ensures { IfSome result (λ color. ShowsTile (board self.now).width (board self.now).height
            (pixels_of (board self.now) id) col row (Some color) []) };

    /// Reads the tile at a column and a row of tiles, of the paint layer of the id: gives its
    /// colour, if it is known to be of one, and else leaves its pixels in the buffer, row by
    /// row. Past the canvas it may hold anything.
    fn tile(&self, id: u16, col: u32, row: u32, buffer: &mut [Pixel]) -> Option<Pixel>
        requires paint { is_paint_row (layers_of (board self.now).rows) id ≡ true }
        requires across { col * 64 < (board self.now).width }
        requires down { row * 64 < (board self.now).height }
        requires count { length buffer.old ≡ 4096 }
        ensures { ShowsTile (board self.now).width (board self.now).height
            (pixels_of (board self.now) id) col row result buffer.new };

    /// The pixel of the paint layer of the id at a place. It is `None` if no paint layer has the id
    /// or the place is outside.
    fn pixel(&self, id: u16, x: u32, y: u32) -> Option<Pixel>
        ensures { result ≡ pixel_in (board self.now) id x y };
}
