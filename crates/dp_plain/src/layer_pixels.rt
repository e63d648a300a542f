//! What a paint layer holds.

ghost use Rattle.std.specs.Prelude.{◌≡◌, ℕ, ◌+◌, ◌*◌, ◌<◌, ◌≤◌, List, [], length, is_some};
ghost use Rattle.std.specs.Prelude.{All, IfOk, IfSome, OnOk, OnErr, true};
ghost use Rattle.dp_blend.specs.Color.{Channels, IsPixel, clear};
ghost use Rattle.dp_blend.specs.Canvas.{canvas_of, part_of_row, pixel_at};
ghost use Rattle.dp_msg_draw.specs.declared.draw.Draw.{Draw as Message};
ghost use Rattle.dp_pixels.specs.Commands.{pixels_after};
ghost use Rattle.dp_plain.specs.Commands.{painted_layer};
ghost use Rattle.dp_pixels.specs.Resizes.{pixels_resized};
ghost use Rattle.dp_pixels.specs.Tiles.{ShowsTile};

use dp_blend::Pixel;
use dp_layers::Share;
use dp_msg_draw::Draw;
use dp_pixels::Resize;
use dp_steps::Steps;
use std::alloc::{AllocError, Global};
use std::sync::ledger::Ledger;

/// The pixels of a layer, in whatever form, on a canvas of sides that its holder knows. The tiles
/// that are made are counted; a share makes none.
pub trait LayerPixels: Share + Drop {
    /// The pixels on a canvas of this width and height, row by row from the top.
    ghost pixels: { ℕ → ℕ → Self → List Channels };

    /// It belongs to a canvas of this width and height.
    ghost fits: { ℕ → ℕ → Self → Type 0 };

    /// The most tiles that a draw of the command makes.
    ghost weight: { Message → ℕ };

    /// The most tiles that a resize makes.
    ghost resizing: { ℕ };

    /// The clear content of a canvas. It makes no tile.
    fn clear<T: Ledger>(
        alloc: Global,
        width: u32,
        height: u32,
        tiles: &mut Steps<T>,
    ) -> Result<Self, AllocError>
        requires wide { width ≤ 4096 }
        requires high { height ≤ 4096 }
        ensures fits { IfOk result (fits width height) }
        ensures pixels { IfOk result (λ content.
            pixels width height content ≡ canvas_of width height (λ x y. clear)) }
        ensures no_tile { tiles.new ≡ tiles.old };

    /// Draws a command on pixels.
    ///
    /// # Errors
    ///
    /// The content is as it was, and tiles that were made are counted.
    fn paint<T: Ledger>(
        &mut self,
        alloc: Global,
        width: u32,
        height: u32,
        command: &Draw,
        tiles: &mut Steps<T>,
    ) -> Result<(), AllocError>
        requires wide { width ≤ 4096 }
        requires high { height ≤ 4096 }
        requires paints { is_some (painted_layer command.now) ≡ true }
        requires fits { fits width height self.old }
        ensures fits { OnOk result (fits width height self.new) }
        ensures pixels { OnOk result (pixels width height self.new
            ≡ pixels_after width height command.now (pixels width height self.old)) }
        ensures err { OnErr result (self.new ≡ self.old) }
        ensures tiles_rise { tiles.old ≤ tiles.new }
        ensures few_tiles { tiles.new ≤ tiles.old + weight command.now };

    /// The content on a canvas of the new sides.
    ///
    /// # Errors
    ///
    /// Tiles that were made are counted.
    fn resize<T: Ledger>(
        &self,
        alloc: Global,
        change: Resize,
        tiles: &mut Steps<T>,
    ) -> Result<Self, AllocError>
        requires fits { fits change.width change.height self.now }
        ensures fits { IfOk result (fits change.new_width change.new_height) }
        ensures pixels { IfOk result (λ content.
            pixels change.new_width change.new_height content
            ≡ pixels_resized change (pixels change.width change.height self.now)) }
        ensures tiles_rise { tiles.old ≤ tiles.new }
        ensures few_tiles { tiles.new ≤ tiles.old + resizing };

    /// Copies a part of the row y of the pixels, from x on.
    fn copy_part(&self, width: u32, height: u32, x: u32, y: u32, part: &mut [Pixel])
        requires fits { fits width height self.now }
        requires inside { y < height }
        requires within { x + length part.old ≤ width }
        ensures { part.new
            ≡ part_of_row width (pixels width height self.now) x y (length part.old) };

    /// The colour of the tile at a column and a row of tiles, if it is of one and that is known
    /// without reading it.
    fn tile_color(&self, width: u32, height: u32, col: u32, row: u32) -> Option<Pixel>
        requires fits { fits width height self.now }
        requires across { col * 64 < width }
        requires down { row * 64 < height }
        ensures { IfSome result (λ color.
            ShowsTile width height (pixels width height self.now) col row (Some color) []) };

    /// Reads the tile at a column and a row of tiles: gives its colour, if it is known to be of
    /// one, and else leaves its pixels in the buffer, row by row. Past the canvas it may hold
    /// anything.
    fn tile(
        &self,
        width: u32,
        height: u32,
        col: u32,
        row: u32,
        buffer: &mut [Pixel],
    ) -> Option<Pixel>
        requires fits { fits width height self.now }
        requires across { col * 64 < width }
        requires down { row * 64 < height }
        requires count { length buffer.old ≡ 4096 }
        ensures { ShowsTile width height (pixels width height self.now) col row result
            buffer.new };

    /// The pixel at a place.
    fn pixel(&self, width: u32, height: u32, x: u32, y: u32) -> Pixel
        requires fits { fits width height self.now }
        requires inside { (x < width) × (y < height) }
        ensures { result ≡ pixel_at width (pixels width height self.now) x y };

    /// Laws: a content has a pixel for each place of a canvas that it fits.
    fn laws()
        ensures covers { (width height : ℕ) (content : Self) → fits width height content
            → length (pixels width height content) ≡ width * height }
        ensures pixels { (width height : ℕ) (content : Self) → fits width height content
            → All IsPixel (pixels width height content) };
}
