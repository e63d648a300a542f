//! A tile of a layer: its pixels, and what is put into it.

ghost use Rattle.std.specs.Prelude.{◌≡◌, ◌+◌, ◌*◌, ◌<◌, ◌≤◌, length, map, pos, min};
ghost use Rattle.std.specs.Prelude.{All, IfOk, IfSome, true};
ghost use Rattle.std.specs.List.{list_all};
ghost use Rattle.dp_blend.specs.Canvas.{below};
ghost use Rattle.dp_layers.specs.Layers.{is_paint_row};
ghost use Rattle.dp_layers.specs.Rows.{layers_of};
ghost use Rattle.dp_msg_draw.specs.Payloads.{IsContent, IsPixel};
ghost use Rattle.dp_pixels.specs.Commands.{pixel_of};
ghost use Rattle.dp_plain.specs.Picture.{pixels_of};
ghost use Rattle.dp_snap.specs.Tiles.{content_of_tile, is_same, on_canvas, pixels_of_tile};
ghost use Rattle.dp_snap.specs.Tiles.{shown_of, tile_pixel};

use dp_blend::{Mode, Pixel, row_fill};
use dp_msg_draw::{TileContent, TilePixel, TilePixels};
use dp_plain::BoardView;
use std::alloc::{AllocError, Global};

/// The length of a tile's side, in pixels.
pub(crate) const SIDE: usize = 64;

/// How many pixels a tile has.
pub(crate) const COUNT: usize = SIDE * SIDE;

/// How many columns of a tile are on the canvas, by its width and the number of the tile's column.
/// Or how many rows, by its height and the number of the tile's row.
pub(crate) fn shown_of(side: u32, number: u32) -> usize
    requires { number ≤ 64 }
    ensures { result ≡ shown_of side number }
{
    (side.saturating_sub(number * 64) as usize).min(SIDE)
}

/// Leaves the pixels of the tile at a column and a row in `tile`.
pub(crate) fn read_tile<V: BoardView>(canvas: &V, id: u16, col: u32, row: u32, tile: &mut [Pixel])
    requires paint { is_paint_row (layers_of (V.board canvas.now).rows) id ≡ true }
    requires inside { (col < 64) × (row < 64) }
    requires whole { length tile.old ≡ 4096 }
    ensures { tile.new ≡ pixels_of_tile (V.board canvas.now).width (V.board canvas.now).height
        (pixels_of (V.board canvas.now) id) col row }
{
    for y in 0..SIDE {
        let part = &mut tile[y * SIDE..y * SIDE + SIDE];
        read_part(canvas, id, col * 64, row * 64 + y as u32, part);
    }
}

/// Leaves the pixels of a row from x on in `part`, clear past the canvas.
fn read_part<V: BoardView>(canvas: &V, id: u16, x: u32, y: u32, part: &mut [Pixel])
    requires paint { is_paint_row (layers_of (V.board canvas.now).rows) id ≡ true }
    requires short { length part.old ≤ 64 }
    ensures { part.new ≡ map (λ i. pixel_of (V.board canvas.now).width (V.board canvas.now).height
        (pixels_of (V.board canvas.now) id) (pos (x + i)) (pos y)) (below (length part.old)) }
{
    if x >= canvas.width() || y >= canvas.height() {
        row_fill(Mode::Replace, Pixel::CLEAR, part);
        return;
    }
    let shown = ((canvas.width() - x) as usize).min(part.len());
    let (seen, past) = part.split_at_mut(shown);
    canvas.copy_part(id, x, y, seen);
    row_fill(Mode::Replace, Pixel::CLEAR, past);
}

/// What is put into a tile of these pixels, of which `cols` columns and `rows` rows are on the
/// canvas.
pub(crate) fn tile_content(
    alloc: Global,
    cols: usize,
    rows: usize,
    tile: &[Pixel],
) -> Result<Option<TileContent>, AllocError>
    requires whole { length tile.now ≡ 4096 }
    requires within { (cols ≤ 64) × (rows ≤ 64) }
    ensures value { IfOk result (λ content. content ≡ content_of_tile cols rows tile.now) }
    ensures valid { IfOk result (λ content. IfSome content IsContent) }
{
    let corner = tile[0];
    if !are_same(corner, cols, rows, tile) {
        return Ok(Some(TileContent::Pixels(tile_pixels(alloc, tile)?)));
    }
    if is_same(Pixel::CLEAR, corner) {
        return Ok(None);
    }
    Ok(Some(TileContent::Solid(tile_pixel(corner))))
}

/// Whether the pixels of a tile that are on the canvas are this one.
fn are_same(pixel: Pixel, cols: usize, rows: usize, tile: &[Pixel]) -> bool
    requires whole { length tile.now ≡ 4096 }
    requires within { (cols ≤ 64) × (rows ≤ 64) }
    ensures { result ≡ list_all (is_same pixel) (on_canvas cols rows tile.now) }
{
    for y in 0..rows {
        if !is_row_same(pixel, &tile[y * SIDE..y * SIDE + cols]) {
            return false;
        }
    }
    true
}

/// Whether each pixel is this one.
fn is_row_same(pixel: Pixel, row: &[Pixel]) -> bool
    ensures { result ≡ list_all (is_same pixel) row.now }
{
    row.iter().all(|other| is_same(pixel, *other))
}

/// Whether the two are the same pixel.
fn is_same(p: Pixel, q: Pixel) -> bool
    ensures { result ≡ is_same p q }
{
    p.r() == q.r() && p.g() == q.g() && p.b() == q.b() && p.a() == q.a()
}

/// The pixels as a message has them.
fn tile_pixels(alloc: Global, tile: &[Pixel]) -> Result<TilePixels, AllocError>
    requires { length tile.now ≡ 4096 }
    ensures value { IfOk result (λ pixels. pixels ≡ map tile_pixel tile.now) }
    ensures valid { IfOk result (All IsPixel) }
{
    let mut pixels = Vec::with_capacity(alloc, COUNT)?;
    for pixel in tile {
        pixels.push(tile_pixel(*pixel))?;
    }
    Ok(TilePixels::from_vec(pixels))
}

/// The pixel as a message has it.
fn tile_pixel(pixel: Pixel) -> TilePixel
    ensures value { result ≡ tile_pixel pixel }
    ensures valid { IsPixel result }
{
    TilePixel {
        r: pixel.r(),
        g: pixel.g(),
        b: pixel.b(),
        a: pixel.a(),
    }
}
