//! A row of tiles of the picture, as bytes.

ghost use Rattle.std.specs.Prelude.{◌≡◌, ◌+◌, ◌*◌, ◌<◌, ◌≤◌, ℕ, length};
ghost use Rattle.dp_blend.specs.White.{rgb_on_white};
ghost use Rattle.dp_pixels.specs.Tiles.{tiles_along};
ghost use Rattle.dp_flat.specs.Bands.{IsBand, band_rgb};
ghost use Rattle.dp_flat.specs.Composed.{IsDeep};
ghost use Rattle.dp_flat.specs.Tones.{tone_at};

use crate::compose::{LEVELS, draw_tile};
use crate::tone::{BUFFER, SIDE, TileAt, Tone};
use dp_blend::{Pixel, rgb_on_white, row_on_white};
use dp_plain::BoardView;

/// The bytes of a pixel of the picture: red, green and blue.
pub(crate) type Rgb = [u8; 3];

/// Black.
pub(crate) const BLACK: Rgb = [0, 0, 0];

/// How many tiles there are along a side.
pub(crate) fn tiles_along(side: u32) -> u32
    requires { side ≤ 4096 }
    ensures value { result ≡ tiles_along side }
    ensures few { result ≤ 64 }
{
    side.div_ceil(SIDE)
}

/// Puts the bytes of a tile of this tone on white, and gives its colour, if it is of one. The
/// tile's pixels are the first ones of this buffer.
fn put_tile(tone: Tone, buffer: &[Pixel], bytes: &mut [Rgb]) -> Option<Rgb>
    requires { length bytes.old ≤ length buffer.now }
    ensures { (k : ℕ) → k < length bytes.old
        → band_rgb result bytes.new k
        ≡ rgb_on_white (tone_at tone buffer.now k) }
{
    match tone {
        Tone::Solid(color) => Some(rgb_on_white(color)),
        Tone::Mixed => {
            row_on_white(&buffer[..bytes.len()], bytes);
            None
        }
    }
}

/// Draws the tiles of a row of tiles of the picture, going down into groups so deep: for each tile
/// its colour, if it is of one, and else its bytes in its part of `bytes`.
pub(crate) fn draw_band<V: BoardView>(
    board: &V,
    depth: usize,
    row: u32,
    memory: &mut [Pixel],
    colors: &mut [Option<Rgb>],
    bytes: &mut [Rgb],
)
    requires inside { row * 64 < (V.board board.now).height }
    requires some { 1 ≤ depth }
    requires few { depth ≤ LEVELS }
    requires deep { IsDeep (V.board board.now) depth }
    requires long { length memory.old ≡ BUFFER * (depth + 1) }
    requires colors { length colors.old ≡ tiles_along (V.board board.now).width }
    requires bytes { length bytes.old ≡ BUFFER * tiles_along (V.board board.now).width }
    ensures { IsBand (V.board board.now) row colors.new bytes.new }
{
    for col in 0..tiles_along(board.width()) {
        let tone = draw_tile(board, depth, TileAt { col, row }, memory);
        let start = col as usize * BUFFER;
        let part = &mut bytes[start..start + BUFFER];
        colors[col as usize] = put_tile(tone, memory, part);
    }
}
