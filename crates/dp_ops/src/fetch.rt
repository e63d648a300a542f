//! Pixels that are fetched from memory before they are painted.
//!
//! A narrow area of a tile lies in as many lines of memory as it has rows. A read of each before
//! the first row is painted has the processor wait for all of them at once, and not one by one.

ghost use Rattle.std.specs.Prelude.{◌≡◌, ◌<◌, ◌≤◌, false, length};

use dp_blend::{ONE, Pixel};
use dp_tile::SIDE;

/// The widest area that is fetched. The rows of a wider one are fetched as they are painted.
const NARROW: usize = 16;

/// The columns or the rows of a tile from `start` on before `end`.
#[derive(Clone, Copy)]
struct Span {
    start: usize,
    end: usize,
}

/// The numbers of a tile's side that are among `len` from `from` on, counted from its first.
fn span_of(tile: u32, from: u32, len: u32) -> Span
    requires { tile < 64 }
    ensures { result.end ≤ 64 }
{
    let (first, end) = (tile as u64 * 64, tile as u64 * 64 + 64);
    let (from, to) = (from as u64, from as u64 + len as u64);
    Span {
        start: (from.clamp(first, end) - first) as usize,
        end: (to.clamp(first, end) - first) as usize,
    }
}

/// Reads both ends of rows of a tile. The answer keeps the reads: whether an alpha is above one,
/// which none is.
fn read_ends(across: Span, down: Span, pixels: &[Pixel]) -> bool
    requires count { length pixels.now ≡ 4096 }
    requires order { across.start < across.end }
    requires across { across.end ≤ 64 }
    requires down { down.end ≤ 64 }
    ensures { result ≡ false }
{
    let mut above = false;
    for y in down.start..down.end {
        let (first, last) = (y * SIDE + across.start, y * SIDE + across.end - 1);
        above = above | (pixels[first].a() > ONE) | (pixels[last].a() > ONE);
    }
    above
}

/// Reads each line of memory of a tile, 8 pixels long, in order. The answer keeps the reads:
/// whether an alpha is above one, which none is.
pub(crate) fn read_tile(pixels: &[Pixel]) -> bool
    requires { length pixels.now ≡ 4096 }
    ensures { result ≡ false }
{
    let mut above = false;
    for line in 0..512 {
        above = above | (pixels[line * 8].a() > ONE);
    }
    above
}

/// A rectangle: its corner and its sides.
#[derive(Clone, Copy)]
pub(crate) struct Fill {
    pub x: u32,
    pub y: u32,
    pub w: u32,
    pub h: u32,
}

impl Fill {
    /// Fetches its pixels in the tile at a column and a row, if it is narrow. The answer is no.
    pub(crate) fn fetch(self, col: u32, row: u32, pixels: &[Pixel]) -> bool
        requires col { col < 64 }
        requires row { row < 64 }
        requires count { length pixels.now ≡ 4096 }
        ensures { result ≡ false }
    {
        let across = span_of(col, self.x, self.w);
        let down = span_of(row, self.y, self.h);
        if across.start < across.end && across.end - across.start <= NARROW {
            read_ends(across, down, pixels)
        } else {
            false
        }
    }
}
