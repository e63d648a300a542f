//! Tiles that are put on a canvas.

ghost use Rattle.std.specs.Prelude.{◌≡◌, ◌≤◌, ◌<◌, ◌+◌, ◌*◌, ◌%◌, ◌/◌, ◌^◌, ◌↔◌, ℕ};
ghost use Rattle.std.specs.Prelude.{length, slice_index_or, Some, None, if◌then◌else◌};
ghost use Rattle.std.specs.Option.{option_map_or};
ghost use Rattle.dp_blend.specs.Color.{Channels};
ghost use Rattle.dp_pixels.specs.Rectangles.{canvas_rect, clipped, is_in};
ghost use Rattle.dp_pixels.specs.Tiles.{content_at, is_tile_pixel, replaced_by, tile_changed};
ghost use Rattle.dp_pixels.specs.Tiles.{tile_number, tiles_along, tiles_rect};

use crate::paint::Paint;
use crate::rect::{Place, Rect};
use crate::span::Span;
use dp_blend::{Mode, Pixel, row_fill};
use dp_msg_draw::{TileContent, TilePixel};

/// The side of a tile, in pixels.
const TILE: u64 = 64;

/// A tile's pixel, if it is one.
fn pixel_of(p: TilePixel) -> Option<Pixel>
    ensures { result
        ≡ (if is_tile_pixel p then Some (record { r = p.r; g = p.g; b = p.b; a = p.a }) else None) }
{
    Pixel::new(p.r, p.g, p.b, p.a)
}

/// Puts the pixels of a row of a tile over those of a row, which begins at column x.
fn put_tile_row(pixels: &[TilePixel], x: usize, row: &mut [Pixel])
    requires tile { length pixels.now ≡ 64 }
    requires near { x + length row.old < 2 ^ 64 }
    ensures { (k : ℕ) (d : Channels) → k < length row.old →
        slice_index_or row.new k d
        ≡ replaced_by
        (slice_index_or pixels.now ((x + k) % 64) (record { r = 0; g = 0; b = 0; a = 0 }))
        (slice_index_or row.old k d) }
{
    for k in 0..row.len() {
        if let Some(pixel) = pixel_of(pixels[(x + k) % 64]) {
            row[k] = pixel;
        }
    }
}

/// Puts a content over the pixels of a row, which begins at (x, y).
fn put_content(content: &TileContent, x: usize, y: usize, row: &mut [Pixel])
    requires { x + length row.old < 2 ^ 64 }
    ensures { (k : ℕ) (d : Channels) → k < length row.old →
        slice_index_or row.new k d
        ≡ option_map_or (λ p. replaced_by p (slice_index_or row.old k d))
        (content_at content.now (x + k) y) (slice_index_or row.old k d) }
{
    match content {
        TileContent::Solid(p) => {
            if let Some(pixel) = pixel_of(*p) {
                row_fill(Mode::Replace, pixel, row);
            }
        }
        TileContent::Pixels(pixels) => {
            let start = y % 64 * 64;
            put_tile_row(&pixels.as_slice()[start..start + 64], x, row);
        }
    }
}

/// How many tiles there are along a side of a canvas.
pub fn tiles_along(side: u32) -> u32
    ensures { result ≡ tiles_along side }
{
    ((side as u64 + TILE - 1) / TILE) as u32
}

/// Tiles of a canvas with one content: the tile at a column and a row, and `repeat` further ones.
#[derive(Clone, Copy)]
pub(crate) struct TileRun<'a> {
    pub width: u32,
    pub height: u32,
    pub col: u16,
    pub row: u16,
    pub repeat: u16,
    pub content: &'a TileContent,
    ghost on_canvas: { col < tiles_along width },
}

impl TileRun<'_> {
    ghost use Rattle.dp_pixels.specs.Spans.{IsInSpan};

    /// The number of the first tile.
    fn first(&self) -> u64
        ensures { result ≡ tile_number self.now.width self.now.col self.now.row }
    {
        self.row as u64 * tiles_along(self.width) as u64 + self.col as u64
    }

    /// A rectangle that has their places.
    fn rect(&self) -> Rect
        ensures { result
            ≡ tiles_rect self.now.width self.now.col self.now.row self.now.repeat }
    {
        let last = (self.first() + self.repeat as u64) / tiles_along(self.width) as u64;
        let top = (self.row as u64 * TILE) as i64;
        let bottom = ((last + 1) * TILE) as i64;
        if last == self.row as u64 {
            Rect {
                x0: (self.col as u64 * TILE) as i64,
                y0: top,
                x1: ((self.col as u64 + self.repeat as u64 + 1) * TILE) as i64,
                y1: bottom,
            }
        } else {
            Rect {
                x0: 0,
                y0: top,
                x1: self.width as i64,
                y1: bottom,
            }
        }
    }

    /// The columns of pixels of the tiles in a row of tiles.
    fn columns(&self, tile_row: u64) -> Span
        requires { tile_row < 2 ^ 26 }
        ensures { (x : ℕ) → IsInSpan result x ↔
            ((tile_number self.now.width self.now.col self.now.row
            ≤ tile_number self.now.width (x / 64) tile_row)
            × (tile_number self.now.width (x / 64) tile_row
            ≤ tile_number self.now.width self.now.col self.now.row + self.now.repeat)) }
    {
        let before = tile_row * tiles_along(self.width) as u64;
        let first = self.first();
        let last = first + self.repeat as u64;
        Span {
            start: (first.saturating_sub(before) * TILE) as usize,
            end: ((last + 1).saturating_sub(before) * TILE) as usize,
        }
    }
}

impl Paint for TileRun<'_> {
    ghost bounds = { λ t.
        clipped (tiles_rect t.width t.col t.row t.repeat) (canvas_rect t.width t.height) };

    ghost change = { λ t x y old.
        if is_in (canvas_rect t.width t.height) x y
        then tile_changed t.width t.height t.col t.row t.repeat t.content.now x y old
        else old };

    fn bounds(&self) -> Rect {
        self.rect().clipped(Rect::canvas(self.width, self.height))
    }

    fn paint_row(&self, place: Place, row: &mut [Pixel]) {
        let (x, y) = (place.x as usize, place.y as usize);
        let columns = self.columns(y as u64 / TILE).part(x, row.len());
        let part = &mut row[columns.start..columns.end];
        put_content(self.content, x + columns.start, y, part);
    }
}
