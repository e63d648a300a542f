//! What a canvas of tiles shows at any places.

ghost use Rattle.std.specs.Prelude.{◌≡◌, ℕ, ◌+◌, ◌<◌, ◌≤◌, ◌^◌, ◌<ℤ◌, ◌≤ℤ◌, ◌+ℤ◌, pos, true};
ghost use Rattle.std.specs.Prelude.{length, replicate, unsigned_abs};
ghost use Rattle.dp_blend.specs.Color.{clear};
ghost use Rattle.dp_pixels.specs.Rectangles.{rect_at};
ghost use Rattle.dp_tile.specs.Tiles.{cell_at, tile_of};
ghost use Rattle.dp_shift.specs.Grids.{IsGridOf};
ghost use Rattle.dp_shift.specs.Reading.{row_from, shown};

use crate::cells::{cells_in, on_greatest};
use dp_blend::Pixel;
use dp_pixels::Rect;
use dp_tile::{CellArea, Grid};

/// A grid, as it is read: the canvas of this width and height that its tiles show.
#[derive(Clone, Copy)]
pub(crate) struct Shown<'a> {
    pub grid: &'a Grid,
    pub width: u32,
    pub height: u32,
    ghost of: { IsGridOf width height grid.now },
}

/// How many of `len` numbers, from x on, are below a limit.
pub(crate) fn count_below(limit: i64, x: i64, len: usize) -> usize
    requires limit { unsigned_abs limit < 2 ^ 40 }
    requires x { unsigned_abs x < 2 ^ 41 }
    ensures within { result ≤ len }
    ensures below { (i : ℕ) → i < len → i < result → (x +ℤ pos i) <ℤ limit }
    ensures rest { (i : ℕ) → i < len → result ≤ i → limit ≤ℤ (x +ℤ pos i) }
{
    if limit <= x {
        0
    } else {
        ((limit - x) as usize).min(len)
    }
}

/// The number that is `count` after x.
fn number_after(x: i64, count: usize) -> u32
    requires x { unsigned_abs x < 2 ^ 40 }
    requires count { count ≤ 4096 }
    requires from { pos 0 ≤ℤ (x +ℤ pos count) }
    requires to { (x +ℤ pos count) <ℤ pos (2 ^ 32) }
    ensures { pos result ≡ x +ℤ pos count }
{
    (x + count as i64) as u32
}

/// The place that is `count` after x.
pub(crate) fn place_after(x: i64, count: usize) -> i64
    requires x { unsigned_abs x < 2 ^ 40 }
    requires count { count ≤ 4096 }
    ensures value { result ≡ x +ℤ pos count }
    ensures near { unsigned_abs result ≤ unsigned_abs x + 4096 }
{
    x + count as i64
}

/// Clears a row.
pub(crate) fn clear_row(row: &mut [Pixel])
    ensures { row.new ≡ replicate (length row.old) clear }
{
    row.fill(Pixel::CLEAR);
}

/// The square of 64 by 64 places at a place.
fn tile_square(x: i64, y: i64) -> Rect
    requires x { unsigned_abs x < 2 ^ 40 }
    requires y { unsigned_abs y < 2 ^ 40 }
    ensures { result ≡ rect_at x y 64 64 }
{
    Rect {
        x0: x,
        y0: y,
        x1: x + 64,
        y1: y + 64,
    }
}

impl Shown<'_> {
    /// Puts the pixels of a row that begin at a place. They are clear past the canvas.
    pub(crate) fn read(self, x: i64, y: i64, row: &mut [Pixel])
        requires x { unsigned_abs x < 2 ^ 40 }
        requires y { unsigned_abs y < 2 ^ 40 }
        requires len { length row.old ≤ 4096 }
        ensures { row.new ≡ row_from (shown self.entry.width self.entry.height self.entry.grid.now)
            x y (length row.old) }
    {
        clear_row(row);
        if y < 0 || y >= self.height as i64 {
            return;
        }
        let start = count_below(0, x, row.len());
        let end = count_below(self.width as i64, x, row.len());
        if start < end {
            let (left, top) = (number_after(x, start), number_after(y, 0));
            self.grid.copy_part(left, top, &mut row[start..end]);
        }
    }

    /// Whether no cell of a row from one column on before another has a tile.
    fn has_no_tile(self, row: u32, left: u32, right: u32) -> bool
        requires row { row < self.grid.now.rows }
        requires right { right ≤ self.grid.now.cols }
        ensures { result ≡ true → (col : ℕ) → left ≤ col → col < right
            → cell_at self.entry.grid.now col row ≡ tile_of clear }
    {
        for col in left..right {
            if self.grid.tile(col, row).is_some() {
                return false;
            }
        }
        true
    }

    /// Whether no cell of an area has a tile.
    fn has_none_in(self, area: CellArea) -> bool
        requires cols { area.right ≤ self.grid.now.cols }
        requires rows { area.bottom ≤ self.grid.now.rows }
        ensures { result ≡ true → (col row : ℕ) → area.left ≤ col → col < area.right
            → area.top ≤ row → row < area.bottom
            → cell_at self.entry.grid.now col row ≡ tile_of clear }
    {
        for row in area.top..area.bottom {
            if !self.has_no_tile(row, area.left, area.right) {
                return false;
            }
        }
        true
    }

    /// Whether it has no tile of the square of 64 by 64 places at a place. It is clear there then.
    pub(crate) fn is_clear(self, x: i64, y: i64) -> bool
        requires x { unsigned_abs x < 2 ^ 40 }
        requires y { unsigned_abs y < 2 ^ 40 }
        ensures { result ≡ true → (i j : ℕ) → i < 64 → j < 64
            → shown self.entry.width self.entry.height self.entry.grid.now
            (x +ℤ pos i) (y +ℤ pos j) ≡ clear }
    {
        let square = tile_square(x, y);
        let area = cells_in(on_greatest(square), self.grid.cols(), self.grid.rows());
        self.has_none_in(area)
    }
}
