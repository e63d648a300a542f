//! The cells of a grid that have places of a rectangle.

ghost use Rattle.std.specs.Prelude.{◌≡◌, ◌+◌, ◌-◌, ◌*◌, ◌/◌, ◌<◌, ◌≤◌, ℕ, pos, ◌≤ℤ◌, ◌<ℤ◌, true};
ghost use Rattle.dp_pixels.specs.Rectangles.{is_in};
ghost use Rattle.dp_pixels.specs.Feet.{on_greatest, squares_of, stretches};
ghost use Rattle.dp_tile.specs.Areas.{is_in_cells};
ghost use Rattle.dp_shift.specs.Grids.{IsOnGreatest};

use dp_pixels::Rect;
use dp_tile::CellArea;

/// The places of a rectangle that are on the greatest canvas.
pub(crate) fn on_greatest(rect: Rect) -> Rect
    ensures value { result ≡ on_greatest rect }
    ensures within { IsOnGreatest result }
{
    rect.on_greatest()
}

/// Of `count` tiles along a side, those that have one of the places from one on before another: the
/// first of them, and the first after them.
#[inline(always)]
fn tiles_between(from: i64, to: i64, count: u32) -> (u32, u32)
    requires from { pos 0 ≤ℤ from }
    requires to { to ≤ℤ pos 4096 }
    ensures order { result.0 ≤ result.1 }
    ensures within { result.1 ≤ count }
    ensures few { result.1 - result.0 ≤ stretches from to }
    ensures all { (x : ℕ) → x < count * 64 → from ≤ℤ pos x → pos x <ℤ to →
        (result.0 ≤ x / 64) × (x / 64 < result.1) }
{
    if from >= to {
        return (0, 0);
    }
    let end = ((to as u32 + 63) / 64).min(count);
    let start = (from as u32 / 64).min(end);
    (start, end)
}

/// The cells of a grid of `cols` by `rows` tiles that have places of a rectangle.
#[inline(always)]
pub fn cells_in(area: Rect, cols: u32, rows: u32) -> CellArea
    requires { IsOnGreatest area }
    ensures across { result.left ≤ result.right }
    ensures down { result.top ≤ result.bottom }
    ensures cols { result.right ≤ cols }
    ensures rows { result.bottom ≤ rows }
    ensures few { (result.bottom - result.top) * (result.right - result.left) ≤ squares_of area }
    ensures all { (x y : ℕ) → x < cols * 64 → y < rows * 64 → is_in area (pos x) (pos y) ≡ true
        → is_in_cells result (x / 64) (y / 64) ≡ true }
{
    let (left, right) = tiles_between(area.x0, area.x1, cols);
    let (top, bottom) = tiles_between(area.y0, area.y1, rows);
    CellArea {
        left,
        right,
        top,
        bottom,
    }
}
