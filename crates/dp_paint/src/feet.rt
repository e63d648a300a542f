//! The tiles that a command may change.

ghost use Rattle.std.specs.Prelude.{◌≡◌, ◌-◌, ◌*◌, ◌/◌, ◌<◌, ◌≤◌, ℕ, pos, true, Some, max};
ghost use Rattle.dp_pixels.specs.Feet.{foot, is_in_foot, squares_of_foot};
ghost use Rattle.dp_tile.specs.Areas.{is_in_cells};
ghost use Rattle.dp_shift.specs.Grids.{IsOnGreatest};
ghost use Rattle.dp_paint.specs.Painting.{ChangesPixels, IsPainting, foot_area};

use dp_msg_draw::Draw;
use dp_pixels::{Footprint, Rect, foot};
use dp_shift::{cells_in, move_rects};
use dp_tile::CellArea;

/// The rectangle of the foot of a command.
#[inline(always)]
fn foot_rect(command: &Draw) -> Rect
    requires { IsPainting command.now }
    ensures foot { foot_area (foot command.now) ≡ Some result }
    ensures within { IsOnGreatest result }
{
    match foot(command) {
        Footprint::Area { rect, .. } => rect,
        _ => unreachable!(),
    }
}

/// The cells of a grid of `cols` by `rows` tiles that a command may change.
#[inline(always)]
pub(crate) fn cells_of(command: &Draw, cols: u32, rows: u32) -> CellArea
    requires { IsPainting command.now }
    ensures across { result.left ≤ result.right }
    ensures down { result.top ≤ result.bottom }
    ensures cols { result.right ≤ cols }
    ensures rows { result.bottom ≤ rows }
    ensures few { (result.bottom - result.top) * (result.right - result.left)
        ≤ squares_of_foot (foot command.now) }
    ensures all { (x y : ℕ) → x < cols * 64 → y < rows * 64
        → is_in_foot (foot command.now) (pos x) (pos y) ≡ true
        → is_in_cells result (x / 64) (y / 64) ≡ true }
{
    cells_in(foot_rect(command), cols, rows)
}

/// The least area that has both.
fn joined(a: CellArea, b: CellArea) -> CellArea
    ensures left { (result.left ≤ a.left) × (result.left ≤ b.left) }
    ensures right { (a.right ≤ result.right) × (b.right ≤ result.right) }
    ensures top { (result.top ≤ a.top) × (result.top ≤ b.top) }
    ensures bottom { (a.bottom ≤ result.bottom) × (b.bottom ≤ result.bottom) }
    ensures one_right { result.right ≤ max a.right b.right }
    ensures one_bottom { result.bottom ≤ max a.bottom b.bottom }
{
    CellArea {
        left: a.left.min(b.left),
        right: a.right.max(b.right),
        top: a.top.min(b.top),
        bottom: a.bottom.max(b.bottom),
    }
}

/// An area of a grid of `cols` by `rows` tiles that has all cells of the foot of a command.
#[inline(always)]
pub(crate) fn foot_cells(command: &Draw, cols: u32, rows: u32) -> CellArea
    requires { ChangesPixels command.now }
    ensures across { result.left ≤ result.right }
    ensures down { result.top ≤ result.bottom }
    ensures cols { result.right ≤ cols }
    ensures rows { result.bottom ≤ rows }
    ensures all { (x y : ℕ) → x < cols * 64 → y < rows * 64
        → is_in_foot (foot command.now) (pos x) (pos y) ≡ true
        → is_in_cells result (x / 64) (y / 64) ≡ true }
{
    match command {
        Draw::MoveRect { .. } => {
            let (from, to) = move_rects(command);
            joined(cells_in(from, cols, rows), cells_in(to, cols, rows))
        }
        _ => cells_of(command, cols, rows),
    }
}
