//! Which commands wait on a layer.

ghost use Rattle.std.specs.Prelude.{◌≡◌, ◌≤◌, true, IfSome};
ghost use Rattle.dp_ops.specs.Ops.{MayWait};
ghost use Rattle.dp_paint.specs.Painting.{IsPainting};

use dp_msg_draw::Draw;
use dp_tile::CellArea;

/// The most tiles that a fill which waits may change.
const FEW_TILES: u32 = 64;

/// Whether a command waits, whose foot has the cells of an area: a fill of few of them, or dabs.
#[inline(always)]
pub(crate) fn may_wait(command: &Draw, area: CellArea) -> bool
    requires across { area.left ≤ area.right }
    requires down { area.top ≤ area.bottom }
    requires cols { area.right ≤ 64 }
    requires rows { area.bottom ≤ 64 }
    ensures { result ≡ true → MayWait command.now }
{
    match command {
        Draw::FillRect { .. } => {
            (area.right - area.left) * (area.bottom - area.top) <= FEW_TILES
        }
        Draw::DabsRound { .. } | Draw::DabsSquare { .. } => true,
        _ => false,
    }
}

/// How many colours an image has, which waits by its number; nothing of another command.
pub(crate) fn colors_of(command: &Draw) -> Option<usize>
    ensures { IfSome result (λ count. IsPainting command.now) }
{
    match command {
        Draw::PutImage { colors, .. } => Some(colors.as_slice().len()),
        _ => None,
    }
}
