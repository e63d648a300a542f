//! Which acts are commands that are drawn.

ghost use Rattle.std.specs.Prelude.{◌≡◌, length, map, IfOk};
ghost use Rattle.dp_board.specs.Flags.{drawn_flags};
ghost use Rattle.dp_board.specs.Joins.{is_join_drawn};

use crate::act::UserAct;
use crate::join::Join;
use crate::sorted::SortedGroups;
use crate::table::StrokeTable;
use std::alloc::{AllocError, Global};

/// What joined so is drawn, if `done` has the done groups of each user at the end.
fn is_drawn(done: &[SortedGroups], join: Join) -> bool
    requires { length done.now ≡ 256 }
    ensures { result ≡ is_join_drawn done.now join }
{
    match join {
        Join::NoCommand => false,
        Join::GroupZero => true,
        Join::InGroup { user, group } => done[usize::from(user)].contains(group),
    }
}

/// Whether what each act joined is drawn, if `done` has the done groups of each user at the end.
fn flags_of(alloc: Global, done: &[SortedGroups], joins: &[Join]) -> Result<Vec<bool>, AllocError>
    requires { length done.now ≡ 256 }
    ensures { IfOk result (λ flags. flags.items ≡ map (is_join_drawn done.now) joins.now) }
{
    joins
        .iter()
        .map(|join| is_drawn(done, *join))
        .collect(alloc)
}

/// For each act whether it is a command that is drawn at the end: one of group 0, or of a group
/// that is done then. A group is in reach of undo and redo while its point is among the last
/// `depth` points of all users. At one depth the time is in proportion to the number of acts, but
/// for the sorting of each user's groups.
pub fn drawn_flags<Op>(
    alloc: Global,
    depth: u32,
    acts: &[UserAct<Op>],
) -> Result<Vec<bool>, AllocError>
    ensures { IfOk result (λ flags. flags.items ≡ drawn_flags depth acts.now) }
{
    let (table, joins) = StrokeTable::read(alloc, depth, acts)?;
    let done = table.done(alloc)?;
    flags_of(alloc, &done, &joins)
}
