//! Groups that an act moves.

ghost use Rattle.std.specs.Prelude.{◌≡◌, ◌<◌, ◌≤◌, true, IfSome};
ghost use Rattle.dp_board.specs.Moves.{is_draw};
ghost use Rattle.dp_board.specs.Strokes.{is_eligible};
ghost use Rattle.dp_board.specs.Table.{oldest_in};
ghost use Rattle.dp_savepoints.specs.Marks.{mark_in};

use crate::kept::Mark;
use dp_board::{Act, StrokeTable, UserAct, concerned};

/// Whether an act is a command.
pub fn is_draw<Op>(act: &Act<Op>) -> bool
    ensures { result ≡ is_draw act.now }
{
    matches!(act, Act::Draw(_))
}

/// The mark of an act, if it moves a group.
#[tactic(auto, using(crate::proofs::RunLemmas::moved_is_eligible))]
pub fn mark_of<Op>(table: &StrokeTable, act: &UserAct<Op>) -> Option<Mark>
    ensures value { result ≡ mark_in table.now act.now }
    ensures among { IfSome result (λ mark. is_eligible table.now.window mark.group ≡ true) }
    ensures reach { IfSome result (λ mark. oldest_in table.now ≤ mark.group) }
    ensures before { IfSome result (λ mark. mark.group < table.now.position) }
{
    let group = table.moved(act)?;
    Some(Mark {
        user: concerned(act),
        group,
        drawn: matches!(act.act, Act::Redo { .. }),
    })
}
