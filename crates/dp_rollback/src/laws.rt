//! Laws of the definitions. The functions do nothing: their contracts are the laws.

ghost use Rattle.dp_rollback.specs.Due.{OwnCommandIsDue, FewAreDue};
ghost use Rattle.dp_rollback.specs.Replays.{ReplayGoesOn};

use dp_savepoints::stroke_laws;

/// An act that moves no group may draw its own command alone. One that moves a group draws at most
/// as many commands as there are acts from the point of that group on.
pub fn few_are_due<Op>()
    ensures unmoved { OwnCommandIsDue Op }
    ensures moved { FewAreDue Op }
{}

/// With one more act, which moves no group, the replay has the command of the act drawn, if it
/// is one.
pub fn replay_goes_on<B, Op>()
    ensures { ReplayGoesOn B Op }
{
    stroke_laws::<Op>();
}
