//! Laws of scripts over links. Each function does nothing but call others: its contract is the law.

ghost use Rattle.std.specs.Prelude.{◌≡◌, ℕ, List};
ghost use Rattle.dp_lines.specs.declared.run_end.RunEnd.{RunEnd};
ghost use Rattle.dp_joining.specs.Leaves.{BeginsDue, JoinLeaves, Traffic, WhereKnown};
ghost use Rattle.dp_joining.specs.Outcomes.{JoinComesTo, JoinOutcome};

use dp_entries::{Standing, each_input_ends, one_reading};
use dp_frame::one_first_frame;
use dp_join_link::JoinStanding;
use dp_lines::{StepRule, further_step, one_end, whole_lines};
use dp_schedule::one_join_action;

/// The lines of a script, for laws of lines.
struct ScriptLines;

impl StepRule for ScriptLines {
    ghost use Rattle.dp_joining.specs.Outcomes.{IsJoinStep};

    ghost is_step = { IsJoinStep };
}

/// For a client of this name a script and a link come to at most one outcome: so what is printed,
/// what is written and how the run ends are one function of the three.
pub fn one_outcome()
    ensures { (name input link : List ℕ) (outcome other : JoinOutcome)
        → JoinComesTo name input link outcome → JoinComesTo name input link other
        → outcome ≡ other }
{
    one_first_frame();
    one_join_action();
    one_end::<ScriptLines>();
    one_reading::<JoinStanding>();
    JoinStanding::one_standing();
}

/// However a run over a link ends, what was printed and what was written are prefixes of what the
/// script and the link come to. No more was drawn than is due.
pub fn begun_is_due()
    ensures { (name : List ℕ) (t : Traffic) (end : RunEnd) → JoinLeaves name t end
        → WhereKnown t (BeginsDue name t) }
{
    one_first_frame();
    one_join_action();
    one_end::<ScriptLines>();
    one_reading::<JoinStanding>();
    JoinStanding::one_standing();
    whole_lines();
}

/// It can't be that a script and a link come to no outcome.
pub fn each_outcome()
    ensures { (name input link : List ℕ)
        → ¬ ((outcome : JoinOutcome) → ¬ JoinComesTo name input link outcome) }
{
    further_step::<ScriptLines>();
    each_input_ends::<JoinStanding>();
}
