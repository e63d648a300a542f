//! Laws of schedules in bytes, each the contract of a function that does nothing but call others.

ghost use Rattle.std.specs.Prelude.{◌≡◌, ℕ, List, Some};
ghost use Rattle.std.specs.declared.option.Option.{Option};
ghost use Rattle.std.specs.List.{All};
ghost use Rattle.dp_lines.specs.declared.line.Line.{Line};
ghost use Rattle.dp_lines.specs.declared.run_end.RunEnd.{RunEnd};
ghost use Rattle.dp_lines.specs.Ends.{LinesEnd};
ghost use Rattle.dp_schedule.specs.declared.action.Action.{Action};
ghost use Rattle.dp_line_machine.specs.Counters.{Counters};
ghost use Rattle.dp_sim.specs.Invariant.{SaysNoControl};
ghost use Rattle.dp_world.specs.RunEnds.{DrawsByDue, GrowsByDue, WorldLeaves};
ghost use Rattle.dp_world_lines.specs.Schedule.{AskFor, WorldComesTo};

use dp_lines::{StepRule, further_step, one_end, whole_lines};
use dp_schedule::one_action;

/// The lines of a schedule, for laws of lines.
struct ScheduleLines;

impl StepRule for ScheduleLines {
    ghost use Rattle.dp_world_lines.specs.Schedule.{IsStep};

    ghost is_step = { IsStep };
}

/// An input comes to at most one end, with one list of lines that are done and one of what they ask
/// for.
pub fn one_schedule()
    ensures actions { (bytes : List ℕ) (done others : List Line) (actions more : List Action)
        (end last : LinesEnd)
        → WorldComesTo bytes done actions end → WorldComesTo bytes others more last
        → actions ≡ more }
    ensures end { (bytes : List ℕ) (done others : List Line) (actions more : List Action)
        (end last : LinesEnd)
        → WorldComesTo bytes done actions end → WorldComesTo bytes others more last → end ≡ last }
{
    one_end::<ScheduleLines>();
    one_action();
}

/// It can't be that an input comes to no end.
pub fn every_schedule()
    ensures { (bytes : List ℕ)
        → ¬ ((done : List Line) (actions : List Action) (end : LinesEnd)
        → ¬ WorldComesTo bytes done actions end) }
{
    further_step::<ScheduleLines>();
}

/// However a run ends, the output grew by a prefix of the report that the input is due. No more was
/// drawn than its schedule may draw.
pub fn reports_are_due()
    ensures report { (bytes : List ℕ) (left old now : Option (List ℕ)) (counters : Counters)
        (end : RunEnd)
        → WorldLeaves (Some bytes) left old now counters end → GrowsByDue bytes old now }
    ensures draws { (bytes : List ℕ) (left old now : Option (List ℕ)) (counters : Counters)
        (end : RunEnd)
        → WorldLeaves (Some bytes) left old now counters end → DrawsByDue bytes counters }
{
    further_step::<ScheduleLines>();
    one_action();
    whole_lines();
}

/// Lines ask for no control message: they can't be said.
pub fn lines_say_no_control()
    ensures { (lines : List Line) (actions : List Action)
        → AskFor lines actions → All SaysNoControl actions }
{
    one_action();
}
