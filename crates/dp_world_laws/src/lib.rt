//! Laws of the worlds of lines, each the contract of a function that does nothing but call others.
#![tactic(auto)]

ghost use Rattle.std.specs.Prelude.{◌≢◌, ℕ, List, IfSome};
ghost use Rattle.dp_client.specs.Client.{own_of};
ghost use Rattle.dp_fork.specs.declared.own.Own.TheVariants.{Lost};
ghost use Rattle.dp_lines.specs.declared.line.Line.{Line};
ghost use Rattle.dp_schedule.specs.declared.action.Action.{Action};
ghost use Rattle.dp_sim.specs.World.{world_after, participant_of};
ghost use Rattle.dp_sim_laws.specs.OwnSteps.{next_of};
ghost use Rattle.dp_world_laws.specs.Unended.{AskUnended, HasPlainFork};

use dp_sim_laws::{forks_are_plain, no_fork_is_lost};
use dp_world::lines_say_no_control;

/// After lines in which no event was answered Ended, a client's fork is its sends without the first
/// n. Here n is the number of own answers that it has taken.
pub fn forks_of_lines_are_plain()
    ensures { (lines : List Line) (actions : List Action) (number : ℕ)
        → AskUnended lines actions → HasPlainFork actions number }
{
    forks_are_plain();
    lines_say_no_control();
}

/// After such lines no client's next entry loses its fork.
pub fn no_fork_of_lines_is_lost()
    ensures { (lines : List Line) (actions : List Action) (number : ℕ)
        → AskUnended lines actions
        → IfSome (participant_of (world_after actions) number) (λ participant.
        IfSome (next_of (world_after actions) participant)
        (λ entry. own_of participant.state entry ≢ Lost)) }
{
    no_fork_is_lost();
    lines_say_no_control();
}
