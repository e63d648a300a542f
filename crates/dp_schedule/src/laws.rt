//! Laws of schedules, each the contract of a function that does nothing but call others.

ghost use Rattle.std.specs.Prelude.{◌≡◌, ◌≤◌, ℕ, List};
ghost use Rattle.dp_messages.specs.Messages.{kind_of};
ghost use Rattle.dp_messages.specs.declared.message.Msg.{Msg};
ghost use Rattle.dp_schedule.specs.declared.action.Action.{Action};
ghost use Rattle.dp_schedule.specs.declared.join_action.JoinAction.{JoinAction};
ghost use Rattle.dp_schedule.specs.JoinGrammar.{Asks};
ghost use Rattle.dp_schedule.specs.LineGrammar.{Parses, MaySay};

use dp_lines::one_number;
use dp_messages::one_message;

/// A line asks for at most one thing, and what it says is no control message.
pub fn one_action()
    ensures one { (line : List ℕ) (action other : Action) → Parses line action → Parses line other
        → action ≡ other }
    ensures high { (bytes : List ℕ) (m : Msg) → MaySay bytes m → 32 ≤ kind_of m }
{
    one_number();
    one_message();
}

/// A line of a script of `join` asks for at most one thing.
pub fn one_join_action()
    ensures { (line : List ℕ) (action other : JoinAction) → Asks line action → Asks line other
        → action ≡ other }
{
    one_number();
    one_message();
}
