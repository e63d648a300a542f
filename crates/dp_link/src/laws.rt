//! A law of links, the contract of a function that does nothing.

ghost use Rattle.std.specs.Prelude.{ℕ, List, Ok};
ghost use Rattle.std.specs.declared.option.Option.{Option};
ghost use mathlib.Core.List.{IsPrefix};
ghost use Rattle.dp_split.specs.Stream.{Stream};
ghost use Rattle.dp_session_laws.specs.Logs.{HasOpened};
ghost use Rattle.dp_link.specs.declared.ends.Greeting.{Greeting as Greeted};
ghost use Rattle.dp_link.specs.Acts.{SeatView};
ghost use Rattle.dp_session_laws.specs.Logs.{LogEntry};
ghost use Rattle.dp_link.specs.Hello.{Greets};

use dp_any_session::{AnySession, SessionCore};
use dp_hall::{Seat, seats_are_sound};

/// Who was greeted was opened in the log that the seat has seen, and so in each longer one: its
/// entries may be sent.
pub fn greetings_are_seen<C: SessionCore>(seat: &Seat<AnySession<C>>)
    ensures greeted { (before : SeatView) (left unread held taken : Option (List ℕ))
        (stream : Stream) (greeting : Greeted)
        → Greets before seat.now.view left unread held taken stream (Ok greeting)
        → HasOpened seat.now.view.seen greeting.conn greeting.user greeting.epoch greeting.at }
    ensures stays { (log longer : List LogEntry) (conn user epoch at : ℕ) → IsPrefix log longer
        → HasOpened log conn user epoch at → HasOpened longer conn user epoch at }
{
    seats_are_sound(seat);
}
