//! How an event is kept in all that stands beside the journal.

ghost use Rattle.std.specs.Prelude.{◌≡◌, ◌∷◌, ◌++◌, [], length};
ghost use Rattle.dp_epochs.specs.State.{State, after_event};
ghost use Rattle.dp_history.specs.Made.{AreMadeOf};
ghost use Rattle.dp_commit.specs.Keeping.{MayBeKept, HasRoom};
ghost use Rattle.dp_commit.specs.Marks.{quiet_after};
ghost use Rattle.dp_commit.specs.Tables.{AreOf, seen_in};

use crate::connections::Roster;
use crate::live::LiveEpoch;
use crate::sending::Sending;
use crate::supply::Supply;
use dp_epochs::{Effect, Event, Place, effects_are_made, joins_stay};

/// An event that may be kept: what it does, and what it places beside what it says.
#[derive(Drop)]
pub struct Made {
    pub event: Event,
    pub effect: Effect,
    pub supply: Supply,
}

/// Keeps an event, whose payload has this size, beside the journal, and gives it back. It takes no
/// memory.
pub fn keep_beside(
    journal: &[Event],
    roster: &mut Roster,
    sending: &mut Sending,
    live: &mut LiveEpoch,
    made: Made,
    size: u64,
) -> Event
    requires may { (s : State)
        × MayBeKept s journal.now roster.old sending.old live.old made size }
    requires room { HasRoom journal.now roster.old sending.old live.old size }
    ensures event { result ≡ made.event }
    ensures quiet { roster.new.quiet.items ≡ quiet_after made.effect roster.old.quiet.items }
    ensures flags { length roster.old.quiet.items ≡ length roster.old.connections.items
        → length roster.new.quiet.items ≡ length roster.new.connections.items }
    ensures of { (s : State) → MayBeKept s journal.now roster.old sending.old live.old made size
        → AreOf (after_event s made.event)
        (seen_in (journal.now ++ made.event ∷ []) roster.new sending.new live.new) }
    ensures frames { (s : State)
        → MayBeKept s journal.now roster.old sending.old live.old made size
        → AreMadeOf live.new.frames (after_event s made.event).live }
{
    joins_stay();
    effects_are_made();
    let Made {
        event,
        effect,
        supply,
    } = made;
    let n = journal.len() as u32;
    let end = live.history.len();
    let here = Place {
        epoch: live.number,
        index: end as u32,
    };
    let from = sending.start(end);
    let event = live.keep(journal, event, effect, n, from, supply);
    sending.note(&event, effect, n, size);
    roster.note(effect, here, n);
    event
}
