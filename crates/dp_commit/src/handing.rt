//! Events that are handed on, or let go here. So no user proves the drop of an event.

ghost use Rattle.std.specs.Prelude.{◌≡◌, ◌↔◌, true, is_ok, IfOk, MatchOption, Ok};
ghost use Rattle.dp_epochs.specs.Resumed.{NamesGiven};
ghost use Rattle.dp_epochs.specs.State.{State};

use crate::connections::connection;
use crate::keeping::Made;
use crate::supply::Supply;
use dp_epochs::{Connection, Effect, Event};
use std::alloc::AllocError;

/// The event with what was made ahead of it, if that could be made.
#[inline(always)]
pub fn with_ahead(
    event: Event,
    ahead: Result<(Effect, Supply), AllocError>,
) -> Result<Made, AllocError>
    ensures event { IfOk result (λ made. made.event ≡ event) }
    ensures ahead { IfOk result (λ made. ahead ≡ Ok (made.effect, made.supply)) }
    ensures done { is_ok result ≡ is_ok ahead }
{
    match ahead {
        Ok((effect, supply)) => Ok(Made {
            event,
            effect,
            supply,
        }),
        Err(error) => {
            drop(event);
            Err(error)
        }
    }
}

/// The event, if what came before it was done.
pub fn after_done(done: Result<(), AllocError>, event: Event) -> Result<Event, AllocError>
    ensures event { IfOk result (λ found. found ≡ event) }
    ensures done { is_ok result ≡ is_ok done }
{
    match done {
        Ok(()) => Ok(event),
        Err(error) => {
            drop(event);
            Err(error)
        }
    }
}

/// Whether the event names no connection, or one of these, which were given out.
fn names_given(connections: &[Connection], event: &Event) -> bool
    ensures { (s : State) → connections.now ≡ s.connections
        → (result ≡ true) ↔ NamesGiven s event.now }
{
    match event {
        Event::Open { .. } => true,
        Event::Say { conn, .. } => connection(connections, *conn).is_some(),
        Event::Close { conn } => connection(connections, *conn).is_some(),
    }
}

/// The event, if it names no connection, or one of these, which were given out.
pub fn if_given(connections: &[Connection], event: Event) -> Option<Event>
    ensures { (s : State) → connections.now ≡ s.connections
        → MatchOption result (NamesGiven s event → ⊥)
        (λ found. (found ≡ event) × NamesGiven s event) }
{
    if names_given(connections, &event) {
        Some(event)
    } else {
        drop(event);
        None
    }
}
