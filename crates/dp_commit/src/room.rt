//! Memory that is made ready before an event is kept.

ghost use Rattle.std.specs.Prelude.{◌≡◌, ◌+◌, ◌<◌, ◌≤◌, OnOk, vec_len, vec_capacity};
ghost use Rattle.dp_commit.specs.Room.{SameRoster, SameSending, SameLive};

use crate::connections::Roster;
use crate::live::LiveEpoch;
use crate::sending::Sending;
use dp_epochs::{Event, ShutAt};
use std::alloc::AllocError;

/// Makes the memory ready that any one event needs.
pub fn reserve(
    journal: &mut Vec<Event>,
    shut: &mut Vec<ShutAt>,
    roster: &mut Roster,
    sending: &mut Sending,
    live: &mut LiveEpoch,
) -> Result<(), AllocError>
    ensures journal { journal.new.items ≡ journal.old.items }
    ensures shut { shut.new.items ≡ shut.old.items }
    ensures roster { SameRoster roster.old roster.new }
    ensures sending { SameSending sending.old sending.new }
    ensures live { SameLive live.old live.new }
    ensures journal_room { OnOk result (vec_len journal.new < vec_capacity journal.new) }
    ensures shut_room { OnOk result (vec_len shut.new < vec_capacity shut.new) }
    ensures connections_room { OnOk result (vec_len roster.new.connections
        < vec_capacity roster.new.connections) }
    ensures quiet_room { OnOk result (vec_len roster.new.quiet < vec_capacity roster.new.quiet) }
    ensures parts_room { OnOk result (vec_len sending.new.parts
        < vec_capacity sending.new.parts) }
    ensures history_room { OnOk result (vec_len live.new.history + 2
        ≤ vec_capacity live.new.history) }
    ensures rights_room { OnOk result (2 ≤ live.new.rights.room) }
{
    journal.reserve(1)?;
    shut.reserve(1)?;
    roster.reserve()?;
    sending.reserve()?;
    live.reserve()
}
