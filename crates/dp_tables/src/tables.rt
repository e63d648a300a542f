//! What a session keeps.

ghost use Rattle.std.specs.Prelude.{◌≡◌, true, ◌+◌, ◌&&◌, [], length, nat_lt, nat_le, IfOk, OnOk};
ghost use Rattle.dp_acl.specs.Permitted.{permitted};
ghost use Rattle.dp_epochs.specs.Rows.{row_bytes, event_limit, byte_limit};
ghost use Rattle.dp_epochs.specs.State.{connection_of, open_connection};
ghost use Rattle.dp_epochs.specs.State.{next_open, here};
ghost use Rattle.dp_tables.specs.SessionLog.{state_in};

use dp_commit::{
    LiveEpoch, Roster, Sending, connection, mark, next_open, open_connection, reserve,
};
use dp_epochs::{Connection, Event, Place, ShutAt, histories_are_short};
use dp_messages::Msg;
use std::alloc::{AllocError, Global};
use std::marker::Model;

/// The most events of a journal.
const EVENT_LIMIT: usize = 1 << 24;

/// The most bytes of the rows of a journal.
const BYTE_LIMIT: u64 = 1 << 30;

/// The tables of a session: the state to which the events and closings led that came so far.
/// Contracts see these, and whether memory is ready for one more event.
#[derive(Drop)]
pub struct Tables {
    pub(crate) journal: Vec<Event>,
    pub(crate) row_bytes: u64,
    pub(crate) shut: Vec<ShutAt>,
    pub(crate) roster: Roster,
    pub(crate) sending: Sending,
    pub(crate) live: LiveEpoch,
}

impl Model for Tables {
    ghost use Rattle.dp_tables.specs.SessionLog.{SessionLog};

    ghost Value = { SessionLog };

    ghost use Rattle.dp_tables.specs.Inside.{ledger_of, AreTables};

    ghost view = { ledger_of };

    ghost invariant = { AreTables };
}

impl Tables {
    /// The tables of a session to which nothing has come.
    pub fn new(alloc: Global) -> Result<Tables, AllocError>
        ensures journal { IfOk result (λ tables. tables.journal ≡ []) }
        ensures shut { IfOk result (λ tables. tables.shut ≡ []) }
        ensures quiet { IfOk result (λ tables. tables.quiet ≡ []) }
    {
        let live = LiveEpoch::new(alloc, mark(0, 0))?;
        Ok(Tables {
            journal: Vec::new(alloc),
            row_bytes: 0,
            shut: Vec::new(alloc),
            roster: Roster::new(alloc),
            sending: Sending::new(alloc),
            live,
        })
    }

    /// The journal, and the closings that were refused.
    pub fn into_parts(self) -> (Vec<Event>, Vec<ShutAt>)
        ensures journal { result.0.items ≡ self.journal }
        ensures shut { result.1.items ≡ self.shut }
    {
        let Tables {
            journal,
            shut,
            roster,
            sending,
            live,
            ..
        } = self;
        drop(roster);
        drop(sending);
        drop(live);
        (journal, shut)
    }

    pub(crate) fn allocator(&self) -> Global {
        *self.journal.allocator()
    }

    /// Where the next entry stands.
    pub(crate) fn here(&self) -> Place
        ensures { result ≡ here (state_in self.now) }
    {
        histories_are_short();
        Place {
            epoch: self.live.number,
            index: self.live.history.len() as u32,
        }
    }

    /// How many events were kept.
    pub fn events(&self) -> u64
        ensures { result ≡ length self.now.journal }
    {
        self.journal.len() as u64
    }

    /// Whether there is room for an event whose row has this length.
    pub(crate) fn has_room(&self, row_length: usize) -> bool
        ensures { result ≡ (nat_lt (length self.now.journal) event_limit
            && nat_le (row_bytes self.now.journal + row_length) byte_limit) }
    {
        self.journal.len() < EVENT_LIMIT && row_length as u64 <= BYTE_LIMIT - self.row_bytes
    }

    /// The connection of a number, if it was given out.
    pub(crate) fn connection(&self, conn: u32) -> Option<Connection>
        ensures { result ≡ connection_of (state_in self.now) conn }
    {
        connection(&self.roster.connections, conn)
    }

    /// The connection of a number, if it was given out and is open.
    pub(crate) fn open_connection(&self, conn: u32) -> Option<Connection>
        ensures { result ≡ open_connection (state_in self.now) conn }
    {
        open_connection(&self.roster.connections, conn)
    }

    /// The least number above this one of a connection that is open. It takes no memory.
    pub fn next_open(&self, after: u32) -> Option<u32>
        ensures { result ≡ next_open (state_in self.now).connections after }
    {
        next_open(&self.roster.connections, after)
    }

    /// Whether the user may say the message now.
    pub(crate) fn permits(&self, user: u8, msg: &Msg) -> bool
        ensures { result ≡ permitted (state_in self.now).live user msg.now }
    {
        self.live.rights.permits(user, msg)
    }

    /// Makes the memory ready that any one event needs.
    pub fn make_room(&mut self) -> Result<(), AllocError>
        ensures same { self.new ≡ record self.old { room = self.new.room } }
        ensures room { OnOk result (self.new.room ≡ true) }
    {
        reserve(
            &mut self.journal,
            &mut self.shut,
            &mut self.roster,
            &mut self.sending,
            &mut self.live,
        )
    }
}
