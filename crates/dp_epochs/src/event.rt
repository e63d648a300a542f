//! What comes to a session, and what it answers.

ghost use Rattle.std.specs.Prelude.{◌≡◌, IfOk};

use dp_frame::Octets;
use dp_lists::Listed;
use dp_messages::{Entry, Msg};
use std::alloc::AllocError;

/// What comes to a session.
#[derive(Debug, Drop)]
pub enum Event {
    /// A user asks to join.
    Open { name: Octets, registered: bool },
    /// A connection says a message.
    Say { conn: u32, msg: Msg },
    /// A connection ends.
    Close { conn: u32 },
}

impl Event {
    /// An equal event.
    pub fn copy(&self) -> Result<Event, AllocError>
        ensures { IfOk result (λ event. event ≡ self.now) }
    {
        Ok(match self {
            Event::Open { name, registered } => Event::Open {
                name: name.copy()?,
                registered: *registered,
            },
            Event::Say { conn, msg } => Event::Say {
                conn: *conn,
                msg: msg.copy()?,
            },
            Event::Close { conn } => Event::Close { conn: *conn },
        })
    }
}

/// What a session answers to an event.
#[derive(Clone, Copy, Debug, PartialEq, Eq)]
pub enum Reply {
    /// The user has joined, by this connection and under this id; the Join stands there.
    Opened {
        conn: u32,
        user: u8,
        epoch: u32,
        at: u32,
    },
    /// An entry was placed there.
    Placed {
        epoch: u32,
        at: u32,
    },
    /// The message was not permitted, or not now; Filtered was placed there instead.
    Filtered {
        epoch: u32,
        at: u32,
    },
    /// It was taken, and nothing was placed.
    Noted,
    /// It meant nothing.
    Ignored,
    /// The name is not 1 to 32 bytes of UTF-8.
    NameRefused,
    /// All ids are held.
    Full,
    /// The session can keep no such event any more.
    Ended,
    /// The store failed, and had failed so often when it first did in this session.
    StoreFault {
        count: u64,
    },
}

/// What a session is asked.
#[derive(Clone, Copy, Debug, PartialEq, Eq)]
pub enum Query {
    /// The entries that a connection is to get from a place of an epoch on, at most `max`; 0
    /// counts as 1.
    Pull {
        conn: u32,
        epoch: u32,
        at: u32,
        max: u32,
    },
}

/// What a query is answered.
#[derive(Debug, Drop)]
pub enum Answer {
    /// Entries of an epoch, from a place on.
    Entries { epoch: u32, at: u32, list: Entries },
    /// Nothing more is to come for the connection.
    Gone,
}

/// A Close that was refused by a store fault or the limits, and how many events were kept before
/// it.
#[derive(Clone, Copy, Debug, PartialEq, Eq)]
pub struct ShutAt {
    pub conn: u32,
    pub n: u64,
}

/// Entries, in order.
pub type Entries = Listed<Entry>;

/// Events that were kept, in order.
pub type Journal = Listed<Event>;

/// Closings that were refused, in order.
pub type Shut = Listed<ShutAt>;
