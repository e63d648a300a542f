//! What an event does to a session.

ghost use Rattle.std.specs.Prelude.{◌≡◌, ◌<◌, ◌^◌, ◌-◌};
ghost use Rattle.dp_epochs.specs.Effects.{answer_at, effect_by};

use crate::connection::{Connection, Place};
use crate::decision::Decision;
use crate::event::Reply;

/// What an event does to a session. The event itself stands beside it, so that no message is
/// copied.
#[derive(Clone, Copy)]
pub enum Effect {
    /// It is answered with this, and nothing else.
    Nothing(Reply),
    /// The connection of this number takes up the live epoch.
    TakesUp {
        conn: u32,
        connection: Connection,
    },
    /// What the connection of this number says is placed.
    Placed {
        conn: u32,
        connection: Connection,
    },
    /// Filtered is placed instead.
    Filtered {
        conn: u32,
        connection: Connection,
    },
    /// The user joins by the next connection; one may become operator.
    Joined {
        user: u8,
        next: Option<u8>,
    },
    /// The user of the connection of this number leaves; one may become operator.
    Left {
        conn: u32,
        connection: Connection,
        next: Option<u8>,
    },
    /// The connection begins a reset.
    Began {
        conn: u32,
        connection: Connection,
    },
    /// The command of the part that it says joins the reset that it sends.
    Added {
        conn: u32,
        connection: Connection,
    },
    /// The part passes the limits of the reset, which is dropped; Filtered is placed instead.
    Dropped {
        conn: u32,
        connection: Connection,
    },
    /// The reset that it sends ends, and the next epoch opens.
    Reopened {
        conn: u32,
        connection: Connection,
    },
}

impl Effect {
    /// What is answered, if the next entry would stand here and `given` connections were given out.
    pub fn reply(self, here: Place, given: u32) -> Reply
        requires given { given < 2 ^ 32 - 1 }
        requires epoch { here.epoch < 2 ^ 32 - 1 }
        ensures { result ≡ answer_at here given self }
    {
        let Place { epoch, index: at } = here;
        match self {
            Effect::Nothing(reply) => reply,
            Effect::Placed { .. } | Effect::Left { .. } => Reply::Placed { epoch, at },
            Effect::Filtered { .. } | Effect::Dropped { .. } => Reply::Filtered { epoch, at },
            Effect::Joined { user, .. } => Reply::Opened {
                conn: given + 1,
                user,
                epoch,
                at,
            },
            Effect::Reopened { .. } => Reply::Placed {
                epoch: epoch + 1,
                at: 0,
            },
            Effect::TakesUp { .. } | Effect::Began { .. } | Effect::Added { .. } => Reply::Noted,
        }
    }
}

impl Decision {
    /// The effect of a message of the connection of this number of which this becomes.
    pub fn effect(self, conn: u32, connection: Connection) -> Effect
        ensures { result ≡ effect_by conn connection self }
    {
        match self {
            Decision::Ignore => Effect::Nothing(Reply::Ignored),
            Decision::Acknowledge => Effect::TakesUp { conn, connection },
            Decision::Place => Effect::Placed { conn, connection },
            Decision::Filter => Effect::Filtered { conn, connection },
            Decision::BeginReset => Effect::Began { conn, connection },
            Decision::AddPart => Effect::Added { conn, connection },
            Decision::DropReset => Effect::Dropped { conn, connection },
            Decision::OpenEpoch => Effect::Reopened { conn, connection },
        }
    }
}
