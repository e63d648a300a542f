//! The messages that draw nothing.

use crate::lists::{Ids, NameBytes, Text};

/// A message between a client and its server.
///
/// The rule: docs/protocol.md, "Control and meta messages".
#[derive(Debug, Drop, PartialEq)]
pub enum Control {
    /// Asks to join. The name has 1 to 32 bytes of any kind.
    Hello {
        name: NameBytes,
    },
    /// Ends the connection. 0 leaving, 1 full, 2 name refused, 3 session ended, 4 store fault.
    Disconnect {
        reason: u8,
    },
    /// Asks for a sign of life, or is one.
    Ping {
        pong: bool,
    },
    /// Takes up an epoch.
    Ack {
        epoch: u32,
    },
    /// Answers a Hello: the protocol's version, the user's id, and the place of its Join.
    Welcome {
        version: u16,
        user: u8,
        epoch: u32,
        at: u32,
    },
    /// Begins a reset.
    ResetBegin,
    /// Ends a reset.
    ResetEnd,
    /// Begins a reset that keeps what the history has from this place on.
    ResetFrom {
        at: u32,
    },
}

/// A message of the history that draws nothing.
#[derive(Debug, Drop, PartialEq)]
pub enum Meta {
    /// A user is there. The name has 1 to 32 bytes of UTF-8.
    Join {
        registered: bool,
        name: Text,
    },
    /// A user is gone.
    Leave,
    /// The operators.
    Owners {
        ids: Ids,
    },
    /// Says something.
    Chat {
        text: Text,
    },
    /// The trusted users.
    Trusted {
        ids: Ids,
    },
    /// Begins an epoch.
    ResetMark {
        epoch: u32,
        carried: u32,
    },
    /// Points at a place.
    Laser {
        x: i32,
        y: i32,
    },
    /// Moves the pointer.
    MovePointer {
        x: i32,
        y: i32,
    },
    /// The users who are locked; 0 locks all.
    UserAcl {
        ids: Ids,
    },
    /// Who may paint on a layer: the tier is 0 to 3.
    LayerAcl {
        layer: u16,
        locked: bool,
        tier: u8,
        ids: Ids,
    },
    /// Who may use which feature.
    FeatureTiers {
        tiers: Tiers,
    },
    /// In place of a message of this kind that was filtered out.
    Filtered {
        kind: u8,
    },
    /// How many of the last undo points can be undone. Not 0.
    UndoDepth {
        depth: u8,
    },
}

/// The tier of each feature, 0 to 3: 0 operators, 1 trusted, 2 registered, 3 everyone.
#[derive(Clone, Copy, Debug, PartialEq, Eq)]
pub struct Tiers {
    pub image: u8,
    pub move_: u8,
    pub resize: u8,
    pub background: u8,
    pub edit_layers: u8,
    pub own_layers: u8,
    pub laser: u8,
    pub undo: u8,
}
