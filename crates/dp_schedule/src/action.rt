//! What a line of a schedule asks for.

use dp_frame::Octets;
use dp_messages::Msg;

/// What a client does.
#[derive(Drop)]
pub enum Instruction {
    /// It says a message, which joins its unanswered sends and its uplink.
    Say(Msg),
    /// The server takes the next message of its uplink.
    Up,
    /// It takes the next entry of the history.
    Take,
    /// A reset to its confirmed canvas joins its uplink: one that keeps what comes after the
    /// entries that it has taken, or one that doesn't.
    Reset { keeps: bool },
    /// It leaves: a Disconnect joins its uplink.
    Leave,
    /// Its uplink is lost, and its connection closed.
    Cut,
}

/// What is printed of a client.
#[derive(Clone, Copy)]
pub enum CanvasKind {
    /// The picture of the entries that it has taken, with its unanswered sends.
    View,
    /// The picture of the entries that it has taken.
    Confirmed,
    /// The snapshot of the entries that it has taken.
    Snapshot,
    /// The recording of the entries that it has taken.
    Recording,
}

/// What a line asks for. Clients are numbered from 1, in the order of their joins.
#[derive(Drop)]
pub enum Action {
    /// A user asks to join.
    Join {
        name: Octets,
        registered: bool,
    },
    /// A client does something.
    Act {
        client: u32,
        instruction: Instruction,
    },
    /// A client is printed, its canvas or what it has taken.
    Show {
        client: u32,
        kind: CanvasKind,
    },
}
