//! What a line of a script of `join` asks for.

use dp_messages::Msg;

/// What a line of a script of `join` asks of its client.
#[derive(Drop)]
pub enum JoinAction {
    /// It says a message, which joins its unanswered sends and goes out over the link.
    Say(Msg),
    /// It takes `count` entries of the link.
    Take { count: u32 },
    /// The picture of its view is printed.
    View,
    /// The picture of its confirmed canvas is printed.
    Confirmed,
    /// The snapshot of its confirmed canvas is printed.
    Snapshot,
    /// Its confirmed canvas goes out over the link as a reset: one that keeps what comes after the
    /// entries that it has taken, or one that doesn't.
    Reset { keeps: bool },
    /// The last texts of chat that it has taken are printed.
    Chat,
}
