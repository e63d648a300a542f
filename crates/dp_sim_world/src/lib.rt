//! The world of a schedule over a session: its clients, and the messages on their way to it.
//!
//! The rule: docs/protocol.md, "The world".
#![tactic(auto)]

mod participant;
mod reply_line;
mod world;

pub use participant::Participant;
pub use world::World;
