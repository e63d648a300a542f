//! What the world of a schedule is: a session, its clients, and the messages on their way to it.
//! The laws of worlds, and the calls of one that is played.
//!
//! The rule: docs/protocol.md, "The world".
#![tactic(auto)]

mod laws;
mod participant;
mod schedule_world;

pub use laws::{forbidden_changes_nothing, headline, instructions_are_moves, worlds_stay_worlds};
pub use participant::LinkState;
pub use schedule_world::ScheduleWorld;
