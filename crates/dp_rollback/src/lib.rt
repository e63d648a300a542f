//! A board that is drawn on act by act, with undo and redo.
//!
//! After each act a `Rollback` is the replay of all of them. An act that moves a group goes back to
//! the board as it was saved at the group's point, and draws from there. What no act can undo any
//! more is let go.
#![tactic(auto)]

mod laws;
mod ready;
mod rollback;

pub use laws::{few_are_due, replay_goes_on};
pub use ready::Ready;
pub use rollback::Rollback;
