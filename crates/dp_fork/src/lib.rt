//! What a painter has said that isn't answered yet, and the board that shows it.
//!
//! The rule: docs/protocol.md, "The client".
#![tactic(auto)]

mod fork;
mod own;
mod pending;

pub use fork::Fork;
pub use own::Own;
