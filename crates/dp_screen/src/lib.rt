//! What a painter of a session sees: the board of all that was taken, and the view, which has on it
//! what the painter has said that isn't answered.
//!
//! Both boards are kept drawn. An act that is taken draws what is due to it alone. The rule:
//! docs/protocol.md, "The client".
#![tactic(auto)]

mod laws;
mod screen;

pub use laws::few_are_due;
pub use screen::Screen;
