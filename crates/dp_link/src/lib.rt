//! One link of the server: a painter is greeted, what it says is acted on the hall of the session,
//! and what it is to get is written to it.
//!
//! The rule: docs/protocol.md, "Links of the server".
#![tactic(auto)]

mod acting;
mod answers;
mod down;
mod ends;
mod hello;
mod laws;
mod pages;
mod reading;
mod up;

pub use acting::Worker;
pub use down::pump_down;
pub use ends::{DownEnd, GreetEnd, Greeting, UpEnd};
pub use hello::{GreetRun, greet, run_greet};
pub use laws::greetings_are_seen;
pub use up::{UpRun, pump_up, run_up};
