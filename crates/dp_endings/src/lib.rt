//! The ways in which the program ends: the status of each, and the line that is said of it.
//!
//! The rule: docs/protocol.md, "Statuses".
#![tactic(auto)]

mod diagnostics;
mod ending;
mod status;

pub use diagnostics::say;
pub use ending::Ending;
pub use status::status_of;
