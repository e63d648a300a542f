//! The law of sessions of the first profile: over rows that they left, each epoch has the replay
//! that it had.
//!
//! The rule: docs/protocol.md, "Kept rows".
#![tactic(auto)]

mod laws;

pub use laws::{events_lift, first_sessions_stay, worked_rows_stood};
