//! Sessions over stores that never fail. Worlds and drills know no more of a session, so they stand
//! on none of its tables.
//!
//! The rule: docs/protocol.md, "The session".
#![tactic(auto)]

mod sure;

pub use sure::SureSession;
