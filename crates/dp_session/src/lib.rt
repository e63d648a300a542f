//! The session: events into one history, with their journal, over a store of rows.
//!
//! The rule: docs/protocol.md, "The session".
#![tactic(auto)]

mod laws;
mod resume;
mod session;
mod sure;

pub use laws::sessions_cross_threads;
pub use resume::{ResumeError, ResumeFault};
pub use session::Session;
