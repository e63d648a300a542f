//! Sessions over any core: what steps as a session does and gives pages. Links and workers know no
//! more of a session, so they stand on none of its tables.
//!
//! The rule: docs/protocol.md, "The session".
#![tactic(auto)]

mod session;
mod session_core;

pub use session::AnySession;
pub use session_core::SessionCore;
