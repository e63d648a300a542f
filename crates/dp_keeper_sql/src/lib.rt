//! A store of rows in a file that sqlite3 reads.
//!
//! The rule: docs/protocol.md, "The journal's file".
#![tactic(auto)]

mod keeper;
mod laws;

pub use keeper::SqlKeeper;
pub use laws::stores_cross_threads;
