//! A client of a session: what it has taken, what it has said that isn't answered, and what it
//! shows.
//!
//! What it shows is kept drawn: an entry that is taken draws what is due to it alone.
//!
//! The rule: docs/protocol.md, "The client".
#![tactic(auto)]

mod answers;
mod client;
mod laws;

pub use client::{Client, Taken};
pub use dp_fork::Own;
pub use laws::{entries_are_taken, few_are_due};
