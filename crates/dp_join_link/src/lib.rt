//! The link of a client to its server: which frames may stand on it, what it gives, what the client
//! writes to it, and what stops the client.
//!
//! The rule: docs/protocol.md, "Joining".
#![tactic(auto)]

mod join_standing;
mod pulling;
mod sending;
mod stops;

pub use join_standing::{JoinStanding, LinkFlaw};
pub use pulling::{pull, pull_taken};
pub use sending::{acknowledge, say_hello, send, send_message};
pub use stops::{JoinStop, LinkCause};
