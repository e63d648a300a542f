//! One link of the server, from its Hello to its end.
//!
//! The rule: docs/protocol.md, "Links of the server".
#![tactic(auto)]

mod link;
mod pumps;

pub use link::{LinkEnd, ServedLink, serve_link};
