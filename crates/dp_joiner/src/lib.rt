//! A client over a link: it greets the server, says messages, takes entries, sends its reset,
//! prints lines of chat, and says that it leaves.
//!
//! The rule: docs/protocol.md, "Joining".
#![tactic(auto)]

mod chats;
mod greeting;
mod joiner;
mod printing;
mod reset;

pub use chats::ChatLine;
pub use greeting::{Greeting, greet};
pub use joiner::Joiner;
