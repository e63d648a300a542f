//! The tables of a session: what it keeps of the events that came, without a store.
//!
//! The rule: docs/protocol.md, "The session".
#![tactic(auto)]

mod commit;
mod effects;
mod pages;
mod ready;
mod replay;
mod resets;
mod tables;

pub use ready::Ready;
pub use tables::Tables;
