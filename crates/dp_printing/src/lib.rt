//! Writing what is shown of a client: its canvases as pictures, a snapshot of its confirmed canvas,
//! and a recording of the entries that it has taken.
//!
//! The rule: docs/protocol.md, "Showing a client".
#![tactic(auto)]

mod recording;
mod showing;
mod snapshot;
mod text;

pub use showing::show;
