//! The laws of recordings: one that was written is read again, and one of the first profile shows
//! what it showed.
#![tactic(auto)]

mod laws;

pub use laws::{lifting_keeps_acts, recordings_are_read_again};
