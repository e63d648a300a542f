//! Frames out of a stream of bytes that come in pieces.
#![tactic(auto)]

mod splitter;

pub use splitter::Splitter;
