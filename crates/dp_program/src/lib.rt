//! What a machine gives the program: its words, its standard streams, its sockets and its files.
#![tactic(auto)]

mod given;
mod store;

pub use given::{Given, StdStreams, close};
pub use store::Store;
