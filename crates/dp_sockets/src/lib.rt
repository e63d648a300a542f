//! The sockets that the program's words want.
#![tactic(auto)]

mod sockets;

pub use sockets::wires_for;
