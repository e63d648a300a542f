//! Links and the wires that hand them out, in memory and over TCP, and gates.
#![tactic(auto)]

mod crossing;
mod gate;
mod memory;
mod tcp;
mod wire;

pub use crossing::links_cross_threads;
pub use gate::{Gate, OpenGate};
pub use memory::MemWire;
pub use tcp::{TcpRx, TcpTx, TcpWire};
pub use wire::{Wire, WireError};
