//! What threads may hand to each other.

use crate::{MemWire, OpenGate, TcpRx, TcpTx, TcpWire};
use dp_io::{MemSink, MemSource};

/// What is moved to another thread.
fn crosses<T: Send>() {}

/// What threads share.
fn shared<T: Sync>() {}

/// Wires and links may cross threads, a wire over TCP if its handle of the net may. Threads may
/// share an open gate.
pub fn links_cross_threads<N: Send>() {
    crosses::<MemWire>();
    crosses::<MemSource>();
    crosses::<MemSink>();
    crosses::<TcpWire<N>>();
    crosses::<TcpRx>();
    crosses::<TcpTx>();
    shared::<OpenGate>();
}
