//! Links in memory.

use crate::checks::{are, check};
use dp_io::{MemSink, MemSource, Sink, Source};
use dp_wire::{MemWire, Wire, WireError};
use std::alloc::Global;
use std::process::Abort;

/// Accepts a link and sends its first byte back. It answers whether there was a link.
fn echo<W: Wire>(wire: &mut W) -> Result<bool, WireError> {
    match wire.accept() {
        Ok(Some((mut rx, mut tx))) => {
            let mut buf = [0];
            let _ = rx.read(&mut buf);
            let _ = tx.write(&buf);
            wire.done(rx, tx);
            Ok(true)
        }
        Ok(None) => Ok(false),
        Err(error) => Err(error),
    }
}

/// A link in memory with this byte to read and room for one.
fn link(rt: &impl Abort, alloc: Global, byte: u8) -> (MemSource, MemSink) {
    let bytes = vec![in alloc; byte].expect(rt, "memory");
    let tx = MemSink::new(alloc, 1, 1, Vec::new(alloc)).expect(rt, "memory");
    (MemSource::new(bytes, 1, Vec::new(alloc)), tx)
}

/// A wire of three links with a byte each, of which the calls of these numbers fail.
fn wire_of(rt: &impl Abort, alloc: Global, bytes: [u8; 3], fails: &[u64]) -> MemWire {
    let mut links = Vec::new(alloc);
    for byte in bytes {
        links.push(link(rt, alloc, byte)).expect(rt, "memory");
    }
    MemWire::new(links, Vec::from_slice(alloc, fails).expect(rt, "memory"))
}

/// Checks what becomes of the next link.
fn check_echo(rt: &impl Abort, wire: &mut MemWire, want: Result<bool, WireError>, place: usize) {
    check(rt, echo(wire) == want, "links", place);
}

/// Dials, and lets the link go.
fn dial(wire: &mut MemWire) -> Result<(), WireError> {
    match wire.dial() {
        Ok((rx, tx)) => {
            drop(rx);
            drop(tx);
            Ok(())
        }
        Err(error) => Err(error),
    }
}

/// Whether as many links are back, each of which was sent one of these bytes.
fn are_back(wire: &MemWire, sent: &[u8]) -> bool {
    for (link, byte) in wire.back().iter().zip(sent) {
        if !are(link.1.as_slice(), &[*byte]) {
            return false;
        }
    }
    wire.back().len() == sent.len()
}

// The calls of accept and dial are counted together, from 1. Links come back in order.
#[test]
fn listed_calls_fail(rt: HostRuntime) {
    let mut wire = wire_of(&rt, rt.alloc(), [7, 8, 9], &[1, 3]);
    check_echo(&rt, &mut wire, Err(WireError::Failed), 1);
    assert!(rt; dial(&mut wire) == Ok(()));
    check_echo(&rt, &mut wire, Err(WireError::Failed), 3);
    check_echo(&rt, &mut wire, Ok(true), 4);
    check_echo(&rt, &mut wire, Ok(true), 5);
    check_echo(&rt, &mut wire, Ok(false), 6);
    assert!(rt; dial(&mut wire) == Err(WireError::Failed));
    assert!(rt; are_back(&wire, &[8, 9]));
    drop(wire);
}
