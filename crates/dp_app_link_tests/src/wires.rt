//! What `main` hands to the program: `serve` listens with its workers, and `join` dials it.

use crate::runs::words_of;
use dp_io::{Sink, Source};
use dp_sockets::wires_for;
use dp_wire::{TcpWire, Wire};
use std::alloc::Global;
use std::net::{Net, TcpListener, TcpStream};
use std::process::Abort;

/// The wires for these words, which are separated by spaces.
pub(crate) fn wires_of<N: Net<Listener = TcpListener, Stream = TcpStream> + Copy + Drop + Abort>(
    rt: &N,
    alloc: Global,
    text: &str,
) -> Vec<TcpWire<N>> {
    let words = words_of(alloc, text).expect(rt, "memory");
    let wires = wires_for(rt, alloc, &words);
    drop(words);
    wires.ok().expect(rt, "memory")
}

/// The last of the wires for these words, of which there are so many.
fn last_of<N: Net<Listener = TcpListener, Stream = TcpStream> + Copy + Drop + Abort>(
    rt: &N,
    alloc: Global,
    text: &str,
    count: usize,
) -> TcpWire<N> {
    let mut wires = wires_of(rt, alloc, text);
    assert!(rt; wires.len() == count);
    let wire = wires.pop().expect(rt, "a wire");
    drop(wires);
    wire
}

/// Dials the server, and sends four bytes over the link.
fn check_link<N: Net<Listener = TcpListener, Stream = TcpStream> + Copy + Drop + Abort>(
    rt: &N,
    serving: &mut TcpWire<N>,
    joining: &mut TcpWire<N>,
) {
    let (near_rx, mut near_tx) = joining.dial().ok().expect(rt, "a link");
    let accepted = serving.accept().ok().expect(rt, "no fault");
    let (mut far_rx, far_tx) = accepted.expect(rt, "a link");
    let mut buf = [0; 8];
    assert!(rt; near_tx.write(b"ping") == Ok(4));
    assert!(rt; far_rx.read(&mut buf) == Ok(4));
    serving.done(far_rx, far_tx);
    joining.done(near_rx, near_tx);
}

/// The words that join the server at a wire's port.
fn joining_line<N: Net<Listener = TcpListener, Stream = TcpStream> + Copy + Drop + Abort>(
    rt: &N,
    alloc: Global,
    wire: &TcpWire<N>,
) -> String {
    let port = wire.port().expect(rt, "a port");
    format!(in alloc; "join 127.0.0.1:{port} ann").expect(rt, "memory")
}

/// The wires that listen, and the one that dials them.
fn check_wires<N: Net<Listener = TcpListener, Stream = TcpStream> + Copy + Drop + Abort>(
    rt: &N,
    alloc: Global,
) {
    let mut serving = last_of(rt, alloc, "serve 127.0.0.1:0 --workers 2", 2);
    let line = joining_line(rt, alloc, &serving);
    let mut joining = last_of(rt, alloc, line.as_str(), 1);
    check_link(rt, &mut serving, &mut joining);
    drop(serving);
    drop(joining);
    drop(last_of(rt, alloc, line.as_str(), 1));
    drop(line);
    let none = wires_of(rt, alloc, "play");
    assert!(rt; none.is_empty());
    drop(none);
}

#[test]
fn words_have_their_wires(rt: HostRuntime) {
    check_wires(&rt, rt.alloc());
}
