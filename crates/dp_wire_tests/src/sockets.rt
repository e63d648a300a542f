//! Links over TCP, on the loopback.

use crate::checks::are;
use dp_io::{Failed, Sink, Source};
use dp_wire::{TcpRx, TcpTx, TcpWire, Wire, WireError};
use std::alloc::Global;
use std::io::ErrorKind;
use std::net::{Ipv4Addr, Net, Shutdown, SocketAddr, TcpListener, TcpStream};
use std::os::fd::OwnedFd;
use std::process::Abort;
use std::time::Duration;
use std::{io, thread};

/// Wires that listen at a port of the system's choice, with one listener.
fn listen<N: Net<Listener = TcpListener, Stream = TcpStream> + Copy + Abort>(
    rt: &N,
    alloc: Global,
) -> (TcpWire<N>, TcpWire<N>) {
    let mut wires = TcpWire::listen(rt, alloc, "127.0.0.1:0", 2).expect(rt, "wires");
    let one = wires.pop().expect(rt, "a wire");
    let other = wires.pop().expect(rt, "a wire");
    (one, other)
}

/// A wire that dials this port.
fn dialer<N: Net<Listener = TcpListener, Stream = TcpStream> + Copy + Abort>(
    rt: &N,
    alloc: Global,
    port: u16,
) -> TcpWire<N> {
    let addr = format!(in alloc; "127.0.0.1:{port}").expect(rt, "memory");
    TcpWire::dialer(rt, alloc, addr.as_str()).expect(rt, "memory")
}

/// The link that a wire accepts.
fn accepted<N: Net<Listener = TcpListener, Stream = TcpStream> + Drop>(
    rt: &impl Abort,
    wire: &mut TcpWire<N>,
) -> (TcpRx, TcpTx) {
    wire.accept()
        .ok()
        .expect(rt, "no fault")
        .expect(rt, "a link")
}

/// The link that a wire dials.
fn dialed<N: Net<Listener = TcpListener, Stream = TcpStream> + Drop>(
    rt: &impl Abort,
    wire: &mut TcpWire<N>,
) -> (TcpRx, TcpTx) {
    wire.dial().ok().expect(rt, "a link")
}

/// A peer that has dialed this port.
fn peer_of<N: Net<Listener = TcpListener, Stream = TcpStream> + Abort>(
    rt: &N,
    port: u16,
) -> TcpStream {
    TcpStream::connect(rt, (Ipv4Addr::LOCALHOST, port)).expect(rt, "a peer")
}

/// How many bytes a peer reads.
fn peer_reads(rt: &impl Abort, peer: &mut TcpStream, buf: &mut [u8]) -> usize {
    io::Read::read(peer, buf).expect(rt, "bytes")
}

/// A peer, and the link that it opened.
fn link<N: Net<Listener = TcpListener, Stream = TcpStream> + Copy + Drop + Abort>(
    rt: &N,
    alloc: Global,
) -> (TcpStream, TcpRx, TcpTx) {
    let (mut wire, other) = listen(rt, alloc);
    let peer = peer_of(rt, port_of(rt, other));
    let (rx, tx) = accepted(rt, &mut wire);
    drop(wire);
    (peer, rx, tx)
}

/// Whether one write takes all of these bytes.
fn sends(tx: &mut TcpTx, bytes: &[u8]) -> bool {
    tx.write(bytes) == Ok(bytes.len())
}

/// How many bytes a read gives.
fn received(rt: &impl Abort, rx: &mut TcpRx, buf: &mut [u8]) -> usize {
    rx.read(buf).ok().expect(rt, "bytes")
}

/// The port that a wire listens at.
fn port_of<N: Net<Listener = TcpListener, Stream = TcpStream> + Copy + Drop>(
    rt: &impl Abort,
    wire: TcpWire<N>,
) -> u16 {
    let port = wire.port();
    drop(wire);
    port.expect(rt, "a port")
}

/// A wire, the near end of a link that was dialed at its port, and the far end, which it gave. Two
/// wires share one listener: the port was that of the other one.
fn both_ends<N: Net<Listener = TcpListener, Stream = TcpStream> + Copy + Drop + Abort>(
    rt: &N,
    alloc: Global,
) -> (TcpWire<N>, (TcpRx, TcpTx), (TcpRx, TcpTx)) {
    let (mut wire, other) = listen(rt, alloc);
    let mut dialer = dialer(rt, alloc, port_of(rt, other));
    let near = dialed(rt, &mut dialer);
    drop(dialer);
    let far = accepted(rt, &mut wire);
    (wire, near, far)
}

#[test]
fn bytes_go_both_ways(rt: HostRuntime) {
    let (mut wire, near, far) = both_ends(&rt, rt.alloc());
    let (mut near_rx, mut near_tx) = near;
    let (mut far_rx, mut far_tx) = far;
    let mut buf = [0; 9];
    assert!(rt; sends(&mut near_tx, b"ping"));
    assert!(rt; received(&rt, &mut far_rx, &mut buf) == 4);
    assert!(rt; sends(&mut far_tx, &buf[..4]));
    wire.done(far_rx, far_tx);
    drop(wire);
    assert!(rt; received(&rt, &mut near_rx, &mut buf) == 4);
    assert!(rt; are(&buf[..4], b"ping"));
    // The other end is done.
    assert!(rt; received(&rt, &mut near_rx, &mut buf) == 0);
    drop(near_tx);
    drop(near_rx);
}

#[test]
fn a_dial_is_refused(rt: HostRuntime) {
    let (wire, other) = listen(&rt, rt.alloc());
    let port = port_of(&rt, other);
    drop(wire);
    let mut dialer = dialer(&rt, rt.alloc(), port);
    let dialed = dialer.dial().err();
    drop(dialer);
    assert!(rt; dialed == Some(WireError::Failed));
}

/// Hands out a listener and a stream that the test has too.
#[derive(Clone, Copy)]
struct Shared<'a> {
    listener: &'a TcpListener,
    stream: Option<&'a TcpStream>,
}

impl<'a> Net for Shared<'a> {
    type Stream = TcpStream;

    type Listener = TcpListener;

    fn bind(&self, _addr: SocketAddr) -> io::Result<TcpListener> {
        self.listener.try_clone()
    }

    fn connect(&self, _addr: SocketAddr) -> io::Result<TcpStream> {
        match self.stream {
            Some(stream) => stream.try_clone(),
            None => Err(ErrorKind::ConnectionRefused.into()),
        }
    }
}

/// A listener at a port of the system's choice.
fn listener(rt: &(impl Net<Listener = TcpListener, Stream = TcpStream> + Abort)) -> TcpListener {
    TcpListener::bind(rt, "127.0.0.1:0").expect(rt, "a listener")
}

/// Shuts a listener.
fn shut(rt: &impl Abort, listener: &TcpListener) {
    let same = listener.try_clone().expect(rt, "a listener");
    let socket = TcpStream::from(OwnedFd::from(same));
    socket.shutdown(Shutdown::Both).expect(rt, "shut");
    drop(socket);
}

#[test]
fn a_listener_is_shut(rt: HostRuntime) {
    let listener = listener(&rt);
    let net = Shared {
        listener: &listener,
        stream: None,
    };
    let mut wires = TcpWire::listen(&net, rt.alloc(), "127.0.0.1:0", 1).expect(&rt, "a wire");
    let mut wire = wires.pop().expect(&rt, "a wire");
    drop(wires);
    shut(&rt, &listener);
    let accepted = wire.accept().err();
    drop(wire);
    assert!(rt; accepted == Some(WireError::Failed));
}

// The peer has sent all, and still reads.
#[test]
fn a_peer_closes_its_half(rt: HostRuntime) {
    let (mut peer, mut rx, mut tx) = link(&rt, rt.alloc());
    peer.shutdown(Shutdown::Write).expect(&rt, "shut");
    let mut buf = [0; 9];
    assert!(rt; received(&rt, &mut rx, &mut buf) == 0);
    assert!(rt; sends(&mut tx, b"so long"));
    assert!(rt; peer_reads(&rt, &mut peer, &mut buf) == 7);
    drop(peer);
    drop(rx);
    drop(tx);
}

// A peer that closes with bytes unread resets the link.
#[test]
fn a_peer_resets(rt: HostRuntime) {
    let (mut peer, mut rx, mut tx) = link(&rt, rt.alloc());
    assert!(rt; sends(&mut tx, b"two"));
    assert!(rt; peer_reads(&rt, &mut peer, &mut [0]) == 1);
    drop(peer);
    assert!(rt; rx.read(&mut [0]) == Err(Failed));
    assert!(rt; tx.write(b"more") == Err(Failed));
    drop(rx);
    drop(tx);
}

/// A peer that has sent six bytes, which are not read, and four bytes that were sent to it before
/// the link was done.
fn left_unread<N: Net<Listener = TcpListener, Stream = TcpStream> + Copy + Drop + Abort>(
    rt: &N,
    alloc: Global,
) -> TcpStream {
    let (mut wire, other) = listen(rt, alloc);
    let mut peer = peer_of(rt, port_of(rt, other));
    let (rx, mut tx) = accepted(rt, &mut wire);
    let count = io::Write::write(&mut peer, b"unread").expect(rt, "bytes");
    assert!(rt; count == 6);
    assert!(rt; sends(&mut tx, b"last"));
    wire.done(rx, tx);
    drop(wire);
    peer
}

// What a peer sent and nobody read resets no link: the peer gets the last bytes, and then the end.
#[test]
fn a_link_is_closed_with_bytes_unread(rt: HostRuntime) {
    let mut peer = left_unread(&rt, rt.alloc());
    let mut buf = [0; 9];
    assert!(rt; peer_reads(&rt, &mut peer, &mut buf) == 4);
    // No reset.
    assert!(rt; peer_reads(&rt, &mut peer, &mut buf) == 0);
    drop(peer);
}

/// Writes until a write fails, or 2^18 writes were made.
fn fill(mut tx: TcpTx) -> bool {
    let bytes = [0; 4096];
    for _ in 0..1 << 18 {
        if tx.write(&bytes).is_err() {
            return true;
        }
    }
    false
}

/// The settings of a stream that was dialed.
fn check_settings(rt: &impl Abort, stream: &TcpStream) {
    assert!(rt; stream.nodelay().expect(rt, "nodelay"));
    let limit = stream.write_timeout().expect(rt, "the limit of writes");
    assert!(rt; limit == Some(Duration::from_secs(30)));
    let limit = stream.read_timeout().expect(rt, "the limit of reads");
    assert!(rt; limit == None);
}

/// A stream that was dialed at a listener's port, and its peer.
fn stream_and_peer<N: Net<Listener = TcpListener, Stream = TcpStream> + Abort>(
    rt: &N,
    listener: &TcpListener,
) -> (TcpStream, TcpStream) {
    let port = listener.local_addr().expect(rt, "an address").port();
    let stream = peer_of(rt, port);
    let (peer, _) = listener.accept().expect(rt, "a peer");
    (stream, peer)
}

/// A link over a copy of this stream.
fn link_over(
    rt: &impl Abort,
    alloc: Global,
    listener: &TcpListener,
    stream: &TcpStream,
) -> (TcpRx, TcpTx) {
    let net = Shared {
        listener,
        stream: Some(stream),
    };
    let mut wire = TcpWire::dialer(&net, alloc, "127.0.0.1:1").expect(rt, "memory");
    let link = dialed(rt, &mut wire);
    drop(wire);
    link
}

// If the peer stops reading, a write fails in the end, and lets go of the thread that reads. A
// stream's settings are those of each copy of it: the test shortens the limit of a write.
#[test]
fn a_peer_stops_reading(rt: HostRuntime) {
    let listener = listener(&rt);
    let (stream, peer) = stream_and_peer(&rt, &listener);
    let (mut rx, tx) = link_over(&rt, rt.alloc(), &listener, &stream);
    drop(listener);
    check_settings(&rt, &stream);
    let limit = Some(Duration::from_millis(100));
    stream.set_write_timeout(limit).expect(&rt, "a limit");
    let (read, failed) = thread::join(&rt, move || rx.read(&mut [0]), move || fill(tx));
    drop(stream);
    drop(peer);
    assert!(rt; failed);
    assert!(rt; read == Ok(0));
}
