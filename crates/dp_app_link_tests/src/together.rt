//! A server and two painters over the loopback. Each has the wires that its words want, as `main`
//! gives them. `main` itself can't be called here.

use crate::runs::{Streams, status_of, words_of};
use crate::wires::wires_of;
use dp_io::{MemSink, MemSource};
use dp_wire::Wire;
use std::alloc::Global;
use std::net::{Net, TcpListener, TcpStream};
use std::process::Abort;
use std::sync::Wait;
use std::thread;
use std::thread::Threads;

/// Ann sets the sides to 2 by 1, creates a layer, and fills it with red. Then she shows the canvas.
const ANN: &str = "take 3
say 8100000000000000020000000100000000
say 820101000000
say 8901010100000000000000000000000200000001ffff0000
take 3
conf
";

/// Bob takes all that was placed before he came, his Join and his rights. Then he fills the right
/// pixel with blue.
const BOB: &str = "take 9
conf
say 8901010100000001000000000000000100000001ff0000ff
take 1
conf
";

const ANN_PRINTS: &str = "took 0:0
took 0:1
took 0:2
said 1
said 2
said 3
took 0:3
took 0:4
took 0:5
P3
2 1
255
255 0 0
255 0 0
";

const BOB_PRINTS: &str = "took 0:0
took 0:1
took 0:2
took 0:3
took 0:4
took 0:5
took 0:6
took 0:7
took 0:8
P3
2 1
255
255 0 0
255 0 0
said 1
took 0:9
P3
2 1
255
255 0 0
0 0 255
";

/// A sink of a thousand bytes.
fn sink_of(rt: &impl Abort, alloc: Global) -> MemSink {
    MemSink::new(alloc, 1000, 64, Vec::new(alloc)).expect(rt, "memory")
}

/// Streams whose input is this script.
fn streams_of(rt: &impl Abort, alloc: Global, script: &str) -> Streams {
    let script = Vec::from_slice(alloc, script.as_bytes()).expect(rt, "memory");
    Streams {
        input: MemSource::new(script, 64, Vec::new(alloc)),
        output: sink_of(rt, alloc),
        diag: sink_of(rt, alloc),
    }
}

/// Runs the words of a line over these wires: its status.
fn run<R: Threads + Wait + Sync + Abort, W: Wire + Send + Drop>(
    rt: &R,
    alloc: Global,
    line: &str,
    wires: Vec<W>,
    streams: &mut Streams,
) -> u8 {
    let words = words_of(alloc, line).expect(rt, "memory");
    let status = status_of(rt, alloc, &words, wires, streams);
    drop(words);
    status
}

/// Runs the words of a line over these wires with this script, and looks at what is printed.
fn check<R: Threads + Wait + Sync + Abort, W: Wire + Send + Drop>(
    rt: &R,
    alloc: Global,
    line: &str,
    wires: Vec<W>,
    (script, printed): (&str, &str),
) {
    let mut streams = streams_of(rt, alloc, script);
    let status = run(rt, alloc, line, wires, &mut streams);
    assert!(rt; streams.diag.as_slice() == b"".as_slice());
    assert!(rt; status == 0);
    assert!(rt; streams.output.as_slice() == printed.as_bytes());
    drop(streams);
}

/// A painter joins the server at this port.
fn paint<R>(rt: &R, alloc: Global, port: u16, name: &str, texts: (&str, &str))
where
    R: Threads + Wait + Send + Sync + Abort + Copy + Drop,
    R: Net<Listener = TcpListener, Stream = TcpStream>,
{
    let line = format!(in alloc; "join 127.0.0.1:{port} {name}").expect(rt, "memory");
    let wires = wires_of(rt, alloc, line.as_str());
    check(rt, alloc, line.as_str(), wires, texts);
    drop(line);
}

/// Ann paints, and then Bob.
fn paint_both<R>(rt: &R, alloc: Global, port: u16)
where
    R: Threads + Wait + Send + Sync + Abort + Copy + Drop,
    R: Net<Listener = TcpListener, Stream = TcpStream>,
{
    paint(rt, alloc, port, "ann", (ANN, ANN_PRINTS));
    paint(rt, alloc, port, "bob", (BOB, BOB_PRINTS));
}

/// The server runs in a thread of its own, and Bob comes when Ann is done.
fn paint_together<R>(rt: &R, alloc: Global)
where
    R: Threads + Wait + Send + Sync + Abort + Copy + Drop,
    R: Net<Listener = TcpListener, Stream = TcpStream>,
{
    let serve = "serve 127.0.0.1:0 --workers 2 --conns 1";
    let wires = wires_of(rt, alloc, serve);
    let port = wires
        .first()
        .expect(rt, "a wire")
        .port()
        .expect(rt, "a port");
    thread::join(
        rt,
        move || check(rt, alloc, serve, wires, ("", "")),
        move || paint_both(rt, alloc, port),
    );
}

#[test]
fn painters_over_the_loopback(rt: HostRuntime) {
    paint_together(&rt, rt.alloc());
}
