//! The two halves of a link over TCP.

ghost use Rattle.std.specs.Prelude.{◌≡◌, ℕ, None, IfOk, OnErr};
ghost use Rattle.std.specs.Io.{ReadsAtMost, WritesAtMost};
ghost use Rattle.dp_io.specs.Faults.{HasCause, any_fault, one_more};
ghost use Rattle.dp_io.specs.Streams.{TakesSome};

use dp_io::{Failed, Sink, Source};
use std::io;
use std::io::{ErrorKind, Read, Write};
use std::marker::Model;
use std::net::{Shutdown, TcpStream};
use std::time::Duration;

/// How many seconds a write may wait for a peer that takes no byte.
const WRITE_SECONDS: u64 = 30;

/// How long a read of a link that is being closed may wait for the peer.
const CLOSE_MILLIS: u64 = 100;

/// How many reads of such a link there may be.
const CLOSE_READS: u32 = 64;

/// The source of a link: what the peer sends. A clause sees it as its number of faults.
///
/// Only tested: it waits for the peer without limit. It ends if the peer has closed its half, and
/// once a write of the link has failed. A read that a signal interrupted is made again, and counts
/// nothing; no test has such a signal.
#[derive(Drop)]
pub struct TcpRx {
    pub(super) stream: TcpStream,
    faults: u64,
}

impl Model for TcpRx {
    ghost Value = { ℕ };

    ghost view = { λ half. half.faults };
}

/// The sink of a link: what the peer is sent. A clause sees it as its number of faults.
///
/// Only tested: a write that waits for 30 seconds and moves no byte fails. A write that fails shuts
/// the link down both ways, so that a thread that waits in a read of it goes on. A write that a
/// signal interrupted is made again, and counts nothing; no test has such a signal.
#[derive(Drop)]
pub struct TcpTx {
    pub(super) stream: TcpStream,
    faults: u64,
}

impl Model for TcpTx {
    ghost Value = { ℕ };

    ghost view = { λ half. half.faults };
}

impl Source for TcpRx {
    ghost left = { λ _. None };

    ghost faults = { λ count. count };

    fn read(&mut self, buf: &mut [u8]) -> Result<usize, Failed>
        ensures bound { ReadsAtMost result buf.new }
        ensures cause { HasCause any_fault self.old self.new result }

        // Each error is counted once.
        ensures counted { OnErr result (self.new ≡ one_more self.old) }
    {
        match read_through(&mut self.stream, buf) {
            Ok(count) => Ok(count),
            Err(_) => {
                self.faults = self.faults.saturating_add(1);
                Err(Failed)
            }
        }
    }
}

impl Sink for TcpTx {
    ghost held = { λ _. None };

    ghost faults = { λ count. count };

    /// A write that takes none of the bytes counts as one that fails.
    fn write(&mut self, bytes: &[u8]) -> Result<usize, Failed>
        ensures bound { WritesAtMost result bytes.now }
        ensures some { TakesSome result bytes.now }
        ensures cause { HasCause any_fault self.old self.new result }

        // Each error is counted once.
        ensures counted { OnErr result (self.new ≡ one_more self.old) }
    {
        match write_through(&mut self.stream, bytes) {
            Ok(count) if count > 0 || bytes.is_empty() => Ok(count),
            _ => {
                let _ = self.stream.shutdown(Shutdown::Both);
                self.faults = self.faults.saturating_add(1);
                Err(Failed)
            }
        }
    }
}

/// The two halves of a link over this socket, with no fault so far.
pub(super) fn link_of(stream: TcpStream) -> io::Result<(TcpRx, TcpTx)>
    ensures rx { IfOk result (λ link. link.0 ≡ 0) }
    ensures tx { IfOk result (λ link. link.1 ≡ 0) }
{
    link_within(stream, Duration::from_secs(WRITE_SECONDS))
}

/// The two halves of a link, with the time that a write may wait.
pub(super) fn link_within(stream: TcpStream, limit: Duration) -> io::Result<(TcpRx, TcpTx)>
    ensures rx { IfOk result (λ link. link.0 ≡ 0) }
    ensures tx { IfOk result (λ link. link.1 ≡ 0) }
{
    stream.set_nodelay(true)?;
    stream.set_write_timeout(Some(limit))?;
    let other = stream.try_clone()?;
    let rx = TcpRx {
        stream: other,
        faults: 0,
    };
    Ok((rx, TcpTx { stream, faults: 0 }))
}

/// Closes a link so that the last bytes that were written arrive. A socket that is closed with
/// bytes unread resets its link, and what was written last may be lost by that. So the half to the
/// peer is closed first, and what the peer still sends is read for a moment, or until its end.
pub(super) fn close(rx: TcpRx, tx: TcpTx) {
    let mut stream = rx.stream;
    if tx.stream.shutdown(Shutdown::Write).is_err() {
        return;
    }
    let wait = Duration::from_millis(CLOSE_MILLIS);
    if stream.set_read_timeout(Some(wait)).is_ok() {
        read_to_close(&mut stream);
    }
}

/// Reads what a peer still sends, until there is none for a moment, at most so often.
fn read_to_close(stream: &mut TcpStream) {
    let mut buf = [0; 4096];
    for _ in 0..CLOSE_READS {
        match read_through(stream, &mut buf) {
            Ok(count) if count > 0 => {}
            _ => return,
        }
    }
}

/// Reads once, and again if a signal interrupted it.
fn read_through(stream: &mut TcpStream, buf: &mut [u8]) -> io::Result<usize>
    ensures { ReadsAtMost result buf.new }
{
    for _ in 0..u64::MAX {
        match stream.read(buf) {
            Err(error) if error.kind() == ErrorKind::Interrupted => {}
            answer => return answer,
        }
    }
    Err(ErrorKind::Interrupted.into())
}

/// Writes once, and again if a signal interrupted it.
fn write_through(stream: &mut TcpStream, bytes: &[u8]) -> io::Result<usize>
    ensures { WritesAtMost result bytes.now }
{
    for _ in 0..u64::MAX {
        match stream.write(bytes) {
            Err(error) if error.kind() == ErrorKind::Interrupted => {}
            answer => return answer,
        }
    }
    Err(ErrorKind::Interrupted.into())
}
