//! Worked reads and writes, with the bytes that they have to give.

ghost use Rattle.std.specs.Prelude.{◌≡◌, ◌≤◌, OnErr};
ghost use Rattle.dp_io.specs.Faults.{Rose};

use crate::checks::{are, check};
use dp_io::{Failed, MemSink, MemSource, Sink, Source, StdSink, StdSource, SureSource, put_all};
use std::alloc::Global;
use std::process::Abort;

const BYTES: [u8; 7] = [3, 1, 4, 1, 5, 9, 2];

/// A copy of numbers.
fn list<T: Copy + Drop>(rt: &impl Abort, alloc: Global, items: &[T]) -> Vec<T> {
    Vec::from_slice(alloc, items).expect(rt, "memory")
}

/// Reads to the end, in at most 20 calls, through a buffer of three bytes.
fn read_all<R: Source>(rt: &impl Abort, alloc: Global, source: &mut R) -> Vec<u8> {
    let mut bytes = Vec::new(alloc);
    let mut buf = [0; 3];
    for _ in 0..20 {
        let count = source.read(&mut buf).expect(rt, "bytes");
        bytes.extend_from_slice(&buf[..count]).expect(rt, "memory");
    }
    bytes
}

/// Reads once, and names a fault by its cause.
fn read_once<R: Source>(source: &mut R, buf: &mut [u8]) -> Result<usize, Failed>
    ensures { OnErr result (Rose (R.faults source.old) (R.faults source.new)) }
{
    source.read(buf)
}

/// Reads at most four bytes, of which this comes. It is the call of this number.
fn check_read<R: Source>(
    rt: &impl Abort,
    source: &mut R,
    want: Result<usize, Failed>,
    number: usize,
) {
    let mut buf = [0; 4];
    check(rt, source.read(&mut buf) == want, "reads", number);
}

/// Writes bytes, of which this comes. It is the call of this number.
fn check_write<S: Sink>(
    rt: &impl Abort,
    sink: &mut S,
    bytes: &[u8],
    want: Result<usize, Failed>,
    number: usize,
) {
    check(rt, sink.write(bytes) == want, "writes", number);
}

#[test]
fn pieces_of_any_length_give_the_same(rt: HostRuntime) {
    let alloc = rt.alloc();
    for piece in 1..9 {
        let mut source = MemSource::new(list(&rt, alloc, &BYTES), piece, Vec::new(alloc));
        let bytes = read_all(&rt, alloc, &mut source);
        check(&rt, are(&bytes, &BYTES), "pieces", piece);
    }
}

#[test]
fn a_source_fails_at_the_listed_calls(rt: HostRuntime) {
    let alloc = rt.alloc();
    let fails = list(&rt, alloc, &[2, 3, 6]);
    let mut source = MemSource::new(list(&rt, alloc, &BYTES), 3, fails);
    check_read(&rt, &mut source, Ok(3), 1);
    check_read(&rt, &mut source, Err(Failed), 2);
    check_read(&rt, &mut source, Err(Failed), 3);
    check_read(&rt, &mut source, Ok(3), 4);
    check_read(&rt, &mut source, Ok(1), 5);
    check_read(&rt, &mut source, Err(Failed), 6);
    check_read(&rt, &mut source, Ok(0), 7);
}

// Over a source that never fails, a fault is ruled out by what a generic call says of its causes.
#[test]
fn a_sure_source_gives_no_fault(rt: HostRuntime) {
    let mut source = SureSource::new(list(&rt, rt.alloc(), &BYTES));
    let mut buf = [0; 4];
    for want in [4, 3, 0] {
        match read_once(&mut source, &mut buf) {
            Ok(count) => check(&rt, count == want, "counts", want),
            Err(_) => unreachable!(),
        }
    }
}

#[test]
fn a_sink_is_full(rt: HostRuntime) {
    let mut sink = MemSink::new(rt.alloc(), 3, 2, Vec::new(rt.alloc())).expect(&rt, "memory");
    check_write(&rt, &mut sink, &[7, 8, 9], Ok(2), 1);
    check_write(&rt, &mut sink, &[9, 6], Ok(1), 2);
    check_write(&rt, &mut sink, &[6], Err(Failed), 3);
    check_write(&rt, &mut sink, &[], Ok(0), 4);
    assert!(rt; are(sink.as_slice(), &[7, 8, 9]));
}

/// Writes the bytes to a sink of this room, in pieces of two, whose write of this number fails.
/// What it says, and how many were written.
fn put_into(rt: &impl Abort, alloc: Global, room: usize, fail: u64) -> (Result<(), Failed>, usize) {
    let mut sink = MemSink::new(alloc, room, 2, list(rt, alloc, &[fail])).expect(rt, "memory");
    let outcome = put_all(&mut sink, &BYTES);
    assert!(rt; BYTES.starts_with(sink.as_slice()));
    (outcome, sink.as_slice().len())
}

// For each room and failing call: whether all was written, and how much.
#[test]
fn put_all_writes_a_prefix(rt: HostRuntime) {
    let cases = [
        (7, 5, Ok(()), 7),
        (7, 4, Err(Failed), 6),
        (9, 1, Err(Failed), 0),
        (5, 9, Err(Failed), 5),
    ];
    for (k, (room, fail, want, written)) in cases.iter().enumerate() {
        let found = put_into(&rt, rt.alloc(), *room, *fail);
        check(&rt, found == (*want, *written), "prefixes", k);
    }
}

#[test]
fn sources_pass_the_bytes_on(rt: HostRuntime) {
    let mut source = StdSource::new(BYTES.as_slice());
    let mut prefix = [0; 3];
    assert!(rt; source.read(&mut prefix) == Ok(3));
    assert!(rt; prefix == [3, 1, 4]);
    let mut source = StdSource::new(source.into_inner());
    let bytes = read_all(&rt, rt.alloc(), &mut source);
    assert!(rt; are(&bytes, &[1, 5, 9, 2]));
}

#[test]
fn sinks_pass_the_bytes_on(rt: HostRuntime) {
    let mut sink = StdSink::new(Vec::new(rt.alloc()));
    assert!(rt; put_all(&mut sink, &BYTES) == Ok(()));
    assert!(rt; are(&sink.into_inner(), &BYTES));
}

// A writer that takes nothing has failed.
#[test]
fn a_full_writer_fails(rt: HostRuntime) {
    let mut room = [0; 2];
    let mut sink = StdSink::new(room.as_mut_slice());
    check_write(&rt, &mut sink, &[5, 6, 7], Ok(2), 1);
    check_write(&rt, &mut sink, &[7], Err(Failed), 2);
    check_write(&rt, &mut sink, &[], Ok(0), 3);
}
