//! Entries of three frames: cut, with failing reads, at limits, and after other bytes.

use dp_entries::{Anywhere, EntryReader, ReadEnd, Refusal, Stop, take_entry};
use dp_io::MemSource;
use dp_lines::RunEnd;
use dp_messages::DecodeError;
use dp_split::Splitter;
use std::alloc::Global;
use std::process::Abort;

/// An undo point, an undo and a chat of user 1, at the places 0, 4 and 10.
const STREAM: [u8; 16] = [
    0x00, 0x00, 0x80, 0x01, 0x00, 0x02, 0xff, 0x01, 0x00, 0x00, 0x00, 0x02, 0x23, 0x01, 0x68, 0x69,
];

/// How many bytes of the stream there are, the length of the pieces, and the read that fails (or
/// 0). Then how many bytes count, how many entries there are, and how reading ends.
static ROWS: [(usize, usize, u64, u64, u32, RunEnd); 25] = [
    (0, 1, 0, 16, 0, RunEnd::Done),
    (9, 1, 0, 16, 1, RunEnd::Truncated(4)),
    (9, 7, 0, 16, 1, RunEnd::Truncated(4)),
    (10, 3, 0, 16, 2, RunEnd::Done),
    (15, 1, 0, 16, 2, RunEnd::Truncated(10)),
    (15, 17, 0, 16, 2, RunEnd::Truncated(10)),
    (16, 1, 0, 16, 3, RunEnd::Done),
    (16, 5, 0, 16, 3, RunEnd::Done),
    (16, 17, 0, 16, 3, RunEnd::Done),
    (16, 1, 1, 16, 0, RunEnd::ReadFault),
    (16, 1, 4, 16, 0, RunEnd::ReadFault),
    (16, 1, 5, 16, 1, RunEnd::ReadFault),
    (16, 1, 10, 16, 1, RunEnd::ReadFault),
    (16, 1, 11, 16, 2, RunEnd::ReadFault),
    (16, 1, 16, 16, 2, RunEnd::ReadFault),
    (16, 1, 17, 16, 3, RunEnd::ReadFault),
    (16, 1, 0, 0, 0, RunEnd::Long),
    (16, 5, 0, 0, 0, RunEnd::Long),
    (16, 1, 0, 9, 1, RunEnd::Long),
    (16, 100, 0, 9, 1, RunEnd::Long),
    (16, 5, 0, 15, 2, RunEnd::Long),
    (16, 100, 0, 15, 2, RunEnd::Long),
    (16, 1, 0, 16, 3, RunEnd::Done),
    (16, 1, 0, 17, 3, RunEnd::Done),
    (16, 100, 0, 17, 3, RunEnd::Done),
];

/// A source of these bytes, in pieces of at most this many, which fails at this read.
fn source(rt: &impl Abort, alloc: Global, bytes: &[u8], piece: usize, fails: u64) -> MemSource {
    assert!(rt; 1 <= piece);
    let bytes = bytes.to_vec(alloc).expect(rt, "memory");
    let fails = vec![in alloc; fails].expect(rt, "memory");
    MemSource::new(bytes, piece, fails)
}

/// The test ends if this doesn't hold of a row.
fn check(rt: &impl Abort, holds: bool, place: usize) {
    assert!(rt; holds, "row {place}");
}

/// Pulls once: whether there was an entry, which is of user 1, or how the input ended.
fn pull(
    rt: &impl Abort,
    alloc: Global,
    reader: &mut EntryReader<Anywhere>,
    input: &mut MemSource,
) -> Result<bool, RunEnd> {
    match reader.next(alloc, input) {
        Ok(Some(entry)) => {
            let user = entry.user;
            drop(entry);
            assert!(rt; user == 1);
            Ok(true)
        }
        Ok(None) => Ok(false),
        Err(end) => Err(end.run_end()),
    }
}

/// Pulls entries until there is none: how many there were, and how the input ended. A further pull
/// gives none.
fn pull_all(
    rt: &impl Abort,
    alloc: Global,
    reader: &mut EntryReader<Anywhere>,
    input: &mut MemSource,
) -> (u32, RunEnd) {
    for count in 0..4 {
        let end = match pull(rt, alloc, reader, input) {
            Ok(true) => continue,
            Ok(false) => RunEnd::Done,
            Err(end) => end,
        };
        assert!(rt; pull(rt, alloc, reader, input) == Ok(false));
        return (count, end);
    }
    panic!(rt; "more entries than frames")
}

/// What comes of a part of the stream: how many entries, and how it ended.
fn pulled_of_part(
    rt: &impl Abort,
    alloc: Global,
    len: usize,
    (piece, fails, limit): (usize, u64, u64),
) -> (u32, RunEnd) {
    assert!(rt; len <= 16);
    let mut input = source(rt, alloc, &STREAM[..len], piece, fails);
    let mut reader = EntryReader::<Anywhere>::new(alloc, 0, limit);
    pull_all(rt, alloc, &mut reader, &mut input)
}

#[test]
fn entries_of_parts(rt: HostRuntime) {
    for (place, (len, piece, fails, limit, count, end)) in ROWS.iter().enumerate() {
        let found = pulled_of_part(&rt, rt.alloc(), *len, (*piece, *fails, *limit));
        check(&rt, found == (*count, *end), place);
    }
}

/// What comes of the stream if so many bytes of it are handed to the reader, after 30 others.
fn pulled_after(rt: &impl Abort, alloc: Global, taken: usize) -> (u32, RunEnd) {
    assert!(rt; taken <= 16);
    let mut input = source(rt, alloc, &STREAM[taken..], 3, 0);
    let mut reader = EntryReader::<Anywhere>::new(alloc, 30, 46);
    reader.push(&STREAM[..taken]).expect(rt, "memory");
    pull_all(rt, alloc, &mut reader, &mut input)
}

#[test]
fn frames_begin_after_other_bytes(rt: HostRuntime) {
    for taken in 0..17 {
        let found = pulled_after(&rt, rt.alloc(), taken);
        check(&rt, found == (3, RunEnd::Done), taken);
    }
}

/// Has a reader hold a whole frame, and takes its entry: the user, or why the frame at a byte may
/// not stand.
fn taken(
    rt: &impl Abort,
    alloc: Global,
    reader: &mut EntryReader<Anywhere>,
    input: &mut MemSource,
) -> Result<u8, Option<(DecodeError, u64)>> {
    assert!(rt; reader.fill(input).expect(rt, "a frame"));
    match reader.take(alloc) {
        Ok(entry) => {
            let user = entry.user;
            drop(entry);
            Ok(user)
        }
        Err(ReadEnd::BadMessage(cause, at)) => Err(Some((cause, at))),
        Err(_) => Err(None),
    }
}

/// If a whole frame is held nothing is read, and one that may not stand stays.
#[test]
fn a_held_frame_needs_no_reading(rt: HostRuntime) {
    let bytes = [0x00, 0x00, 0x80, 0x01, 0x00, 0x00, 0x14, 0x01];
    let mut input = source(&rt, rt.alloc(), &bytes, 8, 0);
    let mut failing = source(&rt, rt.alloc(), &[], 1, 1);
    let mut reader = EntryReader::<Anywhere>::new(rt.alloc(), 0, 8);
    assert!(rt; taken(&rt, rt.alloc(), &mut reader, &mut input) == Ok(1));
    let refused = Err(Some((DecodeError::Unknown(0x14), 4)));
    assert!(rt; taken(&rt, rt.alloc(), &mut reader, &mut failing) == refused);
    assert!(rt; taken(&rt, rt.alloc(), &mut reader, &mut failing) == refused);
}

/// Takes an entry with so many frames before it: whether there was one, or why the frame at a byte
/// may not stand.
fn split_off(
    alloc: Global,
    splitter: &mut Splitter,
    before: u64,
) -> Result<bool, Option<(DecodeError, u64)>> {
    match take_entry::<Anywhere>(alloc, splitter, before) {
        Ok(Some(entry)) => {
            drop(entry);
            Ok(true)
        }
        Ok(None) => Ok(false),
        Err(
            Stop {
                at,
                why: Refusal::Cause(cause),
            },
        ) => Err(Some((cause, at))),
        Err(_) => Err(None),
    }
}

/// A splitter that holds the first two frames of the stream, a bad one and one byte.
fn splitter_of(rt: &impl Abort, alloc: Global) -> Splitter {
    let mut splitter = Splitter::new(alloc);
    splitter.feed(&STREAM[..10]).expect(rt, "memory");
    let bad = [0x00, 0x00, 0x14, 0x01, 0x00];
    splitter.feed(&bad).expect(rt, "memory");
    splitter
}

#[test]
fn a_splitter_gives_entries(rt: HostRuntime) {
    let mut splitter = splitter_of(&rt, rt.alloc());
    assert!(rt; split_off(rt.alloc(), &mut splitter, 0) == Ok(true));
    assert!(rt; split_off(rt.alloc(), &mut splitter, 1) == Ok(true));
    let refused = Err(Some((DecodeError::Unknown(0x14), 10)));
    assert!(rt; split_off(rt.alloc(), &mut splitter, 2) == refused);
    assert!(rt; split_off(rt.alloc(), &mut splitter, 3) == Ok(false));
    assert!(rt; splitter.rest_len() == 1);
}
