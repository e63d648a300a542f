//! Entries of a recording: a further pull answers as the one before.

use dp_io::MemSource;
use dp_lines::RunEnd;
use dp_recording::{
    Header, HeaderError, Profile, RecError, RecordingReader, put_header, read_header,
    the_header_is_one,
};
use std::alloc::Global;
use std::process::Abort;

/// An undo point, an undo and a chat of user 1, at the places 30, 34 and 40. Then a frame of which
/// no message is.
const FRAMES: [u8; 20] = [
    0x00, 0x00, 0x80, 0x01, 0x00, 0x02, 0xff, 0x01, 0x00, 0x00, 0x00, 0x02, 0x23, 0x01, 0x68, 0x69,
    0x00, 0x00, 0x14, 0x01,
];

/// How many bytes there are, the length of the pieces, and the read that fails (or 0). Then how
/// many entries there are, and how the recording ends.
static ROWS: [(usize, usize, u64, u32, RunEnd); 8] = [
    (46, 1, 0, 3, RunEnd::Done),
    (46, 47, 0, 3, RunEnd::Done),
    (45, 7, 0, 2, RunEnd::Truncated(40)),
    (34, 12, 0, 1, RunEnd::Done),
    (29, 5, 0, 0, RunEnd::BadHeader),
    (50, 7, 0, 3, RunEnd::BadMessage(46)),
    (46, 1, 1, 0, RunEnd::ReadFault),
    (46, 1, 47, 3, RunEnd::ReadFault),
];

/// The first bytes of the recording of these frames.
fn recording(rt: &impl Abort, alloc: Global, len: usize) -> Vec<u8> {
    let mut bytes = Vec::new(alloc);
    put_header(&mut bytes).expect(rt, "memory");
    bytes
        .extend_from_slice(FRAMES.as_slice())
        .expect(rt, "memory");
    assert!(rt; len <= bytes.len());
    bytes.truncate(len);
    bytes
}

/// The test ends if this doesn't hold of a row.
fn check(rt: &impl Abort, holds: bool, place: usize) {
    assert!(rt; holds, "row {place}");
}

/// Pulls once: whether there was an entry, which is of user 1, or why there is none.
fn pull(
    rt: &impl Abort,
    alloc: Global,
    reader: &mut RecordingReader,
    input: &mut MemSource,
) -> Result<bool, RecError> {
    match reader.next(alloc, input) {
        Ok(Some(entry)) => {
            let user = entry.user;
            drop(entry);
            assert!(rt; user == 1);
            Ok(true)
        }
        Ok(None) => Ok(false),
        Err(error) => Err(error),
    }
}

/// How a recording ended that gives no further entry.
fn end_of(pulled: Result<bool, RecError>) -> RunEnd {
    match pulled {
        Ok(_) => RunEnd::Done,
        Err(error) => error.run_end(),
    }
}

/// Pulls entries until there is none: how many there were, and how the recording ended. A further
/// pull answers the same, and reads nothing.
fn pull_all(
    rt: &impl Abort,
    alloc: Global,
    reader: &mut RecordingReader,
    input: &mut MemSource,
) -> (u32, RunEnd) {
    for count in 0..5 {
        let pulled = pull(rt, alloc, reader, input);
        if pulled == Ok(true) {
            continue;
        }
        assert!(rt; pull(rt, alloc, reader, input) == pulled);
        return (count, end_of(pulled));
    }
    panic!(rt; "more entries than frames")
}

/// What comes of so many bytes of the recording, in such pieces and with such a read that fails.
fn pulled_of(
    rt: &impl Abort,
    alloc: Global,
    len: usize,
    (piece, fails): (usize, u64),
) -> (u32, RunEnd) {
    assert!(rt; 1 <= piece);
    let bytes = recording(rt, alloc, len);
    let fails = vec![in alloc; fails].expect(rt, "memory");
    let mut input = MemSource::new(bytes, piece, fails);
    let mut reader = RecordingReader::new();
    pull_all(rt, alloc, &mut reader, &mut input)
}

#[test]
fn entries_of_recordings(rt: HostRuntime) {
    for (place, (len, piece, fails, count, end)) in ROWS.iter().enumerate() {
        let found = pulled_of(&rt, rt.alloc(), *len, (*piece, *fails));
        check(&rt, found == (*count, *end), place);
    }
}

/// Whether these bytes are read as a header like this.
fn is_read_as(alloc: Global, bytes: &[u8], wanted: Result<Header, HeaderError>) -> bool {
    read_header(alloc, bytes) == wanted
}

/// A header that is cut may go on, and one that is bad may not.
#[test]
fn headers(rt: HostRuntime) {
    let header = recording(&rt, rt.alloc(), 30);
    for len in 0..30 {
        assert!(rt; len <= header.len());
        let is_short = is_read_as(rt.alloc(), &header[..len], Err(HeaderError::Short));
        check(&rt, is_short, len);
    }
    let today = Header {
        profile: Profile::Second,
        len: 30,
    };
    assert!(rt; is_read_as(rt.alloc(), &header, Ok(today)));
    assert!(rt; is_read_as(rt.alloc(), b"DPREX", Err(HeaderError::Bad)));
    assert!(rt; is_read_as(rt.alloc(), b"DPREC0", Err(HeaderError::Bad)));
    the_header_is_one();
}
