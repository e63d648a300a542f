//! Sessions that go on from the rows of a store.

use crate::tests::Deed::*;
use crate::tests::{Deed, check, close, failing, pulled, put_entries, serve};
use dp_any_session::SessionCore;
use dp_epochs::Answer;
use dp_frame::Octets;
use dp_keeper::{MemKeeper, Row, RowBytes, Rows};
use dp_messages::{Entry, Msg, same};
use dp_session::{ResumeError, ResumeFault, Session};
use std::alloc::Global;
use std::process::Abort;

/// The first of two users resets the session and leaves, and the second one goes on.
static EVENTS: [Deed; 10] = [
    Open(b"a"),
    Open(b"b"),
    Point(1),
    Begin(1),
    Part(1),
    End(1),
    Ack(2, 1),
    Point(2),
    Close(1),
    Point(2),
];

/// The first events come to a session.
fn serve_first(rt: &impl Abort, alloc: Global, session: &mut Session<MemKeeper>, count: usize) {
    for deed in EVENTS.iter().take(count) {
        let _answer = serve(rt, alloc, session, *deed);
    }
}

/// The session that is resumed over this store.
fn resumed(rt: &impl Abort, alloc: Global, keeper: MemKeeper) -> Session<MemKeeper> {
    match Session::resume(alloc, keeper) {
        Ok(session) => session,
        Err(_) => panic!(rt; "not resumed"),
    }
}

/// What the connection of a number gets from the beginning on, as frames.
fn feed(rt: &impl Abort, alloc: Global, session: &Session<MemKeeper>, conn: u32) -> Vec<u8> {
    let mut frames = Vec::new(alloc);
    let answer = pulled(rt, session, (conn, 0, 0, 1000));
    put_entries(rt, &answer, &mut frames);
    drop(answer);
    frames
}

/// Acts one event more on both sessions, and checks that they answer it alike and have the same
/// connections and feeds.
fn same_sessions(
    rt: &impl Abort,
    alloc: Global,
    session: &mut Session<MemKeeper>,
    other: &mut Session<MemKeeper>,
) {
    let answer = serve(rt, alloc, session, Open(b"c"));
    assert!(rt; answer == serve(rt, alloc, other, Open(b"c")));
    for conn in 1..4u32 {
        let is_same = session.conns(conn) == other.conns(conn);
        check(rt, is_same, "connections", conn as usize);
        let frames = feed(rt, alloc, session, conn);
        let others = feed(rt, alloc, other, conn);
        let is_same = frames.as_slice() == others.as_slice();
        check(rt, is_same, "feeds", conn as usize);
    }
}

/// The store that a session leaves whose put of this number failed, after the events before.
fn left(rt: &impl Abort, alloc: Global, call: usize, kept: bool) -> MemKeeper {
    let mut session = failing(rt, alloc, call, kept);
    serve_first(rt, alloc, &mut session, EVENTS.len());
    let (keeper, journal, shut) = session.into_parts();
    let count = journal.as_slice().len();
    drop(journal);
    drop(shut);
    check(rt, count == call.wrapping_sub(1), "events kept", call);
    keeper
}

/// Whether a session leaves so many events and rows, and no connection that was shut.
fn leaves(session: Session<MemKeeper>, count: usize) -> bool {
    let (keeper, journal, shut) = session.into_parts();
    let is_so = journal.as_slice().len() == count
        && keeper.held().as_slice().len() == count
        && shut.as_slice().is_empty();
    drop(keeper);
    drop(journal);
    is_so
}

/// A store whose put of this number fails. Its rows lead to the events before, with the one whose
/// put failed if its row was kept.
fn reopens(rt: &impl Abort, alloc: Global, call: usize, kept: bool) {
    let keeper = left(rt, alloc, call, kept);
    let count = keeper.held().as_slice().len();
    let mut session = resumed(rt, alloc, keeper);
    let mut other = failing(rt, alloc, 100, false);
    serve_first(rt, alloc, &mut other, count);
    same_sessions(rt, alloc, &mut session, &mut other);
    close(other);
    check(rt, leaves(session, count + 1), "reopened", call);
}

#[test]
fn a_store_that_failed_is_reopened(rt: HostRuntime) {
    for call in 1..11usize {
        reopens(&rt, rt.alloc(), call, false);
        reopens(&rt, rt.alloc(), call, true);
    }
}

/// Numbers and bytes of rows, and the place of the first that may not stand, if there is one.
struct Kept {
    rows: &'static [(u64, &'static [u8])],
    bad: Option<u64>,
}

const JOINS: (u64, &[u8]) = (0, b"\x00\x00nn");

static KEPT: [Kept; 13] = [
    Kept {
        rows: &[],
        bad: None,
    },
    Kept {
        rows: &[
            JOINS,
            (1, b"\x03\x00\x00\x00\x01\x80"),
            (2, b"\x02\x00\x00\x00\x01"),
        ],
        bad: None,
    },
    // Kind 70 is UndoDepth of one byte, and any message in the first profile.
    Kept {
        rows: &[JOINS, (1, b"\x01\x00\x00\x00\x01\x46\xaa\xbb")],
        bad: None,
    },
    Kept {
        rows: &[JOINS, (1, b"\x03\x00\x00\x00\x01\x46\xaa\xbb")],
        bad: Some(1),
    },
    Kept {
        rows: &[
            JOINS,
            (2, b"\x02\x00\x00\x00\x01"),
            (1, b"\x02\x00\x00\x00\x01"),
        ],
        bad: Some(1),
    },
    Kept {
        rows: &[(1, b"\x00\x00nn")],
        bad: Some(0),
    },
    Kept {
        rows: &[(0, b"\x00\x02nn")],
        bad: Some(0),
    },
    Kept {
        rows: &[JOINS, (1, b"\x02\x00\x00\x00\x01\x00")],
        bad: Some(1),
    },
    Kept {
        rows: &[JOINS, (1, b"\x02\x00\x00\x00\x02")],
        bad: Some(1),
    },
    Kept {
        rows: &[JOINS, (1, b"\x03\x00\x00\x00\x00\x80"), (2, b"\x05")],
        bad: Some(1),
    },
    Kept {
        rows: &[JOINS, (1, b"\x03\x00\x00\x00\x01")],
        bad: Some(1),
    },
    Kept {
        rows: &[(0, b"\x04\x00nn")],
        bad: Some(0),
    },
    Kept {
        rows: &[(0, b"")],
        bad: Some(0),
    },
];

/// A store of these rows, whose reading of this number fails.
fn holding(rt: &impl Abort, alloc: Global, rows: &[(u64, &'static [u8])], fails: u64) -> MemKeeper {
    let mut held = Rows::new(alloc);
    for (n, bytes) in rows {
        let bytes = Vec::from_slice(alloc, bytes).expect(rt, "memory");
        let bytes = RowBytes::from_vec(bytes);
        held.push(Row { n: *n, bytes }).expect(rt, "memory");
    }
    let fails = vec![in alloc; fails; 1].expect(rt, "memory");
    MemKeeper::new(held, Vec::new(alloc), fails)
}

/// Whether the store has these rows.
fn has_rows(keeper: &MemKeeper, rows: &[(u64, &'static [u8])]) -> bool {
    let held = keeper.held().as_slice();
    for (row, (n, bytes)) in held.iter().zip(rows) {
        if row.n != *n || row.bytes.as_slice() != *bytes {
            return false;
        }
    }
    held.len() == rows.len()
}

/// The store that a session leaves, and whether each of these rows was an event of it.
fn left_whole(session: Session<MemKeeper>, kept: &Kept) -> (MemKeeper, bool) {
    let (keeper, journal, shut) = session.into_parts();
    let count = journal.as_slice().len();
    drop(journal);
    drop(shut);
    (keeper, kept.bad == None && count == kept.rows.len())
}

/// Whether a fault names the row that may not stand.
fn names_bad(why: &ResumeFault, kept: &Kept) -> bool {
    let ResumeFault::BadRow { n, row } = why else {
        return false;
    };
    let told = kept.rows.get(*n as usize);
    Some(*n) == kept.bad
        && told.map(|(n, _)| *n) == Some(row.n)
        && told.map(|(_, bytes)| bytes.len()) == Some(row.bytes.len())
}

/// Checks what comes of resuming a session over a store of the rows, which stand at this place.
fn comes(rt: &impl Abort, alloc: Global, kept: &Kept, place: usize) {
    let (keeper, is_so) = match Session::resume(alloc, holding(rt, alloc, kept.rows, 0)) {
        Ok(session) => left_whole(session, kept),
        Err(ResumeError { keeper, why }) => {
            let is_so = names_bad(&why, kept);
            drop(why);
            (keeper, is_so)
        }
    };
    check(rt, is_so, "what comes", place);
    check(rt, has_rows(&keeper, kept.rows), "rows", place);
}

#[test]
fn rows_are_read(rt: HostRuntime) {
    for (place, kept) in KEPT.iter().enumerate() {
        comes(&rt, rt.alloc(), kept, place);
    }
}

/// The entry is of user 1 and of kind 71, and has two bytes.
fn is_of_kind_71(rt: &impl Abort, alloc: Global, entry: &Entry) {
    assert!(rt; (entry.user, entry.msg.kind()) == (1, 71));
    let body = Octets::from_vec(Vec::from_slice(alloc, &[0xaa, 0xbb]).expect(rt, "memory"));
    let want = Msg::Opaque { kind: 71, body };
    assert!(rt; same(&entry.msg, &want));
    drop(want);
}

/// The fourth entry of the first connection is of kind 71.
fn gives_kind_71(rt: &impl Abort, alloc: Global, session: &Session<MemKeeper>) {
    let answer = pulled(rt, session, (1, 0, 3, 1));
    let Answer::Entries { list, .. } = &answer else {
        panic!(rt; "gone");
    };
    assert!(rt; list.as_slice().len() == 1);
    is_of_kind_71(rt, alloc, &list.as_slice()[0]);
    drop(answer);
}

/// A row of the first profile whose kind is 70 says a message of kind 71.
#[test]
fn the_first_profile_is_read(rt: HostRuntime) {
    let keeper = holding(&rt, rt.alloc(), KEPT[2].rows, 0);
    let session = resumed(&rt, rt.alloc(), keeper);
    gives_kind_71(&rt, rt.alloc(), &session);
    close(session);
}

/// The store that a session leaves which wasn't resumed, since a reading failed.
fn unread(rt: &impl Abort, alloc: Global, keeper: MemKeeper) -> MemKeeper {
    match Session::resume(alloc, keeper) {
        Ok(_) => panic!(rt; "resumed"),
        Err(ResumeError { keeper, why }) => {
            assert!(rt; matches!(why, ResumeFault::StoreFault));
            drop(why);
            keeper
        }
    }
}

/// A store that fails to read says so, and can be read again.
#[test]
fn a_reading_that_failed(rt: HostRuntime) {
    for call in 1..3u64 {
        let keeper = holding(&rt, rt.alloc(), KEPT[1].rows, call);
        let keeper = unread(&rt, rt.alloc(), keeper);
        assert!(rt; has_rows(&keeper, KEPT[1].rows));
        let session = resumed(&rt, rt.alloc(), keeper);
        assert!(rt; session.conns(0) == None);
        close(session);
    }
}
