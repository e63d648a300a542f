//! Links whose bytes come in pieces, and whose reads and writes fail.

use crate::link::{LinkEnd, run_link};
use dp_epochs::Reply;
use dp_io::{MemSink, MemSource};
use dp_keeper::{Keeper, MemKeeper, Rows, SureKeeper};
use dp_link::{DownEnd, GreetEnd, UpEnd};
use std::alloc::Global;
use std::process::Abort;
use std::sync::Wait;

/// What the peer sends, and the length of the pieces in which it comes and in which it is taken.
/// Then the numbers of the read and of the write that fail, or 0. Then how the link ends, how many
/// events were kept, how many closings were refused, and what the peer is sent.
#[derive(Drop)]
struct Row {
    bytes: &'static [u8],
    piece: usize,
    room: usize,
    read_fails: u64,
    write_fails: u64,
    end: LinkEnd,
    events: usize,
    shut: usize,
    feed: &'static [u8],
}

/// `Hello ann` and the Chat `hi`.
const ANN: &[u8] = b"\0\x03\0\0ann\0\x02\x23\0hi";

/// What the painter gets: the Welcome of user 1 with its Join at 1, the mark, the Join, the Owners,
/// the Chat and the Leave.
const FEED: &[u8] = &[
    0x00, 0x0b, 0x04, 0x00, 0x00, 0x01, 0x01, 0x00, 0x00, 0x00, 0x00, 0x00, 0x00, 0x00, 0x01, 0x00,
    0x08, 0x25, 0x00, 0x00, 0x00, 0x00, 0x00, 0x00, 0x00, 0x00, 0x00, 0x00, 0x04, 0x20, 0x01, 0x00,
    0x61, 0x6e, 0x6e, 0x00, 0x01, 0x22, 0x00, 0x01, 0x00, 0x02, 0x23, 0x01, 0x68, 0x69, 0x00, 0x00,
    0x21, 0x01,
];

/// What a peer is sent without the Chat.
const SILENT_FEED: &[u8] = &[
    0x00, 0x0b, 0x04, 0x00, 0x00, 0x01, 0x01, 0x00, 0x00, 0x00, 0x00, 0x00, 0x00, 0x00, 0x01, 0x00,
    0x08, 0x25, 0x00, 0x00, 0x00, 0x00, 0x00, 0x00, 0x00, 0x00, 0x00, 0x00, 0x04, 0x20, 0x01, 0x00,
    0x61, 0x6e, 0x6e, 0x00, 0x01, 0x22, 0x00, 0x01, 0x00, 0x00, 0x21, 0x01,
];

/// A link that is served to its end.
const SERVED: Row = Row {
    bytes: ANN,
    piece: 7,
    room: 7,
    read_fails: 0,
    write_fails: 0,
    end: Ok((UpEnd::End, true, DownEnd::Gone)),
    events: 3,
    shut: 0,
    feed: FEED,
};

/// A link that is not greeted, so that nothing is acted and nothing sent.
const NOT_GREETED: Row = Row {
    end: Err(GreetEnd::BadMessage { at: 0 }),
    events: 0,
    feed: &[],
    ..SERVED
};

/// A link whose painter says nothing after the Hello.
const SILENT: Row = Row {
    events: 2,
    feed: SILENT_FEED,
    ..SERVED
};

/// The list of a number, or none if it is 0.
fn numbers(rt: &impl Abort, alloc: Global, n: u64) -> Vec<u64> {
    let mut list = Vec::new(alloc);
    if n > 0 {
        list.push(n).expect(rt, "memory");
    }
    list
}

/// The test ends if this doesn't hold of a row.
fn check(rt: &impl Abort, holds: bool, what: &str, place: usize) {
    assert!(rt; holds, "{what} of row {place}");
}

/// What a peer sends, and what it is sent, by the numbers of a row.
fn peer_of(rt: &impl Abort, alloc: Global, row: &Row) -> (MemSource, MemSink) {
    assert!(rt; row.piece > 0 && row.room > 0);
    let bytes = Vec::from_slice(alloc, row.bytes).expect(rt, "memory");
    let rx = MemSource::new(bytes, row.piece, numbers(rt, alloc, row.read_fails));
    let fails = numbers(rt, alloc, row.write_fails);
    let tx = MemSink::new(alloc, 100, row.room, fails).expect(rt, "memory");
    (rx, tx)
}

/// Serves a link over a store: how it ends, how many events were kept, and how many closings were
/// refused.
fn serve<R: Wait + Abort, K: Keeper + Drop>(
    rt: &R,
    alloc: Global,
    keeper: K,
    rx: &mut MemSource,
    tx: &mut MemSink,
) -> (LinkEnd, usize, usize) {
    let (end, journal, shut) = run_link(rt, alloc, keeper, rx, tx).expect(rt, "memory");
    let (events, closings) = (journal.as_slice().len(), shut.as_slice().len());
    drop(journal);
    drop(shut);
    (end, events, closings)
}

/// Serves the link of a row over a store, and looks at all that it leaves.
fn check_over<R: Wait + Abort, K: Keeper + Drop>(
    rt: &R,
    alloc: Global,
    keeper: K,
    row: &Row,
    place: usize,
) {
    let (mut rx, mut tx) = peer_of(rt, alloc, row);
    let (end, events, closings) = serve(rt, alloc, keeper, &mut rx, &mut tx);
    check(rt, end == row.end, "the end", place);
    check(
        rt,
        (events, closings) == (row.events, row.shut),
        "what is kept",
        place,
    );
    check(rt, tx.as_slice() == row.feed, "the feed", place);
    drop(rx);
    drop(tx);
}

/// Looks at the link of a row over a store that never fails.
fn check_row<R: Wait + Abort>(rt: &R, alloc: Global, row: &Row, place: usize) {
    check_over(rt, alloc, SureKeeper::new(Rows::new(alloc)), row, place);
}

/// What was the painter's own goes into the journal, in pieces of every length.
#[test]
fn pieces_do_not_matter(rt: HostRuntime) {
    for piece in 1..15 {
        let row = Row {
            piece,
            room: piece,
            ..SERVED
        };
        check_row(&rt, rt.alloc(), &row, piece);
    }
}

/// Each write fails in turn: the peer took the bytes before it. Those of the Welcome are the first
/// 15.
#[test]
fn each_write_fails_in_turn(rt: HostRuntime) {
    for taken in 0..50 {
        assert!(rt; taken <= FEED.len());
        let (end, events) = if taken < 15 {
            (Err(GreetEnd::WriteFault), 2)
        } else {
            (Ok((UpEnd::End, true, DownEnd::WriteFault)), 3)
        };
        let row = Row {
            room: 1,
            write_fails: taken as u64 + 1,
            end,
            events,
            feed: &FEED[..taken],
            ..SERVED
        };
        check_row(&rt, rt.alloc(), &row, taken);
    }
}

static ROWS: [Row; 9] = [
    // Each read fails in turn. Before the Hello is whole nothing is acted; after it the painter
    // leaves, and gets what was placed.
    Row {
        read_fails: 1,
        end: Err(GreetEnd::ReadFault),
        ..NOT_GREETED
    },
    Row {
        read_fails: 2,
        end: Ok((UpEnd::ReadFault, true, DownEnd::Gone)),
        ..SILENT
    },
    Row {
        read_fails: 3,
        end: Ok((UpEnd::ReadFault, true, DownEnd::Gone)),
        ..SERVED
    },
    // What the first frame is.
    Row {
        bytes: b"\0\0\x14\0",
        ..NOT_GREETED
    },
    Row {
        bytes: b"\0\x02\x23\0hi",
        ..NOT_GREETED
    },
    Row {
        bytes: b"\0\x03\0\0an",
        end: Err(GreetEnd::End),
        ..NOT_GREETED
    },
    // A bad frame later, also one after the painter left. The Disconnect is an event too.
    Row {
        bytes: b"\0\x03\0\0ann\0\0\x14\0",
        end: Ok((UpEnd::BadMessage { at: 7 }, true, DownEnd::Gone)),
        ..SILENT
    },
    Row {
        bytes: b"\0\x03\0\0ann\0\x01\x01\0\0\0\0\x14\0",
        end: Ok((UpEnd::Left, true, DownEnd::Gone)),
        events: 3,
        ..SILENT
    },
    // A name that is no text is refused with a Disconnect.
    Row {
        bytes: b"\0\x01\0\0\xff",
        end: Err(GreetEnd::Refused(Reply::NameRefused)),
        events: 1,
        feed: b"\0\x01\x01\0\x02",
        ..NOT_GREETED
    },
];

#[test]
fn rows(rt: HostRuntime) {
    for (place, row) in ROWS.iter().enumerate() {
        check_row(&rt, rt.alloc(), row, place);
    }
}

/// The store fails at the Say: the Say and the Close are refused, and nothing more is sent.
#[test]
fn the_store_fails_at_a_say(rt: HostRuntime) {
    let alloc = rt.alloc();
    let fails = vec![in alloc; (2u64, false)].expect(&rt, "memory");
    let keeper = MemKeeper::new(Rows::new(alloc), fails, Vec::new(alloc));
    let refused = UpEnd::Refused(Reply::StoreFault { count: 1 });
    assert!(rt; FEED.len() == 50);
    let row = Row {
        end: Ok((refused, true, DownEnd::Gone)),
        events: 1,
        shut: 1,
        feed: &FEED[..15],
        ..SERVED
    };
    check_over(&rt, alloc, keeper, &row, 0);
}
