//! Sessions, with what they answer, worked out from the rule by hand.

ghost use Rattle.std.specs.Prelude.{None};

use dp_any_session::SessionCore;
use dp_epochs::{Answer, Event, Query, Reply, Shut, ShutAt};
use dp_frame::Octets;
use dp_history::PageFrames;
use dp_keeper::{KeepError, Keeper, MemKeeper, Row, Rows, SureKeeper};
use dp_messages::{Msg, put_entry};
use dp_msg_draw::Draw;
use dp_msg_meta::{Control, Ids, Meta};
use dp_session::Session;
use std::alloc::Global;
use std::process::Abort;

/// What happens to a session: a user asks to join under a name, or the connection of a number says
/// something or is closed. `Part` is a command that belongs to a reset.
#[derive(Clone, Copy)]
pub(crate) enum Deed {
    Open(&'static [u8]),
    Point(u32),
    Owners(u32),
    Ack(u32, u32),
    Begin(u32),
    KeepFrom(u32, u32),
    Part(u32),
    End(u32),
    Close(u32),
}

use Deed::*;

/// A copy of bytes.
fn octets(rt: &impl Abort, alloc: Global, bytes: &[u8]) -> Octets {
    Octets::from_vec(Vec::from_slice(alloc, bytes).expect(rt, "memory"))
}

/// The message that is said.
fn message(alloc: Global, deed: Deed) -> Msg {
    match deed {
        Ack(_, epoch) => Msg::Control(Control::Ack { epoch }),
        Begin(_) => Msg::Control(Control::ResetBegin),
        KeepFrom(_, at) => Msg::Control(Control::ResetFrom { at }),
        End(_) => Msg::Control(Control::ResetEnd),
        Part(_) => Msg::Part(Draw::Background { color: 255 }),
        Owners(_) => {
            let ids = Ids::from_vec(Vec::new(alloc));
            Msg::Meta(Meta::Owners { ids })
        }
        _ => Msg::Point,
    }
}

/// The event.
pub(crate) fn event(rt: &impl Abort, alloc: Global, deed: Deed) -> Event {
    match deed {
        Open(name) => Event::Open {
            name: octets(rt, alloc, name),
            registered: false,
        },
        Close(conn) => Event::Close { conn },
        Point(conn)
        | Owners(conn)
        | Ack(conn, _)
        | Begin(conn)
        | KeepFrom(conn, _)
        | Part(conn)
        | End(conn) => {
            let msg = message(alloc, deed);
            Event::Say { conn, msg }
        }
    }
}

/// A session over a store that never fails.
fn session(rt: &impl Abort, alloc: Global) -> Session<SureKeeper> {
    Session::new(alloc, SureKeeper::new(Rows::new(alloc))).expect(rt, "memory")
}

/// The test ends if this doesn't hold at a place of a table.
pub(crate) fn check(rt: &impl Abort, holds: bool, table: &str, place: usize) {
    assert!(rt; holds, "{table}: {place}");
}

/// Lets a session go, by its parts: so its own drop isn't proved here.
pub(crate) fn close<K: Keeper + Drop>(session: Session<K>) {
    let (keeper, journal, shut) = session.into_parts();
    drop(keeper);
    drop(journal);
    drop(shut);
}

/// Serves an event.
pub(crate) fn serve<K: Keeper>(
    rt: &impl Abort,
    alloc: Global,
    session: &mut Session<K>,
    deed: Deed,
) -> Reply {
    let event = event(rt, alloc, deed);
    let reply = session.step(&event);
    drop(event);
    reply.expect(rt, "memory")
}

/// Serves an event, which has this answer. It stands at a place of a table.
fn check_serve<K: Keeper>(
    rt: &impl Abort,
    alloc: Global,
    session: &mut Session<K>,
    (deed, answer): (Deed, Reply),
    (table, place): (&str, usize),
) {
    let given = serve(rt, alloc, session, deed);
    check(rt, given == answer, table, place);
}

/// The answer to the Open of a user, if one has joined for each id before.
fn opened(user: u8) -> Reply {
    let conn = u32::from(user);
    Reply::Opened {
        conn,
        user,
        epoch: 0,
        at: if user == 1 { 1 } else { conn + 1 },
    }
}

/// A Pull: the connection, the epoch, from where on, and how many entries at most.
type Pull = (u32, u32, u32, u32);

/// The answer to a Pull.
pub(crate) fn pulled<K: Keeper>(
    rt: &impl Abort,
    session: &Session<K>,
    (conn, epoch, at, max): Pull,
) -> Answer {
    let query = Query::Pull {
        conn,
        epoch,
        at,
        max,
    };
    session.ask(&query).expect(rt, "memory")
}

/// The epoch of an answer's entries, from where on they are, and how many; `None` for Gone.
fn extent_of(answer: &Answer) -> Option<(u32, u32, usize)> {
    match answer {
        Answer::Entries { epoch, at, list } => Some((*epoch, *at, list.as_slice().len())),
        Answer::Gone => None,
    }
}

/// Adds the frames of an answer's entries.
pub(crate) fn put_entries(rt: &impl Abort, answer: &Answer, frames: &mut Vec<u8>) {
    if let Answer::Entries { list, .. } = answer {
        for entry in list.as_slice() {
            put_entry(entry, frames).expect(rt, "memory");
        }
    }
}

/// Whether a Pull gives so many entries, and from this place on; `None` for Gone.
fn gives<K: Keeper>(
    rt: &impl Abort,
    session: &Session<K>,
    pull: Pull,
    wanted: Option<(u32, usize)>,
) -> bool {
    let answer = pulled(rt, session, pull);
    let extent = extent_of(&answer);
    drop(answer);
    extent.map(|(_, at, count)| (at, count)) == wanted
}

/// Whether a page of frames is what a Pull of as many entries is answered.
fn has_page<K: Keeper>(
    rt: &impl Abort,
    alloc: Global,
    session: &Session<K>,
    (conn, epoch, at, _): Pull,
) -> bool {
    let mut frames = PageFrames::new(alloc);
    let page = session
        .put_page(conn, epoch, at, &mut frames)
        .expect(rt, "memory");
    let max = page.map_or(1, |page| u32::try_from(page.count).unwrap_or(0));
    let answer = pulled(rt, session, (conn, epoch, at, max));
    let mut written = Vec::new(alloc);
    put_entries(rt, &answer, &mut written);
    let extent = extent_of(&answer);
    drop(answer);
    page.map(|page| (page.epoch, page.at, page.count)) == extent
        && frames.as_slice() == written.as_slice()
}

/// The answers to the first two users who join.
const FIRST: Reply = Reply::Opened {
    conn: 1,
    user: 1,
    epoch: 0,
    at: 1,
};

const SECOND: Reply = Reply::Opened {
    conn: 2,
    user: 2,
    epoch: 0,
    at: 3,
};

/// Events with their answers; then how many connections take part in an epoch, and Pulls with what
/// they give.
struct Case {
    name: &'static str,
    events: &'static [(Deed, Reply)],
    conns: &'static [(u32, Option<u32>)],
    pulls: &'static [(Pull, Option<(u32, usize)>)],
}

static CASES: [Case; 4] = [
    // Each answer.
    Case {
        name: "each answer",
        events: &[
            (Open(b""), Reply::NameRefused),
            (Open(b"\xff"), Reply::NameRefused),
            (
                Open(b"abcdefghijklmnopqrstuvwxyz0123456"),
                Reply::NameRefused,
            ),
            (Open(b"abcdefghijklmnopqrstuvwxyz012345"), FIRST),
            (Open(b"a"), SECOND),
            (Owners(2), Reply::Filtered { epoch: 0, at: 4 }),
            (Point(2), Reply::Placed { epoch: 0, at: 5 }),
            (Ack(2, 0), Reply::Ignored),
            (Close(1), Reply::Placed { epoch: 0, at: 6 }),
            (Close(1), Reply::Ignored),
        ],
        conns: &[(0, Some(2))],
        pulls: &[
            ((1, 0, 5, 9), Some((5, 2))),
            ((1, 0, 7, 9), None),
            ((2, 0, 7, 9), Some((7, 1))),
            ((2, 1, 7, 0), Some((0, 1))),
        ],
    },
    // Of two users the first is operator, and resets the session. The opening has the mark, two
    // Joins, four messages about rights, and the command.
    Case {
        name: "a reset",
        events: &[
            (Open(b"a"), FIRST),
            (Open(b"a"), SECOND),
            (Part(1), Reply::Filtered { epoch: 0, at: 4 }),
            (Begin(1), Reply::Noted),
            (Begin(2), Reply::Filtered { epoch: 0, at: 5 }),
            (Part(1), Reply::Noted),
            (Part(2), Reply::Filtered { epoch: 0, at: 6 }),
            (End(2), Reply::Filtered { epoch: 0, at: 7 }),
            (End(1), Reply::Placed { epoch: 1, at: 0 }),
            (Point(2), Reply::Ignored),
            (Ack(2, 0), Reply::Ignored),
            (Ack(2, 1), Reply::Noted),
            (Ack(2, 1), Reply::Ignored),
            (Point(2), Reply::Placed { epoch: 1, at: 8 }),
            (Begin(1), Reply::Ignored),
            (Ack(1, 1), Reply::Noted),
            (End(1), Reply::Filtered { epoch: 1, at: 9 }),
        ],
        conns: &[],
        pulls: &[
            ((1, 0, 3, 100), Some((0, 10))),
            ((2, 1, 8, 1), Some((8, 1))),
            ((2, 1, 10, 1), Some((10, 0))),
        ],
    },
    // A reset keeps the two points from place 4 on, and no Filtered: the opening has the mark, two
    // Joins, four messages about rights, the command and the points. A place may be the length of
    // the history, and not past it. A reset that begins anew without a place keeps nothing.
    Case {
        name: "a reset that keeps",
        events: &[
            (Open(b"a"), FIRST),
            (Open(b"a"), SECOND),
            (Point(2), Reply::Placed { epoch: 0, at: 4 }),
            (KeepFrom(2, 0), Reply::Filtered { epoch: 0, at: 5 }),
            (KeepFrom(1, 7), Reply::Filtered { epoch: 0, at: 6 }),
            (KeepFrom(1, 7), Reply::Noted),
            (KeepFrom(1, 4), Reply::Noted),
            (Point(2), Reply::Placed { epoch: 0, at: 7 }),
            (Part(1), Reply::Noted),
            (End(1), Reply::Placed { epoch: 1, at: 0 }),
            (Ack(2, 1), Reply::Noted),
            (Point(2), Reply::Placed { epoch: 1, at: 10 }),
            (KeepFrom(1, 0), Reply::Ignored),
            (Ack(1, 1), Reply::Noted),
            (KeepFrom(1, 0), Reply::Noted),
            (Begin(1), Reply::Noted),
            (End(1), Reply::Placed { epoch: 2, at: 0 }),
            (Ack(1, 2), Reply::Noted),
            (Point(1), Reply::Placed { epoch: 2, at: 7 }),
        ],
        conns: &[],
        pulls: &[
            ((1, 1, 3, 100), Some((0, 8))),
            ((2, 2, 7, 100), Some((7, 1))),
        ],
    },
    // A reset is dropped with its owner, and the next operator may send one.
    Case {
        name: "a reset that is dropped",
        events: &[
            (Open(b"a"), FIRST),
            (Open(b"a"), SECOND),
            (Begin(1), Reply::Noted),
            (Close(1), Reply::Placed { epoch: 0, at: 4 }),
            (End(2), Reply::Filtered { epoch: 0, at: 6 }),
            (Begin(2), Reply::Noted),
            (End(2), Reply::Placed { epoch: 1, at: 0 }),
            (Ack(2, 1), Reply::Noted),
            (Begin(2), Reply::Noted),
            (End(2), Reply::Placed { epoch: 2, at: 0 }),
            (Ack(2, 1), Reply::Ignored),
            (Ack(2, 2), Reply::Noted),
            (Point(2), Reply::Placed { epoch: 2, at: 6 }),
        ],
        conns: &[],
        pulls: &[((1, 0, 4, 1), None)],
    },
];

/// Serves the events of a case, and asks what it asks.
fn check_case(rt: &impl Abort, alloc: Global, case: &Case) {
    let mut session = session(rt, alloc);
    for (k, row) in case.events.iter().enumerate() {
        check_serve(rt, alloc, &mut session, *row, (case.name, k));
    }
    check_asked(rt, alloc, &session, case);
    close(session);
}

/// Asks what a case asks.
fn check_asked(rt: &impl Abort, alloc: Global, session: &Session<SureKeeper>, case: &Case) {
    for (epoch, count) in case.conns {
        check(rt, session.conns(*epoch) == *count, case.name, 100);
    }
    for (k, (pull, wanted)) in case.pulls.iter().enumerate() {
        let gives = gives(rt, session, *pull, *wanted);
        check(
            rt,
            gives && has_page(rt, alloc, session, *pull),
            case.name,
            k,
        );
    }
}

#[test]
fn answers(rt: HostRuntime) {
    for case in &CASES {
        check_case(&rt, rt.alloc(), case);
    }
}

/// The events of a session of which each id is given.
static FULL: [(Deed, Reply); 3] = [
    (Open(b"a"), Reply::Full),
    (Close(7), Reply::Placed { epoch: 0, at: 256 }),
    (
        Open(b"a"),
        Reply::Opened {
            conn: 255,
            user: 7,
            epoch: 0,
            at: 257,
        },
    ),
];

#[test]
fn ids_are_given_again(rt: HostRuntime) {
    let mut session = session(&rt, rt.alloc());
    for user in 1..255u8 {
        let row = (Open(b"a"), opened(user));
        let place = ("joins", usize::from(user));
        check_serve(&rt, rt.alloc(), &mut session, row, place);
    }
    for (k, row) in FULL.iter().enumerate() {
        check_serve(&rt, rt.alloc(), &mut session, *row, ("ids", k));
    }
    close(session);
}

/// Two users join, say something and leave.
static EVENTS: [Deed; 10] = [
    Open(b"a"),
    Open(b"a"),
    Point(1),
    Point(2),
    Point(2),
    Close(1),
    Open(b"a"),
    Point(1),
    Point(2),
    Close(2),
];

/// Serves these events over a store that fails at the put of this number: all answers from there on
/// are faults.
fn run_to_fault(rt: &impl Abort, alloc: Global, session: &mut Session<MemKeeper>, call: usize) {
    for (k, deed) in EVENTS.iter().enumerate() {
        let answer = serve(rt, alloc, session, *deed);
        let is_fault = answer == Reply::StoreFault { count: 1 };
        check(rt, is_fault == (k + 1 >= call), "faults", k);
    }
}

/// A session over an empty store that fails at the put of this number, with the row kept or lost.
pub(crate) fn failing(
    rt: &impl Abort,
    alloc: Global,
    call: usize,
    kept: bool,
) -> Session<MemKeeper> {
    let fails = vec![in alloc; (call as u64, kept)].expect(rt, "memory");
    let keeper = MemKeeper::new(Rows::new(alloc), fails, Vec::new(alloc));
    Session::new(alloc, keeper).expect(rt, "memory")
}

/// How many rows a session over a store leaves, how many events, and the closings that were
/// refused.
fn left(session: Session<MemKeeper>) -> (usize, usize, Shut) {
    let (keeper, journal, shut) = session.into_parts();
    let counts = (keeper.held().as_slice().len(), journal.as_slice().len());
    drop(keeper);
    drop(journal);
    (counts.0, counts.1, shut)
}

/// A store that fails at the put of this number, with the row kept or lost: the closings after are
/// `closings`.
fn fails_at(rt: &impl Abort, alloc: Global, call: usize, kept: bool, closings: &[ShutAt]) {
    let mut session = failing(rt, alloc, call, kept);
    run_to_fault(rt, alloc, &mut session, call);
    let (rows, events, shut) = left(session);
    let before = call.wrapping_sub(1);
    check(
        rt,
        rows == (if kept { call } else { before }),
        "rows kept",
        call,
    );
    check(rt, events == before, "events kept", call);
    check(rt, shut.as_slice() == closings, "closings", call);
}

#[test]
fn a_store_that_fails(rt: HostRuntime) {
    let first = [ShutAt { conn: 1, n: 2 }, ShutAt { conn: 2, n: 2 }];
    let last = [ShutAt { conn: 2, n: 9 }];
    fails_at(&rt, rt.alloc(), 3, false, &first);
    fails_at(&rt, rt.alloc(), 3, true, &first);
    fails_at(&rt, rt.alloc(), 10, false, &last);
    fails_at(&rt, rt.alloc(), 10, true, &last);
}

/// A store that keeps nothing.
#[derive(Drop)]
struct Forgetful {}

impl Keeper for Forgetful {
    ghost held = { λ k. None };

    ghost put_faults = { λ k. 0 };

    ghost read_faults = { λ k. 0 };

    fn put(&mut self, _row: &Row) -> Result<(), KeepError> {
        Ok(())
    }

    fn rows(&mut self, _from: u64, _max: u32) -> Result<Rows, KeepError> {
        Err(KeepError::Memory)
    }

    fn count(&self) -> u64 {
        0
    }
}

/// Connection 1 says a message of an unlisted kind, with that many bytes.
fn say_bytes(
    rt: &impl Abort,
    alloc: Global,
    session: &mut Session<Forgetful>,
    length: usize,
) -> Reply {
    let body = Octets::from_vec(vec![in alloc; 0; length].expect(rt, "memory"));
    let msg = Msg::Opaque { kind: 200, body };
    let event = Event::Say { conn: 1, msg };
    let reply = session.step(&event);
    drop(event);
    reply.expect(rt, "memory")
}

/// Connection 1 says so many bytes, and this is answered.
fn check_say(
    rt: &impl Abort,
    alloc: Global,
    session: &mut Session<Forgetful>,
    (length, answer): (usize, Reply),
    place: usize,
) {
    let given = say_bytes(rt, alloc, session, length);
    check(rt, given == answer, "messages", place);
}

/// How many bytes are said when no room is left for the greatest payload, and what is answered.
static LAST: [(usize, Reply); 4] = [
    (65535, Reply::Ended),
    (49154, Reply::Ended),
    (
        49153,
        Reply::Placed {
            epoch: 0,
            at: 16385,
        },
    ),
    (0, Reply::Ended),
];

/// The row of the Open has 3 bytes, each Say has 6 beside its payload, and a Close has 5: of 2^30
/// bytes 49159 are left after 16382 of the greatest payloads.
#[test]
fn ends_where_no_room_is_left(rt: HostRuntime) {
    let mut session = Session::new(rt.alloc(), Forgetful {}).expect(&rt, "memory");
    check_serve(
        &rt,
        rt.alloc(),
        &mut session,
        (Open(b"a"), FIRST),
        ("joins", 0),
    );
    for k in 0..16382 {
        let placed = Reply::Placed {
            epoch: 0,
            at: k + 3,
        };
        check_say(&rt, rt.alloc(), &mut session, (65535, placed), k as usize);
    }
    for (k, row) in LAST.iter().enumerate() {
        check_say(
            &rt,
            rt.alloc(),
            &mut session,
            *row,
            k.saturating_add(20_000),
        );
    }
    assert!(rt; session.conns(0) == Some(1));
    check_serve(
        &rt,
        rt.alloc(),
        &mut session,
        (Close(1), Reply::Ended),
        ("leaves", 0),
    );
    assert!(rt; session.conns(0) == None);
    close(session);
}
