//! A painter is sent what the session places.

ghost use Rattle.std.specs.Prelude.{◌≡◌, ◌+◌, ℕ, List, [], length, IfOk, IfSome};
ghost use Rattle.std.specs.declared.option.Option.{Option};
ghost use Rattle.dp_messages.specs.declared.message.Entry.{Entry as Piece};
ghost use Rattle.dp_history.specs.Frames.{frames_of};
ghost use Rattle.dp_hall.specs.Calls.{IsOf, Asks, IsSound};
ghost use Rattle.dp_epochs.specs.declared.event.Query.TheVariants.{Pull};
ghost use Rattle.dp_epochs.specs.Past.{Step};
ghost use Rattle.dp_epochs.specs.Pull.{answered};
ghost use Rattle.dp_history.specs.Pages.{IsPage};
ghost use Rattle.dp_hall.specs.Laws.{Continues};
ghost use Rattle.dp_epochs.specs.Laws.{ShutBefore};
ghost use Rattle.dp_session_laws.specs.Logs.{HasOpened};
ghost use Rattle.dp_link.specs.Sending.{Sends, SentTo, SendsPage, WritesPage, FaultMatchesDown};
ghost use Rattle.dp_link.specs.Sending.{FaultMatchesPage};
ghost use Rattle.dp_link.specs.Sending.{session_of};

use crate::pages::{Asked, Cursor};
use crate::{DownEnd, Greeting};
use dp_any_session::{AnySession, SessionCore};
use dp_epochs::{Event, Reply};
use dp_hall::{Hall, Seat, calls_add_up, seats_are_sound};
use dp_history::{Page, PageFrames};
use dp_io::{Failed, Sink, put_all};
use dp_session_laws::{feeds_begin, feeds_end, feeds_go_on, pulls_go_on, sessions_go_on};
use std::alloc::{AllocError, Global};
use std::sync::Wait;
use std::time::Duration;

/// A page of fewer bytes has entries that come no faster than painters make them.
const FEW_BYTES: usize = 1 << 11;

/// A page of more bytes is a part of a full segment, or one entry. After it the next one may be
/// whole already.
const MANY_BYTES: usize = 1 << 14;

/// A page of as many bytes may be one of several copies, which a painter who joins late is to get
/// at once.
const SOME_BYTES: usize = 1 << 13;

/// So long a link rests after a page of few bytes, so that many entries go out in one write. Nobody
/// sees two milliseconds, and the first entry after a pause goes out at once.
const SHORT_REST_MICROS: u64 = 1250;

/// So long it rests after a page of more bytes. Entries come in bulk then, and a write of few of
/// them costs as much as one of many.
const LONG_REST_MILLIS: u64 = 16;

/// Writes the entries that are to come for a connection, each as one frame. They begin with the
/// first one of the epoch in which it joined. It waits for more if there are none, and goes on
/// until nothing more is to come.
pub fn pump_down<W: Wait, C: SessionCore, S: Sink>(
    rt: &W,
    alloc: Global,
    hall: &Hall<AnySession<C>>,
    seat: &mut Seat<AnySession<C>>,
    tx: &mut S,
    greeting: &Greeting,
) -> DownEnd
    requires of { IsOf hall.now seat.old }
    requires start { ShutBefore hall.now.start }
    requires opened { HasOpened seat.old.view.seen greeting.now.conn greeting.now.user
        greeting.now.epoch greeting.now.at }
    ensures of { IsOf hall.now seat.new }
    ensures calls { Continues seat.old.view [] seat.new.view }
    ensures sends { Sends (session_of hall.now.start seat.new.view) greeting.now.conn
        (S.held tx.old) (S.held tx.new) result }
    ensures fault { FaultMatchesDown result (S.faults tx.old) (S.faults tx.new) }
{
    calls_add_up::<Event, Result<Reply, AllocError>, AnySession<C>>();
    seats_are_sound(seat);
    feeds_begin();
    let mut asked = Asked {
        conn: greeting.conn,
        cursor: Cursor {
            epoch: greeting.epoch,
            at: 0,
        },
        frames: PageFrames::new(alloc),
        page: Ok(None),
        caught_up: false,
    };
    'pages: for _ in rt.forever() {
        match send_more(rt, hall, seat, tx, greeting, &mut asked) {
            Ok(()) => {}
            Err(end) => {
                drop(asked);
                return end;
            }
        }
    }
    unreachable!()
}

/// Writes the next page, and lets more come before the next one. If it has no entry, it waits for
/// an act on the session. What is acted after the count, before the session is asked or after that,
/// is not waited for.
fn send_more<W: Wait, C: SessionCore, S: Sink>(
    rt: &W,
    hall: &Hall<AnySession<C>>,
    seat: &mut Seat<AnySession<C>>,
    tx: &mut S,
    greeting: &Greeting,
    asked: &mut Asked,
) -> Result<(), DownEnd>
    requires of { IsOf hall.now seat.old }
    requires start { ShutBefore hall.now.start }
    requires opened { HasOpened seat.old.view.seen greeting.now.conn greeting.now.user
        greeting.now.epoch greeting.now.at }
    requires conn { asked.old.conn ≡ greeting.now.conn }
    ensures of { IsOf hall.now seat.new }
    ensures calls { Continues seat.old.view [] seat.new.view }
    ensures conn { asked.new.conn ≡ greeting.now.conn }
    ensures sends { (held : Option (List ℕ))
        → SentTo (session_of hall.now.start seat.old.view) greeting.now.conn
        held (S.held tx.old) asked.old.cursor
        → SendsPage (session_of hall.now.start seat.new.view) greeting.now.conn
        held (S.held tx.new) asked.new.cursor result }
    ensures fault { FaultMatchesPage result (S.faults tx.old) (S.faults tx.new) }
{
    calls_add_up::<Event, Result<Reply, AllocError>, AnySession<C>>();
    let seen = hall.count(seat);
    match send_page(rt, hall, seat, tx, greeting, asked) {
        Ok(true) => {
            let bytes = asked.frames.as_slice().len();
            asked.caught_up = rest_after(rt, hall, bytes, asked.caught_up);
            Ok(())
        }
        Ok(false) => {
            hall.wait_past(rt, seat, seen);
            Ok(())
        }
        Err(end) => Err(end),
    }
}

/// Lets more entries come after a page of this number of bytes. It is told whether the link had
/// caught up before the page, and answers whether it has now.
fn rest_after<W: Wait, C: SessionCore>(
    rt: &W,
    hall: &Hall<AnySession<C>>,
    bytes: usize,
    caught_up: bool,
) -> bool {
    let many = if caught_up { MANY_BYTES } else { SOME_BYTES };
    if bytes < FEW_BYTES {
        hall.rest(rt, Duration::from_micros(SHORT_REST_MICROS));
        true
    } else if bytes <= many {
        hall.rest(rt, Duration::from_millis(LONG_REST_MILLIS));
        true
    } else {
        caught_up
    }
}

/// Asks for the next page, and writes it. Whether it has an entry.
fn send_page<W: Wait, C: SessionCore, S: Sink>(
    rt: &W,
    hall: &Hall<AnySession<C>>,
    seat: &mut Seat<AnySession<C>>,
    tx: &mut S,
    greeting: &Greeting,
    asked: &mut Asked,
) -> Result<bool, DownEnd>
    requires of { IsOf hall.now seat.old }
    requires start { ShutBefore hall.now.start }
    requires opened { HasOpened seat.old.view.seen greeting.now.conn greeting.now.user
        greeting.now.epoch greeting.now.at }
    requires conn { asked.old.conn ≡ greeting.now.conn }
    ensures of { IsOf hall.now seat.new }
    ensures calls { Continues seat.old.view [] seat.new.view }
    ensures conn { asked.new.conn ≡ greeting.now.conn }
    ensures sends { (held : Option (List ℕ))
        → SentTo (session_of hall.now.start seat.old.view) greeting.now.conn
        held (S.held tx.old) asked.old.cursor
        → SendsPage (session_of hall.now.start seat.new.view) greeting.now.conn
        held (S.held tx.new) asked.new.cursor result }
    ensures fault { FaultMatchesPage result (S.faults tx.old) (S.faults tx.new) }
{
    calls_add_up::<Event, Result<Reply, AllocError>, AnySession<C>>();
    sessions_go_on();
    feeds_go_on();
    pulls_go_on();
    feeds_end();
    match ask_page(rt, hall, seat, asked) {
        Ok(Some(page)) => write_page(tx, asked.frames.as_slice(), &mut asked.cursor, page),
        Ok(None) => Err(DownEnd::Gone),
        Err(AllocError) => Err(DownEnd::Memory),
    }
}

/// Asks for the page that begins at the cursor.
fn ask_page<W: Wait, C: SessionCore>(
    rt: &W,
    hall: &Hall<AnySession<C>>,
    seat: &mut Seat<AnySession<C>>,
    asked: &mut Asked,
) -> Result<Option<Page>, AllocError>
    requires of { IsOf hall.now seat.old }
    ensures of { IsOf hall.now seat.new }
    ensures seen { Asks seat.old.view seat.new.view }
    ensures sound { IsSound Step seat.new.view }
    ensures conn { asked.new.conn ≡ asked.old.conn }
    ensures cursor { asked.new.cursor ≡ asked.old.cursor }
    ensures page { IfOk result (λ page. IsPage
        (λ most. answered (session_of hall.now.start seat.new.view)
        (Pull asked.old.conn asked.old.cursor.epoch asked.old.cursor.at most)) page
        asked.new.frames) }
{
    hall.look(rt, seat, asked);
    asked.page
}

/// Writes the frames of a page, and moves the cursor after it. Whether it has an entry.
fn write_page<S: Sink>(
    tx: &mut S,
    frames: &[u8],
    cursor: &mut Cursor,
    page: Page,
) -> Result<bool, DownEnd>
    ensures writes { (list : List Piece) → page.count ≡ length list → frames.now ≡ frames_of list
        → WritesPage result (S.held tx.old) (S.held tx.new) page.epoch page.at list cursor.new }
    ensures fault { FaultMatchesPage result (S.faults tx.old) (S.faults tx.new) }
{
    let Page { epoch, at, count } = page;
    match put_all(tx, frames) {
        Ok(()) => match next_place(at, count) {
            Some(at) => {
                *cursor = Cursor { epoch, at };
                Ok(count > 0)
            }
            None => Err(DownEnd::Memory),
        },
        Err(Failed) => Err(DownEnd::WriteFault),
    }
}

/// The place after `count` entries more. None is after the last one that a number may have, to
/// which no session comes.
fn next_place(at: u32, count: usize) -> Option<u32>
    ensures { IfSome result (λ next. next ≡ at + count) }
{
    at.checked_add(u32::try_from(count).ok()?)
}
