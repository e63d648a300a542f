//! One link, from its Hello to its end.

ghost use Rattle.std.specs.Prelude.{◌≡◌, ◌+◌, ◌≤◌, ◌||◌, None, Some, length};
ghost use Rattle.dp_hall.specs.Calls.{IsOf};
ghost use Rattle.dp_epochs.specs.Laws.{ShutBefore};
ghost use Rattle.dp_session_laws.specs.Logs.{HasOpened};
ghost use Rattle.dp_link.specs.declared.ends.UpEnd.TheVariants as ups;
ghost use Rattle.dp_link.specs.declared.ends.DownEnd.TheVariants as downs;
ghost use Rattle.dp_link.specs.Acts.{ActsOnce};
ghost use Rattle.dp_io.specs.Limits.{stream_limit};
ghost use Rattle.dp_link.specs.Sending.{session_of};
ghost use Rattle.dp_link_run.specs.Links.{link_seen};
ghost use Rattle.dp_link_run.specs.Links.{is_up_memory, is_down_memory, is_failed, is_store_fault};
ghost use Rattle.dp_link_run.specs.Talking.{WasServed, Talks, is_store_end, is_last_failed};
ghost use Rattle.dp_link_run.specs.Talking.{is_last_store_fault};

use crate::pumps::{Pumped, run_pumps};
use dp_any_session::{AnySession, SessionCore};
use dp_epochs::{Event, Reply};
use dp_hall::{Seat, calls_add_up, seats_are_sound, seats_come_back, seats_rejoin};
use dp_io::{Sink, Source};
use dp_link::{
    DownEnd, GreetEnd, GreetRun, Greeting, UpEnd, UpRun, Worker, greetings_are_seen, run_greet,
};
use dp_session_laws::{feeds_begin, feeds_go_on, gone_goes_on, sessions_go_on};
use dp_split::Splitter;
use dp_wire::Gate;
use std::alloc::AllocError;
use std::sync::Wait;
use std::thread::Threads;

/// How a link ended, whether memory ran out on it, and whether the store failed in one of its acts.
#[derive(Clone, Copy)]
pub struct LinkEnd {
    pub conn: Option<u32>,
    pub up: UpEnd,
    pub down: DownEnd,
    pub memory: bool,
    pub store: bool,
}

impl LinkEnd {
    /// The end of a link whose painter was not greeted, by what came of the last act, if any.
    fn refused(end: GreetEnd, last: Option<Result<Reply, AllocError>>) -> LinkEnd
        ensures conn { result.conn ≡ None }
        ensures ends { (result.up ≡ ups.NotGreeted end) × (result.down ≡ downs.NotGreeted) }
        ensures memory { result.memory ≡ is_up_memory (ups.NotGreeted end) || is_last_failed last }
        ensures store { result.store ≡ is_last_store_fault last }
    {
        LinkEnd {
            conn: None,
            up: UpEnd::NotGreeted(end),
            down: DownEnd::NotGreeted,
            memory: matches!(end, GreetEnd::Memory) || matches!(last, Some(Err(AllocError))),
            store: matches!(last, Some(Ok(Reply::StoreFault { .. }))),
        }
    }

    /// The end of a link whose painter was greeted, by what the Close was answered.
    fn served(conn: u32, run: UpRun, down: DownEnd) -> LinkEnd
        ensures conn { result.conn ≡ Some conn }
        ensures ends { (result.up ≡ run.end) × (result.down ≡ down) }
        ensures memory { result.memory
            ≡ is_up_memory run.end || is_down_memory down || is_failed run.close }
        ensures store { result.store ≡ is_store_end run.end || is_store_fault run.close }
    {
        let UpRun { end, close } = run;
        let is_memory = matches!(end, UpEnd::Memory | UpEnd::NotGreeted(GreetEnd::Memory));
        LinkEnd {
            conn: Some(conn),
            up: end,
            down,
            memory: is_memory || matches!(down, DownEnd::Memory) || close.is_err(),
            store: matches!(end, UpEnd::Refused(Reply::StoreFault { .. }))
                || matches!(close, Ok(Reply::StoreFault { .. })),
        }
    }
}

/// A link after it was served, and how it ended.
pub struct ServedLink<R, S> {
    pub rx: R,
    pub tx: S,
    pub end: LinkEnd,
}

/// Serves a link: greets the painter, and if that succeeds says what it says and sends what it
/// is to get, to the end of both.
pub fn serve_link<
    W: Threads + Wait + Sync,
    C: SessionCore<Store: Send> + Send,
    R: Source + Send,
    S: Sink + Send,
    G: Gate,
>(worker: &Worker<'_, W, C, G>, seat: &mut Seat<AnySession<C>>, rx: R, tx: S) -> ServedLink<R, S>
    requires of { IsOf worker.now.hall.now seat.old }
    requires start { ShutBefore worker.now.hall.now.start }
    ensures of { IsOf worker.now.hall.now seat.new }
    ensures serves { WasServed (session_of worker.now.hall.now.start seat.new.view) seat.old.view
        seat.new.view result.end (link_seen R.left R.faults S.held S.faults (rx, tx))
        (link_seen R.left R.faults S.held S.faults (result.rx, result.tx)) }
{
    calls_add_up::<Event, Result<Reply, AllocError>, AnySession<C>>();
    seats_come_back::<Event, Result<Reply, AllocError>, AnySession<C>>();
    let mut rx = rx;
    let mut tx = tx;
    let mut split = Splitter::new(worker.alloc);
    let GreetRun { end, last } = run_greet(worker, seat, &mut rx, &mut tx, &mut split);
    match end {
        Ok(greeting) => {
            greetings_are_seen(seat);
            talk(worker, seat, rx, tx, split, &greeting)
        }
        Err(end) => {
            let end = LinkEnd::refused(end, last);
            ServedLink { rx, tx, end }
        }
    }
}

/// Serves a painter who was greeted, on two seats. If there is no second one, the painter leaves
/// at once.
fn talk<
    W: Threads + Wait + Sync,
    C: SessionCore<Store: Send> + Send,
    R: Source + Send,
    S: Sink + Send,
    G: Gate,
>(
    worker: &Worker<'_, W, C, G>,
    seat: &mut Seat<AnySession<C>>,
    rx: R,
    tx: S,
    split: Splitter,
    greeting: &Greeting,
) -> ServedLink<R, S>
    requires of { IsOf worker.now.hall.now seat.old }
    requires start { ShutBefore worker.now.hall.now.start }
    requires opened { HasOpened seat.old.view.seen greeting.now.conn greeting.now.user
        greeting.now.epoch greeting.now.at }
    requires within { split.at + length split.held ≤ stream_limit }
    ensures of { IsOf worker.now.hall.now seat.new }
    ensures talks { Talks (session_of worker.now.hall.now.start seat.new.view) seat.old.view
        seat.new.view greeting.now split result.end
        (link_seen R.left R.faults S.held S.faults (rx, tx))
        (link_seen R.left R.faults S.held S.faults (result.rx, result.tx)) }
{
    calls_add_up::<Event, Result<Reply, AllocError>, AnySession<C>>();
    seats_rejoin::<Event, Result<Reply, AllocError>, AnySession<C>>();
    seats_come_back::<Event, Result<Reply, AllocError>, AnySession<C>>();
    feeds_begin();
    sessions_go_on();
    feeds_go_on();
    gone_goes_on();
    let conn = greeting.conn;
    let Ok(other) = worker.hall.split(seat) else {
        let close = leave(worker, seat, conn);
        seats_are_sound(seat);
        let end = UpEnd::Memory;
        let end = LinkEnd::served(conn, UpRun { end, close }, DownEnd::Memory);
        return ServedLink { rx, tx, end };
    };
    let Pumped { rx, tx, down, run } = run_pumps(worker, seat, other, rx, tx, split, greeting);
    let end = LinkEnd::served(conn, run, down);
    ServedLink { rx, tx, end }
}

/// Acts a Close of the connection, the second act of its link.
fn leave<W: Wait, C: SessionCore, G: Gate>(
    worker: &Worker<'_, W, C, G>,
    seat: &mut Seat<AnySession<C>>,
    conn: u32,
) -> Result<Reply, AllocError>
    requires { IsOf worker.now.hall.now seat.old }
    ensures of { IsOf worker.now.hall.now seat.new }
    ensures acts { ActsOnce seat.old.view (Event.Close conn) result seat.new.view }
{
    calls_add_up::<Event, Result<Reply, AllocError>, AnySession<C>>();
    let outcome = worker.hall.act(worker.rt, seat, &Event::Close { conn });
    worker.gate.pass(worker.who, 2);
    outcome
}
