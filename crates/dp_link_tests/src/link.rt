//! A hall whose one link is served to its end.

ghost use Rattle.std.specs.Prelude.{List};
ghost use Rattle.dp_hall.specs.Calls.{IsOf};
ghost use Rattle.dp_hall.specs.Laws.{Continues};
ghost use Rattle.dp_epochs.specs.Laws.{ShutBefore};
ghost use Rattle.dp_session_laws.specs.Logs.{LogEntry};

use dp_any_session::{AnySession, SessionCore};
use dp_epochs::{Event, Journal, Reply, Shut};
use dp_hall::{Hall, HallError, Seat, calls_add_up, seats_come_back};
use dp_io::{Sink, Source};
use dp_keeper::Keeper;
use dp_link::{
    DownEnd, GreetEnd, UpEnd, UpRun, Worker, greet, greetings_are_seen, pump_down, run_up,
};
use dp_session::Session;
use dp_split::Splitter;
use dp_wire::OpenGate;
use std::alloc::{AllocError, Global};
use std::sync::Wait;

/// How a link ended: how both halves of a greeted one did, and whether its Close was acted.
pub type LinkEnd = Result<(UpEnd, bool, DownEnd), GreetEnd>;

/// Serves one link to its end, with the two pumps one after the other.
pub fn serve_link<W: Wait, C: SessionCore, R: Source, S: Sink>(
    rt: &W,
    alloc: Global,
    hall: &Hall<AnySession<C>>,
    seat: &mut Seat<AnySession<C>>,
    rx: &mut R,
    tx: &mut S,
) -> LinkEnd
    requires of { IsOf hall.now seat.old }
    requires start { ShutBefore hall.now.start }
    ensures of { IsOf hall.now seat.new }
    ensures calls { (acts : List LogEntry) × Continues seat.old.view acts seat.new.view }
{
    calls_add_up::<Event, Result<Reply, AllocError>, AnySession<C>>();
    let gate = OpenGate;
    let worker = Worker {
        rt,
        alloc,
        hall,
        who: 0,
        gate: &gate,
    };
    let mut split = Splitter::new(alloc);
    match greet(&worker, seat, rx, tx, &mut split) {
        Ok(greeting) => {
            greetings_are_seen(seat);
            let UpRun { end, close } = run_up(&worker, seat, rx, &mut split, greeting.conn);
            let down = pump_down(rt, alloc, hall, seat, tx, &greeting);
            Ok((end, close.is_ok(), down))
        }
        Err(end) => Err(end),
    }
}

/// A session over a store, with a hall that lives as long as one link.
pub fn run_link<W: Wait, K: Keeper + Drop, R: Source, S: Sink>(
    rt: &W,
    alloc: Global,
    keeper: K,
    rx: &mut R,
    tx: &mut S,
) -> Result<(LinkEnd, Journal, Shut), AllocError> {
    seats_come_back::<Event, Result<Reply, AllocError>, AnySession<Session<K>>>();
    let session = AnySession::new(Session::new(alloc, keeper)?);
    match Hall::start(alloc, session) {
        Ok((hall, mut seat)) => {
            let end = serve_link(rt, alloc, &hall, &mut seat, rx, tx);
            let (keeper, journal, shut) = hall.close(seat).into_parts();
            drop(keeper);
            Ok((end, journal, shut))
        }
        Err(HallError { machine }) => {
            drop(machine);
            Err(AllocError)
        }
    }
}
