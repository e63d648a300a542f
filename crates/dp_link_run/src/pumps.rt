//! The two pumps of a link, at the same time.

ghost use Rattle.std.specs.Prelude.{◌≡◌, ◌+◌, ◌≤◌, [], length};
ghost use Rattle.std.specs.Io.KnownBytes.{IsAtEnd};
ghost use Rattle.dp_hall.specs.Calls.{IsOf};
ghost use Rattle.dp_hall.specs.Laws.{Continues};
ghost use Rattle.dp_epochs.specs.Laws.{ShutBefore};
ghost use Rattle.dp_session_laws.specs.Logs.{HasOpened};
ghost use Rattle.dp_io.specs.Limits.{stream_limit};
ghost use Rattle.dp_link.specs.Saying.{SaysAll, FaultMatchesUp};
ghost use Rattle.dp_link.specs.Sending.{Sends, FaultMatchesDown, session_of};
ghost use Rattle.dp_link.specs.declared.ends.UpEnd.TheVariants.{End};
ghost use Rattle.dp_link_run.specs.Links.{link_seen};
ghost use Rattle.dp_link_run.specs.Talking.{Pumps};

use dp_any_session::{AnySession, SessionCore};
use dp_hall::Seat;
use dp_io::{Sink, Source};
use dp_link::{DownEnd, Greeting, UpRun, Worker, pump_down, run_up};
use dp_split::Splitter;
use dp_wire::Gate;
use std::sync::Wait;
use std::thread::{Threads, join_mut};

/// A link after both pumps, and how they ended.
pub(crate) struct Pumped<R, S> {
    pub(crate) rx: R,
    pub(crate) tx: S,
    pub(crate) down: DownEnd,
    pub(crate) run: UpRun,
}

/// Runs both pumps, each on one of the two seats, and joins the second seat into the first.
pub(crate) fn run_pumps<
    W: Threads + Wait + Sync,
    C: SessionCore<Store: Send> + Send,
    R: Source + Send,
    S: Sink + Send,
    G: Gate,
>(
    worker: &Worker<'_, W, C, G>,
    seat: &mut Seat<AnySession<C>>,
    other: Seat<AnySession<C>>,
    rx: R,
    tx: S,
    split: Splitter,
    greeting: &Greeting,
) -> Pumped<R, S>
    requires of { IsOf worker.now.hall.now seat.old × IsOf worker.now.hall.now other }
    requires start { ShutBefore worker.now.hall.now.start }
    requires opened { HasOpened other.view.seen greeting.now.conn greeting.now.user
        greeting.now.epoch greeting.now.at }
    requires within { split.at + length split.held ≤ stream_limit }
    ensures of { IsOf worker.now.hall.now seat.new }
    ensures pumps { Pumps worker.now.hall.now.start seat.old.view other.view seat.new.view
        greeting.now.conn split (link_seen R.left R.faults S.held S.faults (rx, tx))
        (link_seen R.left R.faults S.held S.faults (result.rx, result.tx)) result.down
        result.run }
{
    let mut other = other;
    let mut rx = rx;
    let mut tx = tx;
    let mut split = split;
    let (down, run) = run_both(
        worker, seat, &mut other, &mut rx, &mut tx, &mut split, greeting,
    );
    worker.hall.join_into(seat, other);
    Pumped { rx, tx, down, run }
}

/// Writes to a painter what it is to get, in another thread if one can be made, and meanwhile
/// says what the painter says. The first closure waits for acts, so it must not be run before the
/// second one has ended if there is one thread: `join_mut` runs the second first there.
fn run_both<
    'a,
    W: Threads + Wait + Sync,
    C: SessionCore<Store: Send> + Send,
    R: Source + Send,
    S: Sink + Send,
    G: Gate,
>(
    worker: &'a Worker<'a, W, C, G>,
    seat: &mut Seat<AnySession<C>>,
    other: &mut Seat<AnySession<C>>,
    rx: &mut R,
    tx: &mut S,
    split: &mut Splitter,
    greeting: &'a Greeting,
) -> (DownEnd, UpRun)
    requires of { IsOf worker.now.hall.now seat.old × IsOf worker.now.hall.now other.old }
    requires start { ShutBefore worker.now.hall.now.start }
    requires opened { HasOpened other.old.view.seen greeting.now.conn greeting.now.user
        greeting.now.epoch greeting.now.at }
    requires within { split.old.at + length split.old.held ≤ stream_limit }
    ensures of { IsOf worker.now.hall.now seat.new × IsOf worker.now.hall.now other.new }
    ensures calls { Continues other.old.view [] other.new.view }
    ensures sends { Sends (session_of worker.now.hall.now.start other.new.view) greeting.now.conn
        (S.held tx.old) (S.held tx.new) result.0 }
    ensures writes { FaultMatchesDown result.0 (S.faults tx.old) (S.faults tx.new) }
    ensures says { SaysAll seat.old.view seat.new.view (R.left rx.old) (R.left rx.new) split.old
        greeting.now.conn result.1.end result.1.close }
    ensures at_end { result.1.end ≡ End → IsAtEnd (R.left rx.new) }
    ensures reads { FaultMatchesUp result.1.end (R.faults rx.old) (R.faults rx.new) }
{
    let conn = greeting.conn;
    join_mut(
        worker.rt,
        &mut || -> DownEnd
            requires { IsOf worker.now.hall.now other.now × ShutBefore worker.now.hall.now.start
                × HasOpened other.now.view.seen greeting.now.conn greeting.now.user
                greeting.now.epoch greeting.now.at }
            ensures { IsOf worker.entry.now.hall.now other.exit.now
                × Continues other.entry.now.view [] other.exit.now.view
                × Sends (session_of worker.entry.now.hall.now.start other.exit.now.view)
                greeting.entry.now.conn (S.held tx.entry.now) (S.held tx.exit.now) result
                × FaultMatchesDown result (S.faults tx.entry.now) (S.faults tx.exit.now) }
        { pump_down(worker.rt, worker.alloc, worker.hall, other, tx, greeting) },
        &mut || -> UpRun
            requires { IsOf worker.now.hall.now seat.now
                × (split.now.at + length split.now.held ≤ stream_limit) }
            ensures { IsOf worker.entry.now.hall.now seat.exit.now
                × SaysAll seat.entry.now.view seat.exit.now.view (R.left rx.entry.now)
                (R.left rx.exit.now) split.entry.now conn result.end result.close
                × (result.end ≡ End → IsAtEnd (R.left rx.exit.now))
                × FaultMatchesUp result.end (R.faults rx.entry.now) (R.faults rx.exit.now) }
        { run_up(worker, seat, rx, split, conn) },
    )
}
