//! A worker: the links of one wire.

ghost use Rattle.std.specs.Prelude.{ℕ, Option};
ghost use Rattle.dp_hall.specs.Calls.{IsOf};
ghost use Rattle.dp_hall.specs.Logs.{left_by};
ghost use Rattle.dp_epochs.specs.Laws.{ShutBefore};
ghost use Rattle.dp_wire.specs.Links.{Links};
ghost use Rattle.dp_link.specs.Acts.{SeatView};
ghost use Rattle.dp_crew.specs.Runs.{Works, ServedSoFar, ServesNext, ServesLink, most_links};
ghost use Rattle.dp_link_run.specs.Links.{link_seen};
ghost use Rattle.dp_serve.specs.Works.{session_rules};

use crate::LinkReport;
use dp_any_session::{AnySession, SessionCore};
use dp_crew::{Served, Worked};
use dp_epochs::{Event, Reply};
use dp_hall::{Seat, calls_add_up, seats_are_sound};
use dp_io::{Sink, Source};
use dp_link::Worker;
use dp_link_run::{LinkEnd, ServedLink, serve_link};
use dp_session_laws::{feeds_go_on, gone_goes_on, sessions_go_on};
use dp_wire::{Gate, Wire, WireError};
use std::alloc::AllocError;
use std::sync::Wait;
use std::thread::Threads;

/// Serves the links of a wire, one after another, until `conns` links were served or none is to
/// come. It also stops if the wire fails or there is no memory for a report. A link that was handed
/// out is handed back and has its report, however it ended. 2^32 - 1 stands for no number.
pub(crate) fn run_worker<
    W: Wire,
    C: SessionCore<Store: Send> + Send,
    G: Gate,
    R: Threads + Wait + Sync,
>(
    worker: &Worker<'_, R, C, G>,
    seat: &mut Seat<AnySession<C>>,
    wire: &mut W,
    conns: Option<u32>,
) -> Worked<LinkReport>
    requires of { IsOf worker.now.hall.now seat.old }
    requires start { ShutBefore worker.now.hall.now.start }
    ensures of { IsOf worker.now.hall.now seat.new }
    ensures works { Works
        (session_rules (link_seen W.Rx.left W.Rx.faults W.Tx.held W.Tx.faults))
        worker.now.hall.now.start worker.now.who (most_links conns) seat.old.view seat.new.view
        (W.links wire.old) (W.links wire.new) (W.faults wire.old) (W.faults wire.new) result }
{
    calls_add_up::<Event, Result<Reply, AllocError>, AnySession<C>>();
    let most = conns.unwrap_or(u32::MAX);
    let mut worked = Worked::new(worker.alloc);
    'links: for link in 0..most {
        if !serve_next(worker, seat, wire, link, &mut worked) {
            return worked;
        }
    }
    worked
}

/// Serves the next link of the wire, if there is one, which gets this number. Whether the worker
/// goes on. The room for the report is made before the link is accepted.
fn serve_next<W: Wire, C: SessionCore<Store: Send> + Send, G: Gate, R: Threads + Wait + Sync>(
    worker: &Worker<'_, R, C, G>,
    seat: &mut Seat<AnySession<C>>,
    wire: &mut W,
    link: u32,
    worked: &mut Worked<LinkReport>,
) -> bool
    requires of { IsOf worker.now.hall.now seat.old }
    requires start { ShutBefore worker.now.hall.now.start }
    ensures of { IsOf worker.now.hall.now seat.new }
    ensures serves { (v : SeatView) (links : Option (Links W.Rx W.Tx)) (count : ℕ)
        → ServedSoFar (session_rules (link_seen W.Rx.left W.Rx.faults W.Tx.held W.Tx.faults))
        worker.now.hall.now.start worker.now.who link v seat.old.view links (W.links wire.old) count
        (W.faults wire.old) worked.old
        → ServesNext result
        (session_rules (link_seen W.Rx.left W.Rx.faults W.Tx.held W.Tx.faults))
        worker.now.hall.now.start worker.now.who link v seat.new.view links (W.links wire.new) count
        (W.faults wire.new) worked.new }
{
    sessions_go_on();
    feeds_go_on();
    gone_goes_on();
    if worked.reports.reserve(1).is_err() {
        worked.memory = true;
        return false;
    }
    match wire.accept() {
        Ok(Some((rx, tx))) => {
            let Served {
                rx,
                tx,
                report,
                memory,
                fault,
            } = serve_numbered(worker, seat, rx, tx, link);
            seats_are_sound(seat);
            wire.done(rx, tx);
            worked.note(report, memory, fault);
            true
        }
        Ok(None) => false,
        Err(WireError::Failed) => {
            worked.wire = true;
            false
        }
        Err(WireError::Memory) => {
            worked.memory = true;
            false
        }
    }
}

/// Serves the link of this number among those of the worker's wire, and reports on it.
fn serve_numbered<
    W: Threads + Wait + Sync,
    C: SessionCore<Store: Send> + Send,
    R: Source + Send,
    T: Sink + Send,
    G: Gate,
>(
    worker: &Worker<'_, W, C, G>,
    seat: &mut Seat<AnySession<C>>,
    rx: R,
    tx: T,
    link: u32,
) -> Served<R, T, LinkReport>
    requires of { IsOf worker.now.hall.now seat.old }
    requires start { ShutBefore worker.now.hall.now.start }
    ensures of { IsOf worker.now.hall.now seat.new }
    ensures serves { ServesLink (session_rules (link_seen R.left R.faults T.held T.faults))
        (left_by worker.now.hall.now.start seat.new.view.seen) worker.now.who link seat.old.view
        seat.new.view (rx, tx) result }
{
    let ServedLink { rx, tx, end } = serve_link(worker, seat, rx, tx);
    let LinkEnd {
        conn,
        up,
        down,
        memory,
        store,
    } = end;
    let report = LinkReport {
        worker: worker.who,
        link,
        conn,
        up_end: up,
        down_end: down,
    };
    Served {
        rx,
        tx,
        report,
        memory,
        fault: store,
    }
}
