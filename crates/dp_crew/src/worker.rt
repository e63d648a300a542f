//! A worker: the links of one wire.

ghost use Rattle.std.specs.Prelude.{ℕ, Option, Result};
ghost use Rattle.std.specs.declared.alloc.AllocError.{AllocError};
ghost use Rattle.dp_hall.specs.Calls.{IsOf};
ghost use Rattle.dp_hall.specs.declared.view.View.{View};
ghost use Rattle.dp_wire.specs.Links.{Links};
ghost use Rattle.dp_crew.specs.Runs.{Works, ServedSoFar, ServesNext, most_links};

use crate::{Served, Service, Worked};
use dp_hall::{Machine, Seat, calls_add_up, seats_are_sound};
use dp_wire::{Wire, WireError};
use std::alloc::{AllocError, Global};

/// Serves the links of a wire, one after another, until `conns` links were served or none is to
/// come. It also stops if the wire fails or there is no memory for a report. A link that was handed
/// out is handed back and has its report, however it ended. 2^32 - 1 stands for no number.
pub fn run_links<W: Wire, M: Machine, S: Service<M, W::Rx, W::Tx>>(
    alloc: Global,
    service: &S,
    who: u32,
    seat: &mut Seat<M>,
    wire: &mut W,
    conns: Option<u32>,
) -> Worked<S::Report>
    requires of { IsOf (S.hall service.now) seat.old }
    requires begins { S.rules.begins (S.hall service.now).start }
    ensures of { IsOf (S.hall service.now) seat.new }
    ensures works { Works S.rules (S.hall service.now).start who (most_links conns) seat.old.view
        seat.new.view (W.links wire.old) (W.links wire.new) (W.faults wire.old)
        (W.faults wire.new) result }
{
    calls_add_up::<M::Event, Result<M::Reply, AllocError>, M>();
    let most = conns.unwrap_or(u32::MAX);
    let mut worked = Worked::new(alloc);
    'links: for link in 0..most {
        if !serve_next(service, who, seat, wire, link, &mut worked) {
            return worked;
        }
    }
    worked
}

/// Serves the next link of the wire, if there is one, which gets this number. Whether the worker
/// goes on. The room for the report is made before the link is accepted.
fn serve_next<W: Wire, M: Machine, S: Service<M, W::Rx, W::Tx>>(
    service: &S,
    who: u32,
    seat: &mut Seat<M>,
    wire: &mut W,
    link: u32,
    worked: &mut Worked<S::Report>,
) -> bool
    requires of { IsOf (S.hall service.now) seat.old }
    requires begins { S.rules.begins (S.hall service.now).start }
    ensures of { IsOf (S.hall service.now) seat.new }
    ensures serves { (v : View M.Event (Result M.Reply AllocError) M)
        (links : Option (Links W.Rx W.Tx)) (count : ℕ)
        → ServedSoFar S.rules (S.hall service.now).start who link v seat.old.view links
        (W.links wire.old) count (W.faults wire.old) worked.old
        → ServesNext result S.rules (S.hall service.now).start who link v seat.new.view links
        (W.links wire.new) count (W.faults wire.new) worked.new }
{
    S::reports_go_on();
    if worked.reports.reserve(1).is_err() {
        worked.memory = true;
        return false;
    }
    match wire.accept() {
        Ok(Some((rx, tx))) => {
            let Served {
                rx,
                tx,
                report,
                memory,
                fault,
            } = service.serve(seat, rx, tx, who, link);
            seats_are_sound(seat);
            wire.done(rx, tx);
            worked.note(report, memory, fault);
            true
        }
        Ok(None) => false,
        Err(WireError::Failed) => {
            worked.wire = true;
            false
        }
        Err(WireError::Memory) => {
            worked.memory = true;
            false
        }
    }
}
