//! Acts of a link.

ghost use Rattle.dp_hall.specs.Calls.{IsOf};
ghost use Rattle.dp_epochs.specs.Past.{Past, Step};
ghost use Rattle.dp_link.specs.Acts.{ActsOnce};

use dp_any_session::{AnySession, SessionCore};
use dp_epochs::{Event, Reply};
use dp_hall::{Hall, Seat, calls_add_up};
use dp_wire::Gate;
use std::alloc::{AllocError, Global};
use std::sync::Wait;

/// A worker of a server: its threads and memory, the hall of its session, its number, and the gate
/// that it passes after each act.
#[derive(Drop)]
pub struct Worker<'a, W, C: SessionCore, G> {
    pub rt: &'a W,
    pub alloc: Global,
    pub hall: &'a Hall<AnySession<C>>,
    pub who: u32,
    pub gate: &'a G,
}

/// Acts an event, the n-th act of the link of this worker, and passes the gate after it.
pub(crate) fn act_once<W: Wait, C: SessionCore, G: Gate>(
    worker: &Worker<'_, W, C, G>,
    seat: &mut Seat<AnySession<C>>,
    event: &Event,
    n: u64,
) -> Result<Reply, AllocError>
    requires { IsOf worker.now.hall.now seat.old }
    ensures of { IsOf worker.now.hall.now seat.new }
    ensures acts { ActsOnce seat.old.view event.now result seat.new.view }
    ensures step { (old new : Past) × Step old event.now result new }
{
    calls_add_up::<Event, Result<Reply, AllocError>, AnySession<C>>();
    let outcome = worker.hall.act(worker.rt, seat, event);
    worker.gate.pass(worker.who, n);
    outcome
}
