//! Serving a session.

ghost use Rattle.std.specs.Prelude.{◌≡◌, ◌≤◌, [], length, true, false};
ghost use Rattle.dp_hall.specs.Calls.{IsOf, IsAlone};
ghost use Rattle.dp_epochs.specs.Laws.{ShutBefore};
ghost use Rattle.dp_crew.specs.Runs.{most_links};
ghost use Rattle.dp_link_run.specs.Links.{link_seen};
ghost use Rattle.dp_serve.specs.Serving.{Serves};
ghost use Rattle.dp_serve.specs.Closings.{ServesOn, ClosesTo};

use crate::LinkReport;
use crate::closings::{broke, close_open, ran_out};
use crate::jobs::{Crew, Reports, run_workers};
use crate::told::Told;
use dp_any_session::{AnySession, SessionCore};
use dp_crew::{Flags, Ran, crews_add_up};
use dp_epochs::{Journal, Shut};
use dp_hall::{Hall, HallError, Seat};
use dp_keeper::Keeper;
use dp_session_laws::journals_are_logs;
use dp_wire::{Gate, Wire};
use std::alloc::Global;
use std::sync::Wait;
use std::thread::Threads;

/// What serving a session left.
#[derive(Drop)]
pub struct Served<W, K: Keeper> {
    /// The wires, in their order.
    pub wires: Vec<W>,
    /// The store.
    pub keeper: K,
    /// The events that were kept.
    pub journal: Journal,
    /// The closings that the store or the limits refused.
    pub shut: Shut,
    /// A report of each link that a wire handed out.
    pub reports: Reports,
    /// Whether memory ran out.
    pub memory: bool,
    /// Whether the store failed.
    pub store: bool,
    /// Whether a wire failed.
    pub wire: bool,
}

/// Serves a session. The connections that are open are closed first, by rising number, up to the
/// first Close that is refused. Then there is a worker for each wire, all at the same time. Each
/// works until it has served `conns` links (2^32 - 1 if no number is given), none is to come, or
/// its wire fails. It waits for all of them. Each link that a wire handed out is handed back.
///
/// If memory runs out, a worker ends or doesn't begin, and `memory` says so.
pub fn serve<W: Wire + Send, C: SessionCore<Store: Send> + Send, G: Gate, R: Threads + Wait + Sync>(
    rt: &R,
    alloc: Global,
    session: AnySession<C>,
    wires: Vec<W>,
    conns: Option<u32>,
    gate: &G,
) -> Served<W, C::Store>
    requires few { length wires.items ≤ 64 }
    requires sound { ShutBefore session }
    ensures { ServesOn (record {
      links = W.links;
      faults = W.faults;
      link = link_seen W.Rx.left W.Rx.faults W.Tx.held W.Tx.faults;
    }) session (most_links conns) wires.items result.wires.items
        (record {
          journal = result.journal;
          shut = result.shut;
          known = C.Store.held result.keeper;
          count = C.Store.put_faults result.keeper;
          read_faults = C.Store.read_faults result.keeper;
          reports = result.reports;
          memory = result.memory;
          store = result.store;
          wire = result.wire;
        }) }
{
    let mut session = session;
    let refusal = close_open(&mut session);
    let ran_out = ran_out(refusal);
    let broke = broke(refusal);
    let Served {
        wires,
        keeper,
        journal,
        shut,
        reports,
        memory,
        store,
        wire,
    } = serve_wires(rt, alloc, session, wires, conns, gate);
    Served {
        wires,
        keeper,
        journal,
        shut,
        reports,
        memory: memory || ran_out,
        store: store || broke,
        wire,
    }
}

/// Serves a session as it is: a worker for each wire.
fn serve_wires<
    W: Wire + Send,
    C: SessionCore<Store: Send> + Send,
    G: Gate,
    R: Threads + Wait + Sync,
>(
    rt: &R,
    alloc: Global,
    session: AnySession<C>,
    wires: Vec<W>,
    conns: Option<u32>,
    gate: &G,
) -> Served<W, C::Store>
    requires few { length wires.items ≤ 64 }
    requires sound { ShutBefore session }
    ensures { Serves (record {
      links = W.links;
      faults = W.faults;
      link = link_seen W.Rx.left W.Rx.faults W.Tx.held W.Tx.faults;
    }) session (most_links conns) wires.items result.wires.items
        (record {
          journal = result.journal;
          shut = result.shut;
          known = C.Store.held result.keeper;
          count = C.Store.put_faults result.keeper;
          read_faults = C.Store.read_faults result.keeper;
          reports = result.reports;
          memory = result.memory;
          store = result.store;
          wire = result.wire;
        }) }
{
    journals_are_logs();
    crews_add_up::<W, AnySession<C>, W::Rx, W::Tx, Told>();
    match Hall::start(alloc, session) {
        Ok((hall, mut seat)) => {
            let crew = Crew {
                rt,
                alloc,
                hall: &hall,
                gate,
            };
            let ran = run_workers(&crew, &mut seat, wires, conns);
            finish(hall, seat, ran)
        }
        Err(HallError { machine }) => serve_nothing(alloc, machine, wires),
    }
}

/// What is left if memory ran out before a worker began.
fn serve_nothing<W: Wire, C: SessionCore>(
    alloc: Global,
    session: AnySession<C>,
    wires: Vec<W>,
) -> Served<W, C::Store>
    ensures parts { (C.Store.held result.keeper ≡ session.known)
        × (C.Store.put_faults result.keeper ≡ session.count)
        × (C.Store.read_faults result.keeper ≡ session.read_faults)
        × (result.journal ≡ session.journal) × (result.shut ≡ session.shut) }
    ensures wires { result.wires.items ≡ wires.items }
    ensures reports { result.reports ≡ [] }
    ensures flags { (result.memory ≡ true) × (result.store ≡ false) × (result.wire ≡ false) }
{
    let (keeper, journal, shut) = session.into_parts();
    Served {
        wires,
        keeper,
        journal,
        shut,
        reports: Reports::new(alloc),
        memory: true,
        store: false,
        wire: false,
    }
}

/// Closes the hall, and puts together what is left.
fn finish<W: Wire, C: SessionCore>(
    hall: Hall<AnySession<C>>,
    seat: Seat<AnySession<C>>,
    ran: Ran<W, LinkReport>,
) -> Served<W, C::Store>
    requires of { IsOf hall seat }
    requires alone { IsAlone seat.view }
    ensures closes { ClosesTo hall.start seat.view (record {
      journal = result.journal;
      shut = result.shut;
      known = C.Store.held result.keeper;
      count = C.Store.put_faults result.keeper;
      read_faults = C.Store.read_faults result.keeper;
      reports = result.reports;
      memory = result.memory;
      store = result.store;
      wire = result.wire;
    }) }
    ensures wires { result.wires.items ≡ ran.wires.items }
    ensures reports { result.reports ≡ ran.reports }
    ensures flags { (result.memory ≡ ran.flags.memory) × (result.store ≡ ran.flags.fault)
        × (result.wire ≡ ran.flags.wire) }
{
    let (keeper, journal, shut) = hall.close(seat).into_parts();
    let Ran {
        wires,
        reports,
        flags,
    } = ran;
    let Flags {
        memory,
        fault,
        wire,
    } = flags;
    Served {
        wires,
        keeper,
        journal,
        shut,
        reports,
        memory,
        store: fault,
        wire,
    }
}
