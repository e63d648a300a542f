//! A crew: a worker for each wire, all at the same time.

ghost use Rattle.std.specs.Prelude.{◌≡◌, ◌≤◌, [], length, true, false};
ghost use Rattle.std.specs.Prelude.{vec_len, vec_capacity};
ghost use Rattle.dp_hall.specs.Calls.{IsOf};
ghost use Rattle.dp_crew.specs.Runs.{most_links};
ghost use Rattle.dp_crew.specs.Gathering.{Gathers, IsFirst, all_reports};

use crate::gather::gather_jobs;
use crate::jobs::{Job, make_jobs, run_jobs};
use crate::{Flags, Reports, Service};
use dp_hall::{Hall, Machine, Seat};
use dp_wire::Wire;
use std::alloc::Global;
use std::thread::Threads;

/// What workers share: their memory, the hall, and what serves a link on its seats.
#[derive(Drop)]
pub struct Crew<'a, M: Machine, S> {
    pub alloc: Global,
    pub hall: &'a Hall<M>,
    pub service: &'a S,
}

/// What a crew left.
#[derive(Drop)]
pub struct Ran<W, P> {
    /// The wires, in their order.
    pub wires: Vec<W>,
    /// A report of each link that a wire handed out.
    pub reports: Reports<P>,
    pub flags: Flags,
}

/// Runs a worker for each wire, all at the same time, each on a seat of its own, and waits for all
/// of them. Each works until it has served `conns` links (2^32 - 1 if no number is given), none is
/// to come, or its wire fails. Each link that a wire handed out is handed back. The seats are
/// joined into the given one, which has acted nothing yet.
///
/// If memory runs out, a worker ends or doesn't begin, and the flag says so.
pub fn run_crew<
    W: Wire + Send,
    M: Machine<Reply: Send, Answer: Send> + Send,
    S: Service<M, W::Rx, W::Tx, Report: Send> + Sync,
    R: Threads + Sync,
>(
    rt: &R,
    crew: &Crew<'_, M, S>,
    seat: &mut Seat<M>,
    wires: Vec<W>,
    conns: Option<u32>,
) -> Ran<W, S::Report>
    requires same { S.hall crew.now.service.now ≡ crew.now.hall.now }
    requires of { IsOf crew.now.hall.now seat.old }
    requires first { IsFirst seat.old.view }
    requires begins { S.rules.begins crew.now.hall.now.start }
    requires few { length wires.items ≤ 64 }
    ensures of { IsOf crew.now.hall.now seat.new }
    ensures gathers { Gathers S.rules (record { links = W.links; faults = W.faults })
        crew.now.hall.now.start (most_links conns) seat.new.view [] wires.items
        result.wires.items result.reports result.flags }
{
    let mut wires = wires;
    let mut jobs = Vec::new(crew.alloc);
    let mut lists = Vec::new(crew.alloc);
    let count = wires.len();
    if jobs.reserve(count).is_err() || lists.reserve(count).is_err() {
        jobs.destroy_empty();
        let flags = Flags {
            memory: true,
            fault: false,
            wire: false,
        };
        let reports = Reports::new(crew.alloc);
        return Ran {
            wires,
            reports,
            flags,
        };
    }
    let flags = run_all(rt, crew, seat, &mut wires, jobs, &mut lists, conns);
    let reports = Reports::of(lists);
    Ran {
        wires,
        reports,
        flags,
    }
}

/// Runs a worker for each wire, and gathers what they did. There is room for their jobs and for
/// their lists of reports.
fn run_all<
    W: Wire + Send,
    M: Machine<Reply: Send, Answer: Send> + Send,
    S: Service<M, W::Rx, W::Tx, Report: Send> + Sync,
    R: Threads + Sync,
>(
    rt: &R,
    crew: &Crew<'_, M, S>,
    seat: &mut Seat<M>,
    wires: &mut Vec<W>,
    jobs: Vec<Job<W, M, S::Report>>,
    lists: &mut Vec<Vec<S::Report>>,
    conns: Option<u32>,
) -> Flags
    requires same { S.hall crew.now.service.now ≡ crew.now.hall.now }
    requires of { IsOf crew.now.hall.now seat.old }
    requires first { IsFirst seat.old.view }
    requires begins { S.rules.begins crew.now.hall.now.start }
    requires few { length wires.old.items ≤ 64 }
    requires empty { (jobs.items ≡ []) × (lists.old.items ≡ []) }
    requires room { (vec_len wires.old ≤ vec_capacity jobs)
        × (vec_len wires.old ≤ vec_capacity lists.old) }
    ensures of { IsOf crew.now.hall.now seat.new }
    ensures gathers { Gathers S.rules (record { links = W.links; faults = W.faults })
        crew.now.hall.now.start (most_links conns) seat.new.view [] wires.old.items
        wires.new.items (all_reports lists.new.items) result }
{
    // Read, so that contracts know its range.
    let _most = conns.unwrap_or(u32::MAX);
    let mut jobs = jobs;
    make_jobs(crew.alloc, crew.hall, seat, wires, &mut jobs);
    run_jobs(rt, crew.alloc, crew.service, &mut jobs, conns);
    let flags = gather_jobs::<W, M, S>(crew.hall, seat, &mut jobs, wires, lists);
    jobs.destroy_empty();
    flags
}
