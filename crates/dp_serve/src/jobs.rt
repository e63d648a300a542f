//! The workers of a session, at the same time.

ghost use Rattle.std.specs.Prelude.{◌≡◌, ◌≤◌, [], length, All, IfSome, true, false};
ghost use Rattle.std.specs.Prelude.{vec_len, vec_capacity};
ghost use Rattle.dp_hall.specs.Calls.{IsOf};
ghost use Rattle.dp_epochs.specs.Laws.{ShutBefore};
ghost use Rattle.dp_crew.specs.Runs.{most_links};
ghost use Rattle.dp_crew.specs.Jobs.{RanJob, RanJobs};
ghost use Rattle.dp_crew.specs.Gathering.{Gathers, IsFirst, all_reports};
ghost use Rattle.dp_link_run.specs.Links.{link_seen};
ghost use Rattle.dp_serve.specs.Works.{session_rules};

use crate::LinkReport;
use crate::told::Told;
use crate::worker::run_worker;
use dp_any_session::{AnySession, SessionCore};
use dp_crew::{Flags, Job, Ran, gather_jobs, make_jobs};
use dp_hall::{Hall, Seat};
use dp_link::Worker;
use dp_wire::{Gate, Wire};
use std::alloc::Global;
use std::sync::Wait;
use std::thread::{Threads, for_each_mut};

/// The reports of all links, by rising worker and then by rising link.
pub type Reports = dp_crew::Reports<LinkReport>;

/// What workers share: threads and memory, the hall of the session, and the gate that they pass.
#[derive(Drop)]
pub(crate) struct Crew<'a, R, C: SessionCore, G> {
    pub(crate) rt: &'a R,
    pub(crate) alloc: Global,
    pub(crate) hall: &'a Hall<AnySession<C>>,
    pub(crate) gate: &'a G,
}

/// Runs a worker for each wire, all at the same time, each on a seat of its own, and waits for all
/// of them. The seats are joined into the given one, which has acted nothing yet.
///
/// If memory runs out, a worker ends or doesn't begin, and the flag says so.
pub(crate) fn run_workers<
    W: Wire + Send,
    C: SessionCore<Store: Send> + Send,
    G: Gate,
    R: Threads + Wait + Sync,
>(
    crew: &Crew<'_, R, C, G>,
    seat: &mut Seat<AnySession<C>>,
    wires: Vec<W>,
    conns: Option<u32>,
) -> Ran<W, LinkReport>
    requires of { IsOf crew.now.hall.now seat.old }
    requires first { IsFirst seat.old.view }
    requires start { ShutBefore crew.now.hall.now.start }
    requires few { length wires.items ≤ 64 }
    ensures of { IsOf crew.now.hall.now seat.new }
    ensures gathers { Gathers
        (session_rules (link_seen W.Rx.left W.Rx.faults W.Tx.held W.Tx.faults))
        (record { links = W.links; faults = W.faults }) crew.now.hall.now.start (most_links conns)
        seat.new.view [] wires.items result.wires.items result.reports result.flags }
{
    let mut wires = wires;
    let mut jobs = Vec::new(crew.alloc);
    let mut lists = Vec::new(crew.alloc);
    let count = wires.len();
    if jobs.reserve(count).is_err() || lists.reserve(count).is_err() {
        jobs.destroy_empty();
        let flags = Flags {
            memory: true,
            fault: false,
            wire: false,
        };
        let reports = Reports::new(crew.alloc);
        return Ran {
            wires,
            reports,
            flags,
        };
    }
    let flags = run_all(crew, seat, &mut wires, jobs, &mut lists, conns);
    let reports = Reports::of(lists);
    Ran {
        wires,
        reports,
        flags,
    }
}

/// Runs a worker for each wire, and gathers what they did. There is room for their jobs and for
/// their lists of reports.
fn run_all<W: Wire + Send, C: SessionCore<Store: Send> + Send, G: Gate, R: Threads + Wait + Sync>(
    crew: &Crew<'_, R, C, G>,
    seat: &mut Seat<AnySession<C>>,
    wires: &mut Vec<W>,
    jobs: Vec<Job<W, AnySession<C>, LinkReport>>,
    lists: &mut Vec<Vec<LinkReport>>,
    conns: Option<u32>,
) -> Flags
    requires of { IsOf crew.now.hall.now seat.old }
    requires first { IsFirst seat.old.view }
    requires start { ShutBefore crew.now.hall.now.start }
    requires few { length wires.old.items ≤ 64 }
    requires empty { (jobs.items ≡ []) × (lists.old.items ≡ []) }
    requires room { (vec_len wires.old ≤ vec_capacity jobs)
        × (vec_len wires.old ≤ vec_capacity lists.old) }
    ensures of { IsOf crew.now.hall.now seat.new }
    ensures gathers { Gathers
        (session_rules (link_seen W.Rx.left W.Rx.faults W.Tx.held W.Tx.faults))
        (record { links = W.links; faults = W.faults }) crew.now.hall.now.start (most_links conns)
        seat.new.view [] wires.old.items wires.new.items (all_reports lists.new.items) result }
{
    // Read, so that contracts know its range.
    let _most = conns.unwrap_or(u32::MAX);
    let mut jobs = jobs;
    make_jobs(crew.alloc, crew.hall, seat, wires, &mut jobs);
    run_jobs(crew.rt, crew.alloc, crew.hall, &mut jobs, conns, crew.gate);
    let flags = gather_jobs::<W, AnySession<C>, Told>(crew.hall, seat, &mut jobs, wires, lists);
    jobs.destroy_empty();
    flags
}

/// Runs the workers of the jobs, all at the same time if threads can be made.
fn run_jobs<W: Wire + Send, C: SessionCore<Store: Send> + Send, G: Gate, R: Threads + Wait + Sync>(
    rt: &R,
    alloc: Global,
    hall: &Hall<AnySession<C>>,
    jobs: &mut [Job<W, AnySession<C>, LinkReport>],
    conns: Option<u32>,
    gate: &G,
)
    requires of { All (λ job. IfSome job.seat (IsOf hall.now)) jobs.old }
    requires start { ShutBefore hall.now.start }
    ensures { RanJobs (session_rules (link_seen W.Rx.left W.Rx.faults W.Tx.held W.Tx.faults))
        (record { links = W.links; faults = W.faults }) hall.now (most_links conns) jobs.old
        jobs.new }
{
    let threads = jobs.len();
    if threads == 0 {
        return;
    }
    for_each_mut(
        rt,
        jobs,
        threads,
        &|_, job: &mut Job<W, AnySession<C>, LinkReport>|
            requires { IfSome job.now.seat (IsOf hall.now) × ShutBefore hall.now.start }
            ensures { RanJob
                (session_rules (link_seen W.Rx.left W.Rx.faults W.Tx.held W.Tx.faults))
                (record { links = W.links; faults = W.faults }) hall.entry.now
                (most_links conns) job.entry.now job.exit.now }
        { run_job(rt, alloc, hall, job, conns, gate) },
    );
}

/// Runs the worker of a job.
fn run_job<W: Wire, C: SessionCore<Store: Send> + Send, G: Gate, R: Threads + Wait + Sync>(
    rt: &R,
    alloc: Global,
    hall: &Hall<AnySession<C>>,
    job: &mut Job<W, AnySession<C>, LinkReport>,
    conns: Option<u32>,
    gate: &G,
)
    requires of { IfSome job.old.seat (IsOf hall.now) }
    requires start { ShutBefore hall.now.start }
    ensures { RanJob (session_rules (link_seen W.Rx.left W.Rx.faults W.Tx.held W.Tx.faults))
        (record { links = W.links; faults = W.faults }) hall.now (most_links conns) job.old
        job.new }
{
    let Some(seat) = &mut job.seat else {
        return;
    };
    let worker = Worker {
        rt,
        alloc,
        hall,
        who: job.who,
        gate,
    };
    job.worked = run_worker(&worker, seat, &mut job.wire, conns);
}
