//! The parts of the workers.

ghost use Rattle.std.specs.Prelude.{◌≡◌, ◌≤◌, [], All, IfSome, reverse, vec_len, vec_capacity};
ghost use Rattle.dp_hall.specs.Calls.{IsOf};
ghost use Rattle.dp_crew.specs.Runs.{most_links};
ghost use Rattle.dp_crew.specs.Jobs.{MadeJob, MadeJobs, RanJob, RanJobs};

use crate::{Service, Worked, run_links};
use dp_hall::{Hall, Machine, Seat};
use dp_wire::Wire;
use std::alloc::{AllocError, Global};
use std::marker::Model;
use std::thread::{Threads, for_each_mut};

/// What a worker works with, and what it did.
pub struct Job<W, M: Machine, P> {
    /// Its number.
    pub who: u32,
    /// Its wire.
    pub wire: W,
    /// Its seat. There is none if no seat could be split off for it: then it doesn't work.
    pub seat: Option<Seat<M>>,
    /// What it did.
    pub worked: Worked<P>,
}

impl<W, M: Machine, P> Model for Job<W, M, P> {
    ghost use Rattle.std.specs.Prelude.{Result};
    ghost use Rattle.std.specs.declared.alloc.AllocError.{AllocError};
    ghost use Rattle.dp_crew.specs.Jobs.{JobValue};

    ghost Value = { JobValue W P M.Event (Result M.Reply AllocError) M };

    ghost view = { λ j. record { who = j.who; wire = j.wire; seat = j.seat; worked = j.worked } };
}

/// Makes a job for each wire, the last wire's first, with a seat of its own. No wire is left.
pub fn make_jobs<W, M: Machine, P>(
    alloc: Global,
    hall: &Hall<M>,
    seat: &mut Seat<M>,
    wires: &mut Vec<W>,
    jobs: &mut Vec<Job<W, M, P>>,
)
    requires of { IsOf hall.now seat.old }
    requires none { jobs.old.items ≡ [] }
    requires few { vec_len wires.old ≤ 64 }
    requires room { vec_len wires.old ≤ vec_capacity jobs.old }
    ensures of { IsOf hall.now seat.new }
    ensures made { MadeJobs hall.now seat.old.view seat.new.view 0 wires.old.items
        (reverse jobs.new.items) }
    ensures taken { wires.new.items ≡ [] }
    ensures room { vec_capacity wires.new ≡ vec_capacity wires.old }
{
    'wires: while let Some(wire) = wires.pop() {
        let who = wires.len() as u32;
        jobs.push_reserved(make_job(alloc, hall, seat, wire, who));
    }
}

/// The job of a worker.
fn make_job<W, M: Machine, P>(
    alloc: Global,
    hall: &Hall<M>,
    seat: &mut Seat<M>,
    wire: W,
    who: u32,
) -> Job<W, M, P>
    requires { IsOf hall.now seat.old }
    ensures of { IsOf hall.now seat.new }
    ensures made { MadeJob hall.now seat.old.view seat.new.view wire who result }
{
    let mut worked = Worked::new(alloc);
    let seat = match hall.split(seat) {
        Ok(seat) => Some(seat),
        Err(AllocError) => {
            worked.memory = true;
            None
        }
    };
    Job {
        who,
        wire,
        seat,
        worked,
    }
}

/// Runs the workers of the jobs, all at the same time if threads can be made.
pub(crate) fn run_jobs<
    W: Wire + Send,
    M: Machine<Reply: Send, Answer: Send> + Send,
    S: Service<M, W::Rx, W::Tx, Report: Send> + Sync,
    R: Threads + Sync,
>(rt: &R, alloc: Global, service: &S, jobs: &mut [Job<W, M, S::Report>], conns: Option<u32>)
    requires of { All (λ job. IfSome job.seat (IsOf (S.hall service.now))) jobs.old }
    requires begins { S.rules.begins (S.hall service.now).start }
    ensures { RanJobs S.rules (record { links = W.links; faults = W.faults }) (S.hall service.now)
        (most_links conns) jobs.old jobs.new }
{
    let threads = jobs.len();
    if threads == 0 {
        return;
    }
    for_each_mut(
        rt,
        jobs,
        threads,
        &|_, job: &mut Job<W, M, S::Report>|
            requires { IfSome job.now.seat (IsOf (S.hall service.now))
                × S.rules.begins (S.hall service.now).start }
            ensures { RanJob S.rules (record { links = W.links; faults = W.faults })
                (S.hall service.entry.now) (most_links conns) job.entry.now job.exit.now }
        { run_job(alloc, service, job, conns) },
    );
}

/// Runs the worker of a job.
fn run_job<W: Wire, M: Machine, S: Service<M, W::Rx, W::Tx>>(
    alloc: Global,
    service: &S,
    job: &mut Job<W, M, S::Report>,
    conns: Option<u32>,
)
    requires of { IfSome job.old.seat (IsOf (S.hall service.now)) }
    requires begins { S.rules.begins (S.hall service.now).start }
    ensures { RanJob S.rules (record { links = W.links; faults = W.faults }) (S.hall service.now)
        (most_links conns) job.old job.new }
{
    let Some(seat) = &mut job.seat else {
        return;
    };
    job.worked = run_links(alloc, service, job.who, seat, &mut job.wire, conns);
}
