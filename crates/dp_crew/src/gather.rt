//! Gathering what the workers did.

ghost use Rattle.std.specs.Prelude.{◌≡◌, ◌-◌, ◌^◌, ◌<◌, ◌≤◌, ◌||◌, ℕ, List, [], ◌∷◌, ◌++◌, reverse};
ghost use Rattle.std.specs.Prelude.{All, IfSome, vec_len, vec_capacity, Result};
ghost use Rattle.std.specs.declared.alloc.AllocError.{AllocError};
ghost use Rattle.dp_hall.specs.declared.view.View.{View};
ghost use Rattle.dp_hall.specs.Calls.{IsOf};
ghost use Rattle.dp_hall.specs.Logs.{IsLegal};
ghost use Rattle.dp_crew.specs.Jobs.{JobValue, MadeJobs, RanJobs};
ghost use Rattle.dp_crew.specs.Gathering.{Gathers, IsFirst, JoinsSeat, all_reports};

use crate::jobs::Job;
use crate::{Flags, Reporting, Worked};
use dp_hall::{Hall, Machine, Seat, seats_are_sound};
use dp_wire::Wire;

/// Joins the seats of all jobs, puts their wires back in their order, and adds their lists of
/// reports. There is room for both.
pub fn gather_jobs<W: Wire, M: Machine, S: Reporting<M, W::Rx, W::Tx>>(
    hall: &Hall<M>,
    seat: &mut Seat<M>,
    jobs: &mut Vec<Job<W, M, S::Report>>,
    wires: &mut Vec<W>,
    lists: &mut Vec<Vec<S::Report>>,
) -> Flags
    requires of { IsOf hall.now seat.old }
    requires seats { All (λ job. IfSome job.seat (IsOf hall.now)) jobs.old.items }
    requires begins { S.rules.begins hall.now.start }
    requires empty { (wires.old.items ≡ []) × (lists.old.items ≡ []) }
    requires room { (vec_len jobs.old ≤ vec_capacity wires.old)
        × (vec_len jobs.old ≤ vec_capacity lists.old) }
    ensures of { IsOf hall.now seat.new }
    ensures taken { jobs.new.items ≡ [] }
    ensures gathers { (v : View M.Event (Result M.Reply AllocError) M) (olds : List W)
        (made : List (JobValue W S.Report M.Event (Result M.Reply AllocError) M)) (most : ℕ)
        → IsFirst v → most ≤ 2 ^ 32 - 1
        → MadeJobs hall.now v seat.old.view 0 olds (reverse made)
        → RanJobs S.rules (record { links = W.links; faults = W.faults }) hall.now most
        made jobs.old.items
        → Gathers S.rules (record { links = W.links; faults = W.faults }) hall.now.start
        most seat.new.view [] olds wires.new.items (all_reports lists.new.items) result }
{
    S::reports_go_on();
    let mut flags = Flags {
        memory: false,
        fault: false,
        wire: false,
    };
    'jobs: while let Some(job) = jobs.pop() {
        take_in(hall, seat, job, wires, lists, &mut flags);
    }
    flags
}

/// Takes in one job, for whose wire and reports there is room. Its seat is joined, if it has one,
/// and the flags that it raised are raised.
fn take_in<W, M: Machine, P>(
    hall: &Hall<M>,
    seat: &mut Seat<M>,
    job: Job<W, M, P>,
    wires: &mut Vec<W>,
    lists: &mut Vec<Vec<P>>,
    flags: &mut Flags,
)
    requires of { IsOf hall.now seat.old × IfSome job.seat (IsOf hall.now) }
    requires room { (vec_len wires.old < vec_capacity wires.old)
        × (vec_len lists.old < vec_capacity lists.old) }
    ensures of { IsOf hall.now seat.new }
    ensures joins { JoinsSeat seat.old.view job.seat seat.new.view }
    ensures legal { IsLegal M.may_step hall.now.start seat.new.view.seen }
    ensures wires { wires.new.items ≡ wires.old.items ++ job.wire ∷ [] }
    ensures lists { lists.new.items ≡ lists.old.items ++ job.worked.reports ∷ [] }
    ensures room { (vec_capacity wires.new ≡ vec_capacity wires.old)
        × (vec_capacity lists.new ≡ vec_capacity lists.old) }
    ensures flags { flags.new ≡ record {
      memory = flags.old.memory || job.worked.memory;
      fault = flags.old.fault || job.worked.fault;
      wire = flags.old.wire || job.worked.wire;
    } }
{
    let Job {
        who: _,
        wire,
        seat: other,
        worked,
    } = job;
    if let Some(other) = other {
        hall.join_into(seat, other);
    }
    seats_are_sound(seat);
    let Worked {
        reports,
        memory,
        fault,
        wire: failed,
    } = worked;
    wires.push_reserved(wire);
    lists.push_reserved(reports);
    flags.memory = flags.memory || memory;
    flags.fault = flags.fault || fault;
    flags.wire = flags.wire || failed;
}
