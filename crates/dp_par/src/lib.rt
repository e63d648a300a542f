//! Jobs that run at the same time.
#![tactic(auto)]

ghost use Rattle.std.specs.Prelude.{ℕ, ◌≡◌, ◌+◌, ◌<◌, ◌^◌, length, All, slice_index_or};
ghost use Rattle.std.specs.Thread.{IsSend, IsSync};

mod workers;

use dp_wire::Gate;
use std::sync::atomic::{AtomicU32, Ordering};
use std::thread::{Threads, for_each_mut, join, join_mut};
pub use workers::Workers;

/// What is run once. What a run leaves is to be told by what the job held, since jobs run in any
/// order.
pub trait Job: Send {
    /// What a run needs.
    ghost ready: { Self → Type 0 };

    /// What one run leaves of the job.
    ghost leaves: { Self → Self → Type 0 };

    /// Runs it. It takes no memory.
    fn run(&mut self)
        requires { ready self.old }
        ensures { leaves self.old self.new };
}

/// Runs each job once, on at most `workers` threads, if 0 is 1. It returns once all have ended.
/// Each job passes the gate first, by its place and 0. It takes no memory, and if a thread can't be
/// had, the jobs that it would run are run by another.
pub fn par_each<R: Threads + Sync, J: Job, G: Gate>(rt: &R, workers: u32, gate: &G, jobs: &mut [J])
    requires few { length jobs.old < 2 ^ 32 }
    requires ready { All J.ready jobs.old }
    ensures each_ran { (k : ℕ) (d : J) → k < length jobs.old
        → J.leaves (slice_index_or jobs.old k d) (slice_index_or jobs.new k d) }
    ensures as_many { length jobs.new ≡ length jobs.old }
{
    if workers < 2 {
        run_in_turn(rt, gate, 0, jobs);
    } else {
        let size = jobs.len().div_ceil(workers as usize).max(1);
        run_on_threads(rt, gate, size, 0, jobs);
    }
}

/// Runs jobs one after the other. The first of them stands at a place.
fn run_in_turn<R: Threads + Sync, J: Job, G: Gate>(rt: &R, gate: &G, first: usize, jobs: &mut [J])
    requires few { first + length jobs.old < 2 ^ 32 }
    requires ready { All J.ready jobs.old }
    ensures each_ran { (k : ℕ) (d : J) → k < length jobs.old
        → J.leaves (slice_index_or jobs.old k d) (slice_index_or jobs.new k d) }
    ensures as_many { length jobs.new ≡ length jobs.old }
{
    for_each_mut(
        rt,
        jobs,
        1,
        &|k, job: &mut J|
            requires { J.ready job.now × (first + k < 2 ^ 32) }
            ensures { J.leaves job.entry.now job.exit.now }
        {
            gate.pass((first + k) as u32, 0);
            job.run();
        },
    );
}

/// Runs each `size` of the jobs in a new thread, and waits for them. This one runs none: the system
/// puts the first thread that it starts where it runs itself.
#[cycle(running)]
fn run_on_threads<R: Threads + Sync, J: Job, G: Gate>(
    rt: &R,
    gate: &G,
    size: usize,
    first: usize,
    jobs: &mut [J],
)
    requires some { 0 < size }
    requires few { first + length jobs.old < 2 ^ 32 }
    requires ready { All J.ready jobs.old }
    ensures each_ran { (k : ℕ) (d : J) → k < length jobs.old
        → J.leaves (slice_index_or jobs.old k d) (slice_index_or jobs.new k d) }
    ensures as_many { length jobs.new ≡ length jobs.old }
{
    if jobs.is_empty() {
        return;
    }
    let now = size.min(jobs.len());
    let (piece, rest) = jobs.split_at_mut(now);
    run_beside(rt, gate, size, first, piece, first + now, rest);
}

/// Runs a piece of the jobs in a new thread, and each `size` of the rest in another.
#[cycle(running)]
fn run_beside<R: Threads + Sync, J: Job, G: Gate>(
    rt: &R,
    gate: &G,
    size: usize,
    first: usize,
    piece: &mut [J],
    next: usize,
    rest: &mut [J],
)
    requires some { 0 < size }
    requires few { first + length piece.old < 2 ^ 32 }
    requires few_rest { next + length rest.old < 2 ^ 32 }
    requires ready { All J.ready piece.old }
    requires rest_ready { All J.ready rest.old }
    ensures each_ran { (k : ℕ) (d : J) → k < length piece.old
        → J.leaves (slice_index_or piece.old k d) (slice_index_or piece.new k d) }
    ensures as_many { length piece.new ≡ length piece.old }
    ensures rest_ran { (k : ℕ) (d : J) → k < length rest.old
        → J.leaves (slice_index_or rest.old k d) (slice_index_or rest.new k d) }
    ensures rest_as_many { length rest.new ≡ length rest.old }
{
    let mut run_piece = ||
        requires { IsSync R.row × IsSend J.row × (first + length piece.now < 2 ^ 32)
            × All J.ready piece.now }
        ensures { ((k : ℕ) (d : J) → k < length piece.entry.now
            → J.leaves (slice_index_or piece.entry.now k d) (slice_index_or piece.exit.now k d))
            × (length piece.exit.now ≡ length piece.entry.now) }
    { run_in_turn(rt, gate, first, piece) };
    let mut run_rest = ||
        requires { IsSync R.row × IsSend J.row × (0 < size) × (next + length rest.now < 2 ^ 32)
            × All J.ready rest.now }
        ensures { ((k : ℕ) (d : J) → k < length rest.entry.now
            → J.leaves (slice_index_or rest.entry.now k d) (slice_index_or rest.exit.now k d))
            × (length rest.exit.now ≡ length rest.entry.now) }
    { run_on_threads(rt, gate, size, next, rest) };
    join_mut(rt, &mut run_piece, &mut run_rest);
}

/// How many threads take numbers at most.
const MOST: u32 = 64;

/// Calls `f` with numbers below `count`, on at most `workers` threads, if 0 is 1, and at most 64.
/// A thread that is done with one number takes the next, so that none waits for a slower one. Each
/// call passes the gate first, by its number and 0. It takes no memory, and if a thread can't be
/// had, the others take its numbers.
///
/// No clause says that a number is taken. So what stands on it looks whether its work is done.
pub fn par_take<R: Threads + Sync, G: Gate, F: Fn(u32) + Sync>(
    rt: &R,
    workers: u32,
    gate: &G,
    count: u32,
    f: &F,
)
    requires { (k : ℕ) → k < count → F.pre f.now k }
{
    let next = AtomicU32::new(0);
    if workers < 2 {
        take_all(gate, &next, count, f);
    } else {
        take_on_threads(rt, workers.min(count).min(MOST), gate, &next, count, f);
    }
}

/// Has so many new threads take numbers, and waits for them. This one takes none: the system puts
/// the first thread that it starts where it runs itself.
#[cycle(taking)]
fn take_on_threads<R: Threads + Sync, G: Gate, F: Fn(u32) + Sync>(
    rt: &R,
    threads: u32,
    gate: &G,
    next: &AtomicU32,
    count: u32,
    f: &F,
)
    requires { (k : ℕ) → k < count → F.pre f.now k }
{
    if threads == 0 {
        return;
    }
    join(
        rt,
        ||
            requires { IsSync F.row × ((k : ℕ) → k < count → F.pre f.now k) }
        { take_all(gate, next, count, f) },
        ||
            requires { IsSync R.row × IsSync F.row × (0 < threads)
                × ((k : ℕ) → k < count → F.pre f.now k) }
        { take_on_threads(rt, threads - 1, gate, next, count, f) },
    );
}

/// Takes numbers below `count` until there are none, and calls `f` with each.
fn take_all<G: Gate, F: Fn(u32)>(gate: &G, next: &AtomicU32, count: u32, f: &F)
    requires { (k : ℕ) → k < count → F.pre f.now k }
{
    for _ in 0..count {
        let k = next.fetch_add(1, Ordering::SeqCst);
        if k >= count {
            return;
        }
        gate.pass(k, 0);
        f(k);
    }
}
