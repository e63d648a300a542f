//! Jobs that run at the same time.

ghost use Rattle.std.specs.Prelude.{◌≡◌, ◌+◌, ◌<◌};

use dp_par::{Job, par_each, par_take};
use dp_wire::Gate;
use std::process::Abort;
use std::sync::atomic::{AtomicU64, Ordering};
use std::thread;
use std::thread::Threads;

/// What counts its runs.
#[derive(Clone, Copy, Debug, PartialEq, Eq)]
struct Counts {
    runs: u32,
}

impl Job for Counts {
    ghost ready = { λ job. job.runs < 100 };

    ghost leaves = { λ old new. new.runs ≡ old.runs + 1 };

    fn run(&mut self) {
        self.runs += 1;
    }
}

/// How many turns a job is held for.
const TURNS: u64 = 200_000;

/// A gate at which job 0 is held until another job has passed, or for a number of turns.
#[derive(Drop)]
struct Held {
    until: u32,
    passed: AtomicU64,
    gave_up: AtomicU64,
}

impl Gate for Held {
    fn pass(&self, who: u32, _n: u64) {
        if who == self.until {
            self.passed.store(1, Ordering::SeqCst);
        }
        if who == 0 {
            for _ in 0..TURNS {
                if self.passed.load(Ordering::SeqCst) == 1 {
                    return;
                }
                thread::yield_now();
            }
            self.gave_up.store(1, Ordering::SeqCst);
        }
    }
}

/// A gate at which job 0 is held until this one has passed.
fn held_until(until: u32) -> Held {
    Held {
        until,
        passed: AtomicU64::new(0),
        gave_up: AtomicU64::new(0),
    }
}

/// Runs eight jobs on this number of workers, and says whether the gate gave up.
fn gives_up<R: Threads + Sync + Abort>(rt: &R, workers: u32) -> bool {
    let gate = held_until(4);
    let mut jobs = [Counts { runs: 6 }; 8];
    par_each(rt, workers, &gate, &mut jobs);
    assert!(rt; jobs == ([Counts { runs: 7 }; 8]));
    gate.gave_up.load(Ordering::SeqCst) == 1
}

/// Two pieces of four jobs run at the same time, and on one worker one after the other.
#[test]
fn pieces_run_at_the_same_time(rt: HostRuntime) {
    assert!(rt; !gives_up(&rt, 2));
    assert!(rt; gives_up(&rt, 1));
    assert!(rt; gives_up(&rt, 0));
}

/// Has eight numbers be taken on this number of workers, and says whether the gate gave up. Each is
/// counted in a digit of its own.
fn gives_up_taking<R: Threads + Sync + Abort>(rt: &R, workers: u32) -> bool {
    let gate = held_until(7);
    let taken = AtomicU64::new(0);
    par_take(
        rt,
        workers,
        &gate,
        8,
        &|k: u32|
            requires { k < 8 }
        {
            taken.fetch_add(1 << (4 * k), Ordering::SeqCst);
        },
    );
    assert!(rt; taken.load(Ordering::SeqCst) == 0x1111_1111);
    gate.gave_up.load(Ordering::SeqCst) == 1
}

/// Each number is taken once. While a worker is held at the first, the other one takes all others.
#[test]
fn a_number_that_is_held_holds_no_other(rt: HostRuntime) {
    assert!(rt; !gives_up_taking(&rt, 2));
    assert!(rt; !gives_up_taking(&rt, 64));
    assert!(rt; gives_up_taking(&rt, 1));
    assert!(rt; gives_up_taking(&rt, 0));
}
