//! A gate that counts, and can hold the first job.

use dp_wire::Gate;
use std::sync::atomic::{AtomicU64, Ordering};
use std::thread;

/// How many turns a job is held for.
const TURNS: u64 = 200_000;

/// A gate that counts how often it was passed. It can hold job 0 until the job of a number has
/// passed, or for a number of turns.
#[derive(Drop)]
pub struct RowGate {
    until: Option<u32>,
    passes: AtomicU64,
    passed: AtomicU64,
    gave_up: AtomicU64,
}

impl RowGate {
    /// A gate that nobody passed, and that holds nobody or job 0 until this one has passed.
    pub fn new(until: Option<u32>) -> RowGate {
        RowGate {
            until,
            passes: AtomicU64::new(0),
            passed: AtomicU64::new(0),
            gave_up: AtomicU64::new(0),
        }
    }

    /// How often it was passed.
    pub fn passes(&self) -> u64 {
        self.passes.load(Ordering::SeqCst)
    }

    /// Whether job 0 was held for all turns.
    pub fn gave_up(&self) -> bool {
        self.gave_up.load(Ordering::SeqCst) == 1
    }

    /// Holds a job.
    fn hold(&self) {
        for _ in 0..TURNS {
            if self.passed.load(Ordering::SeqCst) == 1 {
                return;
            }
            thread::yield_now();
        }
        self.gave_up.store(1, Ordering::SeqCst);
    }
}

impl Gate for RowGate {
    fn pass(&self, who: u32, _n: u64) {
        self.passes.fetch_add(1, Ordering::SeqCst);
        match self.until {
            Some(until) if until == who => self.passed.store(1, Ordering::SeqCst),
            Some(_) if who == 0 => self.hold(),
            _ => {}
        }
    }
}
