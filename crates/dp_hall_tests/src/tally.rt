//! A machine that notes who acted, and may wait at a gate.

use dp_hall::Machine;
use std::alloc::AllocError;
use std::sync::Arc;
use std::sync::atomic::{AtomicU64, Ordering};
use std::thread;

/// How many turns a flag is waited for.
const TURNS: u64 = 5_000_000;

/// The number of an act that is refused, as if memory ran out.
pub const REFUSED: u64 = 1_000_000;

/// The number of an act that raises the first flag of the gate, and goes on when the second is up.
pub const GATED: u64 = 2_000_000;

/// Two flags, 1 if they are up.
#[derive(Drop)]
pub struct Gate {
    pub began: AtomicU64,
    pub open: AtomicU64,
}

/// Lets others run until a flag is up, or for `TURNS` turns, and says whether it is.
pub fn is_raised(flag: &AtomicU64) -> bool {
    for _ in 0..TURNS {
        if flag.load(Ordering::SeqCst) == 1 {
            return true;
        }
        thread::yield_now();
    }
    false
}

/// An act: of which thread, and its number there.
#[derive(Clone, Copy, Debug, PartialEq, Eq)]
pub struct Mark {
    pub thread: u64,
    pub number: u64,
}

/// The acts, in order.
#[derive(Drop)]
pub struct Tally {
    pub marks: Vec<Mark>,
    pub gate: Arc<Gate>,
}

impl Machine for Tally {
    ghost use Rattle.std.specs.Prelude.{◌≡◌, ◌∷◌, [], ◌++◌, vec_len, OnOk, OnErr};

    type Event = Mark;

    type Reply = bool;

    type Query = ();

    type Answer = u64;

    ghost may_step = { λ t mark out u. OnOk out (u.marks.items ≡ t.marks.items ++ mark ∷ [])
        × OnErr out (u.marks.items ≡ t.marks.items) };

    ghost answer = { λ t q. vec_len t.marks };

    /// Answers whether the gate was open in time, if there is one.
    fn step(&mut self, event: &Mark) -> Result<bool, AllocError> {
        if event.number == REFUSED {
            return Err(AllocError);
        }
        self.marks.push(*event)?;
        if event.number == GATED {
            self.gate.began.store(1, Ordering::SeqCst);
            return Ok(is_raised(&self.gate.open));
        }
        Ok(true)
    }

    fn ask(&self, _query: &()) -> Result<u64, AllocError> {
        Ok(self.marks.len() as u64)
    }
}
