//! Several acts in one turn.

ghost use Rattle.std.specs.Prelude.{◌≡◌, Bool, Result};
ghost use Rattle.std.specs.declared.alloc.AllocError.{AllocError};

use dp_machine::Machine;
use std::alloc::AllocError;

/// What hears the outcome of each act of a turn, and tells whether the next event is acted.
pub trait Listener<M: Machine> {
    /// After an act with this outcome the next one follows.
    ghost follows: { Result M.Reply AllocError → Bool };

    /// Hears an outcome, and tells whether the next one follows. The turn is held meanwhile.
    fn hear(&mut self, outcome: &Result<M::Reply, AllocError>) -> bool
        ensures { result ≡ follows outcome.now };
}

/// What came of several acts in one turn.
#[derive(Debug, Drop)]
pub struct Acted<O> {
    /// How many events were acted.
    pub count: usize,
    /// The outcome of the last one, if none was to follow it.
    pub stop: Option<O>,
}
