//! Sessions over a store that never fails.

ghost use Rattle.std.specs.Prelude.{◌≡◌};

use crate::session::Session;
use dp_epochs::{Answer, Event, Query, Reply};
use dp_keeper::{Keeper, Rows, SureKeeper};
use dp_machine::Machine;
use dp_sure_session::SureSession;
use std::alloc::{AllocError, Global};

impl<K: Keeper> Session<K> {
    /// How often a put has failed. It takes no memory.
    pub fn faults(&self) -> u64
        ensures count { result ≡ self.now.count }
        ensures store { ((k : K) → K.put_faults k ≡ 0) → result ≡ 0 }
    {
        self.keeper.count()
    }
}

impl SureSession for Session<SureKeeper> {
    ghost past = { λ session. session };

    fn new_sure(alloc: Global) -> Result<Self, AllocError> {
        Session::new(alloc, SureKeeper::new(Rows::new(alloc)))
    }

    fn step_surely(&mut self, event: &Event) -> Result<Reply, AllocError> {
        let _before = self.faults();
        let result = Machine::step(self, event);
        let _after = self.faults();
        result
    }

    fn ask(&self, query: &Query) -> Result<Answer, AllocError> {
        Machine::ask(self, query)
    }
}
