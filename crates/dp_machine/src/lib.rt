//! Machines that take events and answer queries.
#![tactic(auto)]

ghost use Rattle.std.specs.Prelude.{◌≡◌, Result, IfOk};
ghost use Rattle.std.specs.declared.alloc.AllocError.{AllocError};

use std::alloc::AllocError;

/// A machine: each event is one step, which may have several outcomes, and a query changes nothing.
/// What is said of a machine is said of its value, which a model may give it.
pub trait Machine {
    /// What makes the machine step.
    type Event;

    /// What a step answers.
    type Reply: Drop;

    /// What the machine is asked.
    type Query;

    /// What a query is answered.
    type Answer: Drop;

    /// From a machine the event may have this outcome, a reply or out of memory, and leave the
    /// other machine.
    ghost may_step: { Self → Self.Event → Result Self.Reply AllocError → Self → Type 0 };

    /// The answer of a machine to a query.
    ghost answer: { Self → Self.Query → Self.Answer };

    /// Takes an event. What each outcome leaves, out of memory too, `may_step` says.
    fn step(&mut self, event: &Self::Event) -> Result<Self::Reply, AllocError>
        ensures { may_step self.old event.now result self.new };

    /// Answers a query.
    fn ask(&self, query: &Self::Query) -> Result<Self::Answer, AllocError>
        ensures { IfOk result (λ found. found ≡ answer self.now query.now) };
}
