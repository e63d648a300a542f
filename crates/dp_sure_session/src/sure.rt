//! A session over a store that never fails.

ghost use Rattle.std.specs.Prelude.{◌≡◌, None, IfOk, OnOk, OnErr};
ghost use Rattle.dp_epochs.specs.Past.{Past, quieted, sure_answer, sure_step};
ghost use Rattle.dp_epochs.specs.Pull.{answered};
ghost use Rattle.dp_sure_session.specs.FirstPast.{first_past};

use dp_epochs::{Answer, Event, Query, Reply};
use std::alloc::{AllocError, Global};

/// A session over a store that never fails, whatever keeps its events.
pub trait SureSession: Sized + Drop {
    /// What came to it so far.
    ghost past: { Self → Past };

    /// A session to which nothing has come.
    fn new_sure(alloc: Global) -> Result<Self, AllocError>
        ensures { IfOk result (λ session. past session ≡ first_past) };

    /// Takes an event, if no fault has come.
    ///
    /// # Errors
    ///
    /// If memory runs out: nothing is kept, and the connection of a Close gets nothing more.
    fn step_surely(&mut self, event: &Event) -> Result<Reply, AllocError>
        requires { (past self.old).first_fault ≡ None }
        ensures reply { IfOk result (λ reply. reply ≡ sure_answer (past self.old) event.now) }
        ensures ok { OnOk result (past self.new ≡ sure_step (past self.old) event.now) }
        ensures err { OnErr result (past self.new ≡ quieted (past self.old) event.now) };

    /// Answers a query.
    fn ask(&self, query: &Query) -> Result<Answer, AllocError>
        ensures { IfOk result (λ found. found ≡ answered (past self.now) query.now) };
}
