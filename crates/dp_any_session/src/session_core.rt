//! What a session stands on.

ghost use Rattle.std.specs.Prelude.{◌≡◌, [], IfOk, OnErr};
ghost use Rattle.dp_epochs.specs.Past.{Past, Step, state_of};
ghost use Rattle.dp_epochs.specs.Pull.{answered};
ghost use Rattle.dp_epochs.specs.State.{next_open};
ghost use Rattle.dp_epochs.specs.declared.event.Query.TheVariants.{Pull};
ghost use Rattle.dp_history.specs.Pages.{IsBounded, IsPage};

use dp_epochs::{Answer, Event, Journal, Query, Reply, Shut};
use dp_history::{Page, PageFrames};
use dp_keeper::Keeper;
use std::alloc::AllocError;

/// What steps as a session does, and gives the pages that its connections are to get.
pub trait SessionCore {
    /// Where the rows of its events are kept.
    type Store: Keeper;

    /// What came to it so far.
    ghost past: { Self → Past };

    /// Takes an event. What each outcome leaves, out of memory too, `Step` says.
    fn step(&mut self, event: &Event) -> Result<Reply, AllocError>
        ensures { Step (past self.old) event.now result (past self.new) };

    /// Answers a query.
    fn ask(&self, query: &Query) -> Result<Answer, AllocError>
        ensures { IfOk result (λ found. found ≡ answered (past self.now) query.now) };

    /// Puts what a connection is to get into a page, as frames, from a cursor on: a page of some
    /// length. `None` means that nothing more is to come.
    ///
    /// # Errors
    ///
    /// No frame is in the page.
    fn put_page(
        &self,
        conn: u32,
        epoch: u32,
        at: u32,
        page: &mut PageFrames,
    ) -> Result<Option<Page>, AllocError>
        ensures page { IfOk result (λ found. IsPage
            (λ most. answered (past self.now) (Pull conn epoch at most)) found page.new) }
        ensures bounds { IfOk result (λ found. IsBounded found page.new) }
        ensures err { OnErr result (page.new ≡ []) };

    /// The least number above this one of a connection that is open. It takes no memory.
    fn conns(&self, after: u32) -> Option<u32>
        ensures { result ≡ next_open (state_of (past self.now)).connections after };

    /// The store, the events that were kept, and the closings that were refused.
    fn into_parts(self) -> (Self::Store, Journal, Shut)
        ensures known { Self.Store.held result.0 ≡ (past self).known }
        ensures count { Self.Store.put_faults result.0 ≡ (past self).count }
        ensures read_faults { Self.Store.read_faults result.0 ≡ (past self).read_faults }
        ensures journal { result.1 ≡ (past self).journal }
        ensures shut { result.2 ≡ (past self).shut };
}
