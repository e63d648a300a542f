//! A session over any core.

ghost use Rattle.std.specs.Prelude.{◌≡◌, [], IfOk, OnErr};
ghost use Rattle.dp_epochs.specs.Past.{Step, state_of};
ghost use Rattle.dp_epochs.specs.Pull.{answered};
ghost use Rattle.dp_epochs.specs.State.{next_open};
ghost use Rattle.dp_epochs.specs.declared.event.Query.TheVariants.{Pull};
ghost use Rattle.dp_history.specs.Pages.{IsBounded, IsPage};

use crate::session_core::SessionCore;
use dp_epochs::{Answer, Event, Journal, Query, Reply, Shut};
use dp_history::{Page, PageFrames};
use dp_machine::Machine;
use std::alloc::AllocError;
use std::marker::Model;

/// A session over a core. Contracts see it as its past, whatever the core is.
#[derive(Drop)]
pub struct AnySession<C: SessionCore> {
    core: C,
}

impl<C: SessionCore> Model for AnySession<C> {
    ghost use Rattle.dp_epochs.specs.Past.{Past};

    ghost Value = { Past };

    ghost view = { λ s. C.past s.core };
}

impl<C: SessionCore> AnySession<C> {
    /// The session of a core.
    pub fn new(core: C) -> AnySession<C>
        ensures { result ≡ C.past core }
    {
        AnySession { core }
    }

    /// Puts what a connection is to get into a page, as frames, from a cursor on: a page of some
    /// length. `None` means that nothing more is to come.
    ///
    /// # Errors
    ///
    /// No frame is in the page.
    pub fn put_page(
        &self,
        conn: u32,
        epoch: u32,
        at: u32,
        page: &mut PageFrames,
    ) -> Result<Option<Page>, AllocError>
        ensures page { IfOk result (λ found. IsPage
            (λ most. answered self.now (Pull conn epoch at most)) found page.new) }
        ensures bounds { IfOk result (λ found. IsBounded found page.new) }
        ensures err { OnErr result (page.new ≡ []) }
    {
        self.core.put_page(conn, epoch, at, page)
    }

    /// The least number above this one of a connection that is open. It takes no memory.
    pub fn conns(&self, after: u32) -> Option<u32>
        ensures { result ≡ next_open (state_of self.now).connections after }
    {
        self.core.conns(after)
    }

    /// The store, the events that were kept, and the closings that were refused.
    pub fn into_parts(self) -> (C::Store, Journal, Shut)
        ensures known { C.Store.held result.0 ≡ self.known }
        ensures count { C.Store.put_faults result.0 ≡ self.count }
        ensures read_faults { C.Store.read_faults result.0 ≡ self.read_faults }
        ensures journal { result.1 ≡ self.journal }
        ensures shut { result.2 ≡ self.shut }
    {
        let AnySession { core } = self;
        core.into_parts()
    }
}

impl<C: SessionCore> Machine for AnySession<C> {
    type Event = Event;

    type Reply = Reply;

    type Query = Query;

    type Answer = Answer;

    ghost may_step = { Step };

    ghost answer = { answered };

    fn step(&mut self, event: &Event) -> Result<Reply, AllocError> {
        self.core.step(event)
    }

    fn ask(&self, query: &Query) -> Result<Answer, AllocError> {
        self.core.ask(query)
    }
}
