//! A session over any store of rows.

ghost use Rattle.std.specs.Prelude.{◌≡◌, [], None, true, IfOk, OnErr, IsOk, MatchResult};
ghost use Rattle.dp_keeper.specs.Store.{Puts, Counts};
ghost use Rattle.dp_epochs.specs.Past.{Refuses, Serves, Step};
ghost use Rattle.dp_epochs.specs.Pull.{answered};
ghost use Rattle.dp_tables.specs.Ready.{IsReady};
ghost use Rattle.dp_session.specs.Puts.{IsPut};

use dp_any_session::SessionCore;
use dp_epochs::{Answer, Event, Journal, Query, Reply, Shut};
use dp_history::{Page, PageFrames};
use dp_keeper::{KeepError, Keeper};
use dp_machine::Machine;
use dp_tables::{Ready, Tables};
use std::alloc::{AllocError, Global};
use std::marker::Model;

/// A session: users with their connections, one history, and the journal of the events that made
/// it, each of which is a row of the store. Contracts see it as its past.
///
/// The rule: docs/protocol.md, "The session".
pub struct Session<K: Keeper> {
    pub(crate) keeper: K,
    pub(crate) tables: Tables,
    pub(crate) first_fault: Option<u64>,
}

impl<K: Keeper> Model for Session<K> {
    ghost use Rattle.dp_epochs.specs.Past.{Past};
    ghost use Rattle.dp_session.specs.Puts.{past_of};

    ghost Value = { Past };

    ghost view = { λ s. past_of s.tables s.first_fault (K.held s.keeper) (K.put_faults s.keeper)
        (K.read_faults s.keeper) };
}

// It is written out, so that it is only called where a session is let go.
impl<K: Keeper + Drop> Drop for Session<K> {
    fn drop(self) {
        let Session {
            keeper,
            tables,
            first_fault: _,
        } = self;
        drop(keeper);
        drop(tables);
    }
}

/// Does what became of the row of an event that is ready.
fn finish(
    tables: &mut Tables,
    event: &Event,
    ready: Ready,
    outcome: Result<(), KeepError>,
) -> Result<Reply, KeepError>
    requires room { tables.old.room ≡ true }
    requires ready { IsReady tables.old event.now ready }
    ensures same { MatchResult outcome (λ done. IsOk result) (λ error. result ≡ Err error) }
    ensures put { IsPut tables.old event.now result tables.new }
{
    match outcome {
        Ok(()) => Ok(tables.keep(ready)),
        Err(KeepError::Memory) => {
            drop(ready);
            Err(KeepError::Memory)
        }
        Err(KeepError::Failed) => {
            drop(ready);
            tables.leave_out(event);
            Err(KeepError::Failed)
        }
    }
}

/// Keeps an event that is ready, if its row is put. If the store fails, the event is left out, and
/// if memory runs out, nothing is done.
fn put<K: Keeper>(
    keeper: &mut K,
    tables: &mut Tables,
    event: &Event,
    ready: Ready,
) -> Result<Reply, KeepError>
    requires { IsReady tables.old event.now ready }
    ensures rows { Puts (K.held keeper.old) ready.row result (K.held keeper.new) }
    ensures count { Counts (K.put_faults keeper.old) result (K.put_faults keeper.new) }
    ensures others { K.read_faults keeper.new ≡ K.read_faults keeper.old }
    ensures outcome { IsPut tables.old event.now result tables.new }
{
    let Ok(()) = tables.make_room() else {
        drop(ready);
        return Err(KeepError::Memory);
    };
    let outcome = keeper.put(&ready.row);
    finish(tables, event, ready, outcome)
}

impl<K: Keeper + Drop> Session<K> {
    /// A session to which nothing has come, over a store without rows.
    pub fn new(alloc: Global, keeper: K) -> Result<Session<K>, AllocError>
        ensures { IfOk result (λ session. session ≡ record {
          journal = [];
          shut = [];
          quiet = [];
          first_fault = None;
          known = K.held keeper;
          count = K.put_faults keeper;
          read_faults = K.read_faults keeper;
        }) }
    {
        let tables = Tables::new(alloc)?;
        Ok(Session {
            keeper,
            tables,
            first_fault: None,
        })
    }
}

impl<K: Keeper> Session<K> {
    /// Refuses an event with this answer, if there is memory.
    fn refuse(&mut self, event: &Event, answer: Reply) -> Result<Reply, AllocError>
        ensures refused { IfOk result (λ given.
            Refuses self.old event.now answer given self.new) }
        ensures err { OnErr result (self.new ≡ self.old) }
    {
        self.tables.make_room()?;
        self.tables.leave_out(event);
        Ok(answer)
    }

    /// Serves an event, if there is memory.
    fn serve(&mut self, event: &Event) -> Result<Reply, AllocError>
        ensures served { IfOk result (λ answer.
            Serves self.old.first_fault self.old event.now answer self.new) }
        ensures err { OnErr result (self.new ≡ self.old) }
    {
        if let Some(count) = self.first_fault {
            return self.refuse(event, Reply::StoreFault { count });
        }
        let Some(ready) = self.tables.prepare(event)? else {
            return self.refuse(event, Reply::Ended);
        };
        match put(&mut self.keeper, &mut self.tables, event, ready) {
            Ok(reply) => Ok(reply),
            Err(KeepError::Memory) => Err(AllocError),
            Err(KeepError::Failed) => {
                let count = self.keeper.count();
                self.first_fault = Some(count);
                Ok(Reply::StoreFault { count })
            }
        }
    }

    /// Takes an event. If memory runs out, the connection of a Close gets nothing more.
    fn take(&mut self, event: &Event) -> Result<Reply, AllocError>
        ensures { Step self.old event.now result self.new }
    {
        match self.serve(event) {
            Ok(reply) => Ok(reply),
            Err(error) => {
                if let Event::Close { conn } = event {
                    self.tables.quieten(*conn);
                }
                Err(error)
            }
        }
    }
}

impl<K: Keeper> Machine for Session<K> {
    type Event = Event;

    type Reply = Reply;

    type Query = Query;

    type Answer = Answer;

    ghost may_step = { Step };

    ghost answer = { answered };

    fn step(&mut self, event: &Event) -> Result<Reply, AllocError> {
        let outcome = self.take(event);
        self.tables.write_frames();
        outcome
    }

    fn ask(&self, query: &Query) -> Result<Answer, AllocError> {
        let Query::Pull {
            conn,
            epoch,
            at,
            max,
        } = *query;
        self.tables.pull(conn, epoch, at, max)
    }
}

impl<K: Keeper> SessionCore for Session<K> {
    type Store = K;

    ghost past = { λ session. session };

    fn step(&mut self, event: &Event) -> Result<Reply, AllocError> {
        Machine::step(self, event)
    }

    fn ask(&self, query: &Query) -> Result<Answer, AllocError> {
        Machine::ask(self, query)
    }

    fn put_page(
        &self,
        conn: u32,
        epoch: u32,
        at: u32,
        page: &mut PageFrames,
    ) -> Result<Option<Page>, AllocError> {
        self.tables.put_page(conn, epoch, at, page)
    }

    fn conns(&self, after: u32) -> Option<u32> {
        self.tables.next_open(after)
    }

    fn into_parts(self) -> (K, Journal, Shut) {
        let Session {
            keeper,
            tables,
            first_fault: _,
        } = self;
        let (journal, shut) = tables.into_parts();
        (keeper, Journal::from_vec(journal), Shut::from_vec(shut))
    }
}
