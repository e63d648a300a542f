//! A session and what its clients send, without their canvases.

ghost use Rattle.std.specs.Prelude.{◌≡◌, ◌∷◌, ◌++◌, [], None, false, is_some, length, replicate};
ghost use Rattle.std.specs.Prelude.{IfNone, IfOk, IfSome, OnOk};
ghost use Rattle.std.specs.List.{fold};
ghost use Rattle.dp_epochs.specs.Past.{state_of, sure_step};
ghost use Rattle.dp_lists.specs.Numbered.{numbered};
ghost use Rattle.dp_schedule.specs.declared.action.Action.TheVariants.{Join, Act};
ghost use Rattle.dp_schedule.specs.declared.action.Instruction.TheVariants.{Say, Up};
ghost use Rattle.dp_drill.specs.Flow.{waiting};
ghost use Rattle.dp_drill.specs.Flow.{GetsHistory, first_flow, flow_after, last_sends};

use dp_epochs::{Answer, Entries, Event, Query, Reply};
use dp_frame::Octets;
use dp_messages::Msg;
use dp_sure_session::SureSession;
use std::alloc::{AllocError, Global};
use std::collections::VecDeque;
use std::marker::Model;

/// The messages on their way from a client.
#[derive(Drop)]
struct Uplink {
    queue: VecDeque<Msg>,
}

impl Model for Uplink {
    ghost use Rattle.std.specs.Prelude.{List};
    ghost use Rattle.dp_messages.specs.declared.message.Msg.{Msg as Message};

    ghost Value = { List Message };

    ghost view = { λ u. u.queue.items };
}

impl Uplink {
    /// No messages.
    fn new(alloc: Global) -> Uplink
        ensures { result ≡ [] }
    {
        Uplink {
            queue: VecDeque::new(alloc),
        }
    }

    /// How many messages there are.
    fn len(&self) -> usize
        ensures { result ≡ length self.now }
    {
        self.queue.len()
    }

    /// One more message.
    fn push(&mut self, msg: Msg) -> Result<(), AllocError>
        ensures { OnOk result (self.new ≡ self.old ++ msg ∷ []) }
    {
        self.queue.push_back(msg)?;
        Ok(())
    }

    /// Takes the first message, if there is one.
    fn pop(&mut self) -> Option<Msg>
        ensures some { IfSome result (λ msg. self.old ≡ msg ∷ self.new) }
        ensures none { IfNone result ((self.old ≡ []) × (self.new ≡ [])) }
    {
        self.queue.pop_front()
    }
}

/// Has the session serve an event, which isn't kept.
fn serve<S: SureSession>(session: &mut S, event: Event) -> Result<Reply, AllocError>
    requires { (S.past session.old).first_fault ≡ None }
    ensures { OnOk result (S.past session.new ≡ sure_step (S.past session.old) event) }
{
    let reply = session.step_surely(&event);
    drop(event);
    reply
}

/// A session, and the messages on their way from each client, in the order of their joins.
#[derive(Drop)]
pub(crate) struct Flow<S: SureSession> {
    session: S,
    uplinks: Vec<Uplink>,
    alloc: Global,
}

impl<S: SureSession> Model for Flow<S> {
    ghost use Rattle.dp_drill.specs.Flow.{Flow as Seen};

    ghost Value = { Seen };

    ghost view = { λ f. record { past = S.past f.session; uplinks = f.uplinks.items } };
}

impl<S: SureSession> Flow<S> {
    /// A session to which nothing has come, without clients.
    pub(crate) fn new(alloc: Global) -> Result<Flow<S>, AllocError>
        ensures { IfOk result (λ flow. flow ≡ first_flow) }
    {
        Ok(Flow {
            session: S::new_sure(alloc)?,
            uplinks: Vec::new(alloc),
            alloc,
        })
    }

    /// A user of this name joins, and becomes a client.
    pub(crate) fn join(&mut self, name: &[u8]) -> Result<(), AllocError>
        requires { self.old.past.first_fault ≡ None }
        ensures ok { OnOk result (self.new ≡ flow_after self.old (Join name.now false)) }
        ensures sure { OnOk result (self.new.past.first_fault ≡ None) }
    {
        let name = Octets::from_vec(Vec::from_slice(self.alloc, name)?);
        let registered = false;
        serve(&mut self.session, Event::Open { name, registered })?;
        self.uplinks.push(Uplink::new(self.alloc))?;
        Ok(())
    }

    /// Whether there is a client of this number.
    fn has(&self, client: u32) -> bool
        ensures { result ≡ is_some (numbered self.now.uplinks client) }
    {
        client != 0 && (client as usize) <= self.uplinks.len()
    }

    /// The client of this number says a message, if there is such a client.
    pub(crate) fn say(&mut self, client: u32, msg: Msg) -> Result<(), AllocError>
        ensures ok { OnOk result (self.new ≡ flow_after self.old (Act client (Say msg))) }
        ensures past { self.new.past ≡ self.old.past }
    {
        if !self.has(client) {
            drop(msg);
            return Ok(());
        }
        self.uplinks[client as usize - 1].push(msg)?;
        Ok(())
    }

    /// The client's uplink sends its first message, if there is one.
    pub(crate) fn send(&mut self, client: u32) -> Result<(), AllocError>
        requires { self.old.past.first_fault ≡ None }
        ensures ok { OnOk result (self.new ≡ flow_after self.old (Act client Up)) }
        ensures sure { OnOk result (self.new.past.first_fault ≡ None) }
    {
        if !self.has(client) {
            return Ok(());
        }
        let Some(msg) = self.uplinks[client as usize - 1].pop() else {
            return Ok(());
        };
        serve(&mut self.session, Event::Say { conn: client, msg })?;
        Ok(())
    }

    /// How many messages wait on the client's uplink.
    fn waiting(&self, client: u32) -> usize
        ensures { result ≡ waiting self.now client }
    {
        if self.has(client) {
            self.uplinks[client as usize - 1].len()
        } else {
            0
        }
    }

    /// The client's uplink sends this many times.
    fn send_times(&mut self, client: u32, times: usize) -> Result<(), AllocError>
        requires { self.old.past.first_fault ≡ None }
        ensures ok { OnOk result (self.new
            ≡ fold flow_after self.old (replicate times (Act client Up))) }
        ensures sure { OnOk result (self.new.past.first_fault ≡ None) }
    {
        for _ in 0..times {
            self.send(client)?;
        }
        Ok(())
    }

    /// Each client's uplink sends all that it has.
    pub(crate) fn send_all(&mut self) -> Result<(), AllocError>
        requires { self.old.past.first_fault ≡ None }
        ensures ok { OnOk result (self.new ≡ fold flow_after self.old (last_sends self.old)) }
        ensures sure { OnOk result (self.new.past.first_fault ≡ None) }
    {
        let (first, second, third) = (self.waiting(1), self.waiting(2), self.waiting(3));
        self.send_times(1, first)?;
        self.send_times(2, second)?;
        self.send_times(3, third)
    }

    /// The live history, of which the first client gets all.
    pub(crate) fn history(&self) -> Result<Entries, AllocError>
        requires { GetsHistory self.now.past }
        ensures { IfOk result (λ entries. entries ≡ (state_of self.now.past).live) }
    {
        let query = Query::Pull {
            conn: 1,
            epoch: 0,
            at: 0,
            max: u32::MAX,
        };
        match self.session.ask(&query)? {
            Answer::Entries { list, .. } => Ok(list),
            Answer::Gone => unreachable!(),
        }
    }
}
