//! The hall, and its calls.

ghost use Rattle.std.specs.Prelude.{◌≡◌, ◌<◌, ◌≤◌, IfOk, IfErr, OnErr, Some};
ghost use Rattle.dp_hall.specs.Calls.{IsOf, Acts, ActsEach, Asks, IsSound};
ghost use Rattle.dp_hall.specs.Calls.{SplitsInto, JoinsInto, IsAlone, Closes};
ghost use Rattle.dp_hall.specs.Logs.{left_by};
ghost use Rattle.dp_hall.specs.Rule.{first_view};

use crate::listener::{Acted, Listener};
use crate::looking::Look;
use crate::rule::HallRule;
use crate::seat::Seat;
use crate::slot::{SlotOf, Stored};
use crate::turn;
use crate::view::ViewOf;
use atomic_table::{Refused, Table};
use dp_machine::Machine;
use std::alloc::{AllocError, AllocFailed, Global};
use std::marker::Model;
use std::snapshot::Snapshot;
use std::sync::Wait;
use std::time::Duration;

/// A machine that seats act on, one at a time. All acts are one log, which is legal from the
/// machine at the start. Contracts see which hall it is, and that machine. It can't be dropped,
/// but is closed.
pub struct Hall<M: Machine> {
    table: Table<SlotOf<M>, ViewOf<M>, Snapshot<M>, HallRule<M>, Global>,
}

impl<M: Machine> Model for Hall<M> {
    ghost use Rattle.std.specs.Prelude.{◌≡◌};
    ghost use Rattle.dp_hall.specs.Calls.{HallValue};

    ghost Value = { HallValue M };

    ghost view = { λ h. record {
      table = h.table.shared.table_id;
      start = h.table.shared.key.value;
    } };

    ghost invariant = { λ h. (h.table.shared.table_id.words ≡ 5)
        × (h.table.shared.table_id.slots ≡ 1) };
}

/// Memory ran out. The machine comes back.
#[derive(Debug)]
pub struct HallError<M> {
    pub machine: M,
}

impl<M: Machine> Hall<M> {
    /// A hall of the machine, and its first seat, which has the empty name and has seen nothing.
    ///
    /// # Errors
    ///
    /// If memory runs out. The machine comes back as it was.
    pub fn start(alloc: Global, machine: M) -> Result<(Hall<M>, Seat<M>), HallError<M>>
        ensures of { IfOk result (λ r. IsOf r.0 r.1) }
        ensures start { IfOk result (λ r. r.0.start ≡ machine) }
        ensures seat { IfOk result (λ r. r.1.view ≡ first_view machine) }
        ensures err { IfErr result (λ e. e.machine ≡ machine) }
    {
        let about = Snapshot::of(&machine);
        let machine = match Box::new(alloc, machine) {
            Ok(machine) => machine,
            Err(AllocFailed { value }) => return Err(HallError { machine: value }),
        };
        let last = None;
        let mut slots = Vec::new(alloc);
        match slots.push(Some(Stored { machine, last })) {
            Ok(()) => {}
            Err(AllocFailed { value }) => {
                slots.destroy_empty();
                return Err(machine_back(value));
            }
        }
        match Table::new(alloc, &[0; 5], slots, &about) {
            Ok((table, token)) => Ok((Hall { table }, Seat { token })),
            Err(Refused { mut slots }) => {
                let Some(slot) = slots.pop() else {
                    unreachable!()
                };
                slots.destroy_empty();
                Err(machine_back(slot))
            }
        }
    }

    /// One event is one step of the machine, and one entry of the log: the answer is its outcome.
    /// It waits for the turn, and wakes those that wait for the count. The count of acts stops at
    /// the greatest `u64`: an act that finds it there waits for good, and changes nothing.
    ///
    /// # Errors
    ///
    /// If memory ran out in the step. That is an outcome too, and an entry of the log.
    pub fn act<R: Wait>(
        &self,
        rt: &R,
        seat: &mut Seat<M>,
        event: &M::Event,
    ) -> Result<M::Reply, AllocError>
        requires { IsOf self.now seat.old }
        ensures of { IsOf self.now seat.new }
        ensures entry { Acts seat.old.view event.now result seat.new.view }
        ensures sound { IsSound M.may_step seat.new.view }
    {
        let outcome = self.act_silently(rt, seat, event);
        self.wake();
        outcome
    }

    /// Acts an event as `act` does, but wakes nobody: `wake` does. Several acts in a row need one
    /// wake.
    ///
    /// # Errors
    ///
    /// As those of `act`.
    pub fn act_silently<R: Wait>(
        &self,
        rt: &R,
        seat: &mut Seat<M>,
        event: &M::Event,
    ) -> Result<M::Reply, AllocError>
        requires { IsOf self.now seat.old }
        ensures of { IsOf self.now seat.new }
        ensures entry { Acts seat.old.view event.now result seat.new.view }
        ensures sound { IsSound M.may_step seat.new.view }
    {
        turn::act(rt, &self.table.shared, &mut seat.token, event)
    }

    /// Acts the events one after the other in one turn, so that nobody acts between them. It stops
    /// after an outcome that the listener lets nothing follow, and gives it. It wakes nobody:
    /// `wake` does. If the count of acts would pass the greatest `u64`, it waits for good, and
    /// changes nothing.
    pub fn act_each<R: Wait, L: Listener<M>>(
        &self,
        rt: &R,
        seat: &mut Seat<M>,
        events: &[M::Event],
        listener: &mut L,
    ) -> Acted<Result<M::Reply, AllocError>>
        requires { IsOf self.now seat.old }
        ensures of { IsOf self.now seat.new }
        ensures entries { ActsEach L.follows seat.old.view events.now result seat.new.view }
        ensures sound { IsSound M.may_step seat.new.view }
    {
        turn::act_each(rt, &self.table.shared, &mut seat.token, events, listener)
    }

    /// Wakes those that wait for the count.
    pub fn wake(&self) {
        turn::wake(&self.table.shared);
    }

    /// The answer of the machine that the log so far leaves. It waits for the turn.
    ///
    /// # Errors
    ///
    /// If memory runs out. The seat has then seen the log all the same.
    pub fn ask<R: Wait>(
        &self,
        rt: &R,
        seat: &mut Seat<M>,
        query: &M::Query,
    ) -> Result<M::Answer, AllocError>
        requires { IsOf self.now seat.old }
        ensures of { IsOf self.now seat.new }
        ensures seen { Asks seat.old.view seat.new.view }
        ensures answer { IfOk result
            (λ a. a ≡ M.answer (left_by self.now.start seat.new.view.seen) query.now) }
        ensures sound { IsSound M.may_step seat.new.view }
    {
        turn::ask(rt, &self.table.shared, &mut seat.token, query)
    }

    /// A look at the machine that the log so far leaves. It waits for the turn, and has it while
    /// the looker looks.
    pub fn look<R: Wait, L: Look<M>>(&self, rt: &R, seat: &mut Seat<M>, looker: &mut L)
        requires { IsOf self.now seat.old }
        ensures of { IsOf self.now seat.new }
        ensures seen { Asks seat.old.view seat.new.view }
        ensures sees { L.sees looker.old (left_by self.now.start seat.new.view.seen) looker.new }
        ensures sound { IsSound M.may_step seat.new.view }
    {
        turn::look(rt, &self.table.shared, &mut seat.token, looker);
    }

    /// How many acts have ended, those that were refused too. It waits for nobody, and takes no
    /// memory.
    pub fn count(&self, seat: &mut Seat<M>) -> u64
        requires { IsOf self.now seat.old }
        ensures of { IsOf self.now seat.new }
        ensures view { seat.new.view ≡ record seat.old.view { known = result } }
        ensures more { seat.old.view.known ≤ result }
    {
        turn::count(&self.table.shared, &mut seat.token)
    }

    /// Waits until more acts than `n` have ended, and answers how many.
    pub fn wait_past<R: Wait>(&self, rt: &R, seat: &mut Seat<M>, n: u64) -> u64
        requires { IsOf self.now seat.old }
        ensures of { IsOf self.now seat.new }
        ensures view { seat.new.view ≡ record seat.old.view { known = result } }
        ensures more { seat.old.view.known ≤ result }
        ensures past { n < result }
    {
        turn::wait_past(rt, &self.table.shared, &mut seat.token, n)
    }

    /// Waits for a while, whatever is acted: who has just looked lets more acts come before the
    /// next look.
    pub fn rest<R: Wait>(&self, rt: &R, time: Duration) {
        turn::rest(rt, &self.table.shared, time);
    }

    /// A new seat of the hall, which has seen as much. Its name is the first one's with the number
    /// of its splits added, counted from 0.
    ///
    /// # Errors
    ///
    /// None today, since a seat takes no memory. An error would leave the seat as it was.
    pub fn split(&self, seat: &mut Seat<M>) -> Result<Seat<M>, AllocError>
        requires { IsOf self.now seat.old }
        ensures of { IsOf self.now seat.new }
        ensures given { IfOk result
            (λ s. IsOf self.now s × SplitsInto seat.old.view seat.new.view s.view) }
        ensures err { OnErr result (seat.new ≡ seat.old) }
    {
        let token = turn::split(&self.table.shared, &mut seat.token);
        Ok(Seat { token })
    }

    /// Two seats as one, under the name of the first. It has seen what either had, and knows the
    /// names and the entries of both.
    pub fn join(&self, mut a: Seat<M>, b: Seat<M>) -> Seat<M>
        requires { IsOf self.now a × IsOf self.now b }
        ensures of { IsOf self.now result }
        ensures views { JoinsInto a.view b.view result.view }
        ensures sound { IsSound M.may_step result.view }
    {
        self.join_into(&mut a, b);
        a
    }

    /// Joins two seats in place of the first one: for a seat that is lent, as to the closure of a
    /// thread.
    pub fn join_into(&self, seat: &mut Seat<M>, other: Seat<M>)
        requires { IsOf self.now seat.old × IsOf self.now other }
        ensures of { IsOf self.now seat.new }
        ensures views { JoinsInto seat.old.view other.view seat.new.view }
        ensures sound { IsSound M.may_step seat.new.view }
    {
        turn::join(&self.table.shared, &mut seat.token, other.into_token());
    }

    /// Ends the hall by the seat of its start, into which all the others were joined, and gives the
    /// machine that the whole log leaves.
    pub fn close(self, seat: Seat<M>) -> M
        requires of { IsOf self seat }
        requires alone { IsAlone seat.view }
        ensures { Closes M.may_step self.start seat.view result }
    {
        let Hall { table } = self;
        let mut closed = table.close_with(seat.into_token());
        let slot = closed.take(0);
        closed.free();
        let HallError { machine } = machine_back(slot);
        machine
    }
}

/// The machine of a slot at home.
fn machine_back<M: Machine>(slot: SlotOf<M>) -> HallError<M>
    requires { (stored : _) × (slot ≡ Some stored) }
    ensures { (stored : _) × (slot ≡ Some stored) × (result.machine ≡ stored.machine.value) }
{
    match slot {
        Some(Stored { machine, last }) => {
            drop(last);
            HallError {
                machine: Box::into_inner(machine),
            }
        }
        None => unreachable!(),
    }
}
