//! The steps of a turn: it is taken, the machine is used, and it is given back.

ghost use Rattle.std.specs.Prelude.{◌≡◌, ◌+◌, ◌^◌, ◌<◌, ◌≤◌, true, false, [], ◌∷◌, length};
ghost use Rattle.std.specs.Prelude.{Some, None, IfOk, Result};
ghost use Rattle.std.specs.declared.alloc.AllocError.{AllocError};
ghost use Rattle.dp_hall.specs.declared.view.View.{View as Known};
ghost use Rattle.dp_hall.specs.Rule.{HasTaken};
ghost use Rattle.dp_hall.specs.Logs.{left_by};
ghost use Rattle.dp_hall.specs.Calls.{Acts, ActsEach, Asks, IsSound, SplitsInto, JoinsInto};
ghost use Rattle.dp_hall.specs.Holding.{IsAt, IsIdle, HasTurn, HasMachine, HasStepped};
ghost use Rattle.dp_hall.specs.Holding.{ActsOn, InTurn, ActsInTurn};

use crate::listener::{Acted, Listener};
use crate::looking::Look;
use crate::rule::{Confirm, Count, Give, HallRule, Pairing, ReadCount, Stay, Take};
use crate::slot::{SlotOf, Stored, StoredOf};
use crate::view::{OutcomeOf, ViewOf};
use atomic_table::{Seat, Shared};
use dp_machine::Machine;
use std::alloc::AllocError;
use std::snapshot::Snapshot;
use std::sync::Wait;
use std::time::Duration;
use std::{hint, thread};

pub(crate) type HallTable<M> = Shared<SlotOf<M>, ViewOf<M>, Snapshot<M>, HallRule<M>>;

pub(crate) type TableSeat<M> = Seat<SlotOf<M>, ViewOf<M>>;

/// The word of the count.
const COUNT: usize = 0;

/// The word of the turn: 1 while a seat has it.
const TURN: usize = 1;

/// The word that never changes.
const REST: usize = 2;

/// The word of how many sleep until the turn is free.
const TURN_SLEEPERS: usize = 3;

/// The word of how many sleep until more acts have ended.
const COUNT_SLEEPERS: usize = 4;

/// The slot of the machine.
const MACHINE: usize = 0;

/// How often the turn is looked at before a seat sleeps. A turn is short, and a sleep is long.
const LOOKS: u32 = 64;

/// Looks at the turn until it is free, but not for long. A seat that has it may wait for a
/// processor: another thread is let go on then.
fn linger<M: Machine>(table: &HallTable<M>)
    requires { table.now.table_id.words ≡ 5 }
{
    for _look in 0..LOOKS {
        if table.peek(TURN) == 0 {
            return;
        }
        hint::spin_loop();
    }
    thread::yield_now();
}

/// Sleeps while the word is this, but not for good if it is not. Meanwhile it is one of the
/// sleepers: who changes the word looks at their number afterwards, and wakes nobody if it is 0.
fn sleep<M: Machine, R: Wait>(
    rt: &R,
    table: &HallTable<M>,
    token: &mut TableSeat<M>,
    word: usize,
    expected: u32,
    sleepers: usize,
)
    requires table { IsAt table.now.table_id token.old.table_id }
    requires words { (word < 5) × (1 < sleepers) × (sleepers < 5) }
    ensures table { token.new.table_id ≡ token.old.table_id }
    ensures view { token.new.me.0 ≡ token.old.me.0 }
    ensures hand { token.new.me.1 ≡ token.old.me.1 }
{
    table.fetch_add::<Stay<M>>(token, sleepers, 1);
    table.park(rt, word, expected);
    table.fetch_sub::<Stay<M>>(token, sleepers, 1);
}

/// Waits for the turn, and takes it with the machine.
fn take<M: Machine, R: Wait>(rt: &R, table: &HallTable<M>, token: &mut TableSeat<M>) -> StoredOf<M>
    requires table { IsAt table.now.table_id token.old.table_id }
    requires idle { IsIdle token.old }
    ensures table { IsAt table.now.table_id token.new.table_id }
    ensures view { HasTaken M.may_step token.old.me.0 token.new.me.0 result.machine.value }
    ensures hand { token.new.me.1 ≡ (0, None) ∷ [] }
{
    for _ in rt.forever() {
        linger(table);
        if table.compare_exchange::<Take<M>>(token, TURN, 0, 1) == 0 {
            return table.exchange(token, MACHINE, None).unwrap();
        }
        sleep(rt, table, token, TURN, 1, TURN_SLEEPERS);
    }
    unreachable!()
}

/// Puts the machine back into the slot in hand.
fn put<M: Machine>(table: &HallTable<M>, token: &mut TableSeat<M>, stored: StoredOf<M>)
    requires table { IsAt table.now.table_id token.old.table_id }
    requires hand { token.old.me.1 ≡ (0, None) ∷ [] }
    ensures table { IsAt table.now.table_id token.new.table_id }
    ensures view { token.new.me.0 ≡ token.old.me.0 }
    ensures hand { token.new.me.1 ≡ (0, Some stored) ∷ [] }
{
    let out = table.exchange(token, MACHINE, Some(stored));
    let None = out else { unreachable!() };
}

/// Takes the machine in hand out of the slot.
fn take_out<M: Machine>(table: &HallTable<M>, token: &mut TableSeat<M>) -> StoredOf<M>
    requires table { IsAt table.now.table_id token.old.table_id }
    requires hand { HasMachine token.old }
    ensures table { IsAt table.now.table_id token.new.table_id }
    ensures view { token.new.me.0 ≡ token.old.me.0 }
    ensures hand { token.new.me.1 ≡ (0, None) ∷ [] }
    ensures machine { HasTurn token.new.me.0 result.machine.value }
{
    table.exchange(token, MACHINE, None).unwrap()
}

/// Wakes one of those that sleep until the turn is free, if there is one.
fn wake_next<M: Machine>(table: &HallTable<M>)
    requires { table.now.table_id.words ≡ 5 }
{
    if table.peek(TURN_SLEEPERS) > 0 {
        table.wake_one(TURN);
    }
}

/// Gives the turn back with the machine.
fn give<M: Machine>(table: &HallTable<M>, token: &mut TableSeat<M>)
    requires table { IsAt table.now.table_id token.old.table_id }
    requires hand { HasMachine token.old }
    ensures table { IsAt table.now.table_id token.new.table_id }
    ensures view { token.new.me.0 ≡ record token.old.me.0 { holds = false } }
    ensures hand { token.new.me.1 ≡ [] }
{
    table.store::<Give<M>>(token, TURN, 0);
    wake_next(table);
}

/// Puts the machine back, and gives the turn back.
fn give_back<M: Machine>(table: &HallTable<M>, token: &mut TableSeat<M>, stored: StoredOf<M>)
    requires table { IsAt table.now.table_id token.old.table_id }
    requires hand { token.old.me.1 ≡ (0, None) ∷ [] }
    requires machine { HasTurn token.old.me.0 stored.machine.value }
    ensures table { IsAt table.now.table_id token.new.table_id }
    ensures view { token.new.me.0 ≡ record token.old.me.0 { holds = false } }
    ensures hand { token.new.me.1 ≡ [] }
{
    put(table, token, stored);
    give(table, token)
}

/// The count of acts that have ended. It is exact for the seat that has the turn.
pub(crate) fn count<M: Machine>(table: &HallTable<M>, token: &mut TableSeat<M>) -> u64
    requires { IsAt table.now.table_id token.old.table_id }
    ensures table { IsAt table.now.table_id token.new.table_id }
    ensures view { token.new.me.0 ≡ record token.old.me.0 { known = result } }
    ensures more { token.old.me.0.known ≤ result }
    ensures held { token.old.me.0.holds ≡ true → result ≡ length token.old.me.0.seen }
    ensures hand { token.new.me.1 ≡ token.old.me.1 }
{
    table.load::<ReadCount<M>>(token, COUNT)
}

/// One step of the machine, and what is stored of it.
fn step<M: Machine>(mut machine: Box<M>, event: &M::Event) -> (StoredOf<M>, OutcomeOf<M>)
    ensures { HasStepped M.may_step machine.value event.now result.0 result.1 }
{
    let outcome = machine.step(event);
    let last = Some((Snapshot::of(event), Snapshot::of(&outcome)));
    (Stored { machine, last }, outcome)
}

/// Takes the turn, with the machine in hand, for this number of acts. If the count would pass its
/// end by them, the turn is given back and the call waits for good.
fn begin<M: Machine, R: Wait>(rt: &R, table: &HallTable<M>, token: &mut TableSeat<M>, acts: usize)
    requires table { IsAt table.now.table_id token.old.table_id }
    requires idle { IsIdle token.old }
    ensures table { IsAt table.now.table_id token.new.table_id }
    ensures hand { HasMachine token.new }
    ensures turn { InTurn M.may_step token.old.me.0 token.new.me.0 [] }
    ensures room { length token.new.me.0.seen + acts < 2 ^ 64 }
{
    let stored = take(rt, table, token);
    if u64::MAX - count(table, token) < acts as u64 {
        give_back(table, token, stored);
        for _ in rt.forever() {}
        unreachable!()
    }
    put(table, token, stored);
}

/// One event, by a seat that has the turn.
fn act_held<M: Machine>(
    table: &HallTable<M>,
    token: &mut TableSeat<M>,
    event: &M::Event,
) -> OutcomeOf<M>
    requires table { IsAt table.now.table_id token.old.table_id }
    requires hand { HasMachine token.old }
    requires room { length token.old.me.0.seen + 1 < 2 ^ 64 }
    ensures table { IsAt table.now.table_id token.new.table_id }
    ensures hand { HasMachine token.new }
    ensures acts { ActsOn M.may_step token.old.me.0 event.now result token.new.me.0 }
{
    let Stored { machine, last } = take_out(table, token);
    drop(last);
    let (stored, outcome) = step(machine, event);
    put(table, token, stored);
    table.fetch_add::<Count<M>>(token, COUNT, 1);
    outcome
}

/// One event. It wakes nobody who waits for the count.
pub(crate) fn act<M: Machine, R: Wait>(
    rt: &R,
    table: &HallTable<M>,
    token: &mut TableSeat<M>,
    event: &M::Event,
) -> Result<M::Reply, AllocError>
    requires table { IsAt table.now.table_id token.old.table_id }
    requires idle { IsIdle token.old }
    requires sound { IsSound M.may_step token.old.me.0 }
    ensures table { IsAt table.now.table_id token.new.table_id }
    ensures entry { Acts token.old.me.0 event.now result token.new.me.0 }
    ensures sound { IsSound M.may_step token.new.me.0 }
    ensures hand { token.new.me.1 ≡ [] }
{
    begin(rt, table, token, 1);
    let outcome = act_held(table, token, event);
    give(table, token);
    outcome
}

/// The events, by a seat that has the turn, up to an outcome that nothing follows.
fn act_all<M: Machine, L: Listener<M>>(
    table: &HallTable<M>,
    token: &mut TableSeat<M>,
    events: &[M::Event],
    listener: &mut L,
) -> Acted<OutcomeOf<M>>
    requires table { IsAt table.now.table_id token.old.table_id }
    requires hand { HasMachine token.old }
    requires room { length token.old.me.0.seen + length events.now < 2 ^ 64 }
    ensures table { IsAt table.now.table_id token.new.table_id }
    ensures hand { HasMachine token.new }
    ensures acts { (v : Known M.Event (Result M.Reply AllocError) M)
        → InTurn M.may_step v token.old.me.0 []
        → ActsInTurn M.may_step L.follows v events.now result token.new.me.0 }
{
    let mut count = 0;
    for event in events {
        let outcome = act_held(table, token, event);
        count += 1;
        if !listener.hear(&outcome) {
            let stop = Some(outcome);
            return Acted { count, stop };
        }
    }
    Acted { count, stop: None }
}

/// The events in one turn, up to an outcome that nothing follows. It wakes nobody who waits for the
/// count.
pub(crate) fn act_each<M: Machine, R: Wait, L: Listener<M>>(
    rt: &R,
    table: &HallTable<M>,
    token: &mut TableSeat<M>,
    events: &[M::Event],
    listener: &mut L,
) -> Acted<OutcomeOf<M>>
    requires table { IsAt table.now.table_id token.old.table_id }
    requires idle { IsIdle token.old }
    requires sound { IsSound M.may_step token.old.me.0 }
    ensures table { IsAt table.now.table_id token.new.table_id }
    ensures entries { ActsEach L.follows token.old.me.0 events.now result token.new.me.0 }
    ensures sound { IsSound M.may_step token.new.me.0 }
    ensures hand { token.new.me.1 ≡ [] }
{
    begin(rt, table, token, events.len());
    let acted = act_all(table, token, events, listener);
    give(table, token);
    acted
}

/// Wakes those that wait for the count, if there are any.
pub(crate) fn wake<M: Machine>(table: &HallTable<M>)
    requires { table.now.table_id.words ≡ 5 }
{
    if table.peek(COUNT_SLEEPERS) > 0 {
        table.wake_all(COUNT);
    }
}

/// One query.
pub(crate) fn ask<M: Machine, R: Wait>(
    rt: &R,
    table: &HallTable<M>,
    token: &mut TableSeat<M>,
    query: &M::Query,
) -> Result<M::Answer, AllocError>
    requires table { IsAt table.now.table_id token.old.table_id }
    requires idle { IsIdle token.old }
    requires sound { IsSound M.may_step token.old.me.0 }
    ensures table { IsAt table.now.table_id token.new.table_id }
    ensures seen { Asks token.old.me.0 token.new.me.0 }
    ensures answer { IfOk result (λ a. (m : M) → token.old.me.0.start ≡ Some m
        → a ≡ M.answer (left_by m token.new.me.0.seen) query.now) }
    ensures sound { IsSound M.may_step token.new.me.0 }
    ensures hand { token.new.me.1 ≡ [] }
{
    let stored = take(rt, table, token);
    let answer = stored.machine.ask(query);
    give_back(table, token, stored);
    answer
}

/// One look.
pub(crate) fn look<M: Machine, R: Wait, L: Look<M>>(
    rt: &R,
    table: &HallTable<M>,
    token: &mut TableSeat<M>,
    looker: &mut L,
)
    requires table { IsAt table.now.table_id token.old.table_id }
    requires idle { IsIdle token.old }
    requires sound { IsSound M.may_step token.old.me.0 }
    ensures table { IsAt table.now.table_id token.new.table_id }
    ensures seen { Asks token.old.me.0 token.new.me.0 }
    ensures sees { (m : M) → token.old.me.0.start ≡ Some m
        → L.sees looker.old (left_by m token.new.me.0.seen) looker.new }
    ensures sound { IsSound M.may_step token.new.me.0 }
    ensures hand { token.new.me.1 ≡ [] }
{
    let stored = take(rt, table, token);
    looker.look(&stored.machine);
    give_back(table, token, stored);
}

/// Waits until the count is above a number.
pub(crate) fn wait_past<M: Machine, R: Wait>(
    rt: &R,
    table: &HallTable<M>,
    token: &mut TableSeat<M>,
    n: u64,
) -> u64
    requires { IsAt table.now.table_id token.old.table_id }
    ensures table { IsAt table.now.table_id token.new.table_id }
    ensures view { token.new.me.0 ≡ record token.old.me.0 { known = result } }
    ensures more { token.old.me.0.known ≤ result }
    ensures past { n < result }
    ensures hand { token.new.me.1 ≡ token.old.me.1 }
{
    for _ in rt.forever() {
        let seen = count(table, token);
        if seen > n {
            return seen;
        }
        let expected = (seen & 0xffff_ffff) as u32;
        sleep(rt, table, token, COUNT, expected, COUNT_SLEEPERS);
    }
    unreachable!()
}

/// Waits for a while, whatever is acted.
pub(crate) fn rest<M: Machine, R: Wait>(rt: &R, table: &HallTable<M>, time: Duration)
    requires { table.now.table_id.words ≡ 5 }
{
    table.park_timeout(rt, REST, 0, time);
}

/// A new seat, with the next name.
pub(crate) fn split<M: Machine>(table: &HallTable<M>, token: &mut TableSeat<M>) -> TableSeat<M>
    requires table { IsAt table.now.table_id token.old.table_id }
    requires idle { IsIdle token.old }
    requires sound { IsSound M.may_step token.old.me.0 }
    ensures table { IsAt table.now.table_id token.new.table_id }
    ensures given { IsAt table.now.table_id result.table_id }
    ensures views { SplitsInto token.old.me.0 token.new.me.0 result.me.0 }
    ensures sound { IsSound M.may_step token.new.me.0 × IsSound M.may_step result.me.0 }
    ensures start { result.me.0.start ≡ token.old.me.0.start }
    ensures hands { (token.new.me.1 ≡ []) × (result.me.1 ≡ []) }
{
    let mut other = table.split_seat::<Pairing<M>>(token);
    table.load::<Confirm<M>>(&mut other, COUNT);
    other
}

/// The second seat is joined into the first.
pub(crate) fn join<M: Machine>(table: &HallTable<M>, token: &mut TableSeat<M>, other: TableSeat<M>)
    requires table { IsAt table.now.table_id token.old.table_id
        × IsAt table.now.table_id other.table_id }
    requires idle { IsIdle token.old × IsIdle other }
    requires sound { IsSound M.may_step token.old.me.0 × IsSound M.may_step other.me.0 }
    ensures table { IsAt table.now.table_id token.new.table_id }
    ensures views { JoinsInto token.old.me.0 other.me.0 token.new.me.0 }
    ensures sound { IsSound M.may_step token.new.me.0 }
    ensures start { token.new.me.0.start ≡ token.old.me.0.start }
    ensures hand { token.new.me.1 ≡ [] }
{
    table.join_seat::<Pairing<M>>(token, other);
    table.load::<Confirm<M>>(token, COUNT);
}
