//! What seats do, alone and two at once.

ghost use Rattle.std.specs.Prelude.{◌≡◌, IfOk};
ghost use Rattle.dp_hall.specs.Rule.{first_view};
ghost use Rattle.dp_hall.specs.declared.view.View.{View as Known};
ghost use Rattle.dp_hall.specs.Calls.{IsOf, SplitsInto, JoinsInto};
ghost use Rattle.dp_hall_tests.specs.Working.{Returns, Acted, went};

use crate::tally::{GATED, Gate, Mark, REFUSED, Tally, is_raised};
use dp_hall::{Hall, HallError, Listener, Seat, calls_add_up, seats_come_back};
use std::alloc::{AllocError, Global};
use std::sync::atomic::Ordering;
use std::sync::{Arc, Wait};
use std::thread::{Threads, join_mut};
use std::time::{Clock, Duration};

/// What a seat does.
pub trait Work {
    type Output;

    fn work(&mut self, hall: &Hall<Tally>, seat: &mut Seat<Tally>) -> Self::Output
        requires { IsOf hall.now seat.old }
        ensures of { IsOf hall.now seat.new }
        ensures returns { Returns seat.old.view seat.new.view };
}

/// What a seat's acts leave, and what a split, the work of both seats and their join leave.
pub fn seats_return<E, O, M>()
    ensures acts { (v w : Known E O M) → Acted v w → Returns v w }
    ensures pairs { (v stays given one two w : Known E O M) → SplitsInto v stays given
        → Returns stays one → Returns given two → JoinsInto one two w → Returns v w }
{
    seats_come_back::<E, O, M>();
}

/// Runs the first work in a new thread, or last if none can be made, and the second in this one.
fn run_both<R: Threads, V: Work + Send, W: Work>(
    rt: &R,
    hall: &Hall<Tally>,
    first: &mut V,
    one: &mut Seat<Tally>,
    second: &mut W,
    two: &mut Seat<Tally>,
) -> (V::Output, W::Output)
where
    V::Output: Send,
    requires { IsOf hall.now one.old × IsOf hall.now two.old }
    ensures of { IsOf hall.now one.new × IsOf hall.now two.new }
    ensures one { Returns one.old.view one.new.view }
    ensures two { Returns two.old.view two.new.view }
{
    join_mut(
        rt,
        &mut ||
            requires { IsOf hall.now one.now }
            ensures { IsOf hall.entry.now one.exit.now
                × Returns one.entry.now.view one.exit.now.view }
        { first.work(hall, one) },
        &mut ||
            requires { IsOf hall.now two.now }
            ensures { IsOf hall.entry.now two.exit.now
                × Returns two.entry.now.view two.exit.now.view }
        { second.work(hall, two) },
    )
}

/// Two kinds of work at once: the first by a seat that is split off, on a thread of its own. A
/// seat is lent to its thread, since a closure holds nothing that can't be dropped.
pub fn both<R: Threads, V: Work + Send, W: Work>(
    rt: &R,
    hall: &Hall<Tally>,
    seat: &mut Seat<Tally>,
    first: &mut V,
    second: &mut W,
) -> (V::Output, W::Output)
where
    V::Output: Send,
    requires { IsOf hall.now seat.old }
    ensures of { IsOf hall.now seat.new }
    ensures returns { Returns seat.old.view seat.new.view }
{
    seats_return::<Mark, Result<bool, AllocError>, Tally>();
    let Ok(mut other) = hall.split(seat) else {
        let two = second.work(hall, seat);
        return (first.work(hall, seat), two);
    };
    let outputs = run_both(rt, hall, first, &mut other, second, seat);
    hall.join_into(seat, other);
    outputs
}

/// A hall's whole life: it is started, its seat works, and it is closed.
pub fn live<W: Work>(
    alloc: Global,
    tally: Tally,
    work: &mut W,
) -> Result<(Tally, W::Output), AllocError> {
    seats_come_back::<Mark, Result<bool, AllocError>, Tally>();
    let (hall, mut seat) = start(alloc, tally)?;
    let output = work.work(&hall, &mut seat);
    Ok((hall.close(seat), output))
}

/// A hall's life with two kinds of work at once.
pub fn live_both<R: Threads, V: Work + Send, W: Work>(
    rt: &R,
    alloc: Global,
    tally: Tally,
    first: &mut V,
    second: &mut W,
) -> Result<(Tally, (V::Output, W::Output)), AllocError>
where
    V::Output: Send,
{
    seats_come_back::<Mark, Result<bool, AllocError>, Tally>();
    let (hall, mut seat) = start(alloc, tally)?;
    let outputs = both(rt, &hall, &mut seat, first, second);
    Ok((hall.close(seat), outputs))
}

/// A hall, and its first seat.
pub fn start(alloc: Global, tally: Tally) -> Result<(Hall<Tally>, Seat<Tally>), AllocError>
    ensures of { IfOk result (λ r. IsOf r.0 r.1) }
    ensures seat { IfOk result (λ r. r.1.view ≡ first_view tally) }
{
    match Hall::start(alloc, tally) {
        Ok(started) => Ok(started),
        Err(HallError { machine }) => {
            drop(machine);
            Err(AllocError)
        }
    }
}

/// Acts of one thread, numbered from 0, and one wake after them.
pub fn act_often<R: Wait>(
    rt: &R,
    hall: &Hall<Tally>,
    seat: &mut Seat<Tally>,
    thread: u64,
    times: u64,
)
    requires { IsOf hall.now seat.old }
    ensures of { IsOf hall.now seat.new }
    ensures acted { Acted seat.old.view seat.new.view }
{
    calls_add_up::<Mark, Result<bool, AllocError>, Tally>();
    for number in 0..times {
        let _ = hall.act_silently(rt, seat, &Mark { thread, number });
    }
    hall.wake();
}

/// One act after a while.
#[derive(Drop)]
pub struct ActLate<'a, R> {
    pub rt: &'a R,
}

impl<'a, R: Wait + Clock> Work for ActLate<'a, R> {
    type Output = ();

    fn work(&mut self, hall: &Hall<Tally>, seat: &mut Seat<Tally>) {
        seats_come_back::<Mark, Result<bool, AllocError>, Tally>();
        self.rt.sleep(Duration::from_millis(20));
        act_often(self.rt, hall, seat, 0, 1);
    }
}

/// A wait for an act. It gives the count.
#[derive(Drop)]
pub struct WaitPast<'a, R> {
    pub rt: &'a R,
    pub n: u64,
}

impl<'a, R: Wait> Work for WaitPast<'a, R> {
    type Output = u64;

    fn work(&mut self, hall: &Hall<Tally>, seat: &mut Seat<Tally>) -> u64 {
        calls_add_up::<Mark, Result<bool, AllocError>, Tally>();
        seats_come_back::<Mark, Result<bool, AllocError>, Tally>();
        hall.wait_past(self.rt, seat, self.n)
    }
}

/// One act of this number. It gives its answer.
#[derive(Drop)]
pub struct ActOnce<'a, R> {
    pub rt: &'a R,
    pub number: u64,
}

impl<'a, R: Wait> Work for ActOnce<'a, R> {
    type Output = Result<bool, AllocError>;

    fn work(&mut self, hall: &Hall<Tally>, seat: &mut Seat<Tally>) -> Result<bool, AllocError> {
        calls_add_up::<Mark, Result<bool, AllocError>, Tally>();
        seats_come_back::<Mark, Result<bool, AllocError>, Tally>();
        let number = self.number;
        hall.act(self.rt, seat, &Mark { thread: 0, number })
    }
}

/// Asks for the count while an act is at the gate, and then opens it. It gives the count, or `None`
/// if no act came there in time.
#[derive(Drop)]
pub struct CountInside {
    pub gate: Arc<Gate>,
}

impl Work for CountInside {
    type Output = Option<u64>;

    fn work(&mut self, hall: &Hall<Tally>, seat: &mut Seat<Tally>) -> Option<u64> {
        calls_add_up::<Mark, Result<bool, AllocError>, Tally>();
        seats_come_back::<Mark, Result<bool, AllocError>, Tally>();
        let is_inside = is_raised(&self.gate.began);
        let count = hall.count(seat);
        self.gate.open.store(1, Ordering::SeqCst);
        is_inside.then_some(count)
    }
}

/// A refused act, then the count, then another act and a query. It gives the four answers.
#[derive(Drop)]
pub struct ActRefused<'a, R> {
    pub rt: &'a R,
}

impl<'a, R: Wait> Work for ActRefused<'a, R> {
    type Output = (bool, u64, bool, Option<u64>);

    fn work(
        &mut self,
        hall: &Hall<Tally>,
        seat: &mut Seat<Tally>,
    ) -> (bool, u64, bool, Option<u64>) {
        calls_add_up::<Mark, Result<bool, AllocError>, Tally>();
        seats_come_back::<Mark, Result<bool, AllocError>, Tally>();
        let number = REFUSED;
        let refused = hall.act(self.rt, seat, &Mark { thread: 0, number });
        let count = hall.count(seat);
        let number = 0;
        let taken = hall.act(self.rt, seat, &Mark { thread: 0, number });
        let marks = hall.ask(self.rt, seat, &());
        (refused.is_err(), count, taken.is_ok(), marks.ok())
    }
}

/// Hears how many acts of a turn went, and stops at one that was refused.
#[derive(Drop)]
struct UntilRefused {
    went: usize,
}

impl Listener<Tally> for UntilRefused {
    ghost follows = { went };

    fn hear(&mut self, outcome: &Result<bool, AllocError>) -> bool {
        match outcome {
            Ok(_) => {
                self.went = self.went.saturating_add(1);
                true
            }
            Err(_) => false,
        }
    }
}

/// Three acts in one turn, of which the second is refused. It gives how many were acted, how many
/// of them went, whether it stopped, and the count.
#[derive(Drop)]
pub struct ActThree<'a, R> {
    pub rt: &'a R,
}

impl<'a, R: Wait> Work for ActThree<'a, R> {
    type Output = (usize, usize, bool, u64);

    fn work(&mut self, hall: &Hall<Tally>, seat: &mut Seat<Tally>) -> (usize, usize, bool, u64) {
        calls_add_up::<Mark, Result<bool, AllocError>, Tally>();
        seats_come_back::<Mark, Result<bool, AllocError>, Tally>();
        let (thread, number) = (0, REFUSED);
        let marks = [
            Mark { thread, number: 0 },
            Mark { thread, number },
            Mark { thread, number: 1 },
        ];
        let mut listener = UntilRefused { went: 0 };
        let acted = hall.act_each(self.rt, seat, &marks, &mut listener);
        let stopped = acted.stop.is_some();
        (acted.count, listener.went, stopped, hall.count(seat))
    }
}
