//! Four threads that act at once: two pairs.

ghost use Rattle.std.specs.Prelude.{◌≡◌};
ghost use Rattle.dp_hall.specs.Calls.{IsOf};
ghost use Rattle.dp_hall_tests.specs.Working.{Returns};

use crate::tally::{Mark, Tally};
use crate::work::{Work, act_often, both, seats_return, start};
use dp_hall::{Hall, Seat, seats_come_back};
use std::alloc::{AllocError, Global};
use std::sync::Wait;
use std::thread::{Threads, join_mut};

/// So many acts of this thread.
#[derive(Drop)]
struct ActOften<'a, R> {
    rt: &'a R,
    thread: u64,
    times: u64,
}

impl<'a, R: Wait> Work for ActOften<'a, R> {
    type Output = ();

    fn work(&mut self, hall: &Hall<Tally>, seat: &mut Seat<Tally>) {
        seats_return::<Mark, Result<bool, AllocError>, Tally>();
        act_often(self.rt, hall, seat, self.thread, self.times);
    }
}

/// A hall's whole life, in which threads 0 to 3 act `times` times each.
pub fn live_four<R: Threads + Wait + Sync>(
    rt: &R,
    alloc: Global,
    tally: Tally,
    times: u64,
) -> Result<Tally, AllocError> {
    seats_come_back::<Mark, Result<bool, AllocError>, Tally>();
    let (hall, mut seat) = start(alloc, tally)?;
    act_four(rt, &hall, &mut seat, times);
    Ok(hall.close(seat))
}

fn act_four<R: Threads + Wait + Sync>(
    rt: &R,
    hall: &Hall<Tally>,
    seat: &mut Seat<Tally>,
    times: u64,
)
    requires { IsOf hall.now seat.old }
    ensures of { IsOf hall.now seat.new }
    ensures returns { Returns seat.old.view seat.new.view }
{
    seats_return::<Mark, Result<bool, AllocError>, Tally>();
    let Ok(mut other) = hall.split(seat) else {
        act_two(rt, hall, seat, 0, times);
        return;
    };
    run_pairs(rt, hall, &mut other, seat, times);
    hall.join_into(seat, other);
}

fn run_pairs<R: Threads + Wait + Sync>(
    rt: &R,
    hall: &Hall<Tally>,
    one: &mut Seat<Tally>,
    two: &mut Seat<Tally>,
    times: u64,
)
    requires { IsOf hall.now one.old × IsOf hall.now two.old }
    ensures of { IsOf hall.now one.new × IsOf hall.now two.new }
    ensures one { Returns one.old.view one.new.view }
    ensures two { Returns two.old.view two.new.view }
{
    join_mut(
        rt,
        &mut ||
            requires { IsOf hall.now one.now }
            ensures { IsOf hall.entry.now one.exit.now
                × Returns one.entry.now.view one.exit.now.view }
        { act_two(rt, hall, one, 0, times) },
        &mut ||
            requires { IsOf hall.now two.now }
            ensures { IsOf hall.entry.now two.exit.now
                × Returns two.entry.now.view two.exit.now.view }
        { act_two(rt, hall, two, 2, times) },
    );
}

/// `times` acts of this thread and of the next one.
fn act_two<R: Threads + Wait + Sync>(
    rt: &R,
    hall: &Hall<Tally>,
    seat: &mut Seat<Tally>,
    thread: u64,
    times: u64,
)
    requires { IsOf hall.now seat.old }
    ensures of { IsOf hall.now seat.new }
    ensures returns { Returns seat.old.view seat.new.view }
{
    let mut first = ActOften { rt, thread, times };
    let thread = thread.wrapping_add(1);
    let mut second = ActOften { rt, thread, times };
    let ((), ()) = both(rt, hall, seat, &mut first, &mut second);
}
