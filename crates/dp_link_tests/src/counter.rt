//! A machine that adds bytes, and a service whose links say the bytes.

ghost use Rattle.std.specs.Prelude.{◌≡◌, ◌+◌, ◌<◌, ◌≤◌, ◌||◌, ℕ, Result, length};
ghost use Rattle.std.specs.declared.alloc.AllocError.{AllocError};
ghost use Rattle.dp_hall.specs.declared.view.View.{View};
ghost use Rattle.dp_hall.specs.Calls.{IsOf};
ghost use Rattle.dp_link_tests.specs.declared.counter.Counter.{Counter as Count};
ghost use Rattle.dp_link_tests.specs.Counting.{Adds, ran_out};

use dp_crew::{Crew, Ran, Reporting, Served, Service, crews_add_up, run_crew};
use dp_hall::{Hall, HallError, Machine, Seat, calls_add_up, seats_come_back};
use dp_io::{Sink, Source};
use dp_wire::Wire;
use std::alloc::{AllocError, Global};
use std::sync::Wait;
use std::thread::Threads;

/// The most bytes of a link.
const MOST: u64 = 1000;

/// The bytes, in the order in which they came, and their sum up to the greatest `u64`.
#[derive(Drop)]
pub struct Counter {
    pub journal: Vec<u8>,
    pub sum: u64,
}

impl Machine for Counter {
    ghost use Rattle.std.specs.Prelude.{◌≡◌, ◌∷◌, [], ◌++◌, OnOk, OnErr};

    type Event = u8;

    type Reply = u64;

    type Query = ();

    type Answer = u64;

    ghost may_step = { λ c byte out d. OnOk out (d.journal.items ≡ c.journal.items ++ byte ∷ [])
        × OnErr out (d.journal.items ≡ c.journal.items) };

    ghost answer = { λ c q. c.sum };

    /// Answers the sum.
    fn step(&mut self, event: &u8) -> Result<u64, AllocError> {
        self.journal.push(*event)?;
        self.sum = self.sum.saturating_add(*event as u64);
        Ok(self.sum)
    }

    fn ask(&self, _query: &()) -> Result<u64, AllocError> {
        Ok(self.sum)
    }
}

/// What is told of a link: how many bytes it said, and what was the sum after its last one.
#[derive(Clone, Copy, Debug, PartialEq, Eq)]
pub struct Added {
    pub worker: u32,
    pub link: u32,
    pub count: u64,
    pub sum: u64,
}

/// What serves a link: each byte is added.
#[derive(Drop)]
pub struct Adder<'a, R> {
    pub rt: &'a R,
    pub hall: &'a Hall<Counter>,
}

/// How far a link is.
struct Far {
    count: u64,
    sum: u64,
    memory: bool,
}

impl<'a, W: Wait, R: Source, T: Sink> Reporting<Counter, R, T> for Adder<'a, W> {
    ghost use Rattle.dp_link_tests.specs.Counting.{count_rules};

    type Report = Added;

    ghost rules = { count_rules (record {
      worker = λ report. report.worker;
      link = λ report. report.link;
      count = λ report. report.count;
    }) };

    fn reports_go_on() {}
}

impl<'a, W: Wait, R: Source, T: Sink> Service<Counter, R, T> for Adder<'a, W> {
    ghost hall = { λ adder. adder.hall.now };

    fn serve(
        &self,
        seat: &mut Seat<Counter>,
        rx: R,
        tx: T,
        who: u32,
        link: u32,
    ) -> Served<R, T, Added> {
        seats_come_back::<u8, Result<u64, AllocError>, Counter>();
        let mut rx = rx;
        let Far { count, sum, memory } = add_all(self.rt, self.hall, seat, &mut rx);
        let report = Added {
            worker: who,
            link,
            count,
            sum,
        };
        Served {
            rx,
            tx,
            report,
            memory,
            fault: false,
        }
    }
}

/// Adds the bytes of a link, up to `MOST`.
fn add_all<W: Wait, R: Source>(
    rt: &W,
    hall: &Hall<Counter>,
    seat: &mut Seat<Counter>,
    rx: &mut R,
) -> Far
    requires { IsOf hall.now seat.old }
    ensures of { IsOf hall.now seat.new }
    ensures adds { Adds seat.old.view result.count result.memory seat.new.view }
{
    calls_add_up::<u8, Result<u64, AllocError>, Counter>();
    let mut far = Far {
        count: 0,
        sum: 0,
        memory: false,
    };
    'bytes: for _k in 0..MOST {
        let Some(byte) = next_byte(rx) else {
            return far;
        };
        add_one(rt, hall, seat, byte, &mut far);
    }
    far
}

/// Adds one byte.
fn add_one<W: Wait>(rt: &W, hall: &Hall<Counter>, seat: &mut Seat<Counter>, byte: u8, far: &mut Far)
    requires of { IsOf hall.now seat.old }
    requires few { far.old.count < 1000 }
    ensures of { IsOf hall.now seat.new }
    ensures count { far.new.count ≡ far.old.count + 1 }
    ensures adds { (v : View ℕ (Result ℕ AllocError) Count)
        → Adds v far.old.count far.old.memory seat.old.view
        → Adds v far.new.count far.new.memory seat.new.view }
{
    calls_add_up::<u8, Result<u64, AllocError>, Counter>();
    let outcome = hall.act(rt, seat, &byte);
    note(far, outcome);
}

/// Notes what came of a byte.
fn note(far: &mut Far, outcome: Result<u64, AllocError>)
    requires { far.old.count < 1000 }
    ensures count { far.new.count ≡ far.old.count + 1 }
    ensures memory { far.new.memory ≡ ran_out outcome || far.old.memory }
{
    far.count += 1;
    match outcome {
        Ok(sum) => far.sum = sum,
        Err(AllocError) => far.memory = true,
    }
}

/// The next byte of a source, if there is one.
fn next_byte<R: Source>(rx: &mut R) -> Option<u8> {
    let mut piece = [0; 1];
    match rx.read(&mut piece) {
        Ok(1) => Some(piece[0]),
        _ => None,
    }
}

/// A hall's whole life, in which a worker for each wire adds what the links say.
pub fn count_links<W: Wire + Send + Drop, R: Threads + Wait + Sync>(
    rt: &R,
    alloc: Global,
    wires: Vec<W>,
) -> Result<(Counter, Ran<W, Added>), AllocError>
    requires { length wires.items ≤ 64 }
{
    crews_add_up::<W, Counter, W::Rx, W::Tx, Adder<'_, R>>();
    let counter = Counter {
        journal: Vec::new(alloc),
        sum: 0,
    };
    match Hall::start(alloc, counter) {
        Ok((hall, mut seat)) => {
            let adder = Adder { rt, hall: &hall };
            let crew = Crew {
                alloc,
                hall: &hall,
                service: &adder,
            };
            let ran = run_crew(rt, &crew, &mut seat, wires, None);
            Ok((hall.close(seat), ran))
        }
        Err(HallError { machine }) => {
            drop(machine);
            drop(wires);
            Err(AllocError)
        }
    }
}
