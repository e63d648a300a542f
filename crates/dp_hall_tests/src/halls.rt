//! Halls of a machine that notes who acted.

use crate::pair::live_four;
use crate::tally::{GATED, Gate, Mark, Tally};
use crate::work::{ActLate, ActOnce, ActRefused, ActThree, CountInside, WaitPast, live, live_both};
use std::alloc::Global;
use std::process::Abort;
use std::sync::Arc;
use std::sync::atomic::AtomicU64;

const TIMES: u64 = 10_000;

/// A machine that has noted nothing.
fn empty(rt: &impl Abort, alloc: Global) -> Tally {
    let gate = Gate {
        began: AtomicU64::new(0),
        open: AtomicU64::new(0),
    };
    Tally {
        marks: Vec::new(alloc),
        gate: Arc::new(alloc, gate).expect(rt, "memory"),
    }
}

/// Whether each of four threads has acted so often, in the order of its numbers.
fn are_in_order(marks: &[Mark], times: u64) -> bool {
    let mut next = [0u64; 4];
    for mark in marks {
        let thread = mark.thread as usize;
        if thread >= 4 || mark.number != next[thread] {
            return false;
        }
        next[thread] = mark.number.wrapping_add(1);
    }
    next == [times; 4]
}

#[test]
fn four_threads_act(rt: HostRuntime) {
    let tally = empty(&rt, rt.alloc());
    let tally = live_four(&rt, rt.alloc(), tally, TIMES).expect(&rt, "memory");
    assert!(rt; tally.marks.len() == 40_000);
    assert!(rt; are_in_order(&tally.marks, TIMES));
    drop(tally);
}

#[test]
fn a_wait_ends_at_an_act(rt: HostRuntime) {
    let (mut wait, mut act) = (WaitPast { rt: &rt, n: 0 }, ActLate { rt: &rt });
    let tally = empty(&rt, rt.alloc());
    let lived = live_both(&rt, rt.alloc(), tally, &mut wait, &mut act);
    let (tally, (count, ())) = lived.expect(&rt, "memory");
    drop(tally);
    assert!(rt; count == 1);
}

#[test]
fn a_count_comes_while_an_act_goes_on(rt: HostRuntime) {
    let tally = empty(&rt, rt.alloc());
    let mut count = CountInside {
        gate: Arc::try_clone(&tally.gate).expect(&rt, "memory"),
    };
    let mut act = ActOnce {
        rt: &rt,
        number: GATED,
    };
    let lived = live_both(&rt, rt.alloc(), tally, &mut count, &mut act);
    let (tally, (count, outcome)) = lived.expect(&rt, "memory");
    drop(tally);
    assert!(rt; count == Some(0));
    assert!(rt; outcome == Ok(true));
}

#[test]
fn a_refused_act_is_an_entry(rt: HostRuntime) {
    let tally = empty(&rt, rt.alloc());
    let mut act = ActRefused { rt: &rt };
    let (tally, answers) = live(rt.alloc(), tally, &mut act).expect(&rt, "memory");
    assert!(rt; answers == (true, 1, true, Some(1)));
    assert!(rt; tally.marks.len() == 1);
    drop(tally);
}

#[test]
fn a_turn_ends_at_a_refused_act(rt: HostRuntime) {
    let tally = empty(&rt, rt.alloc());
    let mut acts = ActThree { rt: &rt };
    let (tally, answers) = live(rt.alloc(), tally, &mut acts).expect(&rt, "memory");
    assert!(rt; answers == (2, 1, true, 2));
    assert!(rt; tally.marks.len() == 1);
    drop(tally);
}
