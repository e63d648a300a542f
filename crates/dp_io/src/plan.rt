//! The calls that an object in memory makes fail: a source, a sink or a wire.

ghost use Rattle.std.specs.Prelude.{◌≡◌, ◌≤◌, ◌^◌, ◌<◌, ◌↔◌, true};
ghost use Rattle.dp_io.specs.Faults.{Failures, IsDue, one_more, counted};

use crate::Failed;
use std::marker::Model;

/// The numbers of the calls that are to fail, counted from 1, with the calls and the faults so far.
///
/// Both counts stop at `u64::MAX`, and a call after that many is never to fail.
#[derive(Drop)]
pub struct FaultPlan {
    fails: Vec<u64>,
    calls: u64,
    faults: u64,
}

impl Model for FaultPlan {
    ghost Value = { Failures };

    ghost view = { λ p. record { fails = p.fails.items; calls = p.calls; faults = p.faults } };
}

impl FaultPlan {
    /// A plan before the first call.
    pub fn new(fails: Vec<u64>) -> Self
        ensures { result ≡ record { fails = fails.items; calls = 0; faults = 0 } }
    {
        FaultPlan {
            fails,
            calls: 0,
            faults: 0,
        }
    }

    /// Counts a call, and answers whether it is to fail.
    pub fn next_fails(&mut self) -> bool
        ensures due { (result ≡ true) ↔ IsDue self.old }
        ensures counted { self.new ≡ counted self.old }
    {
        match self.calls.checked_add(1) {
            Some(number) => {
                self.calls = number;
                self.fails.contains(&number)
            }
            None => false,
        }
    }

    /// Counts a fault, which the caller answers.
    pub fn fail(&mut self) -> Failed
        ensures counted { self.new ≡ record self.old { faults = one_more self.old.faults } }
        ensures later { self.old.faults ≤ self.new.faults }
    {
        self.faults = self.faults.saturating_add(1);
        Failed
    }
}
