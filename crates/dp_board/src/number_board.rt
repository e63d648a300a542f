//! A board that is a row of numbers, for tests of what is drawn on any board.

ghost use Rattle.std.specs.Prelude.{◌≡◌, ◌<◌, replicate, slice_get, IfOk, ⊤};
ghost use Rattle.dp_board.specs.Numbers.{number_drawn, numbers_apart};

use crate::board::Board;
use dp_steps::Steps;
use std::alloc::{AllocError, Global};
use std::marker::Model;
use std::sync::ledger::Ledger;

/// Sets the number at a place. It has no effect past the end.
#[derive(Clone, Copy, Debug, PartialEq, Eq)]
pub struct SetNumber {
    pub place: usize,
    pub value: u64,
}

/// A row of numbers, seen as their list.
#[derive(Debug, Drop)]
pub struct NumberBoard {
    numbers: Vec<u64>,
}

impl Model for NumberBoard {
    ghost use Rattle.std.specs.Prelude.{List, ℕ};

    ghost Value = { List ℕ };

    ghost view = { λ b. b.numbers.items };
}

impl NumberBoard {
    /// A row of `len` zeros.
    pub fn new(alloc: Global, len: usize) -> Result<NumberBoard, AllocError>
        ensures { IfOk result (λ board. board ≡ replicate len 0) }
    {
        Ok(NumberBoard {
            numbers: vec![in alloc; 0; len]?,
        })
    }

    /// The number at a place, or `None` past the end.
    pub fn get(&self, place: usize) -> Option<u64>
        ensures { result ≡ slice_get self.now place }
    {
        self.numbers.get(place).copied()
    }
}

impl Board for NumberBoard {
    type Op = SetNumber;

    ghost is_board = { λ _. ⊤ };

    ghost drawn = { number_drawn };

    ghost weight = { λ _. 0 };

    ghost are_apart = { numbers_apart };

    #[tactic(auto, using(crate::proofs::Numbers::numbers_commute))]
    fn laws() {}

    fn known(&self) {}

    fn draw<D: Ledger, T: Ledger>(
        &mut self,
        op: &SetNumber,
        draws: &mut Steps<D>,
        _tiles: &mut Steps<T>,
    ) -> Result<(), AllocError> {
        if op.place < self.numbers.len() {
            self.numbers[op.place] = op.value;
        }
        draws.tick();
        Ok(())
    }

    fn share<D: Ledger, T: Ledger>(
        &self,
        _draws: &mut Steps<D>,
        _tiles: &mut Steps<T>,
    ) -> Result<Self, AllocError> {
        Ok(NumberBoard {
            numbers: self.numbers.clone()?,
        })
    }

    fn copy_op(_alloc: Global, op: &SetNumber) -> Result<SetNumber, AllocError> {
        Ok(*op)
    }

    fn apart(a: &SetNumber, b: &SetNumber) -> bool {
        a.place != b.place
    }
}
