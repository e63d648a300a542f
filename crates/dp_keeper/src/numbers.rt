//! The numbers of rows.

ghost use Rattle.std.specs.Prelude.{◌≡◌, ◌∷◌, ◌++◌, [], get_or, OnOk, OnErr};

use std::alloc::{AllocError, Global};
use std::marker::Model;

/// The numbers of rows. Contracts see them as a list.
#[derive(Debug, Drop)]
pub(crate) struct Numbers {
    first: u64,
    /// How many numbers follow one another from the first on. They take no memory.
    count: usize,
    /// The numbers after those.
    others: Vec<u64>,
}

impl Model for Numbers {
    ghost use Rattle.std.specs.Prelude.{◌+◌, ◌<◌, ◌^◌, ◌++◌, ℕ, List};
    ghost use Rattle.std.specs.List.{range_with_len};

    ghost Value = { List ℕ };

    ghost view = { λ numbers. range_with_len numbers.first numbers.count ++ numbers.others.items };

    ghost invariant = { λ numbers. numbers.first + numbers.count < 2 ^ 64 };
}

impl Numbers {
    /// No numbers. Those that follow one another from this one on will take no memory.
    pub(crate) fn new(alloc: Global, first: u64) -> Numbers
        ensures { result ≡ [] }
    {
        Numbers {
            first,
            count: 0,
            others: Vec::new(alloc),
        }
    }

    /// The number at a place, or 0 if there is none.
    pub(crate) fn at(&self, place: usize) -> u64
        ensures { result ≡ get_or self.now place 0 }
    {
        if place < self.count {
            self.first + place as u64
        } else {
            match self.others.get(place - self.count) {
                Some(n) => *n,
                None => 0,
            }
        }
    }

    /// Adds a number.
    ///
    /// # Errors
    ///
    /// The numbers are those that there were.
    pub(crate) fn push(&mut self, n: u64) -> Result<(), AllocError>
        ensures ok { OnOk result (self.new ≡ self.old ++ n ∷ []) }
        ensures err { OnErr result (self.new ≡ self.old) }
    {
        let next = self.first + self.count as u64;
        if self.others.is_empty() && n == next && n < u64::MAX {
            self.count += 1;
            return Ok(());
        }
        self.others.push(n)?;
        Ok(())
    }
}
