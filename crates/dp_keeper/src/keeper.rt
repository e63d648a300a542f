//! A store of rows, as its callers see it.

ghost use Rattle.std.specs.Prelude.{◌≡◌, ℕ, List, Option};
ghost use Rattle.dp_keeper.specs.declared.row.Row.{Row as Kept};
ghost use Rattle.dp_keeper.specs.declared.keeper.KeepError.TheVariants.{Memory};
ghost use Rattle.dp_keeper.specs.Store.{Puts, Counts, IsPage};

use crate::row::{Row, Rows};
use std::alloc::AllocError;

/// Why a store did not do what it was asked.
#[derive(Clone, Copy, Debug, PartialEq, Eq)]
pub enum KeepError {
    /// The store failed, and counted it.
    Failed,
    /// Memory ran out, and nothing was done.
    Memory,
}

impl From<AllocError> for KeepError {
    ghost from_gives = { λ _ e. e ≡ Memory };

    fn from(_e: AllocError) -> KeepError {
        KeepError::Memory
    }
}

/// A store of rows. It counts its faults, those of puts apart from those of readings. What it holds
/// is known if a file's content can be known.
pub trait Keeper {
    /// The rows, if they are known.
    ghost held: { Self → Option (List Kept) };

    /// How often a put has failed; the count stops at the greatest `u64`.
    ghost put_faults: { Self → ℕ };

    /// How often a reading has failed; the count stops at the greatest `u64`.
    ghost read_faults: { Self → ℕ };

    /// Adds a row after the others.
    ///
    /// # Errors
    ///
    /// `Failed` if the store failed: the row may have been added. `Memory` if memory ran out:
    /// it was not.
    fn put(&mut self, row: &Row) -> Result<(), KeepError>
        ensures rows { Puts (held self.old) row.now result (held self.new) }
        ensures count { Counts (put_faults self.old) result (put_faults self.new) }
        ensures others { read_faults self.new ≡ read_faults self.old };

    /// The rows from a place on, at most that many.
    ///
    /// # Errors
    ///
    /// `Failed` if the store failed, and `Memory` if memory ran out. The rows stay.
    fn rows(&mut self, from: u64, max: u32) -> Result<Rows, KeepError>
        ensures page { IsPage (held self.old) from max result }
        ensures stay { held self.new ≡ held self.old }
        ensures count { Counts (read_faults self.old) result (read_faults self.new) }
        ensures others { put_faults self.new ≡ put_faults self.old };

    /// How often a put has failed. It takes no memory.
    fn count(&self) -> u64
        ensures { result ≡ put_faults self.now };
}
