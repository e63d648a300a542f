//! A store in memory that never fails.

ghost use Rattle.std.specs.Prelude.{◌≡◌, Some, take, drop, IfOk};

use crate::keeper::{KeepError, Keeper};
use crate::log::RowLog;
use crate::row::{Row, Rows, page};
use std::alloc::AllocError;
use std::marker::Model;

/// Rows in memory, those that were put one after another in one list of bytes. It never fails: its
/// counts of faults are 0.
#[derive(Debug, Drop)]
pub struct SureKeeper {
    first: Rows,
    log: RowLog,
}

impl Model for SureKeeper {
    ghost use Rattle.std.specs.Prelude.{List, ◌++◌};
    ghost use Rattle.dp_keeper.specs.declared.row.Row.{Row};

    ghost Value = { List Row };

    ghost view = { λ k. k.first ++ k.log };
}

impl SureKeeper {
    /// A store of these rows.
    pub fn new(rows: Rows) -> SureKeeper
        ensures { result ≡ rows }
    {
        let log = RowLog::new(rows.allocator(), rows.as_slice().len() as u64);
        SureKeeper { first: rows, log }
    }

    /// Copies of the rows from a place on, at most that many.
    fn page(&self, from: usize, max: u32) -> Result<Rows, AllocError>
        ensures { IfOk result (λ page. page ≡ take max (drop from self.now)) }
    {
        let mut page = page(&self.first, from as u64, max)?;
        let more = (max as usize).saturating_sub(page.as_slice().len());
        let from = from.saturating_sub(self.first.as_slice().len());
        self.log.put_page(from, more, &mut page)?;
        Ok(page)
    }
}

impl Keeper for SureKeeper {
    ghost held = { λ rows. Some rows };

    ghost put_faults = { λ rows. 0 };

    ghost read_faults = { λ rows. 0 };

    fn put(&mut self, row: &Row) -> Result<(), KeepError> {
        Ok(self.log.push(row)?)
    }

    fn rows(&mut self, from: u64, max: u32) -> Result<Rows, KeepError> {
        Ok(self.page(from as usize, max)?)
    }

    fn count(&self) -> u64 {
        0
    }
}
