//! A store in memory that fails at listed calls.

ghost use Rattle.std.specs.Prelude.{◌≡◌, ◌∷◌, ◌++◌, [], Some, OnOk, IfErr};
ghost use Rattle.dp_io.specs.Faults.{one_more};
ghost use Rattle.dp_keeper.specs.Store.{Puts, Counts, IsPage};
ghost use Rattle.dp_keeper.specs.FailingStore.{listed_fault, put_counted, PutsAsListed};
ghost use Rattle.dp_keeper.specs.FailingStore.{ReadsAsListed};

use crate::keeper::{KeepError, Keeper};
use crate::row::{Row, Rows, page};
use std::marker::Model;

/// Rows in memory. The calls of `put` and of `rows` that are listed by their numbers, from 1, fail.
#[derive(Debug, Drop)]
pub struct MemKeeper {
    rows: Rows,
    fails: Vec<(u64, bool)>,
    read_fails: Vec<u64>,
    puts: u64,
    reads: u64,
    put_faults: u64,
    read_faults: u64,
}

impl Model for MemKeeper {
    ghost use Rattle.dp_keeper.specs.FailingStore.{Failing};

    ghost Value = { Failing };

    ghost view = { λ k. record {
      rows = k.rows;
      fails = k.fails.items;
      read_fails = k.read_fails.items;
      puts = k.puts;
      reads = k.reads;
      put_faults = k.put_faults;
      read_faults = k.read_faults;
    } };
}

impl MemKeeper {
    /// A store of these rows. A call of `put` that fails keeps its row if the flag beside its
    /// number is true.
    pub fn new(rows: Rows, fails: Vec<(u64, bool)>, read_fails: Vec<u64>) -> MemKeeper
        ensures { result ≡ record {
          rows = rows;
          fails = fails.items;
          read_fails = read_fails.items;
          puts = 0;
          reads = 0;
          put_faults = 0;
          read_faults = 0;
        } }
    {
        MemKeeper {
            rows,
            fails,
            read_fails,
            puts: 0,
            reads: 0,
            put_faults: 0,
            read_faults: 0,
        }
    }

    /// The rows that it holds.
    pub fn held(&self) -> &Rows
        ensures { result.now ≡ self.now.rows }
    {
        &self.rows
    }

    /// Counts a put, and answers what is listed of it.
    fn next_put(&mut self) -> Option<bool>
        ensures listed { result ≡ listed_fault self.old }
        ensures counted { self.new ≡ put_counted self.old }
    {
        self.puts = self.puts.saturating_add(1);
        let puts = self.puts;
        let listed = self.fails.iter().find(|(number, _)| *number == puts);
        listed.map(|(_, kept)| *kept)
    }

    /// Adds a row.
    fn add(&mut self, row: &Row) -> Result<(), KeepError>
        ensures ok { OnOk result (self.new ≡ record self.old
            { rows = self.old.rows ++ row.now ∷ [] }) }
        ensures err { IfErr result (λ e. (e ≡ KeepError.Memory) × (self.new ≡ self.old)) }
    {
        self.rows.push(row.clone()?)?;
        Ok(())
    }

    /// Counts a put that failed.
    fn fail(&mut self) -> KeepError
        ensures error { result ≡ KeepError.Failed }
        ensures counted { self.new ≡ record self.old { put_faults = one_more self.old.put_faults } }
    {
        self.put_faults = self.put_faults.saturating_add(1);
        KeepError::Failed
    }
}

impl Keeper for MemKeeper {
    ghost held = { λ k. Some k.rows };

    ghost put_faults = { λ k. k.put_faults };

    ghost read_faults = { λ k. k.read_faults };

    fn put(&mut self, row: &Row) -> Result<(), KeepError>
        ensures rows { Puts (Some self.old.rows) row.now result (Some self.new.rows) }
        ensures count { Counts self.old.put_faults result self.new.put_faults }
        ensures others { self.new.read_faults ≡ self.old.read_faults }

        // It fails at the listed calls alone, and keeps the row if the flag beside says so.
        ensures listed { PutsAsListed self.old row.now result self.new }
    {
        let listed = self.next_put();
        match listed {
            Some(false) => Err(self.fail()),
            Some(true) => {
                self.add(row)?;
                Err(self.fail())
            }
            None => self.add(row),
        }
    }

    fn rows(&mut self, from: u64, max: u32) -> Result<Rows, KeepError>
        ensures page { IsPage (Some self.old.rows) from max result }
        ensures stay { Some self.new.rows ≡ Some self.old.rows }
        ensures count { Counts self.old.read_faults result self.new.read_faults }
        ensures others { self.new.put_faults ≡ self.old.put_faults }

        // It fails at the listed calls alone.
        ensures listed { ReadsAsListed self.old from max result self.new }
    {
        self.reads = self.reads.saturating_add(1);
        if self.read_fails.contains(&self.reads) {
            self.read_faults = self.read_faults.saturating_add(1);
            return Err(KeepError::Failed);
        }
        Ok(page(&self.rows, from, max)?)
    }

    fn count(&self) -> u64 {
        self.put_faults
    }
}
