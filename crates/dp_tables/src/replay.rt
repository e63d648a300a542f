//! Kept rows, read back one after another.
//!
//! The rule: docs/protocol.md, "Kept rows".

ghost use Rattle.std.specs.Prelude.{◌≡◌, ◌∷◌, ◌++◌, [], true, length, IfOk, OnOk, OnErr};
ghost use Rattle.std.specs.Prelude.{MatchOption};
ghost use Rattle.dp_epochs.specs.Resumed.{MayNotStand, MayStand};
ghost use Rattle.dp_epochs.specs.Rows.{has_room, row_of};
ghost use Rattle.dp_tables.specs.SessionLog.{state_in};
ghost use Rattle.dp_tables.specs.Replay.{Replays};

use crate::tables::Tables;
use dp_commit::{after_done, if_given};
use dp_epochs::{Event, read_row, rows_spell_events};
use dp_keeper::Row;
use std::alloc::AllocError;

impl Tables {
    /// The event of a row of this number and these bytes, if it may stand after those of the events
    /// so far.
    fn next_event(&self, n: u64, bytes: &[u8]) -> Result<Option<Event>, AllocError>
        requires { self.now.shut ≡ [] }
        ensures { IfOk result (λ found. MatchOption found
            (MayNotStand self.now.journal (record { n = n; bytes = bytes.now }))
            (MayStand self.now.journal (record { n = n; bytes = bytes.now }))) }
    {
        rows_spell_events();
        if n != self.events() {
            return Ok(None);
        }
        if !self.has_room(bytes.len()) {
            return Ok(None);
        }
        let Some(event) = read_row(self.allocator(), bytes)? else {
            return Ok(None);
        };
        Ok(if_given(&self.roster.connections, event))
    }

    /// Keeps an event for which there is room, and whose row has this length.
    fn keep_next(&mut self, event: Event, row: usize) -> Result<(), AllocError>
        requires memory { self.old.room ≡ true }
        requires row { row ≡ length (row_of event) }
        requires room { has_room self.old.journal event ≡ true }
        ensures kept { OnOk result (self.new ≡ record self.old {
          journal = self.old.journal ++ event ∷ [];
          room = self.new.room;
        }) }
        ensures err { OnErr result (self.new ≡ self.old) }
    {
        let made = self.made(event, row)?;
        self.take(made, row as u64);
        Ok(())
    }

    /// Keeps the event of a row of this number and these bytes, if it may stand next.
    fn keep_row(&mut self, n: u64, bytes: &[u8]) -> Result<bool, AllocError>
        requires { self.old.shut ≡ [] }
        ensures row { IfOk result (λ stands.
            Replays self.old (record { n = n; bytes = bytes.now }) stands self.new) }
        ensures err { OnErr result (self.new ≡ record self.old { room = self.new.room }) }
    {
        rows_spell_events();
        let Some(next) = self.next_event(n, bytes)? else {
            return Ok(false);
        };
        let event = after_done(self.make_room(), next)?;
        self.keep_next(event, bytes.len())?;
        Ok(true)
    }

    /// Keeps the event of a row, if the row may stand after those of the events so far. It answers
    /// whether it may.
    ///
    /// # Errors
    ///
    /// Memory ran out: nothing is kept.
    pub fn replay(&mut self, row: &Row) -> Result<bool, AllocError>
        requires { self.old.shut ≡ [] }
        ensures row { IfOk result (λ stands. Replays self.old row.now stands self.new) }
        ensures err { OnErr result (self.new ≡ record self.old { room = self.new.room }) }
    {
        self.keep_row(row.n, row.bytes.as_slice())
    }
}
