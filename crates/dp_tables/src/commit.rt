//! How an event is kept, or left out. It takes no memory.

ghost use Rattle.std.specs.Prelude.{◌≡◌, ◌∷◌, ◌++◌, [], length, true};
ghost use Rattle.dp_epochs.specs.State.{acted};
ghost use Rattle.dp_epochs.specs.Effects.{IsEffect};
ghost use Rattle.dp_epochs.specs.declared.event.Event.{Event as Kept};
ghost use Rattle.dp_epochs.specs.Past.{shut_with, quiet_with};
ghost use Rattle.dp_tables.specs.SessionLog.{state_in};
ghost use Rattle.dp_tables.specs.Ready.{MayKeep, IsReady};

use crate::ready::Ready;
use crate::tables::Tables;
use dp_commit::{Made, keep_beside};
use dp_epochs::{
    Effect, Event, Reply, ShutAt, effects_are_made, epochs_are_few, histories_are_short,
    steps_lead_on,
};

impl Tables {
    /// Keeps an event that is ready, and gives its answer. It takes no memory.
    pub fn keep(&mut self, ready: Ready) -> Reply
        requires room { self.old.room ≡ true }
        requires ready { IsReady self.old ready.made.event ready }
        ensures kept { self.new ≡ record self.old {
          journal = self.old.journal ++ ready.made.event ∷ [];
          room = self.new.room;
        } }
        ensures reply { result ≡ (acted (state_in self.old) ready.made.event).reply }
    {
        let Ready { made, row } = ready;
        let reply = self.reply(made.effect);
        self.take(made, row.bytes.as_slice().len() as u64);
        reply
    }

    /// What an event that does this is answered.
    fn reply(&self, effect: Effect) -> Reply
        ensures { (e : Kept) → IsEffect (state_in self.now) e effect
            → result ≡ (acted (state_in self.now) e).reply }
    {
        effects_are_made();
        epochs_are_few();
        effect.reply(self.here(), self.roster.connections.len() as u32)
    }

    /// Keeps an event with what was made ahead. Its row has this length. It takes no memory.
    #[inline(always)]
    pub(crate) fn take(&mut self, made: Made, row_length: u64)
        requires room { self.old.room ≡ true }
        requires made { MayKeep self.old made row_length }
        ensures { self.new ≡ record self.old {
          journal = self.old.journal ++ made.event ∷ [];
          room = self.new.room;
        } }
    {
        steps_lead_on();
        epochs_are_few();
        histories_are_short();
        let event = keep_beside(
            &self.journal,
            &mut self.roster,
            &mut self.sending,
            &mut self.live,
            made,
            row_length.saturating_sub(6),
        );
        self.row_bytes += row_length;
        self.journal.push_reserved(event);
    }

    /// Closes the connection of a number, if it is open, without a Leave.
    fn close(&mut self, conn: u32)
        requires { self.old.room ≡ true }
        ensures { self.new ≡ record self.old {
          shut = self.old.shut ++ record { conn = conn; n = length self.old.journal } ∷ [];
          room = self.new.room;
        } }
    {
        steps_lead_on();
        let n = self.journal.len() as u64;
        self.shut.push_reserved(ShutAt { conn, n });
        self.roster.shut(conn);
    }

    /// Leaves an event out: a Close closes its connection without a Leave. It takes no memory.
    pub fn leave_out(&mut self, event: &Event)
        requires { self.old.room ≡ true }
        ensures { self.new ≡ record self.old {
          shut = shut_with (length self.old.journal) self.old.shut event.now;
          room = self.new.room;
        } }
    {
        if let Event::Close { conn } = event {
            self.close(*conn);
        }
    }

    /// Makes a connection quiet, if it was given out, if nothing else can be done. It takes no
    /// memory.
    pub fn quieten(&mut self, conn: u32)
        ensures { self.new ≡ record self.old {
          quiet = quiet_with (state_in self.old) conn self.old.quiet;
          room = self.new.room;
        } }
    {
        self.roster.flag(conn);
    }
}
