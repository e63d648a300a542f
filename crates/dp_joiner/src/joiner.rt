//! A client over a link.

ghost use Rattle.std.specs.Prelude.{◌≡◌, ◌+◌, ◌-◌, ◌^◌, ◌<◌, ◌≤◌, ℕ, length, IfOk, IfErr, OnOk};
ghost use Rattle.circular_buffer.specs.Buffer.{keep_last};
ghost use Rattle.dp_messages.specs.Messages.{kind_of};
ghost use Rattle.dp_schedule.specs.declared.join_action.JoinAction.TheVariants as action;
ghost use Rattle.dp_join_link.specs.Reading.{GivesEntry, GivesNone, IsReadable, source_at};
ghost use Rattle.dp_joiner.specs.Joining.{chat_limit, chats_text, printed, reset_by, said_by};
ghost use Rattle.dp_joiner.specs.Joining.{took_entry};
ghost use Rattle.dp_joiner.specs.Partings.{SaysFarewell};
ghost use Rattle.dp_joiner.specs.Steps.{Changes, Does, IsReady, seen};

use crate::chats::{ChatLine, keep_chat};
use crate::greeting::Greeting;
use crate::printing::{print_chats, print_line, print_sent};
use crate::reset::send_client;
use circular_buffer::HeapCircularBuffer;
use dp_client::Client;
use dp_entries::EntryReader;
use dp_io::{Sink, Source};
use dp_join_link::{JoinStanding, JoinStop, acknowledge, pull_taken, send, send_message};
use dp_lines::RunEnd;
use dp_messages::{Entry, Msg};
use dp_msg_meta::Control;
use dp_schedule::ReportLine;
use dp_showing::clients_show;
use dp_shown::ClientBoard;
use dp_steps::Steps;
use std::alloc::Global;
use std::marker::Model;
use std::sync::ledger::Ledger;

/// The reason of a Disconnect by which a client leaves.
const LEAVING: u8 = 0;

/// A client over a link, of which the source and the sink are its own. Contracts see what the
/// link's streams show. It can't be dropped: `into_link` gives the link back.
///
/// The rule: docs/protocol.md, "Joining".
pub struct Joiner<B: ClientBoard, R: Source, S: Sink> {
    alloc: Global,
    client: Client<B>,
    chats: HeapCircularBuffer<ChatLine>,
    reader: EntryReader<JoinStanding>,
    rx: R,
    tx: S,
}

impl<B: ClientBoard, R: Source, S: Sink> Model for Joiner<B, R, S> {
    ghost use Rattle.dp_joiner.specs.Steps.{Linked};
    ghost use Rattle.dp_join_link.specs.Reading.{source_at};

    ghost Value = { Linked };

    ghost view = { λ j. record {
      client = j.client;
      chats = j.chats;
      written = S.held j.tx;
      write_faults = S.faults j.tx;
      source = source_at R.left R.faults j.reader j.rx;
    } };
}

impl<B: ClientBoard, R: Source, S: Sink> Joiner<B, R, S> {
    /// The client that was greeted, over its link.
    pub fn new(alloc: Global, greeting: Greeting<B>, rx: R, tx: S) -> Self
        ensures { result ≡ record {
          client = greeting.client;
          chats = greeting.chats;
          written = S.held tx;
          write_faults = S.faults tx;
          source = source_at R.left R.faults greeting.reader rx;
        } }
    {
        let Greeting {
            client,
            chats,
            reader,
        } = greeting;
        Joiner {
            alloc,
            client,
            chats,
            reader,
            rx,
            tx,
        }
    }

    /// Says a message that is no control message: it goes out over the link first.
    ///
    /// # Errors
    ///
    /// `LinkFault` and `WriteFault` if the link and the output failed, and `Memory` if memory ran
    /// out. Then prefixes were printed and written of what is due.
    pub fn say<O: Sink, D: Ledger, T: Ledger>(
        &mut self,
        msg: &Msg,
        output: &mut O,
        draws: &mut Steps<D>,
        tiles: &mut Steps<T>,
    ) -> Result<(), JoinStop>
        requires { 32 ≤ kind_of msg.now }
        ensures changes { Changes (seen O.held O.faults self.old output.old draws.old tiles.old)
            (seen O.held O.faults self.new output.new draws.new tiles.new)
            (λ j. said_by j msg.now) result }
        ensures taken { OnOk result (self.new.client.taken ≡ self.old.client.taken) }
        ensures source { self.new.source ≡ self.old.source }
    {
        clients_show::<B>();
        let user = self.client.user();
        send_message(self.alloc, user, msg, &mut self.tx)?;
        self.client.say(msg, draws, tiles)?;
        let line = ReportLine::Said(self.client.pending_len());
        print_line(self.alloc, line, output)
    }

    /// Takes `count` entries of the link.
    ///
    /// # Errors
    ///
    /// `NoEntry` if the link gives fewer. `LinkFault` and `WriteFault` if the link and the output
    /// failed, and `Memory` if memory ran out. Then prefixes were printed and written of what is
    /// due.
    pub fn take<O: Sink, D: Ledger, T: Ledger>(
        &mut self,
        count: u32,
        output: &mut O,
        draws: &mut Steps<D>,
        tiles: &mut Steps<T>,
    ) -> Result<(), JoinStop>
        requires { IsReady self.old.client self.old.source }
        ensures { Does (seen O.held O.faults self.old output.old draws.old tiles.old)
            (seen O.held O.faults self.new output.new draws.new tiles.new)
            (action.Take count) result }
    {
        for _taken in 0..count {
            let entry = self.next_entry()?;
            self.take_given(entry, output, draws, tiles)?;
        }
        Ok(())
    }

    /// Takes an entry, which isn't kept.
    fn take_given<O: Sink, D: Ledger, T: Ledger>(
        &mut self,
        entry: Entry,
        output: &mut O,
        draws: &mut Steps<D>,
        tiles: &mut Steps<T>,
    ) -> Result<(), JoinStop>
        requires { length self.old.client.taken < 2 ^ 32 - 1 }
        ensures changes { Changes (seen O.held O.faults self.old output.old draws.old tiles.old)
            (seen O.held O.faults self.new output.new draws.new tiles.new)
            (λ j. took_entry j entry) result }
        ensures taken { OnOk result
            (length self.new.client.taken ≤ length self.old.client.taken + 1) }
        ensures source { self.new.source ≡ self.old.source }
    {
        let taken = self.take_entry(&entry, output, draws, tiles);
        drop(entry);
        taken
    }

    /// Takes an entry. If it opens an epoch, the Ack goes out over the link first.
    fn take_entry<O: Sink, D: Ledger, T: Ledger>(
        &mut self,
        entry: &Entry,
        output: &mut O,
        draws: &mut Steps<D>,
        tiles: &mut Steps<T>,
    ) -> Result<(), JoinStop>
        requires { length self.old.client.taken < 2 ^ 32 - 1 }
        ensures changes { Changes (seen O.held O.faults self.old output.old draws.old tiles.old)
            (seen O.held O.faults self.new output.new draws.new tiles.new)
            (λ j. took_entry j entry.now) result }
        ensures taken { OnOk result
            (length self.new.client.taken ≤ length self.old.client.taken + 1) }
        ensures source { self.new.source ≡ self.old.source }
    {
        clients_show::<B>();
        let user = self.client.user();
        let taken = self.client.take(entry, draws, tiles)?;
        acknowledge(self.alloc, user, taken.ack, &mut self.tx)?;
        keep_chat(entry, &mut self.chats)?;
        let line = ReportLine::Took {
            epoch: taken.epoch,
            at: taken.at,
        };
        print_line(self.alloc, line, output)
    }

    /// The next entry of the link that is no Ping.
    fn next_entry(&mut self) -> Result<Entry, JoinStop>
        requires { IsReadable self.old.source }
        ensures ok { IfOk result (GivesEntry self.old.source self.new.source) }
        ensures err { IfErr result (GivesNone self.old.source self.new.source) }
        ensures same { self.new ≡ record self.old { source = self.new.source } }
    {
        pull_taken(self.alloc, &mut self.reader, &mut self.rx)
    }

    /// Sends the confirmed canvas as a reset, one that keeps what comes after that or not.
    ///
    /// # Errors
    ///
    /// `LinkFault` and `WriteFault` if the link and the output failed, and `Memory` if memory ran
    /// out. Then prefixes were printed and written of what is due.
    pub fn reset<O: Sink>(&mut self, keeps: bool, output: &mut O) -> Result<(), JoinStop>
        requires { length self.old.client.taken < 2 ^ 32 }
        ensures changes { (draws tiles : ℕ) → Changes
            (seen O.held O.faults self.old output.old draws tiles)
            (seen O.held O.faults self.new output.new draws tiles) (λ j. reset_by keeps j) result }
        ensures client { self.new.client ≡ self.old.client }
        ensures source { self.new.source ≡ self.old.source }
    {
        let count = send_client(self.alloc, &self.client, keeps, &mut self.tx)?;
        print_sent(self.alloc, count, output)
    }

    /// Prints the lines of chat that are kept, the last 64 at most.
    ///
    /// # Errors
    ///
    /// `WriteFault` if the output failed, and `Memory` if memory ran out. Then a prefix was
    /// printed.
    pub fn print_chats<O: Sink>(&self, output: &mut O) -> Result<(), JoinStop>
        ensures { (draws tiles : ℕ) → Changes (seen O.held O.faults self.now output.old draws tiles)
            (seen O.held O.faults self.now output.new draws tiles)
            (λ j. printed j (chats_text (keep_last chat_limit j.chats))) result }
    {
        print_chats(self.alloc, &self.chats, output)
    }

    /// Says that the client leaves, by a Disconnect. How the run ends: with `Done`, with
    /// `LinkFault` if the link failed, or with `Memory` if memory ran out. Of the Disconnect a
    /// prefix was written then.
    pub fn farewell(&mut self) -> RunEnd
        ensures says { SaysFarewell self.old.written self.new.written
            self.old.write_faults self.new.write_faults self.old.client.user result }
        ensures source { self.new.source ≡ self.old.source }
    {
        let user = self.client.user();
        let msg = Msg::Control(Control::Disconnect { reason: LEAVING });
        match send(self.alloc, user, msg, &mut self.tx) {
            Ok(()) => RunEnd::Done,
            Err(stop) => stop.run_end(),
        }
    }

    /// The client.
    pub fn client(&self) -> &Client<B>
        ensures { result.now ≡ self.now.client }
    {
        &self.client
    }

    /// The allocator of its memory.
    pub fn alloc(&self) -> Global {
        self.alloc
    }

    /// The link, which it gives back.
    pub fn into_link(self) -> (R, S)
        ensures source { R.faults result.0 ≡ self.source.faults }
        ensures sink { S.faults result.1 ≡ self.write_faults }
        ensures held { S.held result.1 ≡ self.written }
    {
        let Joiner {
            client,
            chats,
            reader,
            rx,
            tx,
            alloc: _,
        } = self;
        drop(client);
        drop(chats);
        drop(reader);
        (rx, tx)
    }
}
