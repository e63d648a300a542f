//! A client with its connection.

ghost use Rattle.std.specs.Prelude.{◌≡◌, ◌≤◌, ◌<◌, ◌+◌, ◌-◌, ◌^◌, ◌++◌, ◌∷◌, [], None, length};
ghost use Rattle.std.specs.Prelude.{slice_get, map, IfOk, OnOk};
ghost use Rattle.dp_msg_meta.specs.declared.message.Control.TheVariants.{Disconnect};
ghost use Rattle.dp_messages.specs.declared.message.Msg.TheVariants as msg;
ghost use Rattle.dp_messages.specs.Messages.{kind_of};
ghost use Rattle.dp_board.specs.Counts.{CountsFew};
ghost use Rattle.dp_client.specs.Client.{said, taken_of};
ghost use Rattle.dp_client.specs.Due.{canvas_due, said_due};
ghost use Rattle.dp_epochs.specs.declared.event.Event.TheVariants as event;
ghost use Rattle.dp_epochs.specs.Past.{sure_answer, sure_step};
ghost use Rattle.dp_schedule.specs.declared.report_line.ReportLine.TheVariants as report;
ghost use Rattle.dp_sim.specs.declared.participant.LinkState.TheVariants as link;
ghost use Rattle.dp_sim.specs.Exchanges.{
  is_gone,
  cut_line,
  took_line,
  disconnected,
  uplink_sent,
  up_line,
  next_entry,
  took_next,
  next_taken_line,
  exchanged,
  exchange_line,
  with_sent,
};
ghost use Rattle.dp_pixels.specs.Feet.{reach};
ghost use Rattle.dp_showing.specs.Resets.{client_reset};
ghost use Rattle.dp_snap.specs.Resets.{reset_messages};
ghost use Rattle.dp_sim.specs.Due.{exchange_due, next_due};
ghost use Rattle.dp_sim.specs.World.{new_participant};
ghost use Rattle.dp_sim.specs.Invariant.{IsSayable};
ghost use Rattle.dp_sim_world.specs.Calls.{exchange, took_entry, CanTake, CanAct};

use crate::reply_line::{cut_line, left_line, said_line};
use dp_client::Client;
use dp_epochs::{Answer, Entries, Event, Query, Reply};
use dp_messages::{Entry, Msg};
use dp_msg_draw::Draw;
use dp_msg_meta::Control;
use dp_schedule::{Instruction, ReportLine};
use dp_showing::clients_show;
use dp_shown::ClientBoard;
use dp_sim::LinkState;
use dp_snap::{reset_begin, snapshot};
use dp_steps::Steps;
use dp_sure_session::SureSession;
use std::alloc::{AllocError, Global};
use std::collections::VecDeque;
use std::marker::Model;
use std::sync::ledger::Ledger;

/// A client: its connection, what it has taken and said, the messages on their way to the session,
/// and its link.
#[derive(Drop)]
pub struct Participant<B: ClientBoard> {
    conn: u32,
    client: Client<B>,
    uplink: VecDeque<Msg>,
    link: LinkState,
}

impl<B: ClientBoard> Model for Participant<B> {
    ghost use Rattle.dp_sim.specs.Exchanges.{Participant as Seen};

    ghost Value = { Seen };

    ghost view = { λ p. record {
      conn = p.conn;
      state = p.client;
      uplink = p.uplink.items;
      link = p.link;
    } };
}

/// The session takes an event.
pub(crate) fn serve<S: SureSession>(session: &mut S, event: Event) -> Result<Reply, AllocError>
    requires { (S.past session.old).first_fault ≡ None }
    ensures reply { IfOk result (λ reply. reply ≡ sure_answer (S.past session.old) event) }
    ensures ok { OnOk result (S.past session.new ≡ sure_step (S.past session.old) event) }
    ensures first_fault { OnOk result ((S.past session.new).first_fault ≡ None) }
{
    let reply = session.step_surely(&event);
    drop(event);
    reply
}

/// The commands join an uplink, each as a part of a reset.
fn put_parts(uplink: &mut VecDeque<Msg>, commands: &[Draw]) -> Result<(), AllocError>
    ensures { OnOk result (uplink.new.items ≡ uplink.old.items ++ map msg.Part commands.now) }
{
    for command in commands {
        uplink.push_back(Msg::Part(command.copy()?))?;
    }
    Ok(())
}

impl<B: ClientBoard> Participant<B> {
    /// A client that has joined.
    pub(crate) fn new(
        alloc: Global,
        conn: u32,
        user: u8,
        epoch: u32,
        at: u32,
    ) -> Result<Self, AllocError>
        ensures { IfOk result (λ participant. participant ≡ new_participant conn user epoch at) }
    {
        Ok(Participant {
            conn,
            client: Client::new(alloc, user, epoch, at)?,
            uplink: VecDeque::new(alloc),
            link: LinkState::Connected,
        })
    }

    /// What it has taken and said.
    pub(crate) fn client(&self) -> &Client<B>
        ensures { result.now ≡ self.now.state }
    {
        &self.client
    }

    /// Whether the client does such an instruction no more.
    fn is_gone(&self, instruction: &Instruction) -> bool
        ensures { result ≡ is_gone self.now.link instruction.now }
    {
        match self.link {
            LinkState::Connected => false,
            LinkState::Leaving => matches!(
                instruction,
                Instruction::Say(_) | Instruction::Reset { .. } | Instruction::Leave
            ),
            LinkState::Closed => true,
        }
    }

    /// The client says a message.
    fn say<D: Ledger, T: Ledger>(
        &mut self,
        msg: &Msg,
        draws: &mut Steps<D>,
        tiles: &mut Steps<T>,
    ) -> Result<ReportLine, AllocError>
        requires { 32 ≤ kind_of msg.now }
        ensures line { IfOk result (λ line. line ≡ report.Said (length self.old.state.fork + 1)) }
        ensures ok { OnOk result (self.new ≡ record self.old {
          state = said self.old.state msg.now;
          uplink = self.old.uplink ++ msg.now ∷ [];
        }) }
        ensures counts { CountsFew reach (said_due msg.now) draws.old draws.new tiles.old
            tiles.new }
    {
        clients_show::<B>();
        self.client.say(msg, draws, tiles)?;
        self.uplink.push_back(msg.copy()?)?;
        Ok(ReportLine::Said(self.client.pending_len()))
    }

    /// The connection is closed, and so is the client.
    fn disconnect<S: SureSession>(&mut self, session: &mut S) -> Result<Reply, AllocError>
        requires { (S.past session.old).first_fault ≡ None }
        ensures reply { IfOk result (λ reply. reply ≡ sure_answer (S.past session.old)
            (event.Close self.old.conn)) }
        ensures ok { OnOk result (exchange (S.past session.new) self.new
            ≡ disconnected (exchange (S.past session.old) self.old)) }
    {
        let reply = serve(session, Event::Close { conn: self.conn })?;
        self.uplink.clear();
        self.link = LinkState::Closed;
        Ok(reply)
    }

    /// The session takes the next message of the uplink, if there is one, and after a Disconnect
    /// the Close.
    fn up<S: SureSession>(&mut self, session: &mut S) -> Result<ReportLine, AllocError>
        requires { (S.past session.old).first_fault ≡ None }
        ensures line { IfOk result (λ line. line
            ≡ up_line (exchange (S.past session.old) self.old) self.old.uplink) }
        ensures ok { OnOk result (exchange (S.past session.new) self.new
            ≡ uplink_sent (exchange (S.past session.old) self.old) self.old.uplink) }
    {
        let Some(msg) = self.uplink.pop_front() else {
            return Ok(ReportLine::Empty);
        };
        let ends = msg.is_disconnect();
        let conn = self.conn;
        let reply = serve(session, Event::Say { conn, msg })?;
        if ends {
            Ok(left_line(self.disconnect(session)?))
        } else {
            Ok(said_line(reply))
        }
    }

    /// Entries of which the first is the one that comes next, if there is one.
    fn pull<S: SureSession>(&self, session: &S) -> Result<Entries, AllocError>
        requires { CanTake (S.past session.now) self.now }
        ensures { IfOk result (λ entries. slice_get entries 0
            ≡ next_entry (exchange (S.past session.now) self.now)) }
    {
        let query = Query::Pull {
            conn: self.conn,
            epoch: self.client.epoch(),
            at: self.client.taken().len() as u32,
            max: 1,
        };
        match session.ask(&query)? {
            Answer::Entries { list, .. } => Ok(list),
            Answer::Gone => unreachable!(),
        }
    }

    /// The client takes the entry that comes next, if there is one.
    fn take<S: SureSession, D: Ledger, T: Ledger>(
        &mut self,
        session: &S,
        draws: &mut Steps<D>,
        tiles: &mut Steps<T>,
    ) -> Result<ReportLine, AllocError>
        requires { CanTake (S.past session.now) self.old }
        ensures line { IfOk result (λ line. line
            ≡ next_taken_line (exchange (S.past session.now) self.old)
            (next_entry (exchange (S.past session.now) self.old))) }
        ensures ok { OnOk result (exchange (S.past session.now) self.new
            ≡ took_next (exchange (S.past session.now) self.old)
            (next_entry (exchange (S.past session.now) self.old))) }
        ensures counts { CountsFew reach (next_due (exchange (S.past session.now) self.old)
            (next_entry (exchange (S.past session.now) self.old)))
            draws.old draws.new tiles.old tiles.new }
    {
        let entries = self.pull(session)?;
        match entries.as_slice().first() {
            Some(entry) => self.take_entry(entry, draws, tiles),
            None => Ok(ReportLine::Nothing),
        }
    }

    /// The client takes the entry, and an Ack that is due joins the uplink.
    fn take_entry<D: Ledger, T: Ledger>(
        &mut self,
        entry: &Entry,
        draws: &mut Steps<D>,
        tiles: &mut Steps<T>,
    ) -> Result<ReportLine, AllocError>
        requires { length self.old.state.taken < 2 ^ 32 - 1 }
        ensures line { IfOk result (λ line. line ≡ took_line (taken_of self.old.state entry.now)) }
        ensures ok { OnOk result (self.new ≡ took_entry self.old entry.now) }
        ensures counts { CountsFew reach (canvas_due self.old.state entry.now) draws.old draws.new
            tiles.old tiles.new }
    {
        clients_show::<B>();
        let taken = self.client.take(entry, draws, tiles)?;
        if let Some(epoch) = taken.ack {
            self.uplink.push_back(Msg::Control(Control::Ack { epoch }))?;
        }
        Ok(ReportLine::Took {
            epoch: taken.epoch,
            at: taken.at,
        })
    }

    /// A reset to what the client has taken joins the uplink, one that keeps what comes after that
    /// or not.
    fn reset(&mut self, alloc: Global, keeps: bool) -> Result<ReportLine, AllocError>
        requires { length self.old.state.taken < 2 ^ 32 }
        ensures line { IfOk result (λ line. line
            ≡ report.Sent (length (client_reset keeps self.old.state))) }
        ensures ok { OnOk result
            (self.new ≡ with_sent self.old (client_reset keeps self.old.state)) }
    {
        clients_show::<B>();
        let commands = snapshot(alloc, self.client.confirmed())?;
        let begin = reset_begin(keeps, self.client.taken().len() as u32);
        let line = self.send_reset(begin, commands.as_slice());
        drop(commands);
        line
    }

    /// A reset to these commands joins the uplink, which begins by this message.
    fn send_reset(&mut self, begin: Msg, commands: &[Draw]) -> Result<ReportLine, AllocError>
        ensures line { IfOk result (λ line. line
            ≡ report.Sent (length (reset_messages begin commands.now))) }
        ensures ok { OnOk result
            (self.new ≡ with_sent self.old (reset_messages begin commands.now)) }
    {
        self.uplink.push_back(begin)?;
        put_parts(&mut self.uplink, commands)?;
        self.uplink.push_back(Msg::Control(Control::ResetEnd))?;
        Ok(ReportLine::Sent(commands.len() + 2))
    }

    /// A Disconnect joins the uplink, and the client is leaving.
    fn leave(&mut self) -> Result<ReportLine, AllocError>
        ensures line { IfOk result (λ line. line ≡ report.Leaving) }
        ensures ok { OnOk result (self.new ≡ record self.old {
          uplink = self.old.uplink ++ msg.Control (Disconnect 0) ∷ [];
          link = link.Leaving;
        }) }
    {
        let disconnect = Control::Disconnect { reason: 0 };
        self.uplink.push_back(Msg::Control(disconnect))?;
        self.link = LinkState::Leaving;
        Ok(ReportLine::Leaving)
    }

    /// The uplink is lost, and the connection closed.
    fn cut<S: SureSession>(&mut self, session: &mut S) -> Result<ReportLine, AllocError>
        requires { (S.past session.old).first_fault ≡ None }
        ensures line { IfOk result (λ line. line
            ≡ cut_line (sure_answer (S.past session.old) (event.Close self.old.conn))) }
        ensures ok { OnOk result (exchange (S.past session.new) self.new
            ≡ disconnected (exchange (S.past session.old) self.old)) }
    {
        Ok(cut_line(self.disconnect(session)?))
    }

    /// The client does an instruction. After an error nothing is promised of the client and the
    /// session but for the counters.
    pub(crate) fn act<S: SureSession, D: Ledger, T: Ledger>(
        &mut self,
        alloc: Global,
        session: &mut S,
        instruction: &Instruction,
        draws: &mut Steps<D>,
        tiles: &mut Steps<T>,
    ) -> Result<ReportLine, AllocError>
        requires able { CanAct (S.past session.old) self.old }
        requires sayable { IsSayable instruction.now }
        ensures line { IfOk result (λ line. line
            ≡ exchange_line (exchange (S.past session.old) self.old) instruction.now) }
        ensures ok { OnOk result (exchange (S.past session.new) self.new
            ≡ exchanged (exchange (S.past session.old) self.old) instruction.now) }
        ensures counts { CountsFew reach (exchange_due (exchange (S.past session.old) self.old)
            instruction.now) draws.old draws.new tiles.old tiles.new }
    {
        if self.is_gone(instruction) {
            return Ok(ReportLine::Gone);
        }
        match instruction {
            Instruction::Say(msg) => self.say(msg, draws, tiles),
            Instruction::Up => self.up(session),
            Instruction::Take => self.take(session, draws, tiles),
            Instruction::Reset { keeps } => self.reset(alloc, *keeps),
            Instruction::Leave => self.leave(),
            Instruction::Cut => self.cut(session),
        }
    }
}
