//! The world, with one call a line.

ghost use Rattle.std.specs.Prelude.{◌≡◌, is_some, IsSome, IfSome, IfOk, OnOk};
ghost use Rattle.dp_board.specs.Counts.{CountsFew};
ghost use Rattle.dp_pixels.specs.Feet.{reach};
ghost use Rattle.dp_schedule.specs.declared.action.Action.TheVariants.{Join, Act};
ghost use Rattle.dp_epochs.specs.declared.event.Event.TheVariants.{Open};
ghost use Rattle.dp_epochs.specs.Past.{sure_answer};
ghost use Rattle.dp_sim.specs.Due.{action_due};
ghost use Rattle.dp_sim.specs.World.{first_world, after, participant_of, join_line, acted_line};
ghost use Rattle.dp_sim.specs.World.{length_of};
ghost use Rattle.dp_sim.specs.Invariant.{IsWorld, IsSayable};

use crate::participant::{Participant, serve};
use dp_client::Client;
use dp_epochs::{Event, Reply, histories_are_short};
use dp_frame::Octets;
use dp_schedule::{Instruction, ReportLine};
use dp_shown::ClientBoard;
use dp_sim::{ScheduleWorld, worlds_stay_worlds};
use dp_steps::Steps;
use dp_sure_session::SureSession;
use std::alloc::{AllocError, Global};
use std::marker::Model;
use std::sync::ledger::Ledger;

/// The session of a schedule, over a store that never fails, and its clients in the order of their
/// joins, numbered from 1. They draw on boards of one type.
///
/// The rule: docs/protocol.md, "The world".
pub struct World<S: SureSession, B: ClientBoard> {
    session: S,
    participants: Vec<Participant<B>>,
    alloc: Global,
}

impl<S: SureSession, B: ClientBoard> Model for World<S, B> {
    ghost use Rattle.dp_sim.specs.World.{World as Seen};

    ghost Value = { Seen };

    ghost view = { λ w. record { past = S.past w.session; participants = w.participants.items } };
}

// It is written out, so that it is only called where a world is let go.
impl<S: SureSession, B: ClientBoard> Drop for World<S, B> {
    fn drop(self) {
        let World {
            session,
            participants,
            alloc: _,
        } = self;
        drop(session);
        drop(participants);
    }
}

impl<S: SureSession, B: ClientBoard> World<S, B> {
    /// A user asks to join.
    fn admit(&mut self, name: Octets, registered: bool) -> Result<ReportLine, AllocError>
        requires { IsWorld self.old }
        ensures line { IfOk result (λ line. line
            ≡ join_line (length_of self.old) (sure_answer self.old.past (Open name registered))) }
        ensures ok { OnOk result (self.new ≡ after self.old (Join name registered)) }
    {
        let reply = serve(&mut self.session, Event::Open { name, registered })?;
        Ok(match reply {
            Reply::Opened {
                conn,
                user,
                epoch,
                at,
            } => {
                self.participants.reserve(1)?;
                let participant = Participant::new(self.alloc, conn, user, epoch, at)?;
                self.participants.push_reserved(participant);
                ReportLine::Joined {
                    client: conn,
                    user,
                    epoch,
                    at,
                }
            }
            Reply::Full => ReportLine::Full,
            Reply::NameRefused => ReportLine::NameRefused,
            Reply::Placed { .. }
            | Reply::Filtered { .. }
            | Reply::Noted
            | Reply::Ignored
            | Reply::Ended
            | Reply::StoreFault { .. } => ReportLine::Ended,
        })
    }

    /// A client does an instruction.
    fn play<D: Ledger, T: Ledger>(
        &mut self,
        client: u32,
        instruction: &Instruction,
        draws: &mut Steps<D>,
        tiles: &mut Steps<T>,
    ) -> Result<ReportLine, AllocError>
        requires world { IsWorld self.old }
        requires client { IsSome (participant_of self.old client) }
        requires sayable { IsSayable instruction.now }
        ensures line { IfOk result (λ line. IfSome (participant_of self.old client) (λ participant.
            line ≡ acted_line self.old.past participant instruction.now)) }
        ensures ok { OnOk result (self.new ≡ after self.old (Act client instruction.now)) }
        ensures counts { CountsFew reach (action_due self.old (Act client instruction.now))
            draws.old draws.new tiles.old tiles.new }
    {
        histories_are_short();
        let participant = &mut self.participants[client as usize - 1];
        participant.act(self.alloc, &mut self.session, instruction, draws, tiles)
    }
}

impl<S: SureSession, B: ClientBoard> ScheduleWorld for World<S, B> {
    type Board = B;

    ghost seen = { λ w. w };

    fn new(alloc: Global) -> Result<Self, AllocError> {
        worlds_stay_worlds();
        Ok(World {
            session: S::new_sure(alloc)?,
            participants: Vec::new(alloc),
            alloc,
        })
    }

    fn has(&self, client: u32) -> bool {
        client != 0 && (client as usize) <= self.participants.len()
    }

    fn join(&mut self, name: Octets, registered: bool) -> Result<ReportLine, AllocError> {
        worlds_stay_worlds();
        self.admit(name, registered)
    }

    fn act<D: Ledger, T: Ledger>(
        &mut self,
        client: u32,
        instruction: &Instruction,
        draws: &mut Steps<D>,
        tiles: &mut Steps<T>,
    ) -> Result<ReportLine, AllocError> {
        worlds_stay_worlds();
        self.play(client, instruction, draws, tiles)
    }

    fn client(&self, client: u32) -> &Client<B> {
        self.participants[client as usize - 1].client()
    }
}
