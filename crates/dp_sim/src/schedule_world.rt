//! The world of a schedule, with one call a line.

ghost use Rattle.std.specs.Prelude.{◌≡◌, is_some, IsSome, IfSome, IfOk, OnOk};
ghost use Rattle.dp_board.specs.Counts.{CountsFew};
ghost use Rattle.dp_pixels.specs.Feet.{reach};
ghost use Rattle.dp_schedule.specs.declared.action.Action.TheVariants.{Join, Act};
ghost use Rattle.dp_epochs.specs.declared.event.Event.TheVariants.{Open};
ghost use Rattle.dp_epochs.specs.Past.{sure_answer};
ghost use Rattle.dp_sim.specs.Due.{action_due};
ghost use Rattle.dp_sim.specs.World.{World, first_world, after, participant_of, join_line};
ghost use Rattle.dp_sim.specs.World.{acted_line, length_of};
ghost use Rattle.dp_sim.specs.Invariant.{IsWorld, IsSayable};

use dp_client::Client;
use dp_frame::Octets;
use dp_schedule::{Instruction, ReportLine};
use dp_shown::ClientBoard;
use dp_steps::Steps;
use std::alloc::{AllocError, Global};
use std::sync::ledger::Ledger;

/// A world in which a schedule is played, whatever runs its session and its clients.
///
/// The rule: docs/protocol.md, "The world".
pub trait ScheduleWorld: Sized + Drop {
    /// The boards on which its clients draw.
    type Board: ClientBoard;

    /// The world that it is.
    ghost seen: { Self → World };

    /// The world before the first line.
    fn new(alloc: Global) -> Result<Self, AllocError>
        ensures first { IfOk result (λ made. seen made ≡ first_world) }
        ensures world { IfOk result (λ made. IsWorld (seen made)) };

    /// Whether there is a client of this number.
    fn has(&self, client: u32) -> bool
        ensures { result ≡ is_some (participant_of (seen self.now) client) };

    /// A user asks to join.
    ///
    /// # Errors
    ///
    /// If memory runs out. Nothing is promised of the world then.
    fn join(&mut self, name: Octets, registered: bool) -> Result<ReportLine, AllocError>
        requires { IsWorld (seen self.old) }
        ensures line { IfOk result (λ line. line ≡ join_line (length_of (seen self.old))
            (sure_answer (seen self.old).past (Open name registered))) }
        ensures ok { OnOk result (seen self.new ≡ after (seen self.old) (Join name registered)) }
        ensures world { OnOk result (IsWorld (seen self.new)) };

    /// The client of this number does an instruction.
    ///
    /// # Errors
    ///
    /// If memory runs out. Nothing is promised of the world then.
    fn act<D: Ledger, T: Ledger>(
        &mut self,
        client: u32,
        instruction: &Instruction,
        draws: &mut Steps<D>,
        tiles: &mut Steps<T>,
    ) -> Result<ReportLine, AllocError>
        requires world { IsWorld (seen self.old) }
        requires client { IsSome (participant_of (seen self.old) client) }
        requires sayable { IsSayable instruction.now }
        ensures line { IfOk result (λ line. IfSome (participant_of (seen self.old) client)
            (λ participant. line
            ≡ acted_line (seen self.old).past participant instruction.now)) }
        ensures ok { OnOk result
            (seen self.new ≡ after (seen self.old) (Act client instruction.now)) }
        ensures world { OnOk result (IsWorld (seen self.new)) }
        ensures counts { CountsFew reach (action_due (seen self.old) (Act client instruction.now))
            draws.old draws.new tiles.old tiles.new };

    /// What the client of this number has taken and said.
    fn client(&self, client: u32) -> &Client<Self::Board>
        requires { IsSome (participant_of (seen self.now) client) }
        ensures { IfSome (participant_of (seen self.now) client)
            (λ participant. result.now ≡ participant.state) };
}
