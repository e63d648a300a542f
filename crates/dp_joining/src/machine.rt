//! The lines of a script, done by a client over a link.

use crate::acting::act;
use dp_io::{Sink, Source};
use dp_join_link::JoinStop;
use dp_joiner::Joiner;
use dp_line_machine::{LineMachine, Undone};
use dp_lines::Line;
use dp_schedule::{one_action, read_join_action};
use dp_shown::ClientBoard;
use dp_steps::Steps;
use std::sync::ledger::Ledger;

/// The machine of a script: a client over a link does its lines.
pub(crate) struct JoinMachine<B: ClientBoard, R: Source, S: Sink> {
    pub joiner: Joiner<B, R, S>,
}

impl<B: ClientBoard, R: Source, S: Sink> dp_lines::StepRule for JoinMachine<B, R, S> {
    ghost use Rattle.dp_joining.specs.Outcomes.{IsJoinStep};

    ghost is_step = { IsJoinStep };
}

impl<B: ClientBoard, R: Source, S: Sink, O: Sink, D: Ledger, T: Ledger> LineMachine<
    O,
    Steps<D>,
    Steps<T>,
> for JoinMachine<B, R, S> {
    ghost use Rattle.dp_joiner.specs.Steps.{IsReady};
    ghost use Rattle.dp_joining.specs.Scripts.{HasDone, HasEnded, seen_by};

    type End = JoinStop;

    ghost is_ready = { λ machine. IsReady machine.joiner.client machine.joiner.source };

    ghost has_done = { HasDone (seen_by O.held O.faults) };

    ghost has_ended = { HasEnded (seen_by O.held O.faults) };

    fn do_line(
        &mut self,
        line: &Line,
        output: &mut O,
        draws: &mut Steps<D>,
        tiles: &mut Steps<T>,
    ) -> Result<(), Undone<JoinStop>> {
        one_action();
        match read_join_action(self.joiner.alloc(), line.bytes.as_slice()) {
            Ok(Some(action)) => match act(&mut self.joiner, action, output, draws, tiles) {
                Ok(()) => Ok(()),
                Err(stop) => Err(Undone::Ended(stop)),
            },
            Ok(None) => Err(Undone::NoStep),
            Err(_full) => Err(Undone::Ended(JoinStop::Memory)),
        }
    }
}
