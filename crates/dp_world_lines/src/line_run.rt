//! The lines of a schedule, done one at a time.

ghost use Rattle.std.specs.Prelude.{◌≡◌, ◌≤◌, ℕ, List, true};
ghost use Rattle.std.specs.Prelude.{IsErrOf, IfOk, IfErr, OnOk, IsSome, ◌↔◌};
ghost use Rattle.std.specs.Io.KnownBytes.{Appends};
ghost use Rattle.dp_board.specs.Counts.{CountsFew};
ghost use Rattle.dp_io.specs.Faults.{HasCause};
ghost use Rattle.dp_io.specs.Streams.{GrowsByPrefix};
ghost use Rattle.dp_shown.specs.Ends.{is_sink_fault};
ghost use Rattle.dp_pixels.specs.Feet.{reach};
ghost use Rattle.dp_schedule.specs.declared.action.Action.TheVariants.{Show as Shows};
ghost use Rattle.dp_schedule.specs.LineGrammar.{Parses};
ghost use Rattle.dp_schedule.specs.ReportText.{text_of};
ghost use Rattle.dp_sim.specs.Due.{action_due};
ghost use Rattle.dp_sim.specs.Invariant.{IsWorld, SaysNoControl};
ghost use Rattle.dp_sim.specs.Report.{printed, shown_of};
ghost use Rattle.dp_sim.specs.World.{after, first_world, participant_of};
ghost use Rattle.dp_world_lines.specs.Schedule.{IsPossible};
ghost use Rattle.dp_world_lines.specs.Progress.{IsWorldLineRefused};

use dp_io::{Sink, put_all};
use dp_line_machine::{LineMachine, Undone};
use dp_lines::Line;
use dp_printing::show;
use dp_schedule::{Action, CanvasKind, ReportLine, one_action, read_action};
use dp_showing::Shown;
use dp_shown::PictureEnd;
use dp_sim::ScheduleWorld;
use dp_steps::Steps;
use std::alloc::{AllocError, Global};
use std::sync::ledger::Ledger;

/// The machine of a schedule: it does a line in its world, whatever plays that.
#[derive(Drop)]
pub struct WorldRun<W: ScheduleWorld> {
    pub alloc: Global,
    pub world: W,
}

impl<W: ScheduleWorld> dp_lines::StepRule for WorldRun<W> {
    ghost use Rattle.dp_world_lines.specs.Schedule.{IsStep};

    ghost is_step = { IsStep };
}

impl<W: ScheduleWorld, O: Sink, D: Ledger, T: Ledger> LineMachine<O, Steps<D>, Steps<T>>
    for WorldRun<W> {
    ghost use Rattle.dp_sim.specs.Invariant.{IsWorld};
    ghost use Rattle.dp_world_lines.specs.Progress.{HasDone, HasEnded, world_of};

    type End = PictureEnd;

    ghost is_ready = { λ run. IsWorld (W.seen run.world) };

    ghost has_done = { HasDone (world_of W.seen) O.held O.faults };

    ghost has_ended = { HasEnded O.held O.faults };

    fn do_line(
        &mut self,
        line: &Line,
        output: &mut O,
        draws: &mut Steps<D>,
        tiles: &mut Steps<T>,
    ) -> Result<(), Undone<PictureEnd>> {
        one_action();
        let action = self.action_of(line)?;
        match self.do_action(action, output, draws, tiles) {
            Ok(()) => Ok(()),
            Err(end) => Err(Undone::Ended(end)),
        }
    }
}

impl<W: ScheduleWorld> WorldRun<W> {
    /// A machine before the first line.
    pub fn new(alloc: Global) -> Result<Self, AllocError>
        ensures first { IfOk result (λ run. W.seen run.world ≡ first_world) }
        ensures world { IfOk result (λ run. IsWorld (W.seen run.world)) }
    {
        let world = W::new(alloc)?;
        Ok(WorldRun { alloc, world })
    }

    /// What the line asks for. An error if it asks for nothing, or for what may not be done.
    fn action_of(&self, line: &Line) -> Result<Action, Undone<PictureEnd>>
        ensures asks { IfOk result (Parses line.now.bytes) }
        ensures possible { IfOk result (IsPossible (W.seen self.now.world)) }
        ensures allowed { IfOk result SaysNoControl }
        ensures refused { IfErr result (IsWorldLineRefused line.now (W.seen self.now.world)) }
    {
        one_action();
        let Ok(asked) = read_action(self.alloc, line.bytes.as_slice()) else {
            return Err(Undone::Ended(PictureEnd::Memory));
        };
        match asked {
            Some(action) if self.may_do(&action) => Ok(action),
            _ => Err(Undone::NoStep),
        }
    }

    /// Whether the client is there that the action names, if it names one.
    fn may_do(&self, action: &Action) -> bool
        ensures { (result ≡ true) ↔ IsPossible (W.seen self.now.world) action.now }
    {
        match action {
            Action::Join { .. } => true,
            Action::Act { client, .. } | Action::Show { client, .. } => self.world.has(*client),
        }
    }

    /// Does the action, and writes what it prints.
    fn do_action<O: Sink, D: Ledger, T: Ledger>(
        &mut self,
        action: Action,
        output: &mut O,
        draws: &mut Steps<D>,
        tiles: &mut Steps<T>,
    ) -> Result<(), PictureEnd>
        requires world { IsWorld (W.seen self.old.world) }
        requires possible { IsPossible (W.seen self.old.world) action }
        requires allowed { SaysNoControl action }
        ensures after { OnOk result (W.seen self.new.world ≡ after (W.seen self.old.world) action) }
        ensures world { OnOk result (IsWorld (W.seen self.new.world)) }
        ensures written { OnOk result
            (Appends (O.held output.old) (O.held output.new)
            (printed (W.seen self.old.world) action)) }
        ensures prefix { GrowsByPrefix (O.held output.old) (O.held output.new)
            (printed (W.seen self.old.world) action) }
        ensures counts { CountsFew reach (action_due (W.seen self.old.world) action)
            draws.old draws.new tiles.old tiles.new }
        ensures uncounted { IsErrOf result PictureEnd.Memory
            → O.faults output.new ≡ O.faults output.old }
        ensures cause { HasCause is_sink_fault (O.faults output.old) (O.faults output.new) result }
    {
        match action {
            Action::Join { name, registered } => {
                let line = self.world.join(name, registered)?;
                put_line(self.alloc, line, output)
            }
            Action::Act {
                client,
                instruction,
            } => {
                let line = self.world.act(client, &instruction, draws, tiles)?;
                put_line(self.alloc, line, output)
            }
            Action::Show { client, kind } => self.show(client, kind, output),
        }
    }

    /// Writes what is printed of the client of this number.
    fn show<O: Sink>(&self, client: u32, kind: CanvasKind, output: &mut O) -> Result<(), PictureEnd>
        requires { IsSome (participant_of (W.seen self.now.world) client) }
        ensures written { OnOk result (Appends (O.held output.old) (O.held output.new)
            (printed (W.seen self.now.world) (Shows client kind))) }
        ensures prefix { GrowsByPrefix (O.held output.old) (O.held output.new)
            (printed (W.seen self.now.world) (Shows client kind)) }
        ensures uncounted { IsErrOf result PictureEnd.Memory
            → O.faults output.new ≡ O.faults output.old }
        ensures cause { HasCause is_sink_fault (O.faults output.old) (O.faults output.new) result }
    {
        let client = self.world.client(client);
        show(self.alloc, client, shown_of(kind), output)
    }
}

/// What is printed of a client, as it is shown.
fn shown_of(kind: CanvasKind) -> Shown
    ensures { result ≡ shown_of kind }
{
    match kind {
        CanvasKind::View => Shown::View,
        CanvasKind::Confirmed => Shown::Confirmed,
        CanvasKind::Snapshot => Shown::Snapshot,
        CanvasKind::Recording => Shown::Recording,
    }
}

/// Writes a line of the report.
fn put_line<O: Sink>(alloc: Global, line: ReportLine, output: &mut O) -> Result<(), PictureEnd>
    ensures written { OnOk result
        (Appends (O.held output.old) (O.held output.new) (text_of line)) }
    ensures prefix { GrowsByPrefix (O.held output.old) (O.held output.new) (text_of line) }
    ensures uncounted { IsErrOf result PictureEnd.Memory
        → O.faults output.new ≡ O.faults output.old }
    ensures cause { HasCause is_sink_fault (O.faults output.old) (O.faults output.new) result }
{
    let text = line.text(alloc)?;
    put_all(output, &text)?;
    Ok(())
}
