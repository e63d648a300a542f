//! Running a schedule.

ghost use Rattle.std.specs.Prelude.{◌≡◌, ◌≤◌};
ghost use Rattle.dp_lines.specs.RunEnds.{FaultMatchesEnd};
ghost use Rattle.dp_line_machine.specs.Counters.{counters};
ghost use Rattle.dp_world.specs.RunEnds.{WorldLeaves, run_end_of};

use dp_io::{Sink, Source};
use dp_line_machine::{LineRunner, ScriptEnd};
use dp_lines::{RunEnd, further_step};
use dp_shown::PictureEnd;
use dp_sim::ScheduleWorld;
use dp_steps::Steps;
use dp_world_lines::WorldRun;
use std::alloc::Global;
use std::sync::ledger::Ledger;

/// How many bytes of the input count: 64 MiB.
const WORLD_LIMIT: usize = 1 << 26;

/// Reads the lines of a schedule and does them one after the other. What a line prints is written
/// before the next line is done. `L` reads them. They are done in a world of the type `W`, and what
/// is drawn there is counted.
///
/// # Errors
///
/// It ends with `BadLine` at the first line that is no step, and with `Long` if the input has more
/// than 64 MiB. It ends with `ReadFault` and `WriteFault` if the input and the output failed, and
/// with `Memory` if memory ran out.
///
/// The rule: docs/protocol.md, "The world".
pub fn run_world<L: LineRunner, W: ScheduleWorld, I: Source, O: Sink, D: Ledger, T: Ledger>(
    alloc: Global,
    input: &mut I,
    output: &mut O,
    draws: &mut Steps<D>,
    tiles: &mut Steps<T>,
) -> RunEnd
    ensures leaves { WorldLeaves (I.left input.old) (I.left input.new)
        (O.held output.old) (O.held output.new)
        (counters draws.old draws.new tiles.old tiles.new) result }
    ensures fault { FaultMatchesEnd (I.faults input.old) (I.faults input.new)
        (O.faults output.old) (O.faults output.new) result }
    ensures input_later { I.faults input.old ≤ I.faults input.new }
    ensures output_later { O.faults output.old ≤ O.faults output.new }
{
    further_step::<WorldRun<W>>();
    let Ok(mut machine) = WorldRun::<W>::new(alloc) else {
        return RunEnd::Memory;
    };
    run_end(L::run_lines(
        alloc,
        WORLD_LIMIT,
        input,
        &mut machine,
        output,
        draws,
        tiles,
    ))
}

/// How the run ends if that of its lines ends with this.
fn run_end(end: ScriptEnd<PictureEnd>) -> RunEnd
    ensures { result ≡ run_end_of end }
{
    match end {
        ScriptEnd::Done => RunEnd::Done,
        ScriptEnd::BadLine(number) => RunEnd::BadLine(number),
        ScriptEnd::ReadFault => RunEnd::ReadFault,
        ScriptEnd::Long => RunEnd::Long,
        ScriptEnd::Memory => RunEnd::Memory,
        ScriptEnd::Ended(PictureEnd::Failed) => RunEnd::WriteFault,
        ScriptEnd::Ended(PictureEnd::Memory) => RunEnd::Memory,
    }
}
