//! Running a command on the input and the output alone.

ghost use Rattle.std.specs.Prelude.{◌≤◌};
ghost use Rattle.dp_lines.specs.RunEnds.{FaultMatchesEnd};
ghost use Rattle.dp_line_machine.specs.Counters.{counters};
ghost use Rattle.dp_local.specs.Runs.{run_of};

use crate::host::Host;
use dp_canvas::DeferredPixels;
use dp_drill::{Drill, run_drill};
use dp_io::{Sink, Source};
use dp_line_machine::LineRunner;
use dp_lines::RunEnd;
use dp_par::Workers;
use dp_player::{Playing, run_play};
use dp_sim::ScheduleWorld;
use dp_steps::Steps;
use dp_sure_session::SureSession;
use dp_viewer::run_replay;
use dp_wire::Gate;
use dp_words::LocalCommand;
use dp_world::run_world;
use std::sync::ledger::Ledger;
use std::thread::Threads;

/// Runs a command on the input and the output alone. `L` reads the lines of a schedule. They are
/// done in a world `W`, and a drill has a session `S`.
pub fn run_local<
    L: LineRunner,
    W: ScheduleWorld,
    S: SureSession,
    R: Threads + Sync,
    I: Source,
    O: Sink,
    G: Gate,
    D: Ledger + Send,
    T: Ledger + Send,
>(
    host: Host<'_, R, G>,
    command: &LocalCommand,
    input: &mut I,
    output: &mut O,
    draws: &mut Steps<D>,
    tiles: &mut Steps<T>,
) -> RunEnd
    ensures leaves { (run_of command.now).leaves (I.left input.old) (I.left input.new)
        (O.held output.old) (O.held output.new)
        (counters draws.old draws.new tiles.old tiles.new) result }
    ensures fault { FaultMatchesEnd (I.faults input.old) (I.faults input.new)
        (O.faults output.old) (O.faults output.new) result }
    ensures input_later { I.faults input.old ≤ I.faults input.new }
    ensures output_later { O.faults output.old ≤ O.faults output.new }
{
    let Host { rt, alloc, gate } = host;
    match command {
        LocalCommand::Replay => {
            run_replay::<DeferredPixels, I, O, D, T>(alloc, input, output, draws, tiles)
        }
        LocalCommand::World => run_world::<L, W, I, O, D, T>(alloc, input, output, draws, tiles),
        LocalCommand::Play { at, workers } => {
            let (at, workers) = (*at, *workers);
            let playing = Playing { at, workers, gate };
            run_play(rt, alloc, input, output, playing, draws, tiles)
        }
        LocalCommand::Drill {
            seed,
            rounds,
            workers,
        } => {
            let drill = Drill {
                seed: *seed,
                rounds: *rounds,
            };
            let workers = Workers {
                count: *workers,
                gate,
            };
            run_drill::<S, R, O, G, D, T>(rt, alloc, drill, &workers, output, draws, tiles)
        }
    }
}
