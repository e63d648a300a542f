//! Running what the words ask for.

ghost use Rattle.std.specs.Prelude.{◌≡◌, ◌≢◌, ◌≤◌, ℕ, List, Option, length};
ghost use Rattle.dp_line_machine.specs.Counters.{counters};
ghost use Rattle.dp_words.specs.CommandLines.{FitsLimits};
ghost use Rattle.dp_words.specs.declared.command_line.CommandLine.TheVariants.{Listen};
ghost use Rattle.dp_words.specs.declared.command_line.Service.{Service};
ghost use Rattle.dp_commands.specs.Commands.{HasWires};
ghost use Rattle.dp_commands.specs.Effects.{effects, kept, stores, streams, wire_seen};
ghost use Rattle.dp_app.specs.Kinds.{EndsCommand, EndsWords};

use dp_canvas::Canvas;
use dp_commands::{Ran, Resources, run_link, run_server};
use dp_endings::Ending;
use dp_io::{Sink, Source};
use dp_keeper::{Keeper, SureKeeper};
use dp_local::{Host, run_local};
use dp_script::Script;
use dp_session::Session;
use dp_sim_world::World;
use dp_steps::Steps;
use dp_wire::{Gate, Wire};
use dp_words::{CommandLine, read_words};
use std::alloc::AllocError;
use std::sync::Wait;
use std::sync::ledger::Ledger;
use std::thread::Threads;

/// The session of a drill, and of the world of a schedule.
type SureEvents = Session<SureKeeper>;

/// The world of a schedule.
type CanvasWorld = World<SureEvents, Canvas>;

/// Runs what the words ask for, with the wires if that takes links.
pub(crate) fn run_words<
    R: Threads + Wait + Sync,
    I: Source,
    O: Sink,
    W: Wire + Send,
    K: Keeper + Send,
    G: Gate,
    D: Ledger + Send,
    T: Ledger + Send,
>(
    host: Host<'_, R, G>,
    words: &[String],
    input: &mut I,
    output: &mut O,
    resources: Resources<W, K>,
    draws: &mut Steps<D>,
    tiles: &mut Steps<T>,
) -> Ran<W, K>
    ensures ends { EndsWords
        (wire_seen W.links W.faults W.Rx.left W.Rx.faults W.Tx.held W.Tx.faults)
        words.now
        (effects (streams I.left I.faults O.held O.faults input.old input.new output.old output.new
        (counters draws.old draws.new tiles.old tiles.new))
        resources.wires.items result.wires.items
        (stores K.held K.put_faults K.read_faults resources.keeper result.keeper)
        (kept result.journal result.shut result.reports)) result.ending }
    ensures keeper { ¬ HasWires words.now resources.wires.items → result.keeper ≡ resources.keeper }
    ensures input_later { I.faults input.old ≤ I.faults input.new }
    ensures output_later { O.faults output.old ≤ O.faults output.new }
{
    match read_words(host.alloc, words) {
        Ok(Some(command)) => run_command(host, &command, input, output, resources, draws, tiles),
        Ok(None) => Ran::without(host.alloc, Ending::Usage, resources),
        Err(AllocError) => Ran::without(host.alloc, Ending::NoWords, resources),
    }
}

/// Runs a command.
fn run_command<
    R: Threads + Wait + Sync,
    I: Source,
    O: Sink,
    W: Wire + Send,
    K: Keeper + Send,
    G: Gate,
    D: Ledger + Send,
    T: Ledger + Send,
>(
    host: Host<'_, R, G>,
    command: &CommandLine,
    input: &mut I,
    output: &mut O,
    resources: Resources<W, K>,
    draws: &mut Steps<D>,
    tiles: &mut Steps<T>,
) -> Ran<W, K>
    requires { FitsLimits command.now }
    ensures ends { EndsCommand
        (wire_seen W.links W.faults W.Rx.left W.Rx.faults W.Tx.held W.Tx.faults)
        command.now
        (effects (streams I.left I.faults O.held O.faults input.old input.new output.old output.new
        (counters draws.old draws.new tiles.old tiles.new))
        resources.wires.items result.wires.items
        (stores K.held K.put_faults K.read_faults resources.keeper result.keeper)
        (kept result.journal result.shut result.reports)) result.ending }
    ensures keeper { ((addr : List ℕ) (conns : Option ℕ) (service : Service)
        → command.now ≢ Listen addr (length resources.wires.items) conns service)
        → result.keeper ≡ resources.keeper }
    ensures input_later { I.faults input.old ≤ I.faults input.new }
    ensures output_later { O.faults output.old ≤ O.faults output.new }
{
    match command {
        CommandLine::Local(command) => {
            let end = run_local::<Script, CanvasWorld, SureEvents, R, I, O, G, D, T>(
                host, command, input, output, draws, tiles,
            );
            Ran::without(host.alloc, Ending::Run(end), resources)
        }
        CommandLine::Join { addr: _, name } => run_link::<Script, Canvas, I, O, W, K, D, T>(
            host.alloc, name, input, output, resources, draws, tiles,
        ),
        CommandLine::Listen {
            addr: _,
            workers,
            conns,
            service: _,
        } => {
            let Host { rt, alloc, gate } = host;
            let Resources { wires, keeper } = resources;
            run_server(rt, alloc, wires, keeper, *workers, *conns, gate)
        }
    }
}
