//! Joining a session over a wire.

ghost use Rattle.std.specs.Prelude.{◌≡◌, ◌≤◌, length};
ghost use Rattle.dp_line_machine.specs.Counters.{counters};
ghost use Rattle.dp_commands.specs.Effects.{Kept, KeepsNothing, Stores, StoreStays, effects, kept};
ghost use Rattle.dp_commands.specs.Effects.{stores, streams, wire_seen};
ghost use Rattle.dp_commands.specs.Joins.{EndsJoin};

use crate::ran::{Ran, Resources};
use dp_endings::Ending;
use dp_io::{Sink, Source};
use dp_joining::run_join;
use dp_keeper::Keeper;
use dp_line_machine::LineRunner;
use dp_msg_meta::Text;
use dp_shown::ClientBoard;
use dp_steps::Steps;
use dp_wire::Wire;
use std::alloc::Global;
use std::sync::ledger::Ledger;

/// Joins a session over the first of the wires, if there is one, and gives the wires back. The
/// script is read by `L`.
pub fn run_link<
    L: LineRunner,
    B: ClientBoard,
    I: Source,
    O: Sink,
    W: Wire,
    K: Keeper,
    D: Ledger,
    T: Ledger,
>(
    alloc: Global,
    name: &Text,
    input: &mut I,
    output: &mut O,
    resources: Resources<W, K>,
    draws: &mut Steps<D>,
    tiles: &mut Steps<T>,
) -> Ran<W, K>
    requires { length name.now ≤ 32 }
    ensures ends { EndsJoin
        (wire_seen W.links W.faults W.Rx.left W.Rx.faults W.Tx.held W.Tx.faults)
        name.now
        (effects (streams I.left I.faults O.held O.faults input.old input.new output.old output.new
        (counters draws.old draws.new tiles.old tiles.new))
        resources.wires.items result.wires.items
        (stores K.held K.put_faults K.read_faults resources.keeper result.keeper)
        (kept result.journal result.shut result.reports)) result.ending }
    ensures keeper { result.keeper ≡ resources.keeper }
    ensures input_later { I.faults input.old ≤ I.faults input.new }
    ensures output_later { O.faults output.old ≤ O.faults output.new }
{
    let Resources { mut wires, keeper } = resources;
    let ending = join_first::<L, B, I, O, W, D, T>(
        alloc, name, input, output, &mut wires, draws, tiles,
    );
    Ran::without(alloc, ending, Resources { wires, keeper })
}

/// Joins a session over the first of the wires, if there is one.
fn join_first<L: LineRunner, B: ClientBoard, I: Source, O: Sink, W: Wire, D: Ledger, T: Ledger>(
    alloc: Global,
    name: &Text,
    input: &mut I,
    output: &mut O,
    wires: &mut [W],
    draws: &mut Steps<D>,
    tiles: &mut Steps<T>,
) -> Ending
    requires { length name.now ≤ 32 }
    ensures ends { (store : Stores) (nothing : Kept) → StoreStays store → KeepsNothing nothing
        → EndsJoin (wire_seen W.links W.faults W.Rx.left W.Rx.faults W.Tx.held W.Tx.faults)
        name.now
        (effects (streams I.left I.faults O.held O.faults input.old input.new output.old output.new
        (counters draws.old draws.new tiles.old tiles.new))
        wires.old wires.new store nothing) result }
    ensures input_later { I.faults input.old ≤ I.faults input.new }
    ensures output_later { O.faults output.old ≤ O.faults output.new }
{
    match wires.first_mut() {
        Some(wire) => Ending::Run(run_join::<L, B, I, O, W, D, T>(
            alloc, name, wire, input, output, draws, tiles,
        )),
        None => Ending::NoLink,
    }
}
