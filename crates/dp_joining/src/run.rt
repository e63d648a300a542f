//! The command `join`.

ghost use Rattle.std.specs.Prelude.{◌≤◌, length};
ghost use Rattle.dp_joining.specs.Runs.{RunLeaves};
ghost use Rattle.dp_line_machine.specs.Counters.{counters};

use crate::laws::begun_is_due;
use crate::link::{Joined, join_link};
use dp_io::{Sink, Source};
use dp_line_machine::LineRunner;
use dp_lines::RunEnd;
use dp_msg_meta::Text;
use dp_shown::ClientBoard;
use dp_steps::Steps;
use dp_wire::{Wire, WireError};
use std::alloc::Global;
use std::sync::ledger::Ledger;

/// Dials a link on the wire, joins the session at its other end as `join_link` does, and hands the
/// link back, however the run ends. The client draws on boards of the type `B`, and
/// `L` reads its script.
///
/// # Errors
///
/// If no link is given it ends with `LinkFault` or `Memory`, and it dials no further. Else it
/// ends as `join_link`.
///
/// The rule: docs/protocol.md, "Joining".
pub fn run_join<L: LineRunner, B: ClientBoard, I: Source, O: Sink, W: Wire, D: Ledger, T: Ledger>(
    alloc: Global,
    name: &Text,
    wire: &mut W,
    input: &mut I,
    output: &mut O,
    draws: &mut Steps<D>,
    tiles: &mut Steps<T>,
) -> RunEnd
    requires { length name.now ≤ 32 }
    ensures leaves { RunLeaves W.Rx.left W.Rx.faults W.Tx.held W.Tx.faults name.now
        (W.links wire.old) (W.links wire.new) (W.faults wire.old) (W.faults wire.new)
        (record {
          input = I.left input.old;
          input_now = I.left input.new;
          input_faults = I.faults input.old;
          input_faults_now = I.faults input.new;
          output = O.held output.old;
          output_now = O.held output.new;
          output_faults = O.faults output.old;
          output_faults_now = O.faults output.new;
          counters = counters draws.old draws.new tiles.old tiles.new;
        }) result }
    ensures input_later { I.faults input.old ≤ I.faults input.new }
    ensures output_later { O.faults output.old ≤ O.faults output.new }
{
    begun_is_due();
    match wire.dial() {
        Ok(link) => {
            let Joined { end, rx, tx } = join_link::<L, B, I, O, W::Rx, W::Tx, D, T>(
                alloc, name, link, input, output, draws, tiles,
            );
            wire.done(rx, tx);
            end
        }
        Err(WireError::Failed) => RunEnd::LinkFault,
        Err(WireError::Memory) => RunEnd::Memory,
    }
}
