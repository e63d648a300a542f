//! The command `replay`: frames whose picture is written.

ghost use Rattle.std.specs.Prelude.{◌≤◌};
ghost use Rattle.dp_lines.specs.RunEnds.{FaultMatchesEnd};
ghost use Rattle.dp_viewer.specs.Pictures.{PictureLeaves};
ghost use Rattle.dp_viewer.specs.Reading.{WritesShown};
ghost use Rattle.dp_viewer.specs.Ways.{replay_way};

use crate::ending::end_written;
use crate::reading::{Reading, ShownBoard, blank_board, read_frames, reads_to_end};
use dp_flat::write_p6;
use dp_io::{Sink, Source};
use dp_lines::RunEnd;
use dp_plain::LayerPixels;
use dp_steps::Steps;
use std::alloc::Global;
use std::sync::ledger::Ledger;

/// Reads frames to the input's end, and writes the P6 picture of what they show. If the input ends
/// inside a frame, the picture is that of the whole ones.
///
/// # Errors
///
/// It ends with `BadMessage` at the first frame that carries no message, and with `Long` if the
/// input has more than 1 GiB. It ends with `ReadFault` and `WriteFault` if the input and the output
/// failed, and with `Memory` if memory ran out.
///
/// The rule: docs/protocol.md, "Commands".
pub fn run_replay<P: LayerPixels, I: Source, O: Sink, D: Ledger, T: Ledger>(
    alloc: Global,
    input: &mut I,
    output: &mut O,
    draws: &mut Steps<D>,
    tiles: &mut Steps<T>,
) -> RunEnd
    ensures leaves { PictureLeaves replay_way (I.left input.old) (I.left input.new)
        (O.held output.old) (O.held output.new) result }
    ensures fault { FaultMatchesEnd (I.faults input.old) (I.faults input.new)
        (O.faults output.old) (O.faults output.new) result }
    ensures input_later { I.faults input.old ≤ I.faults input.new }
    ensures output_later { O.faults output.old ≤ O.faults output.new }
{
    let Ok(blank) = blank_board::<P>(alloc) else {
        return RunEnd::Memory;
    };
    let Reading { board, end } = read_frames(alloc, input, blank, draws, tiles);
    if reads_to_end(end) {
        write_shown(alloc, board, output, end, draws, tiles)
    } else {
        drop(board);
        end
    }
}

/// Writes the picture of what the board trails. Ends as given if it is written.
fn write_shown<P: LayerPixels, O: Sink, D: Ledger, T: Ledger>(
    alloc: Global,
    board: ShownBoard<P>,
    output: &mut O,
    end: RunEnd,
    draws: &mut Steps<D>,
    tiles: &mut Steps<T>,
) -> RunEnd
    ensures shown { WritesShown (O.held output.old) (O.held output.new)
        (O.faults output.old) (O.faults output.new) board end result }
    ensures later { O.faults output.old ≤ O.faults output.new }
{
    let Ok(picture) = board.finish(draws, tiles) else {
        return RunEnd::Memory;
    };
    let written = write_p6(alloc, &picture, output);
    drop(picture);
    end_written(written, end)
}
