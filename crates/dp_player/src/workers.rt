//! The board of a recording, on which workers paint.

ghost use Rattle.std.specs.Prelude.{◌≡◌, ◌≤◌};
ghost use Rattle.dp_viewer.specs.Reading.{WritesShown};

use dp_canvas::DeferredPixels;
use dp_flat::write_p6_by;
use dp_io::Sink;
use dp_lines::RunEnd;
use dp_par::Workers;
use dp_steps::Steps;
use dp_viewer::{ShownBoard, end_written};
use dp_wire::Gate;
use std::alloc::Global;
use std::sync::ledger::Ledger;
use std::thread::Threads;

/// Which entries of a recording are shown, and by how many workers.
#[derive(Drop)]
pub struct Playing<'a, G> {
    /// How many of the first entries are shown, or all.
    pub at: Option<u32>,
    /// How many workers paint, if 0 is 1.
    pub workers: u32,
    /// The gate that their jobs pass.
    pub gate: &'a G,
}

/// A board that trails what a recording shows, how many entries are left to show, or all, and the
/// workers who paint it.
#[derive(Drop)]
pub(crate) struct WorkersBoard<'a, R, G> {
    pub board: ShownBoard<DeferredPixels>,
    pub due: Option<u32>,
    pub rt: &'a R,
    pub workers: Workers<'a, G>,
}

impl<'a, R: Threads + Sync, G: Gate> WorkersBoard<'a, R, G> {
    /// A board, with how many entries are left to show, or all.
    pub(crate) fn new(rt: &'a R, board: ShownBoard<DeferredPixels>, playing: Playing<'a, G>) -> Self
        ensures board { result.board ≡ board }
        ensures due { result.due ≡ playing.entry.at }
    {
        let Playing { at, workers, gate } = playing;
        WorkersBoard {
            board,
            due: at,
            rt,
            workers: Workers {
                count: workers,
                gate,
            },
        }
    }

    /// Has the workers write the picture of what the board trails. Ends as given if it is written.
    pub(crate) fn write<O: Sink, D: Ledger, T: Ledger>(
        self,
        alloc: Global,
        output: &mut O,
        end: RunEnd,
        draws: &mut Steps<D>,
        tiles: &mut Steps<T>,
    ) -> RunEnd
        ensures shown { WritesShown (O.held output.old) (O.held output.new)
            (O.faults output.old) (O.faults output.new) self.entry.board end result }
        ensures later { O.faults output.old ≤ O.faults output.new }
    {
        let WorkersBoard {
            board,
            rt,
            workers,
            ..
        } = self;
        let Workers { count, gate } = workers;
        let Ok(picture) = board.finish(draws, tiles) else {
            return RunEnd::Memory;
        };
        let written = write_p6_by(rt, alloc, count, gate, &picture, output);
        drop(picture);
        end_written(written, end)
    }
}
