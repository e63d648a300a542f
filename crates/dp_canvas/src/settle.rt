//! Layers on which much waits, painted by workers.

ghost use Rattle.std.specs.Prelude.{◌≡◌, ◌+◌, ◌*◌, ◌≤◌};
ghost use Rattle.dp_layers.specs.Layers.{row_limit};

use crate::deferred::{DeferredBoard, DeferredPixels};
use dp_board::Board;
use dp_par::Workers;
use dp_plain::{BoardView, LayerPixels};
use dp_steps::Steps;
use dp_wire::Gate;
use std::alloc::{AllocError, Global};
use std::sync::ledger::Ledger;
use std::thread::Threads;

/// Paints by workers what waits on the layers of a board whose lists are half full. So they are
/// seldom full, and a command is seldom drawn that has all of a layer painted by one thread.
///
/// # Errors
///
/// Some of the layers are painted, and the board is the same.
pub fn settle_half_full<R: Threads + Sync, G: Gate, T: Ledger>(
    rt: &R,
    alloc: Global,
    board: &mut DeferredBoard,
    workers: &Workers<'_, G>,
    tiles: &mut Steps<T>,
) -> Result<(), AllocError>
    ensures same { board.new ≡ board.old }
    ensures tiles_rise { tiles.old ≤ tiles.new }
    ensures few_tiles { tiles.new ≤ tiles.old + row_limit * 4096 }
{
    board.known();
    for k in 0..board.rows().len() {
        let id = board.rows()[k].id;
        settle_layer(rt, alloc, board, id, workers, tiles)?;
    }
    Ok(())
}

/// Paints what waits on the paint layer of the id, if its lists are half full. Meanwhile a clear
/// layer stands in its place.
fn settle_layer<R: Threads + Sync, G: Gate, T: Ledger>(
    rt: &R,
    alloc: Global,
    board: &mut DeferredBoard,
    id: u16,
    workers: &Workers<'_, G>,
    tiles: &mut Steps<T>,
) -> Result<(), AllocError>
    ensures same { board.new ≡ board.old }
    ensures tiles_rise { tiles.old ≤ tiles.new }
    ensures few_tiles { tiles.new ≤ tiles.old + 4096 }
{
    board.known();
    let Some(content) = board.content(id) else {
        return Ok(());
    };
    if !content.is_half_full() {
        return Ok(());
    }
    let clear = DeferredPixels::clear(alloc, board.width(), board.height(), tiles)?;
    let mut content = board.put_content(id, clear);
    let settled = content.settle_by(rt, workers, tiles);
    let _clear = board.put_content(id, content);
    settled
}
