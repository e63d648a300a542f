//! Commands that are painted on a grid by workers.

ghost use Rattle.std.specs.Prelude.{◌≡◌, ℕ, ◌+◌, ◌*◌, ◌<◌, ◌≤◌, ◌^◌, [], All, length, IfOk, OnOk};
ghost use Rattle.std.specs.Prelude.{Some, slice_get};
ghost use Rattle.std.specs.List.{sum_by};
ghost use Rattle.dp_pixels.specs.Commands.{pixels_after};
ghost use Rattle.dp_pixels.specs.Feet.{reach};
ghost use Rattle.dp_tile.specs.Areas.{IsPaintedOn};
ghost use Rattle.dp_tile.specs.Tiles.{grid_pixels};
ghost use Rattle.dp_shift.specs.Grids.{IsGridOf};
ghost use Rattle.dp_paint.specs.Painting.{IsPainting, pixels_after_all};
ghost use Rattle.dp_ops.specs.Lists.{AllCount, listed_at};
ghost use Rattle.dp_paint.specs.Layers.{HaveSome, layer_pixels};
ghost use Rattle.dp_paint.specs.Jobs.{tiles_waiting};
ghost use Rattle.dp_ops.specs.Lists.{waiting_tile};
ghost use Rattle.dp_paint.specs.Jobs.{band_at};

use crate::feet::cells_of;
use crate::jobs::{GROUP, make_jobs, write_jobs};
use dp_msg_draw::Draw;
use dp_ops::{Finish, Numbered, OpsPainter, Sheet, TileLists, file};
use dp_par::{Workers, par_each};
use dp_pixels::pixels_stay_outside_the_foot;
use dp_steps::Steps;
use dp_tile::{CellArea, Grid};
use dp_wire::Gate;
use std::alloc::AllocError;
use std::sync::ledger::Ledger;
use std::thread::Threads;

/// The grid after what waits on the tiles of eight rows from one on, painted by workers.
///
/// # Errors
///
/// Tiles that were made are counted.
fn band_painted<R: Threads + Sync, G: Gate, T: Ledger>(
    rt: &R,
    grid: &Grid,
    on: Sheet<'_>,
    lists: &TileLists,
    top: u32,
    workers: &Workers<'_, G>,
    tiles: &mut Steps<T>,
) -> Result<Grid, AllocError>
    requires { top + 8 ≤ 64 }
    ensures painted { IfOk result (λ painted. IsPaintedOn (band_at top)
        (waiting_tile on.entry.width on.entry.height on.entry.commands.now lists.now)
        grid.now painted) }
    ensures tiles_rise { tiles.old ≤ tiles.new }
    ensures few_tiles { tiles.new + tiles_waiting lists.now (top * 64)
        ≤ tiles.old + tiles_waiting lists.now (top * 64 + GROUP) }
{
    grid.known();
    let mut work = make_jobs(grid, OpsPainter { on, lists }, top * 64, tiles)?;
    par_each(rt, workers.count, workers.gate, &mut work.jobs);
    let painted = write_jobs(work)?;
    Ok(painted)
}

/// Paints all that waits on a grid, by workers. None waits then.
///
/// # Errors
///
/// Some of it may be painted.
pub(crate) fn settle_all<R: Threads + Sync, G: Gate, T: Ledger>(
    rt: &R,
    grid: &mut Grid,
    on: Sheet<'_>,
    lists: &mut TileLists,
    workers: &Workers<'_, G>,
    tiles: &mut Steps<T>,
) -> Result<(), AllocError>
    requires grid { IsGridOf on.width on.height grid.old }
    requires first { lists.old.first ≡ 0 }
    requires counts { AllCount lists.old }
    ensures grid { IsGridOf on.entry.width on.entry.height grid.new }
    ensures first { lists.new.first ≡ 0 }
    ensures counts { AllCount lists.new }
    ensures same { layer_pixels on.entry.width on.entry.height on.entry.commands.now lists.new
        grid.new
        ≡ layer_pixels on.entry.width on.entry.height on.entry.commands.now lists.old grid.old }
    ensures none { OnOk result
        ((col row : ℕ) → col < 64 → row < 64 → listed_at lists.new col row ≡ []) }
    ensures some { HaveSome lists.old lists.new }
    ensures tiles_rise { tiles.old ≤ tiles.new }
    ensures few_tiles { tiles.new ≤ tiles.old + tiles_waiting lists.old 4096 }
{
    for band in 0..8 {
        let area = CellArea {
            left: 0,
            right: 64,
            top: band * 8,
            bottom: band * 8 + 8,
        };
        *grid = band_painted(rt, grid, on, lists, band * 8, workers, tiles)?;
        lists.finish(area, Finish::Clear);
    }
    Ok(())
}

/// Has a command, which has a number, wait on the tiles of a grid that it reaches.
///
/// # Errors
///
/// Memory ran out: what waits on each tile stays.
fn file_command(
    lists: &mut TileLists,
    grid: &Grid,
    on: Sheet<'_>,
    number: u32,
    command: &Draw,
) -> Result<(), AllocError>
    requires number { slice_get on.commands.now number ≡ Some command.now }
    requires command { IsPainting command.now }
    requires grid { IsGridOf on.width on.height grid.now }
    requires first { lists.old.first ≡ 0 }
    requires counts { AllCount lists.old }
    ensures first { lists.new.first ≡ 0 }
    ensures counts { AllCount lists.new }
    ensures pixels { OnOk result
        (layer_pixels on.entry.width on.entry.height on.entry.commands.now lists.new grid.now
        ≡ pixels_after on.entry.width on.entry.height command.now
        (layer_pixels on.entry.width on.entry.height on.entry.commands.now lists.old grid.now)) }
    ensures few { OnOk result
        (tiles_waiting lists.new 4096 ≤ tiles_waiting lists.old 4096 + reach command.now) }
{
    pixels_stay_outside_the_foot();
    grid.known();
    let area = cells_of(command, grid.cols(), grid.rows());
    let source = Numbered {
        width: on.width,
        height: on.height,
        number,
        command,
    };
    file(lists, grid.alloc(), &source, area)
}

/// Has all commands wait on the tiles of a grid that they reach.
///
/// # Errors
///
/// Some of them may wait.
fn file_all(lists: &mut TileLists, grid: &Grid, on: Sheet<'_>) -> Result<(), AllocError>
    requires few { length on.commands.now < 2 ^ 32 }
    requires commands { All IsPainting on.commands.now }
    requires grid { IsGridOf on.width on.height grid.now }
    requires none { lists.old ≡ record { first = 0; lists = [] } }
    ensures first { lists.new.first ≡ 0 }
    ensures counts { AllCount lists.new }
    ensures pixels { OnOk result
        (layer_pixels on.entry.width on.entry.height on.entry.commands.now lists.new grid.now
        ≡ pixels_after_all on.entry.width on.entry.height on.entry.commands.now
        (grid_pixels on.entry.width on.entry.height grid.now)) }
    ensures few { OnOk result (tiles_waiting lists.new 4096 ≤ sum_by reach on.entry.commands.now) }
{
    let mut number = 0;
    for command in on.commands {
        file_command(lists, grid, on, number, command)?;
        number += 1;
    }
    Ok(())
}

/// The grid after commands, painted by workers.
///
/// # Errors
///
/// Tiles that were made are counted.
fn paint_part<R: Threads + Sync, G: Gate, T: Ledger>(
    rt: &R,
    grid: &Grid,
    on: Sheet<'_>,
    workers: &Workers<'_, G>,
    tiles: &mut Steps<T>,
) -> Result<Grid, AllocError>
    requires few { length on.commands.now < 2 ^ 32 }
    requires commands { All IsPainting on.commands.now }
    requires grid { IsGridOf on.width on.height grid.now }
    ensures grid { IfOk result (IsGridOf on.entry.width on.entry.height) }
    ensures pixels { IfOk result (λ painted. grid_pixels on.entry.width on.entry.height painted
        ≡ pixels_after_all on.entry.width on.entry.height on.entry.commands.now
        (grid_pixels on.entry.width on.entry.height grid.now)) }
    ensures tiles_rise { tiles.old ≤ tiles.new }
    ensures few_tiles { tiles.new ≤ tiles.old + sum_by reach on.entry.commands.now }
{
    let mut lists = TileLists::new(grid.alloc(), 0);
    file_all(&mut lists, grid, on)?;
    let mut painted = grid.share()?;
    settle_all(rt, &mut painted, on, &mut lists, workers, tiles)?;
    Ok(painted)
}

/// The most commands that wait on the tiles of a grid before they are painted.
const PART: usize = 65536;

/// The grid after commands, painted by workers: a job for each tile that one of them reaches, or
/// none if the tile is known to become of one colour. The room of the new tiles is taken before
/// the workers start. The other grid keeps its tiles.
///
/// # Errors
///
/// Tiles that were made are counted.
pub fn paint<R: Threads + Sync, G: Gate, T: Ledger>(
    rt: &R,
    grid: &Grid,
    width: u32,
    height: u32,
    ops: &[Draw],
    workers: &Workers<'_, G>,
    tiles: &mut Steps<T>,
) -> Result<Grid, AllocError>
    requires grid { IsGridOf width height grid.now }
    requires commands { All IsPainting ops.now }
    ensures grid { IfOk result (IsGridOf width height) }
    ensures pixels { IfOk result (λ painted. grid_pixels width height painted
        ≡ pixels_after_all width height ops.now (grid_pixels width height grid.now)) }
    ensures tiles_rise { tiles.old ≤ tiles.new }
    ensures few_tiles { tiles.new ≤ tiles.old + sum_by reach ops.now }
{
    let mut painted = grid.share()?;
    let mut done = 0;
    while done < ops.len() {
        let next = done + (ops.len() - done).min(PART);
        let on = Sheet {
            width,
            height,
            commands: &ops[done..next],
        };
        match paint_part(rt, &painted, on, workers, tiles) {
            Ok(after) => painted = after,
            Err(refused) => {
                drop(painted);
                return Err(refused);
            }
        }
        done = next;
    }
    Ok(painted)
}
