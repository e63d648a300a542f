//! Commands that are painted on a grid.

ghost use Rattle.std.specs.Prelude.{◌≡◌, ◌+◌, ◌*◌, ◌/◌, ◌≤◌, ◌<◌, ℕ, pos, true, OnOk, OnErr};
ghost use Rattle.dp_pixels.specs.Commands.{IsDabs, pixels_after};
ghost use Rattle.dp_pixels.specs.Feet.{foot, is_in_foot, reach};
ghost use Rattle.dp_tile.specs.Areas.{IsPaintedOn, is_in_cells};
ghost use Rattle.dp_tile.specs.Tiles.{grid_pixels};
ghost use Rattle.dp_shift.specs.Grids.{IsGridOf};
ghost use Rattle.dp_paint.specs.Painting.{IsPainting};
ghost use Rattle.dp_shift.specs.Reading.{IsAreaOf, cells_of};
ghost use Rattle.dp_ops.specs.Lists.{IsChangedOn, IsFinished, waiting_tile};

use crate::feet::cells_of;
use dp_msg_draw::Draw;
use dp_ops::{CommandPainter, Finish, Numbered, OpsPainter, Sheet, TileLists, file};
use dp_pixels::pixels_stay_outside_the_foot;
use dp_steps::Steps;
use dp_tile::{CellArea, Grid};
use std::alloc::AllocError;
use std::sync::ledger::Ledger;

/// Whether a command is a message of more than one dab.
fn is_stroke(command: &Draw) -> bool
    ensures { result ≡ true → IsDabs command.now }
{
    match command {
        Draw::DabsRound { dabs, .. } => dabs.as_slice().len() > 1,
        Draw::DabsSquare { dabs, .. } => dabs.as_slice().len() > 1,
        _ => false,
    }
}

/// Paints what waits on the cells of an area.
///
/// # Errors
///
/// The grid is as it was.
pub(crate) fn paint_lists<T: Ledger>(
    grid: &mut Grid,
    on: Sheet<'_>,
    lists: &TileLists,
    area: CellArea,
    tiles: &mut Steps<T>,
) -> Result<(), AllocError>
    requires area { IsAreaOf grid.old area }
    ensures painted { OnOk result (IsPaintedOn area
        (waiting_tile on.entry.width on.entry.height on.entry.commands.now lists.now)
        grid.old grid.new) }
    ensures err { OnErr result (grid.new ≡ grid.old) }
    ensures tiles_rise { tiles.old ≤ tiles.new }
    ensures few_tiles { tiles.new ≤ tiles.old + cells_of area }
{
    grid.known();
    grid.paint_area(area, &OpsPainter { on, lists }, tiles)
}

/// Paints what waits on the cells of an area. None waits there then.
///
/// # Errors
///
/// The grid is as it was, and the operations wait.
pub(crate) fn settle<T: Ledger>(
    grid: &mut Grid,
    on: Sheet<'_>,
    lists: &mut TileLists,
    area: CellArea,
    tiles: &mut Steps<T>,
) -> Result<(), AllocError>
    requires area { IsAreaOf grid.old area }
    requires first { lists.old.first ≤ area.top }
    ensures painted { OnOk result (IsPaintedOn area
        (waiting_tile on.entry.width on.entry.height on.entry.commands.now lists.old)
        grid.old grid.new) }
    ensures none { OnOk result
        (IsChangedOn area (IsFinished Finish.Clear) lists.old lists.new) }
    ensures err { OnErr result (grid.new ≡ grid.old) }
    ensures err_lists { OnErr result (lists.new ≡ lists.old) }
    ensures tiles_rise { tiles.old ≤ tiles.new }
    ensures few_tiles { tiles.new ≤ tiles.old + cells_of area }
{
    grid.known();
    if lists.is_blank() {
        return Ok(());
    }
    paint_lists(grid, on, lists, area, tiles)?;
    lists.finish(area, Finish::Clear);
    Ok(())
}

/// Paints dabs on the cells of an area, each on the tiles that its square meets.
fn paint_stroke<T: Ledger>(
    grid: &mut Grid,
    width: u32,
    height: u32,
    command: &Draw,
    area: CellArea,
    tiles: &mut Steps<T>,
) -> Result<(), AllocError>
    requires grid { IsGridOf width height grid.old }
    requires dabs { IsDabs command.now }
    requires area { IsAreaOf grid.old area }
    requires all { (x y : ℕ) → x < grid.old.cols * 64 → y < grid.old.rows * 64
        → is_in_foot (foot command.now) (pos x) (pos y) ≡ true
        → is_in_cells area (x / 64) (y / 64) ≡ true }
    ensures pixels { OnOk result (grid_pixels width height grid.new
        ≡ pixels_after width height command.now (grid_pixels width height grid.old)) }
    ensures grid { OnOk result (IsGridOf width height grid.new) }
    ensures err { OnErr result (grid.new ≡ grid.old) }
    ensures tiles_rise { tiles.old ≤ tiles.new }
    ensures few_tiles { tiles.new ≤ tiles.old + cells_of area }
{
    pixels_stay_outside_the_foot();
    grid.known();
    let mut lists = TileLists::new(grid.alloc(), area.top);
    let source = Numbered {
        width,
        height,
        number: 0,
        command,
    };
    file(&mut lists, grid.alloc(), &source, area)?;
    let on = Sheet {
        width,
        height,
        commands: &[],
    };
    paint_lists(grid, on, &lists, area, tiles)
}

/// Paints a command on a grid. Tiles are made before the first is painted.
///
/// # Errors
///
/// The grid is as it was, and tiles that were made are counted.
pub fn paint_in_place<T: Ledger>(
    grid: &mut Grid,
    width: u32,
    height: u32,
    command: &Draw,
    tiles: &mut Steps<T>,
) -> Result<(), AllocError>
    requires grid { IsGridOf width height grid.old }
    requires command { IsPainting command.now }
    ensures grid { OnOk result (IsGridOf width height grid.new) }
    ensures pixels { OnOk result (grid_pixels width height grid.new
        ≡ pixels_after width height command.now (grid_pixels width height grid.old)) }
    ensures err { OnErr result (grid.new ≡ grid.old) }
    ensures tiles_rise { tiles.old ≤ tiles.new }
    ensures few_tiles { tiles.new ≤ tiles.old + reach command.now }
{
    pixels_stay_outside_the_foot();
    let area = cells_of(command, grid.cols(), grid.rows());
    if is_stroke(command) {
        return paint_stroke(grid, width, height, command, area, tiles);
    }
    let painter = CommandPainter {
        command,
        width,
        height,
    };
    grid.paint_area(area, &painter, tiles)
}
