//! Rectangles of cells, and painting on all of their tiles.

ghost use Rattle.std.specs.Prelude.{◌≡◌, ◌+◌, ◌*◌, ◌-◌, ◌<◌, ◌≤◌, length, replicate, All, IfSome};
ghost use Rattle.std.specs.Prelude.{OnOk, OnErr};
ghost use Rattle.dp_tile.specs.Areas.{BecameOrStayed, area_painted, cells_painted};
ghost use Rattle.dp_tile.specs.Areas.{row_painted, rows_painted};
ghost use Rattle.dp_tile.specs.Tiles.{tile_of};

use crate::painter::{TileChange, TilePainter};
use crate::palette::Palette;
use crate::row::Row;
use crate::slot::Slot;
use crate::tile::Tile;
use dp_blend::Pixel;
use dp_shared::own;
use dp_steps::Steps;
use std::alloc::{AllocError, Global};
use std::sync::Arc;
use std::sync::ledger::Ledger;

/// The cells of the columns from `left` on before `right`, and of the rows from `top` on before
/// `bottom`.
#[derive(Clone, Copy)]
pub struct CellArea {
    pub left: u32,
    pub right: u32,
    pub top: u32,
    pub bottom: u32,
}

// A painter, and the columns that it paints.
#[derive(Drop)]
struct Work<'a, P> {
    alloc: Global,
    painter: &'a P,
    left: u32,
    right: u32,
    ghost order: { left ≤ right },
    ghost few: { right ≤ 64 },
}

// A column and a row.
#[derive(Clone, Copy)]
struct Cell {
    col: u32,
    row: u32,
}

// Paints the tiles of an area of rows.
pub(crate) fn paint_area<P: TilePainter, T: Ledger>(
    alloc: Global,
    area: CellArea,
    painter: &P,
    rows: &mut [Row],
    palette: &mut Palette,
    tiles: &mut Steps<T>,
) -> Result<(), AllocError>
    requires across { area.left ≤ area.right }
    requires down { area.top ≤ area.bottom }
    requires cols { area.right ≤ 64 }
    requires rows { area.bottom ≤ length rows.old }
    requires few_rows { length rows.old ≤ 64 }
    requires wide { All (λ row. area.right ≤ length row) rows.old }
    ensures painted { OnOk result
        (rows.new ≡ area_painted (P.painted painter.now) area rows.old) }
    ensures err { OnErr result (rows.new ≡ rows.old) }
    ensures tiles_rise { tiles.old ≤ tiles.new }
    ensures few_tiles { tiles.new
        ≤ tiles.old + (area.bottom - area.top) * (area.right - area.left) }
{
    let work = Work {
        alloc,
        painter,
        left: area.left,
        right: area.right,
    };
    let (top, bottom) = (area.top as usize, area.bottom as usize);
    paint_rows(&work, area.top, &mut rows[top..bottom], palette, tiles)
}

// The colour of all tiles of a row after it is painted, if all of the row is painted and that is
// known.
fn color_after<P: TilePainter>(work: &Work<P>, row: u32, cells: &Row) -> Option<Pixel>
    requires row { row < 64 }
    ensures painted { IfSome result (λ p.
        row_painted (P.painted work.now.painter.now) work.now.left work.now.right row cells.now
        ≡ replicate work.now.right (tile_of p)) }
    ensures some_tile { IfSome result (λ p. work.now.left < work.now.right) }
{
    if work.left > 0 || work.right == 0 || work.right as usize != cells.len() {
        return None;
    }
    let color = cells.color()?;
    match work.painter.change_row(row, work.left, work.right, color) {
        TileChange::Becomes(p) => Some(p),
        _ => None,
    }
}

// Puts a value in the place of another, if all went well.
fn put_if_ok<X: Drop>(done: &Result<(), AllocError>, place: &mut X, value: X)
    ensures { BecameOrStayed done.now place.old place.new value }
{
    if done.is_ok() {
        *place = value;
    }
}

// Paints the slots that are left of a row, from a cell on, and the columns of the rows below. All
// tiles are made this grid's alone before the first is painted.
#[cycle(painting)]
fn paint_cells<P: TilePainter, T: Ledger>(
    work: &Work<P>,
    cell: Cell,
    slots: &mut [Slot],
    below: &mut [Row],
    palette: &mut Palette,
    tiles: &mut Steps<T>,
) -> Result<(), AllocError>
    requires cols { cell.col + length slots.old ≤ 64 }
    requires rows { cell.row + length below.old < 64 }
    requires wide { All (λ row. work.now.right ≤ length row) below.old }
    ensures slots { BecameOrStayed result slots.old slots.new
        (cells_painted (P.painted work.now.painter.now) cell.col cell.row slots.old) }
    ensures below { BecameOrStayed result below.old below.new
        (rows_painted (P.painted work.now.painter.now) work.now.left work.now.right (cell.row + 1)
        below.old) }
    ensures tiles_rise { tiles.old ≤ tiles.new }
    ensures few_tiles { tiles.new
        ≤ tiles.old + length slots.old + length below.old * (work.now.right - work.now.left) }
{
    match slots.split_first_mut() {
        Some((first, others)) => paint_first(work, cell, first, others, below, palette, tiles),
        None => paint_rows(work, cell.row + 1, below, palette, tiles),
    }
}

// Paints the columns of rows.
#[cycle(painting)]
fn paint_rows<P: TilePainter, T: Ledger>(
    work: &Work<P>,
    row: u32,
    rows: &mut [Row],
    palette: &mut Palette,
    tiles: &mut Steps<T>,
) -> Result<(), AllocError>
    requires rows { row + length rows.old ≤ 64 }
    requires wide { All (λ row. work.now.right ≤ length row) rows.old }
    ensures rows { BecameOrStayed result rows.old rows.new
        (rows_painted (P.painted work.now.painter.now) work.now.left work.now.right row rows.old) }
    ensures tiles_rise { tiles.old ≤ tiles.new }
    ensures few_tiles { tiles.new
        ≤ tiles.old + length rows.old * (work.now.right - work.now.left) }
{
    match rows.split_first_mut() {
        None => Ok(()),
        Some((first, below)) => paint_row(work, row, first, below, palette, tiles),
    }
}

// Paints the columns of a row, and of the rows below. A row that becomes of one colour shares its
// slots with the others that do.
#[cycle(painting)]
fn paint_row<P: TilePainter, T: Ledger>(
    work: &Work<P>,
    row: u32,
    first: &mut Row,
    below: &mut [Row],
    palette: &mut Palette,
    tiles: &mut Steps<T>,
) -> Result<(), AllocError>
    requires rows { row + length below.old < 64 }
    requires first { work.now.right ≤ length first.old }
    requires wide { All (λ row. work.now.right ≤ length row) below.old }
    ensures first { BecameOrStayed result first.old first.new
        (row_painted (P.painted work.now.painter.now) work.now.left work.now.right row first.old) }
    ensures below { BecameOrStayed result below.old below.new
        (rows_painted (P.painted work.now.painter.now) work.now.left work.now.right (row + 1)
        below.old) }
    ensures tiles_rise { tiles.old ≤ tiles.new }
    ensures few_tiles { tiles.new
        ≤ tiles.old + (length below.old + 1) * (work.now.right - work.now.left) }
{
    match color_after(work, row, first) {
        Some(p) => replace_row(work, row, p, first, below, palette, tiles),
        None => paint_slots(work, row, first, below, palette, tiles),
    }
}

// Puts a row of one colour in the place of a row, and paints the columns of the rows below.
#[cycle(painting)]
fn replace_row<P: TilePainter, T: Ledger>(
    work: &Work<P>,
    row: u32,
    p: Pixel,
    first: &mut Row,
    below: &mut [Row],
    palette: &mut Palette,
    tiles: &mut Steps<T>,
) -> Result<(), AllocError>
    requires rows { row + length below.old < 64 }
    requires some_tile { work.now.left < work.now.right }
    requires wide { All (λ row. work.now.right ≤ length row) below.old }
    ensures first { BecameOrStayed result first.old first.new
        (replicate work.now.right (tile_of p)) }
    ensures below { BecameOrStayed result below.old below.new
        (rows_painted (P.painted work.now.painter.now) work.now.left work.now.right (row + 1)
        below.old) }
    ensures tiles_rise { tiles.old ≤ tiles.new }
    ensures few_tiles { tiles.new
        ≤ tiles.old + (length below.old + 1) * (work.now.right - work.now.left) }
{
    let plain = palette.row(p, work.right as usize, tiles)?;
    let done = paint_rows(work, row + 1, below, palette, tiles);
    put_if_ok(&done, first, plain);
    done
}

// Makes the slots of a row its own, and paints its columns and those of the rows below.
#[cycle(painting)]
fn paint_slots<P: TilePainter, T: Ledger>(
    work: &Work<P>,
    row: u32,
    first: &mut Row,
    below: &mut [Row],
    palette: &mut Palette,
    tiles: &mut Steps<T>,
) -> Result<(), AllocError>
    requires rows { row + length below.old < 64 }
    requires first { work.now.right ≤ length first.old }
    requires wide { All (λ row. work.now.right ≤ length row) below.old }
    ensures first { BecameOrStayed result first.old first.new
        (row_painted (P.painted work.now.painter.now) work.now.left work.now.right row first.old) }
    ensures below { BecameOrStayed result below.old below.new
        (rows_painted (P.painted work.now.painter.now) work.now.left work.now.right (row + 1)
        below.old) }
    ensures tiles_rise { tiles.old ≤ tiles.new }
    ensures few_tiles { tiles.new
        ≤ tiles.old + (length below.old + 1) * (work.now.right - work.now.left) }
{
    own(work.alloc, &mut first.slots)?;
    match Arc::get_mut(&mut first.slots) {
        None => return Err(AllocError),
        Some(sole) => paint_columns(work, row, sole.as_mut_slice(), below, palette, tiles),
    }
}

// Paints the columns of the slots of a row, and of the rows below.
#[cycle(painting)]
fn paint_columns<P: TilePainter, T: Ledger>(
    work: &Work<P>,
    row: u32,
    slots: &mut [Slot],
    below: &mut [Row],
    palette: &mut Palette,
    tiles: &mut Steps<T>,
) -> Result<(), AllocError>
    requires rows { row + length below.old < 64 }
    requires slots { work.now.right ≤ length slots.old }
    requires wide { All (λ row. work.now.right ≤ length row) below.old }
    ensures slots { BecameOrStayed result slots.old slots.new
        (row_painted (P.painted work.now.painter.now) work.now.left work.now.right row slots.old) }
    ensures below { BecameOrStayed result below.old below.new
        (rows_painted (P.painted work.now.painter.now) work.now.left work.now.right (row + 1)
        below.old) }
    ensures tiles_rise { tiles.old ≤ tiles.new }
    ensures few_tiles { tiles.new
        ≤ tiles.old + (length below.old + 1) * (work.now.right - work.now.left) }
{
    let (left, right) = (work.left as usize, work.right as usize);
    let cell = Cell {
        col: work.left,
        row,
    };
    paint_cells(work, cell, &mut slots[left..right], below, palette, tiles)
}

// Paints a slot, those on its right, and the columns of the rows below.
#[cycle(painting)]
fn paint_first<P: TilePainter, T: Ledger>(
    work: &Work<P>,
    cell: Cell,
    first: &mut Slot,
    others: &mut [Slot],
    below: &mut [Row],
    palette: &mut Palette,
    tiles: &mut Steps<T>,
) -> Result<(), AllocError>
    requires cols { cell.col + length others.old < 64 }
    requires rows { cell.row + length below.old < 64 }
    requires wide { All (λ row. work.now.right ≤ length row) below.old }
    ensures first { BecameOrStayed result first.old first.new
        (P.painted work.now.painter.now cell.col cell.row first.old) }
    ensures others { BecameOrStayed result others.old others.new
        (cells_painted (P.painted work.now.painter.now) (cell.col + 1) cell.row others.old) }
    ensures below { BecameOrStayed result below.old below.new
        (rows_painted (P.painted work.now.painter.now) work.now.left work.now.right (cell.row + 1)
        below.old) }
    ensures tiles_rise { tiles.old ≤ tiles.new }
    ensures few_tiles { tiles.new ≤ tiles.old + 1 + length others.old
        + length below.old * (work.now.right - work.now.left) }
{
    first.known();
    let next = Cell {
        col: cell.col + 1,
        row: cell.row,
    };
    match work.painter.change(cell.col, cell.row, first.color()) {
        TileChange::Stays => paint_cells(work, next, others, below, palette, tiles),
        TileChange::Becomes(p) => {
            let slot = palette.slot(p, tiles)?;
            let done = paint_cells(work, next, others, below, palette, tiles);
            put_if_ok(&done, first, slot);
            done
        }
        TileChange::Unknown if others.is_empty() && below.is_empty() => {
            first.paint_pixels(cell.col, cell.row, work.painter, palette, tiles)
        }
        TileChange::Unknown => {
            if first.is_sole() {
                return paint_owned(work, cell, first, others, below, palette, tiles);
            }
            let slot = first.painted(cell.col, cell.row, work.painter, palette, tiles)?;
            let done = paint_cells(work, next, others, below, palette, tiles);
            put_if_ok(&done, first, slot);
            done
        }
    }
}

// Paints a slot whose tile is this grid's alone, those on its right, and the columns of the rows
// below.
#[cycle(painting)]
fn paint_owned<P: TilePainter, T: Ledger>(
    work: &Work<P>,
    cell: Cell,
    first: &mut Slot,
    others: &mut [Slot],
    below: &mut [Row],
    palette: &mut Palette,
    tiles: &mut Steps<T>,
) -> Result<(), AllocError>
    requires cols { cell.col + length others.old < 64 }
    requires rows { cell.row + length below.old < 64 }
    requires wide { All (λ row. work.now.right ≤ length row) below.old }
    ensures first { BecameOrStayed result first.old first.new
        (P.painted work.now.painter.now cell.col cell.row first.old) }
    ensures others { BecameOrStayed result others.old others.new
        (cells_painted (P.painted work.now.painter.now) (cell.col + 1) cell.row others.old) }
    ensures below { BecameOrStayed result below.old below.new
        (rows_painted (P.painted work.now.painter.now) work.now.left work.now.right (cell.row + 1)
        below.old) }
    ensures tiles_rise { tiles.old ≤ tiles.new }
    ensures few_tiles { tiles.new ≤ tiles.old + length others.old
        + length below.old * (work.now.right - work.now.left) }
{
    match &mut first.tile {
        None => return Err(AllocError),
        Some(tile) => paint_held(work, cell, tile, others, below, palette, tiles),
    }
}

// Paints a tile that no one else has, the slots on its right, and the columns of the rows below.
// The tile is painted last, when nothing can fail any more.
#[cycle(painting)]
fn paint_held<P: TilePainter, T: Ledger>(
    work: &Work<P>,
    cell: Cell,
    tile: &mut Arc<Tile>,
    others: &mut [Slot],
    below: &mut [Row],
    palette: &mut Palette,
    tiles: &mut Steps<T>,
) -> Result<(), AllocError>
    requires cols { cell.col + length others.old < 64 }
    requires rows { cell.row + length below.old < 64 }
    requires wide { All (λ row. work.now.right ≤ length row) below.old }
    ensures tile { BecameOrStayed result tile.old.value tile.new.value
        (P.painted work.now.painter.now cell.col cell.row tile.old.value) }
    ensures others { BecameOrStayed result others.old others.new
        (cells_painted (P.painted work.now.painter.now) (cell.col + 1) cell.row others.old) }
    ensures below { BecameOrStayed result below.old below.new
        (rows_painted (P.painted work.now.painter.now) work.now.left work.now.right (cell.row + 1)
        below.old) }
    ensures tiles_rise { tiles.old ≤ tiles.new }
    ensures few_tiles { tiles.new ≤ tiles.old + length others.old
        + length below.old * (work.now.right - work.now.left) }
{
    match Arc::get_mut(tile) {
        None => Err(AllocError),
        Some(sole) => {
            let next = Cell {
                col: cell.col + 1,
                row: cell.row,
            };
            paint_cells(work, next, others, below, palette, tiles)?;
            sole.paint(cell.col, cell.row, work.painter);
            Ok(())
        }
    }
}
