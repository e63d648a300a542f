//! The rows of a grid, which grids share until one of them is written to.

ghost use Rattle.std.specs.Prelude.{◌≡◌, [], ◌+◌, ◌-◌, ◌*◌, ◌<◌, ◌≤◌, length, replicate, All};
ghost use Rattle.std.specs.Prelude.{slice_index_or, slice_set, IfOk, OnOk, OnErr};
ghost use Rattle.dp_blend.specs.Color.{clear};
ghost use Rattle.dp_tile.specs.Tiles.{tile_of, tiles_for, with_cell_in_rows};
ghost use Rattle.dp_tile.specs.Areas.{area_painted};

use crate::area::{CellArea, paint_area};
use crate::painter::TilePainter;
use crate::palette::Palette;
use crate::row::Row;
use crate::slot::Slot;
use dp_shared::{own, repeated};
use dp_steps::Steps;
use std::alloc::{AllocError, Global};
use std::marker::Model;
use std::sync::Arc;
use std::sync::ledger::Ledger;

/// Rows of slots. It is seen as the list of the rows, each the list of its slots' pixels.
#[derive(Drop)]
pub(crate) struct Cells {
    rows: Arc<Vec<Row>>,
}

impl Model for Cells {
    ghost use Rattle.std.specs.Prelude.{List};
    ghost use Rattle.dp_blend.specs.Color.{Channels};

    ghost Value = { List (List (List Channels)) };

    ghost view = { λ c. c.rows.value.items };
}

impl Cells {
    // `rows` rows of `cols` slots without tiles.
    pub(crate) fn clear(alloc: Global, cols: usize, rows: usize) -> Result<Cells, AllocError>
        ensures { IfOk result (λ cells. cells ≡ replicate rows (replicate cols (tile_of clear))) }
    {
        let rows = Arc::new(alloc, clear_rows(alloc, cols, rows)?)?;
        Ok(Cells { rows })
    }

    // Another handle on the rows. It costs the same whatever their number.
    pub(crate) fn share(&self) -> Result<Cells, AllocError>
        ensures { IfOk result (λ cells. cells ≡ self.now) }
    {
        let rows = self.rows.clone()?;
        Ok(Cells { rows })
    }

    // The slot at a column and a row.
    pub(crate) fn at(&self, col: usize, row: usize) -> &Slot
        requires row { row < length self.now }
        requires col { col < length (slice_index_or self.now row []) }
        ensures { result.now
            ≡ slice_index_or (slice_index_or self.now row []) col (tile_of clear) }
    {
        let rows = self.rows.as_slice();
        rows[row].at(col)
    }

    // Paints the tile at a column and a row.
    pub(crate) fn paint<P: TilePainter, T: Ledger>(
        &mut self,
        alloc: Global,
        col: u32,
        row: u32,
        painter: &P,
        palette: &mut Palette,
        tiles: &mut Steps<T>,
    ) -> Result<(), AllocError>
        requires row { row < length self.old }
        requires col { col < length (slice_index_or self.old row []) }
        requires few_cols { col < 64 }
        requires few_rows { row < 64 }
        ensures painted { OnOk result (self.new ≡ with_cell_in_rows self.old col row
            (P.painted painter.now col row
            (slice_index_or (slice_index_or self.old row []) col (tile_of clear)))) }
        ensures count { OnOk result (length (P.painted painter.now col row
            (slice_index_or (slice_index_or self.old row []) col (tile_of clear))) ≡ 4096) }
        ensures err { OnErr result (self.new ≡ self.old) }
        ensures tiles_rise { tiles.old ≤ tiles.new }
        ensures one_tile { tiles.new ≤ tiles.old + 1 }
        ensures few_shown { OnOk result (tiles.new ≤ tiles.old + tiles_for
            (P.painted painter.now col row
            (slice_index_or (slice_index_or self.old row []) col (tile_of clear)))) }
    {
        own(alloc, &mut self.rows)?;
        match Arc::get_mut(&mut self.rows) {
            None => Err(AllocError),
            Some(sole) => sole[row as usize].paint(alloc, col, row, painter, palette, tiles),
        }
    }

    // Paints the tiles of an area.
    pub(crate) fn paint_area<P: TilePainter, T: Ledger>(
        &mut self,
        alloc: Global,
        area: CellArea,
        painter: &P,
        palette: &mut Palette,
        tiles: &mut Steps<T>,
    ) -> Result<(), AllocError>
        requires across { area.left ≤ area.right }
        requires down { area.top ≤ area.bottom }
        requires cols { area.right ≤ 64 }
        requires rows { area.bottom ≤ length self.old }
        requires few_rows { length self.old ≤ 64 }
        requires wide { All (λ row. area.right ≤ length row) self.old }
        ensures painted { OnOk result
            (self.new ≡ area_painted (P.painted painter.now) area self.old) }
        ensures err { OnErr result (self.new ≡ self.old) }
        ensures tiles_rise { tiles.old ≤ tiles.new }
        ensures few_tiles { tiles.new
            ≤ tiles.old + (area.bottom - area.top) * (area.right - area.left) }
    {
        own(alloc, &mut self.rows)?;
        match Arc::get_mut(&mut self.rows) {
            None => Err(AllocError),
            Some(sole) => paint_area(alloc, area, painter, sole.as_mut_slice(), palette, tiles),
        }
    }

    // Puts a slot at a column and a row.
    pub(crate) fn put(
        &mut self,
        alloc: Global,
        col: usize,
        row: usize,
        slot: Slot,
    ) -> Result<(), AllocError>
        requires row { row < length self.old }
        requires col { col < length (slice_index_or self.old row []) }
        ensures written { OnOk result (self.new ≡ with_cell_in_rows self.old col row slot) }
        ensures err { OnErr result (self.new ≡ self.old) }
    {
        own(alloc, &mut self.rows)?;
        match Arc::get_mut(&mut self.rows) {
            None => Err(AllocError),
            Some(sole) => sole[row].put(alloc, col, slot),
        }
    }
}

// `count` rows of `cols` slots without tiles. They have their slots in common.
fn clear_rows(alloc: Global, cols: usize, count: usize) -> Result<Vec<Row>, AllocError>
    ensures { IfOk result (λ rows.
        rows.items ≡ replicate count (replicate cols (tile_of clear))) }
{
    repeated(alloc, count, &Row::clear(alloc, cols)?)
}
