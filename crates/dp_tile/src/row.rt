//! A row of slots, which grids share until one of them is written to.

ghost use Rattle.std.specs.Prelude.{◌≡◌, ◌+◌, ◌<◌, ◌≤◌, length, replicate, All};
ghost use Rattle.std.specs.Prelude.{slice_index_or, slice_set, IfOk, IfSome, OnOk, OnErr};
ghost use Rattle.dp_blend.specs.Color.{clear};
ghost use Rattle.dp_tile.specs.Tiles.{tile_of, tiles_for};

use crate::painter::TilePainter;
use crate::palette::Palette;
use crate::slot::Slot;
use dp_blend::Pixel;
use dp_shared::{Shareable, own, repeated};
use dp_steps::Steps;
use std::alloc::{AllocError, Global};
use std::marker::Model;
use std::sync::Arc;
use std::sync::ledger::Ledger;

/// A row of slots. It is seen as the list of their pixels.
#[derive(Drop)]
pub(crate) struct Row {
    pub slots: Arc<Vec<Slot>>,
}

impl Model for Row {
    ghost use Rattle.std.specs.Prelude.{List};
    ghost use Rattle.dp_blend.specs.Color.{Channels};

    ghost Value = { List (List Channels) };

    ghost view = { λ r. r.slots.value.items };
}

impl Shareable for Row {
    fn share(&self) -> Result<Row, AllocError> {
        let slots = self.slots.clone()?;
        Ok(Row { slots })
    }
}

impl Row {
    // `count` slots without tiles.
    pub(crate) fn clear(alloc: Global, count: usize) -> Result<Row, AllocError>
        ensures { IfOk result (λ row. row ≡ replicate count (tile_of clear)) }
    {
        Row::solid(alloc, count, &Slot::clear())
    }

    // `count` slots that have the same tile.
    pub(crate) fn solid(alloc: Global, count: usize, slot: &Slot) -> Result<Row, AllocError>
        ensures { IfOk result (λ row. row ≡ replicate count slot.now) }
    {
        let slots = Arc::new(alloc, repeated(alloc, count, slot)?)?;
        Ok(Row { slots })
    }

    // How many slots it has.
    pub(crate) fn len(&self) -> usize
        ensures { result ≡ length self.now }
    {
        self.slots.len()
    }

    // The colour of all its pixels, if it has a slot and the colour of each is known.
    pub(crate) fn color(&self) -> Option<Pixel>
        ensures { IfSome result (λ p. self.now ≡ replicate (length self.now) (tile_of p)) }
    {
        let slots = self.slots.as_slice();
        let color = slots.first()?.color()?;
        for slot in slots {
            if slot.color() != Some(color) {
                return None;
            }
        }
        Some(color)
    }

    // The slot at a column.
    pub(crate) fn at(&self, col: usize) -> &Slot
        requires { col < length self.now }
        ensures { result.now ≡ slice_index_or self.now col (tile_of clear) }
    {
        let slots = self.slots.as_slice();
        &slots[col]
    }

    // Paints the tile at a column, on the row of this number.
    pub(crate) fn paint<P: TilePainter, T: Ledger>(
        &mut self,
        alloc: Global,
        col: u32,
        row: u32,
        painter: &P,
        palette: &mut Palette,
        tiles: &mut Steps<T>,
    ) -> Result<(), AllocError>
        requires inside { col < length self.old }
        requires col { col < 64 }
        requires row { row < 64 }
        ensures painted { OnOk result (self.new ≡ slice_set self.old col
            (P.painted painter.now col row (slice_index_or self.old col (tile_of clear)))) }
        ensures count { OnOk result (length (P.painted painter.now col row
            (slice_index_or self.old col (tile_of clear))) ≡ 4096) }
        ensures err { OnErr result (self.new ≡ self.old) }
        ensures tiles_rise { tiles.old ≤ tiles.new }
        ensures one_tile { tiles.new ≤ tiles.old + 1 }
        ensures few_shown { OnOk result (tiles.new ≤ tiles.old + tiles_for
            (P.painted painter.now col row (slice_index_or self.old col (tile_of clear)))) }
    {
        own(alloc, &mut self.slots)?;
        match Arc::get_mut(&mut self.slots) {
            None => Err(AllocError),
            Some(sole) => sole[col as usize].paint(col, row, painter, palette, tiles),
        }
    }

    // Puts a slot at a column.
    pub(crate) fn put(&mut self, alloc: Global, col: usize, slot: Slot) -> Result<(), AllocError>
        requires { col < length self.old }
        ensures written { OnOk result (self.new ≡ slice_set self.old col slot) }
        ensures err { OnErr result (self.new ≡ self.old) }
    {
        own(alloc, &mut self.slots)?;
        match Arc::get_mut(&mut self.slots) {
            None => Err(AllocError),
            Some(sole) => {
                sole[col] = slot;
                Ok(())
            }
        }
    }
}
