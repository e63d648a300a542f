//! Tiles of one colour and rows of them, each made once.

ghost use Rattle.std.specs.Prelude.{◌≡◌, ◌+◌, ◌≤◌, [], replicate, IfOk, OnOk};
ghost use Rattle.dp_tile.specs.Tiles.{tile_of, tiles_for};

use crate::row::Row;
use crate::slot::Slot;
use crate::tile::Tile;
use dp_blend::Pixel;
use dp_shared::Shareable;
use dp_steps::Steps;
use std::alloc::{AllocError, Global};
use std::sync::ledger::Ledger;

// A slot that has a tile of one colour.
#[derive(Drop)]
struct PlainSlot {
    color: Pixel,
    slot: Slot,
    ghost plain: { slot ≡ tile_of color },
}

// A row of slots that have tiles of one colour.
#[derive(Drop)]
struct PlainRow {
    color: Pixel,
    count: usize,
    row: Row,
    ghost plain: { row ≡ replicate count (tile_of color) },
}

// How many slots are kept, and how many rows.
const KEPT: usize = 16;

/// Slots that have tiles of one colour, one for each colour that was asked for last, and rows of
/// them.
#[derive(Drop)]
pub(crate) struct Palette {
    slots: Vec<PlainSlot>,
    rows: Vec<PlainRow>,
    alloc: Global,
}

impl Palette {
    // Without a colour. It takes no memory.
    pub(crate) fn new(alloc: Global) -> Palette {
        Palette {
            slots: Vec::new(alloc),
            rows: Vec::new(alloc),
            alloc,
        }
    }

    // The memory that its tiles are made in.
    pub(crate) fn alloc(&self) -> Global {
        self.alloc
    }

    // A slot of this colour. A tile is made if no slot of the colour is kept, and none for the
    // clear colour.
    #[tactic(auto, using(crate::proofs::Shows::shows_color))]
    #[inline(never)]
    pub(crate) fn slot<T: Ledger>(
        &mut self,
        p: Pixel,
        tiles: &mut Steps<T>,
    ) -> Result<Slot, AllocError>
        ensures plain { IfOk result (λ slot. slot ≡ tile_of p) }
        ensures tiles_rise { tiles.old ≤ tiles.new }
        ensures one_tile { tiles.new ≤ tiles.old + 1 }
        ensures few_shown { OnOk result (tiles.new ≤ tiles.old + tiles_for (tile_of p)) }
    {
        if p == Pixel::CLEAR {
            return Ok(Slot::clear());
        }
        for plain in &self.slots {
            if plain.color == p {
                return plain.slot.share();
            }
        }
        let tile = Tile::solid(self.alloc, p, tiles)?;
        let slot = Slot::of(self.alloc, tile)?;
        self.keep_slot(p, slot)
    }

    // Keeps a slot of this colour, and gives one of the same tile.
    fn keep_slot(&mut self, p: Pixel, slot: Slot) -> Result<Slot, AllocError>
        requires { slot ≡ tile_of p }
        ensures { IfOk result (λ slot. slot ≡ tile_of p) }
    {
        let other = slot.share()?;
        if self.slots.len() >= KEPT {
            self.slots.clear();
        }
        self.slots.push(PlainSlot { color: p, slot })?;
        Ok(other)
    }

    // A row of slots of this colour, as many as asked for. It is made if none is kept.
    #[inline(never)]
    pub(crate) fn row<T: Ledger>(
        &mut self,
        p: Pixel,
        count: usize,
        tiles: &mut Steps<T>,
    ) -> Result<Row, AllocError>
        ensures plain { IfOk result (λ row. row ≡ replicate count (tile_of p)) }
        ensures tiles_rise { tiles.old ≤ tiles.new }
        ensures one_tile { tiles.new ≤ tiles.old + 1 }
    {
        for plain in &self.rows {
            if plain.color == p && plain.count == count {
                return plain.row.share();
            }
        }
        let slot = self.slot(p, tiles)?;
        let row = Row::solid(self.alloc, count, &slot)?;
        self.keep_row(p, count, row)
    }

    // Keeps a row of so many slots of this colour, and gives one of the same slots.
    fn keep_row(&mut self, p: Pixel, count: usize, row: Row) -> Result<Row, AllocError>
        requires { row ≡ replicate count (tile_of p) }
        ensures { IfOk result (λ row. row ≡ replicate count (tile_of p)) }
    {
        let other = row.share()?;
        if self.rows.len() >= KEPT {
            self.rows.clear();
        }
        self.rows.push(PlainRow {
            color: p,
            count,
            row,
        })?;
        Ok(other)
    }
}
