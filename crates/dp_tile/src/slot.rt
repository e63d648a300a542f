//! The place of one tile, which slots of several grids may have in common.

ghost use Rattle.std.specs.Prelude.{◌≡◌, ◌+◌, ◌<◌, ◌≤◌, length, IfOk, IfSome, IfNone, OnOk, OnErr};
ghost use Rattle.std.specs.Vec.{vec_capacity};
ghost use Rattle.dp_blend.specs.Color.{clear};
ghost use Rattle.dp_blend.specs.Canvas.{part_of_row, pixel_at};
ghost use Rattle.dp_blend.specs.Stretches.{IsStretch};
ghost use Rattle.dp_tile.specs.Tiles.{IsOfColor, tile_of, tiles_for};

use crate::painter::{TileChange, TilePainter};
use crate::palette::Palette;
use crate::tile::{Tile, color_of, solid_pixels};
use dp_blend::{Pixel, Stretch};
use dp_shared::Shareable;
use dp_steps::Steps;
use std::alloc::{AllocError, Global};
use std::marker::Model;
use std::sync::Arc;
use std::sync::ledger::Ledger;

/// A tile, or none if all its pixels are clear. It is seen as the tile's pixels.
pub(crate) struct Slot {
    pub tile: Option<Arc<Tile>>,
}

// It is written out, so that it is only called where a slot is let go. A derived one would be
// a part of each such function, and proved there.
impl Drop for Slot {
    fn drop(self) {
        let Slot { tile: _ } = self;
    }
}

impl Model for Slot {
    ghost use Rattle.std.specs.Prelude.{List};
    ghost use Rattle.std.specs.Option.{option_map_or};
    ghost use Rattle.dp_blend.specs.Color.{Channels, clear};
    ghost use Rattle.dp_tile.specs.Tiles.{tile_of};

    ghost Value = { List Channels };

    ghost view = { λ s. option_map_or (λ t. t.value) s.tile (tile_of clear) };
}

impl Shareable for Slot {
    fn share(&self) -> Result<Slot, AllocError> {
        match &self.tile {
            None => Ok(Slot { tile: None }),
            Some(tile) => {
                let tile = tile.clone()?;
                Ok(Slot { tile: Some(tile) })
            }
        }
    }
}

impl Slot {
    // A slot without a tile.
    pub(crate) fn clear() -> Slot
        ensures { result ≡ tile_of clear }
    {
        Slot { tile: None }
    }

    // A slot that has the tile.
    pub(crate) fn of(alloc: Global, tile: Tile) -> Result<Slot, AllocError>
        ensures { IfOk result (λ slot. slot ≡ tile) }
    {
        tile.known();
        let tile = Arc::new(alloc, tile)?;
        Ok(Slot { tile: Some(tile) })
    }

    // A slot has 4096 pixels.
    pub(crate) fn known(&self)
        ensures { length self.now ≡ 4096 }
    {
        match &self.tile {
            None => {}
            Some(tile) => tile.known(),
        }
    }

    // The colour of all its pixels, if that is known.
    pub(crate) fn color(&self) -> Option<Pixel>
        ensures { IsOfColor result self.now }
    {
        match &self.tile {
            None => Some(Pixel::CLEAR),
            Some(tile) => tile.color(),
        }
    }

    // The pixel at a place.
    pub(crate) fn get(&self, x: usize, y: usize) -> Pixel
        requires x { x < 64 }
        requires y { y < 64 }
        ensures { result ≡ pixel_at 64 self.now x y }
    {
        match &self.tile {
            None => Pixel::CLEAR,
            Some(tile) => tile.get(x, y),
        }
    }

    // A part of the row y: `count` pixels from x on.
    pub(crate) fn stretch(&self, x: usize, y: usize, count: usize) -> Stretch<'_>
        requires within { x + count ≤ 64 }
        requires y { y < 64 }
        ensures { IsStretch result (part_of_row 64 self.now x y count) }
    {
        match &self.tile {
            None => Stretch::Solid(Pixel::CLEAR),
            Some(tile) => tile.stretch(x, y, count),
        }
    }

    // Its colour, if that is known; else its pixels are copied.
    pub(crate) fn read(&self, pixels: &mut [Pixel]) -> Option<Pixel>
        requires count { length pixels.old ≡ 4096 }
        ensures color { IfSome result (λ p. self.now ≡ tile_of p) }
        ensures pixels { IfNone result (pixels.new ≡ self.now) }
    {
        match &self.tile {
            None => Some(Pixel::CLEAR),
            Some(tile) => tile.read(pixels),
        }
    }

    // The tile, if there is one.
    pub(crate) fn tile(&self) -> Option<&Tile>
        ensures pixels { IfSome result (λ tile. tile.now ≡ self.now) }
        ensures none { IfNone result (self.now ≡ tile_of clear) }
    {
        match &self.tile {
            None => None,
            Some(tile) => Some(tile),
        }
    }

    // Whether no other slot has its tile.
    pub(crate) fn is_sole(&mut self) -> bool
        ensures { self.new ≡ self.old }
    {
        match &mut self.tile {
            None => false,
            Some(tile) => match Arc::get_mut(tile) {
                Some(_sole) => true,
                None => false,
            },
        }
    }

    // A list of its pixels.
    fn pixels(&self, alloc: Global) -> Result<Vec<Pixel>, AllocError>
        ensures same { IfOk result (λ pixels. pixels.items ≡ self.now) }
        ensures room { IfOk result (λ pixels. 4096 ≤ vec_capacity pixels) }
    {
        match &self.tile {
            None => solid_pixels(alloc, Pixel::CLEAR),
            Some(tile) => tile.pixels(alloc),
        }
    }

    // What the slot is after it is painted. Its pixels are painted beside it, and a tile is made of
    // them if they aren't of one colour.
    #[inline(never)]
    pub(crate) fn painted<P: TilePainter, T: Ledger>(
        &self,
        col: u32,
        row: u32,
        painter: &P,
        palette: &mut Palette,
        tiles: &mut Steps<T>,
    ) -> Result<Slot, AllocError>
        requires col { col < 64 }
        requires row { row < 64 }
        ensures painted { IfOk result (λ slot. slot ≡ P.painted painter.now col row self.now) }
        ensures count { OnOk result (length (P.painted painter.now col row self.now) ≡ 4096) }
        ensures tiles_rise { tiles.old ≤ tiles.new }
        ensures one_tile { tiles.new ≤ tiles.old + 1 }
        ensures few_shown { OnOk result
            (tiles.new ≤ tiles.old + tiles_for (P.painted painter.now col row self.now)) }
    {
        self.known();
        let mut pixels = self.pixels(palette.alloc())?;
        painter.paint(col, row, &mut pixels);
        slot_of(pixels, palette, tiles)
    }

    // Paints its tile, of a column and a row, which no other slot has.
    fn paint_sole<P: TilePainter>(
        &mut self,
        col: u32,
        row: u32,
        painter: &P,
    ) -> Result<(), AllocError>
        requires col { col < 64 }
        requires row { row < 64 }
        ensures painted { OnOk result (self.new ≡ P.painted painter.now col row self.old) }
        ensures count { OnOk result (length (P.painted painter.now col row self.old) ≡ 4096) }
        ensures err { OnErr result (self.new ≡ self.old) }
    {
        match &mut self.tile {
            None => Err(AllocError),
            Some(tile) => paint_tile(tile, col, row, painter),
        }
    }

    // Paints the pixels, of the tile at a column and a row: on the tile itself if it is this slot's
    // alone, and else beside it.
    #[inline(never)]
    pub(crate) fn paint_pixels<P: TilePainter, T: Ledger>(
        &mut self,
        col: u32,
        row: u32,
        painter: &P,
        palette: &mut Palette,
        tiles: &mut Steps<T>,
    ) -> Result<(), AllocError>
        requires col { col < 64 }
        requires row { row < 64 }
        ensures painted { OnOk result (self.new ≡ P.painted painter.now col row self.old) }
        ensures count { OnOk result (length (P.painted painter.now col row self.old) ≡ 4096) }
        ensures err { OnErr result (self.new ≡ self.old) }
        ensures tiles_rise { tiles.old ≤ tiles.new }
        ensures one_tile { tiles.new ≤ tiles.old + 1 }
        ensures few_shown { OnOk result
            (tiles.new ≤ tiles.old + tiles_for (P.painted painter.now col row self.old)) }
    {
        if self.is_sole() {
            return self.paint_sole(col, row, painter);
        }
        *self = self.painted(col, row, painter, palette, tiles)?;
        Ok(())
    }

    // Paints the tile, of a column and a row.
    pub(crate) fn paint<P: TilePainter, T: Ledger>(
        &mut self,
        col: u32,
        row: u32,
        painter: &P,
        palette: &mut Palette,
        tiles: &mut Steps<T>,
    ) -> Result<(), AllocError>
        requires col { col < 64 }
        requires row { row < 64 }
        ensures painted { OnOk result (self.new ≡ P.painted painter.now col row self.old) }
        ensures count { OnOk result (length (P.painted painter.now col row self.old) ≡ 4096) }
        ensures err { OnErr result (self.new ≡ self.old) }
        ensures tiles_rise { tiles.old ≤ tiles.new }
        ensures one_tile { tiles.new ≤ tiles.old + 1 }
        ensures few_shown { OnOk result
            (tiles.new ≤ tiles.old + tiles_for (P.painted painter.now col row self.old)) }
    {
        self.known();
        match painter.change(col, row, self.color()) {
            TileChange::Stays => Ok(()),
            TileChange::Becomes(p) => {
                *self = palette.slot(p, tiles)?;
                self.known();
                Ok(())
            }
            TileChange::Unknown => self.paint_pixels(col, row, painter, palette, tiles),
        }
    }
}

// A slot that shows the pixels. A tile is made of them if they aren't of one colour.
fn slot_of<T: Ledger>(
    pixels: Vec<Pixel>,
    palette: &mut Palette,
    tiles: &mut Steps<T>,
) -> Result<Slot, AllocError>
    requires count { length pixels.items ≡ 4096 }
    requires room { 4096 ≤ vec_capacity pixels }
    ensures same { IfOk result (λ slot. slot ≡ pixels.items) }
    ensures tiles_rise { tiles.old ≤ tiles.new }
    ensures one_tile { tiles.new ≤ tiles.old + 1 }
    ensures few_shown { OnOk result (tiles.new ≤ tiles.old + tiles_for pixels.items) }
{
    match color_of(&pixels) {
        Some(p) => palette.slot(p, tiles),
        None => Slot::of(palette.alloc(), Tile::of(pixels, tiles)),
    }
}

// Paints a tile that no one else has. It takes no memory.
fn paint_tile<P: TilePainter>(
    tile: &mut Arc<Tile>,
    col: u32,
    row: u32,
    painter: &P,
) -> Result<(), AllocError>
    requires col { col < 64 }
    requires row { row < 64 }
    ensures painted { OnOk result (tile.new.value ≡ P.painted painter.now col row tile.old.value) }
    ensures count { OnOk result (length tile.new.value ≡ 4096) }
    ensures err { OnErr result (tile.new.value ≡ tile.old.value) }
{
    match Arc::get_mut(tile) {
        None => Err(AllocError),
        Some(sole) => {
            sole.paint(col, row, painter);
            Ok(())
        }
    }
}
