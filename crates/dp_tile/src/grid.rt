//! Tiles in columns and rows.

ghost use Rattle.std.specs.Prelude.{◌≡◌, ℕ, ◌+◌, ◌-◌, ◌*◌, ◌%◌, ◌<◌, ◌≤◌, List, length};
ghost use Rattle.dp_blend.specs.Color.{Channels};
ghost use Rattle.std.specs.Prelude.{IfOk, IfSome, IfNone, OnOk, OnErr};
ghost use Rattle.dp_blend.specs.Color.{clear};
ghost use Rattle.dp_tile.specs.Tiles.{IsGrid, IsOfColor, cell_at, clear_grid, grid_pixel};
ghost use Rattle.dp_tile.specs.Tiles.{tile_of, tiles_for, with_cell};
ghost use Rattle.dp_blend.specs.Stretches.{IsStretch};
ghost use Rattle.dp_tile.specs.Tiles.{part_of_grid};
ghost use Rattle.dp_tile.specs.Areas.{IsPaintedOn, IsRowPainted, shown_in, shown_in_row};

use crate::area::CellArea;
use crate::cells::Cells;
use crate::painter::TilePainter;
use crate::palette::Palette;
use crate::slot::Slot;
use crate::tile::{SIDE, Tile};
use dp_blend::{Pixel, Stretch};
use dp_steps::Steps;
use std::alloc::{AllocError, Global};
use std::marker::Model;
use std::sync::ledger::Ledger;

/// Tiles in at most 64 columns and 64 rows. Grids that were shared have their tiles in common, each
/// until one of them is written to. A grid is seen as its sides and the pixels of its cells.
pub struct Grid {
    cols: u32,
    rows: u32,
    cells: Cells,
    alloc: Global,
    palette: Palette,
}

// It is written out, so that it is only called where a grid is let go. A derived one would be
// a part of each such function, and proved there.
impl Drop for Grid {
    fn drop(self) {
        let Grid {
            cols: _,
            rows: _,
            cells: _,
            alloc: _,
            palette: _,
        } = self;
    }
}

impl Model for Grid {
    ghost use Rattle.dp_tile.specs.Tiles.{TileGrid, IsCellRows, grid_of_rows};

    ghost Value = { TileGrid };

    ghost view = { λ g. grid_of_rows g.cols g.rows g.cells };

    ghost invariant = { λ g. IsCellRows g.cols g.rows g.cells };
}

// Puts the pixels of a part of a row.
fn put_stretch(stretch: Stretch, part: &mut [Pixel])
    requires { (pixels : List Channels) × IsStretch stretch pixels
        × (length pixels ≡ length part.old) }
    ensures { (pixels : List Channels) → IsStretch stretch.entry pixels
        → length pixels ≡ length part.old → part.new ≡ pixels }
{
    match stretch {
        Stretch::Solid(p) => part.fill(p),
        Stretch::Pixels(pixels) => part.copy_from_slice(pixels),
    }
}

impl Grid {
    /// A grid that shows nothing. It makes no tile.
    pub fn new(alloc: Global, cols: u32, rows: u32) -> Result<Grid, AllocError>
        requires cols { cols ≤ 64 }
        requires rows { rows ≤ 64 }
        ensures { IfOk result (λ grid. grid ≡ clear_grid cols rows) }
    {
        let cells = Cells::clear(alloc, cols as usize, rows as usize)?;
        Ok(Grid {
            cols,
            rows,
            cells,
            alloc,
            palette: Palette::new(alloc),
        })
    }

    /// A second grid of the same tiles. It makes no tile, and costs the same whatever their number.
    pub fn share(&self) -> Result<Grid, AllocError>
        ensures { IfOk result (λ grid. grid ≡ self.now) }
    {
        let cells = self.cells.share()?;
        Ok(Grid {
            cols: self.cols,
            rows: self.rows,
            cells,
            alloc: self.alloc,
            palette: Palette::new(self.alloc),
        })
    }

    /// The value is a grid.
    pub fn known(&self)
        ensures { IsGrid self.now }
    {
        let _ = &self.cells;
    }

    /// How many columns it has.
    pub fn cols(&self) -> u32
        ensures { result ≡ self.now.cols }
    {
        self.cols
    }

    /// How many rows it has.
    pub fn rows(&self) -> u32
        ensures { result ≡ self.now.rows }
    {
        self.rows
    }

    /// The memory that its tiles are made in.
    pub fn alloc(&self) -> Global {
        self.alloc
    }

    /// The pixel at a place.
    pub fn get(&self, x: u32, y: u32) -> Pixel
        requires x { x < self.now.cols * 64 }
        requires y { y < self.now.rows * 64 }
        ensures { result ≡ grid_pixel self.now x y }
    {
        let (x, y) = (x as usize, y as usize);
        let slot = self.cells.at(x / SIDE, y / SIDE);
        slot.get(x % SIDE, y % SIDE)
    }

    // A part of the row y, within the 64 columns of a tile: `count` pixels from x on.
    fn stretch(&self, x: u32, y: u32, count: u32) -> Stretch<'_>
        requires one_tile { x % 64 + count ≤ 64 }
        requires x { x < self.now.cols * 64 }
        requires y { y < self.now.rows * 64 }
        ensures { IsStretch result (part_of_grid self.now x y count) }
    {
        let (x, y) = (x as usize, y as usize);
        let slot = self.cells.at(x / SIDE, y / SIDE);
        slot.stretch(x % SIDE, y % SIDE, count as usize)
    }

    /// Copies a part of the row y, from x on.
    pub fn copy_part(&self, x: u32, y: u32, part: &mut [Pixel])
        requires within { x + length part.old ≤ self.now.cols * 64 }
        requires y { y < self.now.rows * 64 }
        ensures { part.new ≡ part_of_grid self.now x y (length part.old) }
    {
        self.known();
        let mut done = 0;
        while done < part.len() {
            let at = x + done as u32;
            let count = (SIDE - at as usize % SIDE).min(part.len() - done);
            let stretch = self.stretch(at, y, count as u32);
            put_stretch(stretch, &mut part[done..done + count]);
            done += count;
        }
    }

    /// The colour of all pixels of the tile at a column and a row, if that is known.
    pub fn tile_color(&self, col: u32, row: u32) -> Option<Pixel>
        requires col { col < self.now.cols }
        requires row { row < self.now.rows }
        ensures { IsOfColor result (cell_at self.now col row) }
    {
        let slot = self.cells.at(col as usize, row as usize);
        slot.color()
    }

    /// Reads the tile at a column and a row: gives its colour if it is known to be of one, and
    /// else copies its pixels.
    pub fn read_tile(&self, col: u32, row: u32, pixels: &mut [Pixel]) -> Option<Pixel>
        requires col { col < self.now.cols }
        requires row { row < self.now.rows }
        requires count { length pixels.old ≡ 4096 }
        ensures color { IfSome result (λ p. cell_at self.now col row ≡ tile_of p) }
        ensures pixels { IfNone result (pixels.new ≡ cell_at self.now col row) }
    {
        let slot = self.cells.at(col as usize, row as usize);
        slot.read(pixels)
    }

    /// The tile at a column and a row. `None` comes only if it shows nothing.
    pub fn tile(&self, col: u32, row: u32) -> Option<&Tile>
        requires col { col < self.now.cols }
        requires row { row < self.now.rows }
        ensures pixels { IfSome result (λ tile. tile.now ≡ cell_at self.now col row) }
        ensures none { IfNone result (cell_at self.now col row ≡ tile_of clear) }
    {
        let slot = self.cells.at(col as usize, row as usize);
        slot.tile()
    }

    /// Puts a tile at a column and a row. Other grids that shared the old one keep it.
    ///
    /// # Errors
    ///
    /// The grid is as it was.
    pub fn write(&mut self, col: u32, row: u32, tile: Tile) -> Result<(), AllocError>
        requires col { col < self.old.cols }
        requires row { row < self.old.rows }
        ensures written { OnOk result (self.new ≡ with_cell self.old col row tile) }
        ensures err { OnErr result (self.new ≡ self.old) }
    {
        tile.known();
        let slot = Slot::of(self.alloc, tile)?;
        let (col, row) = (col as usize, row as usize);
        self.cells.put(self.alloc, col, row, slot)
    }

    /// Paints the tile at a column and a row. Other grids that shared it keep the old one. A tile
    /// is made only if it isn't of one colour, or if its colour is none of the last ones.
    ///
    /// # Errors
    ///
    /// The grid is as it was, and a tile that was made is counted.
    pub fn paint<P: TilePainter, T: Ledger>(
        &mut self,
        col: u32,
        row: u32,
        painter: &P,
        tiles: &mut Steps<T>,
    ) -> Result<(), AllocError>
        requires col { col < self.old.cols }
        requires row { row < self.old.rows }
        ensures painted { OnOk result (self.new ≡ with_cell self.old col row
            (P.painted painter.now col row (cell_at self.old col row))) }
        ensures err { OnErr result (self.new ≡ self.old) }
        ensures tiles_rise { tiles.old ≤ tiles.new }
        ensures one_tile { tiles.new ≤ tiles.old + 1 }
        ensures few_shown { OnOk result
            (tiles.new ≤ tiles.old + tiles_for (cell_at self.new col row)) }
    {
        self.cells
            .paint(self.alloc, col, row, painter, &mut self.palette, tiles)
    }

    /// Paints the tiles of an area. Other grids that shared them keep the old ones. Tiles that are
    /// this grid's alone are painted in place, when nothing can fail any more. Cells that become of
    /// one colour have one tile in common. Its depth on the stack is the number of
    /// cells.
    ///
    /// # Errors
    ///
    /// The grid is as it was, and tiles that were made are counted.
    pub fn paint_area<P: TilePainter, T: Ledger>(
        &mut self,
        area: CellArea,
        painter: &P,
        tiles: &mut Steps<T>,
    ) -> Result<(), AllocError>
        requires across { area.left ≤ area.right }
        requires down { area.top ≤ area.bottom }
        requires cols { area.right ≤ self.old.cols }
        requires rows { area.bottom ≤ self.old.rows }
        ensures painted { OnOk result
            (IsPaintedOn area (P.painted painter.now) self.old self.new) }
        ensures err { OnErr result (self.new ≡ self.old) }
        ensures tiles_rise { tiles.old ≤ tiles.new }
        ensures few_tiles { tiles.new
            ≤ tiles.old + (area.bottom - area.top) * (area.right - area.left) }
    {
        self.cells
            .paint_area(self.alloc, area, painter, &mut self.palette, tiles)
    }

    // Paints the tiles of a row, from the column `left` on before `right`.
    fn paint_row<P: TilePainter, T: Ledger>(
        &mut self,
        row: u32,
        left: u32,
        right: u32,
        painter: &P,
        tiles: &mut Steps<T>,
    ) -> Result<(), AllocError>
        requires order { left ≤ right }
        requires cols { right ≤ self.old.cols }
        requires row { row < self.old.rows }
        ensures painted { OnOk result
            (IsRowPainted (P.painted painter.now) row left right self.old self.new) }
        ensures tiles_rise { tiles.old ≤ tiles.new }
        ensures few_tiles { tiles.new ≤ tiles.old + (right - left) }
        ensures few_shown { OnOk result
            (tiles.new ≤ tiles.old + shown_in_row left right row self.new) }
    {
        for col in left..right {
            self.known();
            self.paint(col, row, painter, tiles)?;
        }
        Ok(())
    }

    /// Paints the tiles of an area one after the other. Other grids that shared them keep the old
    /// ones. It makes no tile for a cell that shows nothing.
    ///
    /// # Errors
    ///
    /// Some of them are painted, and tiles that were made are counted.
    pub fn paint_each<P: TilePainter, T: Ledger>(
        &mut self,
        area: CellArea,
        painter: &P,
        tiles: &mut Steps<T>,
    ) -> Result<(), AllocError>
        requires across { area.left ≤ area.right }
        requires down { area.top ≤ area.bottom }
        requires cols { area.right ≤ self.old.cols }
        requires rows { area.bottom ≤ self.old.rows }
        ensures painted { OnOk result
            (IsPaintedOn area (P.painted painter.now) self.old self.new) }
        ensures tiles_rise { tiles.old ≤ tiles.new }
        ensures few_tiles { tiles.new
            ≤ tiles.old + (area.bottom - area.top) * (area.right - area.left) }
        ensures few_shown { OnOk result (tiles.new ≤ tiles.old + shown_in area self.new) }
    {
        for row in area.top..area.bottom {
            self.paint_row(row, area.left, area.right, painter, tiles)?;
        }
        Ok(())
    }
}
