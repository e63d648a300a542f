//! The pixels of a layer, with operations that wait until its tiles are painted otherwise or read.

ghost use Rattle.std.specs.Prelude.{◌≡◌, ◌+◌, ◌*◌, ◌/◌, ◌<◌, ◌≤◌, [], ℕ, length, Some, true, pos};
ghost use Rattle.std.specs.Prelude.{◌∷◌, ◌++◌, IfOk, IfSome, OnOk, OnErr};
ghost use Rattle.dp_blend.specs.Color.{clear};
ghost use Rattle.dp_blend.specs.Canvas.{canvas_of, part_of_row, pixel_at};
ghost use Rattle.dp_pixels.specs.Commands.{pixels_after};
ghost use Rattle.dp_pixels.specs.Feet.{foot, is_in_foot, reach};
ghost use Rattle.dp_pixels.specs.Resizes.{pixels_resized};
ghost use Rattle.dp_pixels.specs.Tiles.{ShowsTile};
ghost use Rattle.dp_tile.specs.Areas.{is_in_cells};
ghost use Rattle.dp_tile.specs.Tiles.{grid_pixels};
ghost use Rattle.dp_shift.specs.Grids.{IsGridOf};
ghost use Rattle.dp_paint.specs.Painting.{ChangesPixels, IsPainting};
ghost use Rattle.dp_ops.specs.Ops.{MayWait};

use crate::feet::{cells_of, foot_cells};
use crate::in_place::{paint_in_place, paint_lists, settle};
use crate::waits::{colors_of, may_wait};
use crate::workers::settle_all;
use dp_blend::Pixel;
use dp_msg_draw::Draw;
use dp_ops::{Numbered, Sheet, TileLists, file, show_ops};
use dp_par::Workers;
use dp_pixels::{Resize, pixels_stay_outside_the_foot, the_foot_tells_all};
use dp_shift::{blank_grid, move_in_place, resized_grid};
use dp_steps::Steps;
use dp_tile::{CellArea, Grid};
use dp_wire::Gate;
use std::alloc::{AllocError, Global};
use std::marker::Model;
use std::sync::ledger::Ledger;
use std::thread::Threads;

/// How many operations may be added for each tile of the layer before all are painted.
const WAITING: usize = 1024;

/// How many operations more may be added for a layer that workers paint. So they are started
/// seldom, which costs each time what they paint in a fraction of a millisecond.
const MORE: usize = 262144;

/// How many colours the images that wait may have for each tile of the layer before all are
/// painted: half as many as it has pixels.
const COLORS: usize = 2048;

/// As how many colours an image counts besides its own, for what else it takes.
const IMAGE: usize = 64;

/// The most images that wait.
const IMAGES: usize = 1048576;

/// The pixels of a layer on a canvas: a grid of tiles, and small fills, dabs and images that wait
/// until their tiles are painted otherwise or read. A tile is then painted once by all of them.
/// Layers that are shared have their tiles in common until one of them is written to.
///
/// An image that waits is kept once, and waits on each of its tiles by its number.
///
/// It is seen as the sides of its canvas and its pixels after all that waits.
#[derive(Drop)]
pub struct DeferredGrid {
    width: u32,
    height: u32,
    grid: Grid,
    images: Vec<Draw>,
    colors: usize,
    lists: TileLists,
    more: usize,
    most: Room,
}

impl Model for DeferredGrid {
    ghost use Rattle.std.specs.Prelude.{◌≡◌};
    ghost use Rattle.dp_shift.specs.Grids.{IsGridOf};
    ghost use Rattle.dp_ops.specs.Lists.{AllCount};
    ghost use Rattle.dp_paint.specs.Layers.{LayerOf, NamesThese, layer_pixels};

    ghost Value = { LayerOf };

    ghost view = { λ d. record {
      width = d.width;
      height = d.height;
      pixels = layer_pixels d.width d.height d.images.items d.lists d.grid;
    } };

    ghost invariant = { λ d. IsGridOf d.width d.height d.grid
        × (d.lists.first ≡ 0) × AllCount d.lists
        × NamesThese d.width d.height d.images.items d.lists };
}

/// How much may wait on a layer before all of it is painted.
#[derive(Clone, Copy)]
struct Room {
    ops: usize,
    colors: usize,
}

/// How much may wait on the tiles of a grid, with `more` operations more.
fn room_on(grid: &Grid, more: usize) -> Room {
    grid.known();
    let count = grid.cols() as usize * grid.rows() as usize;
    Room {
        ops: (count * WAITING).saturating_add(more),
        colors: count * COLORS,
    }
}

/// Draws a command on a grid.
fn draw_in_place<T: Ledger>(
    grid: &mut Grid,
    width: u32,
    height: u32,
    command: &Draw,
    tiles: &mut Steps<T>,
) -> Result<(), AllocError>
    requires grid { IsGridOf width height grid.old }
    requires command { ChangesPixels command.now }
    ensures grid { OnOk result (IsGridOf width height grid.new) }
    ensures pixels { OnOk result (grid_pixels width height grid.new
        ≡ pixels_after width height command.now (grid_pixels width height grid.old)) }
    ensures err { OnErr result (grid.new ≡ grid.old) }
    ensures tiles_rise { tiles.old ≤ tiles.new }
    ensures few_tiles { tiles.new ≤ tiles.old + reach command.now }
{
    match command {
        Draw::MoveRect { .. } => move_in_place(grid, width, height, command, tiles),
        _ => paint_in_place(grid, width, height, command, tiles),
    }
}

/// Adds an equal command at the end of a list.
fn push_copy(commands: &mut Vec<Draw>, command: &Draw) -> Result<(), AllocError>
    ensures added { OnOk result (commands.new.items ≡ commands.old.items ++ command.now ∷ []) }
    ensures same { OnErr result (commands.new.items ≡ commands.old.items) }
{
    commands.push(command.copy()?)?;
    Ok(())
}

/// Equal commands.
fn copied(commands: &[Draw], alloc: Global) -> Result<Vec<Draw>, AllocError>
    ensures { IfOk result (λ copy. copy.items ≡ commands.now) }
{
    let mut copy = Vec::with_capacity(alloc, commands.len())?;
    for command in commands {
        if let Err(refused) = push_copy(&mut copy, command) {
            drop(copy);
            return Err(refused);
        }
    }
    Ok(copy)
}

impl DeferredGrid {
    /// The clear pixels of a canvas of these sides. It makes no tile.
    pub fn blank(alloc: Global, width: u32, height: u32) -> Result<DeferredGrid, AllocError>
        requires wide { width ≤ 4096 }
        requires high { height ≤ 4096 }
        ensures { IfOk result (λ layer. layer ≡ record {
          width = width;
          height = height;
          pixels = canvas_of width height (λ x y. clear);
        }) }
    {
        let grid = blank_grid(alloc, width, height)?;
        let most = room_on(&grid, 0);
        Ok(DeferredGrid {
            width,
            height,
            grid,
            images: Vec::new(alloc),
            colors: 0,
            lists: TileLists::new(alloc, 0),
            more: 0,
            most,
        })
    }

    /// The sides are at most 4096, and there is a pixel for each place.
    pub fn known(&self)
        ensures wide { self.now.width ≤ 4096 }
        ensures high { self.now.height ≤ 4096 }
        ensures covers { length self.now.pixels ≡ self.now.width * self.now.height }
    {
        let _ = &self.grid;
    }

    /// Draws a command. A fill of few tiles, dabs and an image wait. Any other command is painted,
    /// after all that waits on the tiles of its foot.
    ///
    /// # Errors
    ///
    /// The pixels are as they were, and tiles that were made are counted.
    pub fn draw<T: Ledger>(
        &mut self,
        command: &Draw,
        tiles: &mut Steps<T>,
    ) -> Result<(), AllocError>
        requires { ChangesPixels command.now }
        ensures ok { OnOk result (self.new ≡ record self.old {
          pixels = pixels_after self.old.width
              self.old.height command.now self.old.pixels;
        }) }
        ensures err { OnErr result (self.new ≡ self.old) }
        ensures tiles_rise { tiles.old ≤ tiles.new }
        ensures few_tiles { tiles.new ≤ tiles.old + (4096 + reach command.now) }
    {
        if let Draw::FillRect { .. } = command {
            // Most commands are small fills. From here on it is known that it is a fill.
            self.grid.known();
            let area = cells_of(command, self.grid.cols(), self.grid.rows());
            if may_wait(command, area) {
                return self.wait(command, area, tiles);
            }
        }
        self.draw_other(command, tiles)
    }

    /// Draws a command. It is made for those that are no small fills.
    #[inline(never)]
    fn draw_other<T: Ledger>(
        &mut self,
        command: &Draw,
        tiles: &mut Steps<T>,
    ) -> Result<(), AllocError>
        requires { ChangesPixels command.now }
        ensures ok { OnOk result (self.new ≡ record self.old {
          pixels = pixels_after self.old.width
              self.old.height command.now self.old.pixels;
        }) }
        ensures err { OnErr result (self.new ≡ self.old) }
        ensures tiles_rise { tiles.old ≤ tiles.new }
        ensures few_tiles { tiles.new ≤ tiles.old + (4096 + reach command.now) }
    {
        self.grid.known();
        let area = foot_cells(command, self.grid.cols(), self.grid.rows());
        if may_wait(command, area) {
            return self.wait(command, area, tiles);
        }
        match colors_of(command) {
            Some(colors) => self.wait_by_number(command, colors, area, tiles),
            None => self.paint(command, area, tiles),
        }
    }

    /// Has a command wait on the cells of its foot. All that waits is painted before, if it is too
    /// much.
    #[inline(always)]
    fn wait<T: Ledger>(
        &mut self,
        command: &Draw,
        area: CellArea,
        tiles: &mut Steps<T>,
    ) -> Result<(), AllocError>
        requires command { MayWait command.now }
        requires across { area.left ≤ area.right }
        requires down { area.top ≤ area.bottom }
        requires cols { area.right * 64 < self.old.width + 64 }
        requires rows { area.bottom * 64 < self.old.height + 64 }
        requires all { (x y : ℕ) → x < self.old.width → y < self.old.height
            → is_in_foot (foot command.now) (pos x) (pos y) ≡ true
            → is_in_cells area (x / 64) (y / 64) ≡ true }
        ensures ok { OnOk result (self.new ≡ record self.old {
          pixels = pixels_after self.old.width
              self.old.height command.now self.old.pixels;
        }) }
        ensures err { OnErr result (self.new ≡ self.old) }
        ensures tiles_rise { tiles.old ≤ tiles.new }
        ensures few_tiles { tiles.new ≤ tiles.old + 4096 }
    {
        pixels_stay_outside_the_foot();
        self.make_room(tiles)?;
        let source = Numbered {
            width: self.width,
            height: self.height,
            number: 0,
            command,
        };
        file(&mut self.lists, self.grid.alloc(), &source, area)
    }

    /// Has an image of `colors` colours wait by its number on the cells of its foot. All that waits
    /// is painted before, if it is too much.
    #[inline(never)]
    fn wait_by_number<T: Ledger>(
        &mut self,
        command: &Draw,
        colors: usize,
        area: CellArea,
        tiles: &mut Steps<T>,
    ) -> Result<(), AllocError>
        requires command { IsPainting command.now }
        requires across { area.left ≤ area.right }
        requires down { area.top ≤ area.bottom }
        requires cols { area.right * 64 < self.old.width + 64 }
        requires rows { area.bottom * 64 < self.old.height + 64 }
        requires all { (x y : ℕ) → x < self.old.width → y < self.old.height
            → is_in_foot (foot command.now) (pos x) (pos y) ≡ true
            → is_in_cells area (x / 64) (y / 64) ≡ true }
        ensures ok { OnOk result (self.new ≡ record self.old {
          pixels = pixels_after self.old.width
              self.old.height command.now self.old.pixels;
        }) }
        ensures err { OnErr result (self.new ≡ self.old) }
        ensures tiles_rise { tiles.old ≤ tiles.new }
        ensures few_tiles { tiles.new ≤ tiles.old + 4096 }
    {
        pixels_stay_outside_the_foot();
        self.make_room(tiles)?;
        let number = self.images.len();
        if number >= IMAGES {
            // This is never so: before `IMAGES` of them wait, all are painted.
            return Err(AllocError);
        }
        push_copy(&mut self.images, command)?;
        self.colors = self.colors.saturating_add(colors).saturating_add(IMAGE);
        let source = Numbered {
            width: self.width,
            height: self.height,
            number: number as u32,
            command,
        };
        file(&mut self.lists, self.grid.alloc(), &source, area)
    }

    /// Whether a `part`-th of the operations that may wait were added: all of them for 1.
    #[inline(always)]
    fn has_part(&self, part: usize) -> bool
        requires { 0 < part }
    {
        self.lists.added() >= self.most.ops / part || self.colors >= self.most.colors / part
    }

    /// Whether so much waits that all of it is painted before the next command waits.
    pub fn is_full(&self) -> bool {
        self.has_part(1)
    }

    /// Whether at least half as much waits.
    pub fn is_half_full(&self) -> bool {
        self.has_part(2)
    }

    /// Paints all that waits, by workers. From then on more may wait.
    ///
    /// # Errors
    ///
    /// Some of it may be painted.
    pub fn settle_by<R: Threads + Sync, G: Gate, T: Ledger>(
        &mut self,
        rt: &R,
        workers: &Workers<'_, G>,
        tiles: &mut Steps<T>,
    ) -> Result<(), AllocError>
        ensures same { self.new ≡ self.old }
        ensures tiles_rise { tiles.old ≤ tiles.new }
        ensures few_tiles { tiles.new ≤ tiles.old + 4096 }
    {
        let on = Sheet {
            width: self.width,
            height: self.height,
            commands: &self.images,
        };
        settle_all(rt, &mut self.grid, on, &mut self.lists, workers, tiles)?;
        self.lists = TileLists::new(self.grid.alloc(), 0);
        self.images = Vec::new(self.grid.alloc());
        self.colors = 0;
        self.more = MORE;
        self.most = room_on(&self.grid, MORE);
        Ok(())
    }

    /// Paints all that waits, if it is too much.
    #[inline(always)]
    fn make_room<T: Ledger>(&mut self, tiles: &mut Steps<T>) -> Result<(), AllocError>
        ensures same { self.new ≡ self.old }
        ensures tiles_rise { tiles.old ≤ tiles.new }
        ensures few_tiles { tiles.new ≤ tiles.old + 4096 }
    {
        if !self.is_full() {
            return Ok(());
        }
        self.grid.known();
        let (cols, rows) = (self.grid.cols(), self.grid.rows());
        let all = CellArea {
            left: 0,
            right: cols,
            top: 0,
            bottom: rows,
        };
        let on = Sheet {
            width: self.width,
            height: self.height,
            commands: &self.images,
        };
        paint_lists(&mut self.grid, on, &self.lists, all, tiles)?;
        self.lists = TileLists::new(self.grid.alloc(), 0);
        self.images = Vec::new(self.grid.alloc());
        self.colors = 0;
        Ok(())
    }

    /// Draws a command on the grid after all that waits on the cells of its foot.
    fn paint<T: Ledger>(
        &mut self,
        command: &Draw,
        area: CellArea,
        tiles: &mut Steps<T>,
    ) -> Result<(), AllocError>
        requires command { ChangesPixels command.now }
        requires across { area.left ≤ area.right }
        requires down { area.top ≤ area.bottom }
        requires cols { area.right * 64 < self.old.width + 64 }
        requires rows { area.bottom * 64 < self.old.height + 64 }
        requires all { (x y : ℕ) → x < self.old.width → y < self.old.height
            → is_in_foot (foot command.now) (pos x) (pos y) ≡ true
            → is_in_cells area (x / 64) (y / 64) ≡ true }
        ensures ok { OnOk result (self.new ≡ record self.old {
          pixels = pixels_after self.old.width
              self.old.height command.now self.old.pixels;
        }) }
        ensures err { OnErr result (self.new ≡ self.old) }
        ensures tiles_rise { tiles.old ≤ tiles.new }
        ensures few_tiles { tiles.new ≤ tiles.old + (4096 + reach command.now) }
    {
        pixels_stay_outside_the_foot();
        the_foot_tells_all();
        let on = Sheet {
            width: self.width,
            height: self.height,
            commands: &self.images,
        };
        settle(&mut self.grid, on, &mut self.lists, area, tiles)?;
        draw_in_place(&mut self.grid, self.width, self.height, command, tiles)
    }

    /// The pixels on a canvas of the new sides.
    ///
    /// # Errors
    ///
    /// Tiles that were made are counted.
    pub fn resized<T: Ledger>(
        &self,
        change: Resize,
        tiles: &mut Steps<T>,
    ) -> Result<DeferredGrid, AllocError>
        requires wide { self.now.width ≡ change.width }
        requires high { self.now.height ≡ change.height }
        ensures resized { IfOk result (λ layer. layer ≡ record {
          width = change.new_width;
          height = change.new_height;
          pixels = pixels_resized change self.now.pixels;
        }) }
        ensures tiles_rise { tiles.old ≤ tiles.new }
        ensures few_tiles { tiles.new ≤ tiles.old + 8192 }
    {
        let mut grid = self.grid.share()?;
        let all = CellArea {
            left: 0,
            right: grid.cols(),
            top: 0,
            bottom: grid.rows(),
        };
        let on = Sheet {
            width: self.width,
            height: self.height,
            commands: &self.images,
        };
        if let Err(refused) = paint_lists(&mut grid, on, &self.lists, all, tiles) {
            drop(grid);
            return Err(refused);
        }
        let resized = resized_grid(&grid, change, tiles);
        drop(grid);
        let resized = resized?;
        let alloc = resized.alloc();
        let most = room_on(&resized, self.more);
        Ok(DeferredGrid {
            width: change.new_width as u32,
            height: change.new_height as u32,
            grid: resized,
            images: Vec::new(alloc),
            colors: 0,
            lists: TileLists::new(alloc, 0),
            more: self.more,
            most,
        })
    }

    /// Equal pixels. It makes no tile.
    pub fn share(&self) -> Result<DeferredGrid, AllocError>
        ensures { IfOk result (λ layer. layer ≡ self.now) }
    {
        Ok(DeferredGrid {
            width: self.width,
            height: self.height,
            grid: self.grid.share()?,
            images: copied(&self.images, self.grid.alloc())?,
            colors: self.colors,
            lists: self.lists.share()?,
            more: self.more,
            most: self.most,
        })
    }

    /// The colour of the tile at a column and a row, if it is of one and that is known without
    /// reading it.
    pub fn tile_color(&self, col: u32, row: u32) -> Option<Pixel>
        requires across { col * 64 < self.now.width }
        requires down { row * 64 < self.now.height }
        ensures { IfSome result (λ color. ShowsTile self.now.width self.now.height
            self.now.pixels col row (Some color) []) }
    {
        self.grid.known();
        if self.lists.ops(col, row).is_empty() {
            self.grid.tile_color(col, row)
        } else {
            None
        }
    }

    /// Reads the tile at a column and a row: gives its colour, if it is known to be of one, and
    /// else leaves its pixels, row by row. Past the canvas it may hold anything.
    pub fn read_tile(&self, col: u32, row: u32, pixels: &mut [Pixel]) -> Option<Pixel>
        requires across { col * 64 < self.now.width }
        requires down { row * 64 < self.now.height }
        requires count { length pixels.old ≡ 4096 }
        ensures { ShowsTile self.now.width self.now.height self.now.pixels col row result
            pixels.new }
    {
        self.grid.known();
        let color = self.grid.read_tile(col, row, pixels);
        let ops = self.lists.ops(col, row);
        let on = Sheet {
            width: self.width,
            height: self.height,
            commands: &self.images,
        };
        show_ops(&on, col, row, ops, color, pixels)
    }

    /// The pixel at a place.
    pub fn pixel(&self, x: u32, y: u32) -> Pixel
        requires across { x < self.now.width }
        requires down { y < self.now.height }
        ensures { result ≡ pixel_at self.now.width self.now.pixels x y }
    {
        let on = Sheet {
            width: self.width,
            height: self.height,
            commands: &self.images,
        };
        let mut pixel = self.grid.get(x, y);
        for op in self.lists.ops(x / 64, y / 64) {
            pixel = op.unpacked().pixel_after(&on, x, y, pixel);
        }
        pixel
    }

    /// Copies a part of the row y of the pixels, from x on.
    pub fn copy_part(&self, x: u32, y: u32, part: &mut [Pixel])
        requires inside { y < self.now.height }
        requires within { x + length part.old ≤ self.now.width }
        ensures { part.new ≡ part_of_row self.now.width self.now.pixels x y (length part.old) }
    {
        self.known();
        for k in 0..part.len() {
            part[k] = self.pixel(x + k as u32, y);
        }
    }
}
