//! Tiles that are painted by jobs.

ghost use Rattle.std.specs.Prelude.{◌≡◌, ℕ, ◌+◌, ◌*◌, ◌/◌, ◌%◌, ◌<◌, ◌≤◌, [], All, IfOk, OnOk};
ghost use Rattle.std.specs.Prelude.{true, false};
ghost use Rattle.dp_blend.specs.Color.{clear};
ghost use Rattle.dp_tile.specs.Tiles.{cell_at, tile_of, with_cell};
ghost use Rattle.dp_ops.specs.Lists.{listed_at, waiting_tile};
ghost use Rattle.dp_paint.specs.Jobs.{waits_on};
ghost use Rattle.dp_paint.specs.Jobs.{tiles_waiting};
ghost use Rattle.dp_paint.specs.Jobs.{AreMade, AreOnGrid, IsDone};

use dp_ops::{OpsPainter, TileLists};
use dp_par::Job;
use dp_steps::Steps;
use dp_tile::{Grid, Tile, TileChange, TilePainter};
use std::alloc::AllocError;
use std::marker::Model;
use std::sync::ledger::Ledger;

/// How many tiles are painted together.
pub(crate) const GROUP: u32 = 512;

/// A tile that is to be painted: where it stands, the old one, if there is one, what waits on it,
/// and a tile for the new pixels. Its room was taken when the job was made.
#[derive(Drop)]
pub(crate) struct TileJob<'a> {
    col: u32,
    row: u32,
    old: Option<&'a Tile>,
    painter: OpsPainter<'a>,
    new: Tile,
}

impl<'a> Model for TileJob<'a> {
    ghost use Rattle.std.specs.Prelude.{◌<◌};
    ghost use Rattle.std.specs.Option.{option_map_or};
    ghost use Rattle.dp_blend.specs.Color.{clear};
    ghost use Rattle.dp_tile.specs.Tiles.{tile_of};
    ghost use Rattle.dp_ops.specs.Lists.{waiting_tile};
    ghost use Rattle.dp_paint.specs.Jobs.{TileWork};

    ghost Value = { TileWork };

    ghost view = { λ j. record {
      col = j.col;
      row = j.row;
      wanted = waiting_tile j.painter.on.width j.painter.on.height j.painter.on.commands.now
          j.painter.lists.now j.col j.row
          (option_map_or (λ tile. tile.now) j.old (tile_of clear));
      pixels = j.new;
    } };

    ghost invariant = { λ j. (j.col < 64) × (j.row < 64) };
}

impl<'a> TileJob<'a> {
    /// A job for the tile at a column and a row of a grid.
    fn new<T: Ledger>(
        grid: &'a Grid,
        painter: OpsPainter<'a>,
        col: u32,
        row: u32,
        tiles: &mut Steps<T>,
    ) -> Result<TileJob<'a>, AllocError>
        requires col { col < grid.now.cols }
        requires row { row < grid.now.rows }
        ensures col { IfOk result (λ job. job.col ≡ col) }
        ensures row { IfOk result (λ job. job.row ≡ row) }
        ensures wanted { IfOk result (λ job. job.wanted
            ≡ waiting_tile painter.entry.on.width painter.entry.on.height
            painter.entry.on.commands.now painter.entry.lists.now col row
            (cell_at grid.now col row)) }
        ensures pixels { IfOk result (λ job. job.pixels ≡ tile_of clear) }
        ensures tiles_rise { tiles.old ≤ tiles.new }
        ensures one_tile { tiles.new ≤ tiles.old + 1 }
    {
        grid.known();
        Ok(TileJob {
            col,
            row,
            old: grid.tile(col, row),
            painter,
            new: Tile::blank(grid.alloc(), tiles)?,
        })
    }

    /// Puts its new tile on a grid.
    fn write(self, grid: &mut Grid) -> Result<(), AllocError>
        requires col { self.col < grid.old.cols }
        requires row { self.row < grid.old.rows }
        ensures { OnOk result (grid.new
            ≡ with_cell grid.old self.entry.col self.entry.row self.entry.pixels) }
    {
        let TileJob { col, row, new, .. } = self;
        grid.write(col, row, new)
    }
}

impl<'a> Job for TileJob<'a> {
    ghost use Rattle.std.specs.Prelude.{◌≡◌};
    ghost use Rattle.dp_blend.specs.Color.{clear};
    ghost use Rattle.dp_tile.specs.Tiles.{tile_of};
    ghost use Rattle.dp_paint.specs.Jobs.{HasRun};

    ghost ready = { λ job. job.pixels ≡ tile_of clear };

    ghost leaves = { HasRun };

    fn run(&mut self) {
        let TileJob {
            col,
            row,
            old,
            painter,
            new,
        } = self;
        if let Some(tile) = old {
            new.become_like(tile);
        }
        new.paint(*col, *row, painter);
        new.mark();
    }
}

/// A grid on which some tiles are painted, and jobs for others.
#[derive(Drop)]
pub(crate) struct Work<'a> {
    pub grid: Grid,
    pub jobs: Vec<TileJob<'a>>,
}

/// Whether operations wait on the tile of a number, which a grid has.
fn has_work(grid: &Grid, lists: &TileLists, number: u32) -> bool
    requires { number < 4096 }
    ensures col { result ≡ true → number % 64 < grid.now.cols }
    ensures row { result ≡ true → number / 64 < grid.now.rows }
    ensures some { result ≡ true → waits_on lists.now number ≡ 1 }
    ensures none { result ≡ false → (col row : ℕ) → col < grid.now.cols → row < grid.now.rows
        → row * 64 + col ≡ number → listed_at lists.now col row ≡ [] }
{
    grid.known();
    let (col, row) = (number % 64, number / 64);
    if col >= grid.cols() {
        return false;
    }
    if row >= grid.rows() {
        return false;
    }
    if lists.ops(col, row).is_empty() {
        return false;
    }
    true
}

/// Paints what waits on the tile of a number, if any does and the tile is known to become of one
/// colour, and else makes a job for it.
///
/// # Errors
///
/// A tile may have been made.
fn make_next<'a, T: Ledger>(
    grid: &'a Grid,
    painter: OpsPainter<'a>,
    number: u32,
    work: &mut Work<'a>,
    tiles: &mut Steps<T>,
) -> Result<(), AllocError>
    requires number { number < 4096 }
    requires cols { work.old.grid.cols ≡ grid.now.cols }
    requires rows { work.old.grid.rows ≡ grid.now.rows }
    ensures made { (first : ℕ) → first ≤ number
        → AreMade (waiting_tile painter.entry.on.width painter.entry.on.height
        painter.entry.on.commands.now painter.entry.lists.now)
        first number grid.now work.old.grid work.old.jobs.items
        → OnOk result (AreMade (waiting_tile painter.entry.on.width painter.entry.on.height
        painter.entry.on.commands.now painter.entry.lists.now)
        first (number + 1) grid.now work.new.grid work.new.jobs.items) }
    ensures tiles_rise { tiles.old ≤ tiles.new }
    ensures few_tiles { tiles.new ≤ tiles.old + waits_on painter.entry.lists.now number }
{
    grid.known();
    if !has_work(grid, painter.lists, number) {
        return Ok(());
    }
    let (col, row) = (number % 64, number / 64);
    match painter.change(col, row, grid.tile_color(col, row)) {
        TileChange::Unknown => {
            let job = TileJob::new(grid, painter, col, row, tiles)?;
            work.jobs.push(job)?;
            Ok(())
        }
        _ => {
            work.grid.known();
            work.grid.paint(col, row, &painter, tiles)
        }
    }
}

/// Paints what waits on the tiles of `GROUP` numbers from one on, or makes jobs for them.
///
/// # Errors
///
/// Tiles that were made are counted.
pub(crate) fn make_jobs<'a, T: Ledger>(
    grid: &'a Grid,
    painter: OpsPainter<'a>,
    first: u32,
    tiles: &mut Steps<T>,
) -> Result<Work<'a>, AllocError>
    requires { first + GROUP ≤ 4096 }
    ensures made { IfOk result (λ made. AreMade
        (waiting_tile painter.entry.on.width painter.entry.on.height
        painter.entry.on.commands.now painter.entry.lists.now)
        first (first + GROUP) grid.now made.grid made.jobs.items) }
    ensures tiles_rise { tiles.old ≤ tiles.new }
    ensures few_tiles { tiles.new + tiles_waiting painter.entry.lists.now first
        ≤ tiles.old + tiles_waiting painter.entry.lists.now (first + GROUP) }
{
    let mut work = Work {
        grid: grid.share()?,
        jobs: Vec::new(grid.alloc()),
    };
    for number in first..first + GROUP {
        if let Err(refused) = make_next(grid, painter, number, &mut work, tiles) {
            drop(work);
            return Err(refused);
        }
    }
    Ok(work)
}

/// Puts the tiles of jobs that were run on the grid.
pub(crate) fn write_jobs(work: Work<'_>) -> Result<Grid, AllocError>
    requires { All (IsDone work.grid) work.jobs.items }
    ensures { IfOk result (AreOnGrid work.entry.jobs.items work.entry.grid) }
{
    let Work { mut grid, mut jobs } = work;
    'jobs: while let Some(job) = jobs.pop() {
        grid.known();
        job.write(&mut grid)?;
    }
    Ok(grid)
}
