//! Grids of a canvas that gets new sides.

ghost use Rattle.std.specs.Prelude.{◌≡◌, ◌+◌, ◌*◌, ◌<◌, ◌≤◌, ◌^◌, pos, ◌-ℤ◌, true};
ghost use Rattle.std.specs.Prelude.{unsigned_abs, Some, IfOk};
ghost use Rattle.dp_blend.specs.Color.{clear};
ghost use Rattle.dp_pixels.specs.Tiles.{tiles_along};
ghost use Rattle.dp_tile.specs.Tiles.{cells_shown};
ghost use Rattle.dp_shift.specs.Grids.{IsGridOf};
ghost use Rattle.dp_shift.specs.Reading.{IsResized};

use crate::blank::blank_grid;
use crate::reading::Shown;
use crate::rows::{RowPainter, RowSource};
use dp_blend::Pixel;
use dp_pixels::Resize;
use dp_steps::Steps;
use dp_tile::{CellArea, Grid, TileChange, an_area_shows_at_most_its_grid};
use std::alloc::AllocError;
use std::sync::ledger::Ledger;

/// A canvas, as it stands on one of other sides.
#[derive(Clone, Copy)]
struct Shifted<'a> {
    old: Shown<'a>,
    left: i32,
    top: i32,
}

/// A place, so far back.
fn place_back(x: i64, by: i32) -> i64
    requires { unsigned_abs x < 2 ^ 32 }
    ensures value { result ≡ x -ℤ by }
    ensures near { unsigned_abs result < 2 ^ 34 }
{
    x - by as i64
}

/// The first place of a column or row of tiles, so far back.
fn tile_back(tile: u32, by: i32) -> i64
    requires { tile < 64 }
    ensures value { result ≡ pos (tile * 64) -ℤ by }
    ensures near { unsigned_abs result < 2 ^ 34 }
{
    tile as i64 * 64 - by as i64
}

/// Whether it is the colour of what is clear.
fn is_clear_color(color: Option<Pixel>) -> bool
    ensures { result ≡ true → color ≡ Some clear }
{
    match color {
        Some(p) => p == Pixel::CLEAR,
        None => false,
    }
}

impl RowSource for Shifted<'_> {
    ghost use Rattle.std.specs.Prelude.{◌-ℤ◌};
    ghost use Rattle.dp_shift.specs.Reading.{shown};

    ghost pixel = { λ s x y. shown s.old.width s.old.height s.old.grid.now (x -ℤ s.left)
        (y -ℤ s.top) };

    fn put_row(&self, x: i64, y: i64, row: &mut [Pixel]) {
        self.old
            .read(place_back(x, self.left), place_back(y, self.top), row);
    }

    fn change(&self, col: u32, row: u32, color: Option<Pixel>) -> TileChange {
        let (x, y) = (tile_back(col, self.left), tile_back(row, self.top));
        if is_clear_color(color) && self.old.is_clear(x, y) {
            TileChange::Stays
        } else {
            TileChange::Unknown
        }
    }
}

/// The grid on a canvas of the new sides. No tile is made for a cell that shows nothing.
pub fn resized_grid<T: Ledger>(
    grid: &Grid,
    change: Resize,
    tiles: &mut Steps<T>,
) -> Result<Grid, AllocError>
    requires { IsGridOf change.width change.height grid.now }
    ensures resized { IfOk result (IsResized change grid.now) }
    ensures tiles_rise { tiles.old ≤ tiles.new }
    ensures few_tiles { tiles.new
        ≤ tiles.old + tiles_along change.new_height * tiles_along change.new_width }
    ensures few_shown { IfOk result (λ resized. tiles.new ≤ tiles.old + cells_shown resized) }
{
    an_area_shows_at_most_its_grid();
    let shifted = Shifted {
        old: Shown {
            grid,
            width: change.width as u32,
            height: change.height as u32,
        },
        left: change.left,
        top: change.top,
    };
    let painter = RowPainter { source: &shifted };
    let mut resized = blank_grid(
        grid.alloc(),
        change.new_width as u32,
        change.new_height as u32,
    )?;
    let all = CellArea {
        left: 0,
        right: resized.cols(),
        top: 0,
        bottom: resized.rows(),
    };
    resized.paint_each(all, &painter, tiles)?;
    resized.known();
    Ok(resized)
}
