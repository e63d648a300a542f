//! Grids of a canvas before anything is painted.

ghost use Rattle.std.specs.Prelude.{◌≡◌, ◌≤◌, IfOk};
ghost use Rattle.dp_pixels.specs.Tiles.{tiles_along};
ghost use Rattle.dp_tile.specs.Tiles.{clear_grid};

use dp_pixels::tiles_along;
use dp_tile::Grid;
use std::alloc::{AllocError, Global};

/// The grid of a canvas of these sides that shows nothing. It makes no tile.
pub fn blank_grid(alloc: Global, width: u32, height: u32) -> Result<Grid, AllocError>
    requires wide { width ≤ 4096 }
    requires high { height ≤ 4096 }
    ensures { IfOk result (λ grid. grid
        ≡ clear_grid (tiles_along width) (tiles_along height)) }
{
    Grid::new(alloc, tiles_along(width), tiles_along(height))
}
