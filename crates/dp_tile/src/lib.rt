//! Tiles of 64 by 64 pixels, counted where they are made, and grids that share them until they are
//! written to.
#![tactic(auto)]

mod area;
mod cells;
mod grid;
mod laws;
mod painter;
mod palette;
mod row;
mod slot;
mod tile;

pub use area::CellArea;
pub use grid::Grid;
pub use laws::{an_area_shows_at_most_its_grid, same_cells_show_alike};
pub use painter::{TileChange, TilePainter};
pub use tile::{SIDE, Tile};
