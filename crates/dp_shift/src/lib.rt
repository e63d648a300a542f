//! Grids of tiles whose pixels move: MoveRect, and canvases that get new sides. Both make tiles of
//! pixels that stand at other places.
//!
//! The rule: docs/protocol.md, "Pixel commands".
#![tactic(auto)]

mod blank;
mod cells;
mod movement;
mod reading;
mod resize;
mod rows;

pub use blank::blank_grid;
pub use cells::cells_in;
pub use movement::{move_in_place, move_rects};
pub use resize::resized_grid;
