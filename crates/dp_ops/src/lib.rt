//! Operations on one tile, what they draw there, and lists of those that wait on the tiles of a
//! layer.
//!
//! The rule: docs/protocol.md, "Pixel commands".
#![tactic(auto)]

mod fetch;
mod filing;
mod lists;
mod op;
mod painter;
mod put;
mod sheet;
mod side;

pub use filing::{Numbered, file};
pub use lists::{Finish, TileLists};
pub use op::{PackedOp, TileDab, TileFill, TileOp};
pub use painter::{CommandPainter, OpsPainter, show_ops};
pub use sheet::Sheet;
