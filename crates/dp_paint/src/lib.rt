//! Commands on the pixels of a layer that is a grid of tiles.
//!
//! The rule: docs/protocol.md, "Pixel commands".
#![tactic(auto)]

mod feet;
mod in_place;
mod jobs;
mod layer;
mod waits;
mod workers;

pub use in_place::paint_in_place;
pub use layer::DeferredGrid;
pub use workers::paint;
