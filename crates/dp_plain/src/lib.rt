//! The board of a session.
//!
//! What a layer holds is a `LayerPixels`, and a board that can be looked at is a `BoardView`.
#![tactic(auto)]

mod colors;
mod laws;
mod layer_pixels;
mod view;

pub use colors::{known_colors, known_commands};
pub use laws::{runs_change_one_layer, spelled_commands_keep_pixels};
pub use layer_pixels::LayerPixels;
pub use view::BoardView;
