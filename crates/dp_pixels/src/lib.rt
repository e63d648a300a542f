//! What the pixel commands make of the pixels of a layer, and where each of them may change it.
//!
//! The rule: docs/protocol.md, "Pixel commands".
#![tactic(auto)]

mod dabs;
mod disc;
mod draw;
mod feet;
mod fill;
mod image;
mod laws;
mod layer;
mod move_rect;
mod paint;
mod patch;
mod place;
mod rect;
mod region;
mod resize;
mod span;
mod stroke;
mod tiles;

pub use dabs::{NearDab, PlacedDab, Shape};
pub use draw::draw_region;
pub use feet::{Footprint, foot, meets};
pub use laws::{
    apart_commands_commute, dabs_stay_in_their_squares, feet_apart, messages_are_their_dabs,
    pixels_stay_outside_the_foot, pixels_stay_pixels, shared_places, squares_are_counted,
    the_foot_tells_all,
};
pub use layer::draw_pixels;
pub use place::{covers, pixel_after};
pub use rect::{Place, Rect};
pub use region::Region;
pub use resize::Resize;
pub use stroke::{Brush, brush_of, dabs_bounds, draw_dab, place_dabs};
pub use tiles::tiles_along;
