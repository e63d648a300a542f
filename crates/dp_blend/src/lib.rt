//! Pixels with premultiplied alpha, the six ways to blend them, and rows of them.
//!
//! A channel or an alpha is a number from 0 to 32768, which stands for one.
//!
//! The rule: docs/protocol.md, "Numbers and blending".
#![tactic(auto)]

mod blending;
mod color;
mod covering;
mod kernels;
mod lanes;
mod laws;
mod modes;
mod rows;
mod stretch;
mod white;

pub use blending::blend;
pub use color::{ONE, Pixel, fade, from8, of_argb, to8};
pub use laws::{
    blend_gives_pixels, equal_canvases, equal_pixels_at_each_place, fade_by_one_keeps,
    fade_gives_pixels, length_of_canvas, normal_over_clear_gives_source, pixel_of_canvas,
    replace_gives_source,
};
pub use modes::Mode;
pub use rows::{row_blend, row_fill, row_merge, rows_fill};
pub use stretch::Stretch;
pub use white::{rgb_on_white, row_on_white};
