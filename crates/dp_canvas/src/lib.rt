//! The canvas: the board that the program and its clients draw on.
#![tactic(auto)]

mod batch;
mod canvas;
mod crossing;
mod deferred;
mod picture;
mod settle;
mod tiled;

pub use canvas::Canvas;
pub use crossing::canvases_cross_threads;
pub use deferred::{DeferredBoard, DeferredPixels};
pub use settle::settle_half_full;
