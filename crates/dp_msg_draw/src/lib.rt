//! The drawing messages of the protocol: what each is, and its one spelling as a payload.
#![tactic(auto)]

mod draw;
mod equality;
mod items;
mod kinds;
mod laws;
mod lists;
mod mode;
mod reader;
mod tails;
mod writer;

pub use dp_fields::PayloadError;
pub use draw::{Draw, TileContent};
pub use equality::same_draw;
pub use kinds::{FILL_RECT, is_listed, kind_of_draw};
pub use laws::{one_draw, same_draw_is_equality};
pub use lists::{Colors, Dab, Dabs, TilePixel, TilePixels, Title};
pub use reader::{read_draw, read_fill};
pub use writer::write_draw;
