//! The fields that payloads are made of: how each is spelled, read and written.
#![tactic(auto)]

mod error;
mod field;
mod items;
mod tail;

pub use error::PayloadError;
pub use field::{Field, all};
pub use items::{put_items, read_items};
pub use tail::{Tail, read_both};
