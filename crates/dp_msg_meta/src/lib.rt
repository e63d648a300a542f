//! The control and meta messages of the protocol: what each is, and its one spelling as a payload.
#![tactic(auto)]

mod equality;
mod fields;
mod kinds;
mod laws;
mod lists;
mod message;
mod reader;
mod tails;
mod writer;

pub use dp_fields::PayloadError;
pub use equality::{same_control, same_meta};
pub use kinds::{is_control_kind, is_meta_kind, kind_of_control, kind_of_meta};
pub use laws::{control_equality, meta_equality, one_control, one_meta};
pub use lists::{Ids, NameBytes, Text};
pub use message::{Control, Meta, Tiers};
pub use reader::{read_control, read_meta};
pub use writer::{write_control, write_meta};
