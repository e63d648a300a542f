//! The entries of a source, pulled one at a time.
//!
//! What may stand in a stream is a type of its own: see `Standing`.
#![tactic(auto)]

mod anywhere;
mod ends;
mod first_profile;
mod laws;
mod reader;
mod standing;
mod taking;

pub use anywhere::Anywhere;
pub use ends::{ReadEnd, Refusal};
pub use first_profile::FirstProfile;
pub use laws::{each_input_ends, one_reading};
pub use reader::EntryReader;
pub use standing::Standing;
pub use taking::{Stop, take_entry};
