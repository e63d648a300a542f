//! The messages of a session, and the frames that carry them.
#![tactic(auto)]

mod decoder;
mod encoder;
mod equality;
mod first_profile;
mod laws;
mod message;

pub use decoder::{DecodeError, decode, read_message};
pub use encoder::{encode, put_entry, put_message, put_payload};
pub use equality::same;
pub use first_profile::lifted_kind;
pub use laws::{
    entries_are_read_again, lifting, one_answer, one_equality, one_hearing, one_message,
};
pub use message::{Entry, Msg};
