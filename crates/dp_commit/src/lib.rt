//! How what an event does is kept beside the journal of a session: in its connections, in a reset
//! that is being sent, and in its live history, with what was made ahead.
#![tactic(auto)]

mod connections;
mod handing;
mod keeping;
mod live;
mod opening;
mod pages;
mod room;
mod sending;
mod supply;

pub use connections::{Roster, connection, is_named, next_open, open_connection};
pub use handing::{after_done, if_given, with_ahead};
pub use keeping::{Made, keep_beside};
pub use live::LiveEpoch;
pub use room::reserve;
pub use sending::Sending;
pub use supply::{Supply, make_entries, mark};
