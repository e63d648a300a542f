//! Recordings: a header, and then the frames of a session's entries.
//!
//! The rule: docs/protocol.md, "Recordings".
#![tactic(auto)]

mod header;
mod laws;
mod reader;
mod writer;

pub use header::{HEADER, Header, HeaderError, Profile, read_header};
pub use laws::{each_recording_ends, one_header, one_recording, the_header_is_one};
pub use reader::{RecError, RecordingReader};
pub use writer::put_header;
