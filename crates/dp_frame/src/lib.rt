//! The frames of a stream of bytes. A frame is the length of its payload in two bytes, a type byte,
//! a context byte, and the payload. The length is big-endian, and doesn't count the four bytes of
//! the header.
#![tactic(auto)]

mod frame;
mod laws;
mod octets;

pub use frame::{Frame, FrameView, write_frame};
pub use laws::{
    every_splitting, first_frame, further_frames, no_frames, one_first_frame, one_splitting,
};
pub use octets::Octets;
