//! What an input shows, read entry by entry on a board that trails it, and the picture of frames.
#![tactic(auto)]

mod ending;
mod laws;
mod pictures;
mod reading;

pub use ending::end_written;
pub use laws::{each_play_ends, each_replay_ends, one_play, one_replay};
pub use pictures::run_replay;
pub use reading::{ShownBoard, begin_anew, blank_board, read_recording, reads_to_end, take_due};
