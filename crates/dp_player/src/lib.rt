//! Pictures of recordings, read while workers paint.
#![tactic(auto)]

mod ahead;
mod playing;
mod workers;

pub use playing::run_play;
pub use workers::Playing;
