//! Runs of rows of the program over memory. `dp_rows` says in its own page how rows are written.
//! The program is a parameter (`RunsRow`), so a change of the program proves none of this again.
#![tactic(auto)]

mod each;
mod program;
mod rows;
mod running;
mod tried;

pub use program::{RowLeft, RowRun, RowStreams, RunsRow};
pub use rows::run;
