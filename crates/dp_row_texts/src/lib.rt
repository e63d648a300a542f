//! Rows of `dp_rows`: what a text of rows has, and what is printed of a run. dp_rows' own page says
//! what the lines of such a text are.
#![tactic(auto)]

mod answer;
mod fails;
mod keeping;
mod links;
mod names;
mod printing;
mod reading;
mod row;
mod tables;

pub use answer::Answer;
pub use fails::{Fail, Object};
pub use keeping::{both, filled};
pub use links::{Coming, Pause};
pub use printing::{put_answer, put_bad_row, put_numbered, put_parts, put_passes, put_text};
pub use reading::{Rows, read_rows};
pub use row::{Part, Row};
pub use tables::{Does, Step, Table};
