//! Lines of a text that comes in pieces, their words, and the numbers and bytes that words spell.
#![tactic(auto)]

mod hexadecimal;
mod laws;
mod line;
mod lines;
mod numbers;
mod run_end;
mod words;

pub use hexadecimal::{hex_of, put_hex};
pub use laws::{
    StepRule, further_step, hex_read_back, lines_seen, one_end, one_number, one_way, still_left,
    whole_lines,
};
pub use line::{Line, LineBytes};
pub use lines::{LineError, Lines};
pub use numbers::{long_number, number, put_number};
pub use run_end::RunEnd;
pub use words::{word, word_count};
