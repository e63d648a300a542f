//! What the words after the program's name ask for.
//!
//! The rule: docs/protocol.md, "Commands".
#![tactic(auto)]

mod app;
mod command_line;
mod devices;
mod form;
mod laws;
mod parser;
mod word;

pub use command_line::{CommandLine, LocalCommand, Service};
pub use devices::{Devices, wanted};
pub use form::{Form, Kind, program_of};
pub use laws::{one_command_line, several_words_are_found, some_command_lines};
pub use parser::read_words;
pub use word::Word;
