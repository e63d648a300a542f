//! The tests of lines of text and of words of command lines.
#![tactic(auto)]

#[cfg(test)]
mod command_lines;
#[cfg(test)]
mod lines;
