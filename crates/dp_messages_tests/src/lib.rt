//! The tests of messages and of their payloads: what no row of `dp_rows` shows.
#![tactic(auto)]

#[cfg(test)]
mod messages;
