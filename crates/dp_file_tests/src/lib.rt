//! The tests of rows in a file, in a crate of their own, since their check takes memory.
#![tactic(auto)]

#[cfg(test)]
mod files;
