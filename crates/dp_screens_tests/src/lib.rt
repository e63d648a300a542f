//! The tests of screens over plain boards and canvases.
#![tactic(auto)]

#[cfg(test)]
mod screens;
