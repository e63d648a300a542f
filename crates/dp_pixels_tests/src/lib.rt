//! The tests of drawing messages, of blending, and of commands on pixels.
#![tactic(auto)]

#[cfg(test)]
mod blending;
#[cfg(test)]
mod colors;
#[cfg(test)]
mod commands;
#[cfg(test)]
mod drawing;
