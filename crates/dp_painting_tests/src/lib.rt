//! The tests of canvases and pictures, in a crate of their own: so each crate of these is proved
//! once, and not once more with its tests.
#![tactic(auto)]

#[cfg(test)]
mod boards;
#[cfg(test)]
mod pictures;
#[cfg(test)]
mod workers;
