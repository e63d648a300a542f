//! The tests of tiles, and of layers that are grids of them.
#![tactic(auto)]

#[cfg(test)]
mod painting;
#[cfg(test)]
mod tiles;
