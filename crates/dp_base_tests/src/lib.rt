//! The tests of the crates at the base, in a crate of their own: so each of them is proved once,
//! and not once more with its tests.
#![tactic(auto)]

#[cfg(test)]
mod checks;
#[cfg(test)]
mod frames;
#[cfg(test)]
mod jobs;
#[cfg(test)]
mod lists;
#[cfg(test)]
mod steps;
#[cfg(test)]
mod stores;
#[cfg(test)]
mod streams;
