//! Tests of the program through its top call: links on the loopback, and the wires that words want.
//! Links in memory are in the rows of `dp_rows`.
#![tactic(auto)]

#[cfg(test)]
mod runs;
#[cfg(test)]
mod together;
#[cfg(test)]
mod wires;
