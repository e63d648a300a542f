//! The tests of rights and of the list of layers: what no row of `dp_rows` shows.
#![tactic(auto)]

#[cfg(test)]
mod acl;
#[cfg(test)]
mod layers;
