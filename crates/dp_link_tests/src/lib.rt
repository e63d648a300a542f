//! The tests of crews and links: the workers of a machine that adds bytes, and one link over
//! memory, from the Hello to the end.
#![tactic(auto)]

#[cfg(test)]
mod counter;
#[cfg(test)]
mod crews;
#[cfg(test)]
mod link;
#[cfg(test)]
mod links;
