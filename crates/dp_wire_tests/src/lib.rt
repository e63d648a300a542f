//! The tests of links in memory and over TCP.
#![tactic(auto)]

#[cfg(test)]
mod checks;
#[cfg(test)]
mod links;
#[cfg(test)]
mod sockets;
