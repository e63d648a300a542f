//! The tests of the plain board, of the acts of entries, and of snapshots: what no row of `dp_rows`
//! shows.
#![tactic(auto)]

#[cfg(test)]
mod plain;
#[cfg(test)]
mod snapshots;
