//! The tests of the entries that are read from frames, of recordings, and of the lines of reports:
//! what no row of `dp_rows` shows.
#![tactic(auto)]

#[cfg(test)]
mod entries;
#[cfg(test)]
mod recording;
#[cfg(test)]
mod schedule;
