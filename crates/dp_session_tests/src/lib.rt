//! The tests of sessions, in a crate of their own: so dp_session is proved once, and not once more
//! with them.
#![tactic(auto)]

#[cfg(test)]
mod resuming;
#[cfg(test)]
mod tests;
