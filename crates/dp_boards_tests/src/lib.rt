//! The tests of which commands of a history are drawn, and of rollbacks, boards that trail and
//! forks over rows of numbers. They use no pixels and no layers.
#![tactic(auto)]

#[cfg(test)]
mod forks;
#[cfg(test)]
mod numbers;
#[cfg(test)]
mod rollbacks;
#[cfg(test)]
mod strokes;
