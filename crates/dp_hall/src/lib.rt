//! A hall: one machine that many seats act on, one at a time, so that all their acts are one legal
//! log. A seat takes no bytes: what it knows of the log is for contracts alone.
#![tactic(auto)]

mod hall;
mod laws;
mod listener;
mod looking;
mod rule;
mod seat;
mod slot;
mod turn;
mod view;

pub use dp_machine::Machine;
pub use hall::{Hall, HallError};
pub use laws::{
    calls_add_up, entries_add_up, halls_cross_threads, seats_are_sound, seats_come_back,
    seats_rejoin,
};
pub use listener::{Acted, Listener};
pub use looking::Look;
pub use seat::Seat;
pub use view::{Entry, View};
