//! What seats know of the log. No value of these types is made: they are for contracts alone.

use dp_machine::Machine;
use std::alloc::AllocError;
use std::collections::LinkedList;

/// An entry of the log.
pub struct Entry<E, O, M> {
    /// The name of the seat that acted.
    pub by: LinkedList<u64>,
    pub event: E,
    /// What the step answered: a reply, or that memory ran out.
    pub outcome: O,
    /// The machine after the step.
    pub left: M,
}

/// What a seat knows.
pub struct View<E, O, M> {
    /// It was not joined into another seat.
    pub live: bool,
    /// It has the turn.
    pub holds: bool,
    /// The machine at the start; none if the seat is not live.
    pub start: Option<M>,
    /// Its name: empty for the seat of the start, or that of the seat that it was split from with
    /// one number more.
    pub name: LinkedList<u64>,
    /// A prefix of the log.
    pub seen: LinkedList<Entry<E, O, M>>,
    /// The entries of its own calls, in order.
    pub mine: LinkedList<Entry<E, O, M>>,
    /// A number of acts that have ended.
    pub known: u64,
    /// The seats joined into it, directly or with another: their names and their entries.
    pub olds: LinkedList<(LinkedList<u64>, LinkedList<Entry<E, O, M>>)>,
    /// The names of the seats split from it, or from a seat joined into it.
    pub made: LinkedList<LinkedList<u64>>,
    /// How many seats were split from it.
    pub splits: u64,
    /// The shorter of what two seats had seen, while they are being joined.
    pub other: LinkedList<Entry<E, O, M>>,
}

pub(crate) type OutcomeOf<M> = Result<<M as Machine>::Reply, AllocError>;

pub(crate) type ViewOf<M> = View<<M as Machine>::Event, OutcomeOf<M>, M>;
