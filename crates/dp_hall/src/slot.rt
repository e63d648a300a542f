//! What the slot of the table holds.

use crate::view::OutcomeOf;
use dp_machine::Machine;
use std::snapshot::Snapshot;

/// The machine, and the event and the outcome of its last step. These two take no bytes: by them
/// the next step on the table knows which entry it adds to the log.
pub struct Stored<E, O, M> {
    pub machine: Box<M>,
    pub last: Option<(Snapshot<E>, Snapshot<O>)>,
}

pub(crate) type StoredOf<M> = Stored<<M as Machine>::Event, OutcomeOf<M>, M>;

/// `None` while a seat has it in hand.
pub(crate) type SlotOf<M> = Option<StoredOf<M>>;
