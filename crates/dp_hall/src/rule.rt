//! The rule of the table, and what each step on it tells.

use crate::slot::SlotOf;
use crate::view::ViewOf;
use atomic_table::{Join, Play, Split, TableRule};
use dp_machine::Machine;
use std::marker::PhantomData;
use std::snapshot::Snapshot;

/// The rule. Its key is the machine at the start.
pub struct HallRule<M> {
    of: PhantomData<M>,
}

impl<M: Machine> TableRule<SlotOf<M>, ViewOf<M>, Snapshot<M>> for HallRule<M> {
    ghost use Rattle.dp_hall.specs.Rule.{IsKept, first_view};

    ghost holds = { λ key. IsKept M.may_step key.value };

    ghost first = { λ key. first_view key.value };
}

/// A try to take the turn.
pub struct Take<M> {
    of: PhantomData<M>,
}

impl<M: Machine> Play<SlotOf<M>, ViewOf<M>> for Take<M> {
    ghost use Rattle.dp_hall.specs.Rule.{took};

    ghost then = { took M.may_step };
}

/// The count goes up: the step in hand gets its place in the log.
pub struct Count<M> {
    of: PhantomData<M>,
}

impl<M: Machine> Play<SlotOf<M>, ViewOf<M>> for Count<M> {
    ghost use Rattle.dp_hall.specs.Rule.{counted};

    ghost then = { counted };
}

/// The turn is given back.
pub struct Give<M> {
    of: PhantomData<M>,
}

impl<M: Machine> Play<SlotOf<M>, ViewOf<M>> for Give<M> {
    ghost use Rattle.dp_hall.specs.Rule.{given_back};

    ghost then = { given_back };
}

/// The count is read.
pub struct ReadCount<M> {
    of: PhantomData<M>,
}

impl<M: Machine> Play<SlotOf<M>, ViewOf<M>> for ReadCount<M> {
    ghost use Rattle.dp_hall.specs.Rule.{looked};

    ghost then = { looked };
}

/// A word that the rule does not read changes.
pub struct Stay<M> {
    of: PhantomData<M>,
}

impl<M: Machine> Play<SlotOf<M>, ViewOf<M>> for Stay<M> {
    ghost use Rattle.dp_hall.specs.Rule.{stayed};

    ghost then = { stayed };
}

/// A look after a split or a join: the whole table shows that the seat is sound.
pub struct Confirm<M> {
    of: PhantomData<M>,
}

impl<M: Machine> Play<SlotOf<M>, ViewOf<M>> for Confirm<M> {
    ghost use Rattle.dp_hall.specs.Rule.{confirmed};

    ghost then = { confirmed M.may_step };
}

/// How a view is split in two, and how two are joined.
pub struct Pairing<M> {
    of: PhantomData<M>,
}

impl<M: Machine> Split<ViewOf<M>> for Pairing<M> {
    ghost use Rattle.dp_hall.specs.Rule.{split_left, split_right};

    ghost left = { split_left };

    ghost right = { split_right };
}

impl<M: Machine> Join<ViewOf<M>> for Pairing<M> {
    ghost use Rattle.dp_hall.specs.Rule.{joined, spent_view};

    ghost both = { joined };

    ghost spent = { spent_view };
}
