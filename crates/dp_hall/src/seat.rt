//! A seat, as its holder sees it.

ghost use Rattle.std.specs.Prelude.{◌≡◌, []};
ghost use Rattle.dp_hall.specs.Calls.{IsSound};

use crate::turn::TableSeat;
use dp_machine::Machine;
use std::marker::Model;

/// A token to act on a hall by. It takes no bytes. Contracts see which hall it is of, and its
/// view: what it knows of the log. It can't be dropped: it is joined into another seat, or it
/// closes the hall.
pub struct Seat<M: Machine> {
    pub(crate) token: TableSeat<M>,
}

impl<M: Machine> Model for Seat<M> {
    ghost use Rattle.std.specs.Prelude.{◌≡◌, Result, []};
    ghost use Rattle.std.specs.declared.alloc.AllocError.{AllocError};
    ghost use Rattle.dp_hall.specs.Calls.{SeatValue, IsSound};

    ghost Value = { SeatValue M.Event (Result M.Reply AllocError) M };

    ghost view = { λ s. record { table = s.token.table_id; view = s.token.me.0 } };

    ghost invariant = { λ s. (s.token.me.1 ≡ []) × IsSound M.may_step s.token.me.0 };
}

impl<M: Machine> Seat<M> {
    /// The seat of the table, with nothing in hand.
    pub(crate) fn into_token(self) -> TableSeat<M>
        ensures is { (result.table_id ≡ self.table) × (result.me.0 ≡ self.view) }
        ensures hand { result.me.1 ≡ [] }
        ensures sound { IsSound M.may_step result.me.0 }
    {
        let Seat { token } = self;
        token
    }
}
