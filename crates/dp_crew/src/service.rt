//! What serves one link.

ghost use Rattle.std.specs.Prelude.{◌≡◌, Result};
ghost use Rattle.std.specs.declared.alloc.AllocError.{AllocError};
ghost use Rattle.dp_hall.specs.Calls.{HallValue, IsOf};
ghost use Rattle.dp_hall.specs.Logs.{left_by};
ghost use Rattle.dp_crew.specs.Runs.{Rules, ServesLink, GoesOn};

use dp_hall::{Machine, Seat};

/// A link after it was served.
pub struct Served<R, T, P> {
    pub rx: R,
    pub tx: T,
    pub report: P,
    /// Whether memory ran out.
    pub memory: bool,
    /// Whether one of its acts is a fault.
    pub fault: bool,
}

/// What is told of the links of a machine, of which each is a source and a sink.
pub trait Reporting<M: Machine, R, T> {
    /// What is told of a link.
    type Report: Drop;

    /// What is told of links, and of which links it is told.
    ghost rules: { Rules Self.Report M.Event (Result M.Reply AllocError) M R T };

    /// A law: what is told of a link is so of each longer log.
    fn reports_go_on()
        ensures { GoesOn rules M.may_step };
}

/// What serves a link, a source and a sink, on a seat of the machine's hall, and reports on it.
/// Workers share one.
pub trait Service<M: Machine, R, T>: Reporting<M, R, T> {
    /// The hall on whose seats it serves.
    ghost hall: { Self → HallValue M };

    /// Serves a link to its end: the link of this number, from 0, among those of the worker's wire.
    fn serve(
        &self,
        seat: &mut Seat<M>,
        rx: R,
        tx: T,
        who: u32,
        link: u32,
    ) -> Served<R, T, Self::Report>
        requires of { IsOf (hall self.now) seat.old }
        requires begins { Self.rules.begins (hall self.now).start }
        ensures of { IsOf (hall self.now) seat.new }
        ensures serves { ServesLink Self.rules
            (left_by (hall self.now).start seat.new.view.seen) who link
            seat.old.view seat.new.view (rx, tx) result };
}
