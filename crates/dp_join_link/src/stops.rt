//! What stops a client over a link.

ghost use Rattle.std.specs.Prelude.{◌≡◌};
ghost use Rattle.dp_join_link.specs.Stops.{end_of, stop_of};
ghost use Rattle.dp_join_link.specs.Links.{link_end};

use crate::join_standing::LinkFlaw;
use dp_entries::ReadEnd;
use dp_lines::RunEnd;
use std::alloc::AllocError;

/// Why a link gives no entry more.
#[derive(Clone, Copy)]
pub enum LinkCause {
    /// It has ended, or a Disconnect came.
    Closed,
    /// The frame at this byte may not stand there.
    BadMessage(u64),
    /// It has more bytes than count.
    Long,
}

impl LinkCause {
    /// How a run ends whose link gives no entry more for this cause.
    pub fn run_end(self) -> RunEnd
        ensures { result ≡ link_end self }
    {
        match self {
            LinkCause::Closed => RunEnd::Closed,
            LinkCause::BadMessage(at) => RunEnd::BadMessage(at),
            LinkCause::Long => RunEnd::Long,
        }
    }
}

/// Why a client over a link goes no further.
#[derive(Clone, Copy)]
pub enum JoinStop {
    /// The output failed.
    WriteFault,
    /// The link failed.
    LinkFault,
    /// Memory ran out.
    Memory,
    /// The link gives no entry more.
    NoEntry(LinkCause),
}

impl From<AllocError> for JoinStop {
    ghost use Rattle.dp_join_link.specs.declared.stops.JoinStop.{JoinStop};

    ghost from_gives = { λ _ e. e ≡ JoinStop.Memory };

    fn from(_full: AllocError) -> JoinStop {
        JoinStop::Memory
    }
}

impl JoinStop {
    /// How a run ends that stops with this.
    pub fn run_end(self) -> RunEnd
        ensures { result ≡ end_of self }
    {
        match self {
            JoinStop::WriteFault => RunEnd::WriteFault,
            JoinStop::LinkFault => RunEnd::LinkFault,
            JoinStop::Memory => RunEnd::Memory,
            JoinStop::NoEntry(cause) => cause.run_end(),
        }
    }
}

/// What stops the client if reading its link ended with this.
pub(crate) fn stop_of(end: &ReadEnd<LinkFlaw>) -> JoinStop
    ensures { result ≡ stop_of end.now }
{
    match end {
        ReadEnd::ReadFault => JoinStop::LinkFault,
        ReadEnd::Truncated(_) => JoinStop::NoEntry(LinkCause::Closed),
        ReadEnd::BadMessage(_, at) => JoinStop::NoEntry(LinkCause::BadMessage(*at)),
        ReadEnd::Long => JoinStop::NoEntry(LinkCause::Long),
        ReadEnd::Memory => JoinStop::Memory,
    }
}
