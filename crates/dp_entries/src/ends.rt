//! How reading entries ends.

ghost use Rattle.std.specs.Prelude.{◌≡◌};
ghost use Rattle.dp_entries.specs.Ends.{end_of};

use dp_lines::RunEnd;

/// Why a frame gives no entry.
#[derive(Drop, Debug)]
pub enum Refusal<C> {
    /// It may not stand where it is.
    Cause(C),
    /// Memory ran out.
    Memory,
}

/// Why there is no next entry.
#[derive(Drop, Debug)]
pub enum ReadEnd<C> {
    /// The input failed.
    ReadFault,
    /// The input ends inside the frame at this byte.
    Truncated(u64),
    /// For this cause the frame at this byte may not stand there.
    BadMessage(C, u64),
    /// The input has more bytes than count.
    Long,
    /// Memory ran out.
    Memory,
}

impl<C> ReadEnd<C> {
    /// How a run ends for which reading its input ended with this.
    pub fn run_end(&self) -> RunEnd
        ensures { result ≡ end_of self.now }
    {
        match self {
            ReadEnd::ReadFault => RunEnd::ReadFault,
            ReadEnd::Truncated(at) => RunEnd::Truncated(*at),
            ReadEnd::BadMessage(_, at) => RunEnd::BadMessage(*at),
            ReadEnd::Long => RunEnd::Long,
            ReadEnd::Memory => RunEnd::Memory,
        }
    }
}
