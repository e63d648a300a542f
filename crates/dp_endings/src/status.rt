//! The status of each way to end.

ghost use Rattle.std.specs.Prelude.{◌≡◌};
ghost use Rattle.dp_endings.specs.Answer.{status_of};

use dp_lines::RunEnd;

/// The program's status if a run ends with this. The table: docs/protocol.md, "Statuses".
pub fn status_of(end: RunEnd) -> u8
    ensures { result ≡ status_of end }
{
    match end {
        RunEnd::Done => 0,
        RunEnd::BadLine(_) => 2,
        RunEnd::ReadFault => 3,
        RunEnd::WriteFault => 4,
        RunEnd::LinkFault => 5,
        RunEnd::Memory => 7,
        RunEnd::Long => 8,
        RunEnd::Truncated(_) => 9,
        RunEnd::BadMessage(_) => 10,
        RunEnd::Closed => 11,
        RunEnd::BadHeader => 12,
    }
}
