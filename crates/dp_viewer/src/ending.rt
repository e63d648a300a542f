//! How a run ends whose picture was to be written.

ghost use Rattle.std.specs.Prelude.{◌≡◌, IsErrOf, OnOk};

use dp_lines::RunEnd;
use dp_shown::PictureEnd;

/// How a run ends whose picture was written so. It ends as given if all of it was written.
pub fn end_written(written: Result<(), PictureEnd>, end: RunEnd) -> RunEnd
    ensures whole { OnOk written (result ≡ end) }
    ensures failed { IsErrOf written PictureEnd.Failed → result ≡ RunEnd.WriteFault }
    ensures memory { IsErrOf written PictureEnd.Memory → result ≡ RunEnd.Memory }
{
    match written {
        Ok(()) => end,
        Err(PictureEnd::Failed) => RunEnd::WriteFault,
        Err(PictureEnd::Memory) => RunEnd::Memory,
    }
}
