//! Frames that may stand wherever they are.

ghost use Rattle.std.specs.Prelude.{◌≡◌, IfSome};
ghost use Rattle.dp_messages.specs.Decoded.{Carries};
ghost use Rattle.dp_entries.specs.Anywhere.{refusal_of};

use crate::{Refusal, Standing};
use dp_frame::FrameView;
use dp_messages::{DecodeError, Entry, Msg, decode, one_answer};
use dp_msg_draw::{FILL_RECT, read_fill};
use std::alloc::Global;

/// Each frame that carries an entry may stand, wherever it is.
pub struct Anywhere;

impl Standing for Anywhere {
    ghost use Rattle.dp_entries.specs.Anywhere.{IsCauseAnywhere, StandsAnywhere};

    type Cause = DecodeError;

    ghost may_stand = { StandsAnywhere };

    ghost is_cause = { IsCauseAnywhere };

    #[inline(always)]
    fn judge(
        alloc: Global,
        _before: u64,
        frame: &FrameView<'_>,
    ) -> Result<Entry, Refusal<DecodeError>> {
        if let Some(entry) = fill_of(frame) {
            return Ok(entry);
        }
        match decode(alloc, frame) {
            Ok(entry) => Ok(entry),
            Err(error) => Err(refusal_of(error)),
        }
    }

    fn one_standing() {
        one_answer();
    }
}

/// The entry of a frame that carries a fill. `decode` gives the same; but sessions have most of
/// these, and this entry is made at once, if `decode` moves it from answer to answer.
#[inline(always)]
fn fill_of(frame: &FrameView<'_>) -> Option<Entry>
    ensures { IfSome result (Carries frame.now) }
{
    if frame.kind() != FILL_RECT {
        return None;
    }
    match read_fill(frame.body()) {
        Some(fill) => Some(Entry {
            user: frame.user(),
            msg: Msg::Draw(fill),
        }),
        None => None,
    }
}

/// Why a frame that isn't decoded gives no entry.
pub(crate) fn refusal_of(error: DecodeError) -> Refusal<DecodeError>
    ensures { result ≡ refusal_of error }
{
    match error {
        DecodeError::Unknown(kind) => Refusal::Cause(DecodeError::Unknown(kind)),
        DecodeError::Malformed(kind) => Refusal::Cause(DecodeError::Malformed(kind)),
        DecodeError::Memory => Refusal::Memory,
    }
}
