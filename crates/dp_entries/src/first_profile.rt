//! Frames of the first profile that may stand wherever they are.

use crate::anywhere::refusal_of;
use crate::{Anywhere, Refusal, Standing};
use dp_frame::FrameView;
use dp_messages::{DecodeError, Entry, lifted_kind, one_answer, read_message};
use std::alloc::Global;

/// Each frame of the first profile that carries an entry may stand, wherever it is.
pub struct FirstProfile;

impl Standing for FirstProfile {
    ghost use Rattle.dp_entries.specs.Anywhere.{IsCauseLifted, StandsLifted};

    type Cause = DecodeError;

    ghost may_stand = { StandsLifted };

    ghost is_cause = { IsCauseLifted };

    #[inline(always)]
    fn judge(
        alloc: Global,
        before: u64,
        frame: &FrameView<'_>,
    ) -> Result<Entry, Refusal<DecodeError>> {
        let kind = lifted_kind(frame.kind());
        if kind == frame.kind() {
            return Anywhere::judge(alloc, before, frame);
        }
        match read_message(alloc, kind, frame.body()) {
            Ok(msg) => Ok(Entry {
                user: frame.user(),
                msg,
            }),
            Err(error) => Err(refusal_of(error)),
        }
    }

    fn one_standing() {
        one_answer();
    }
}
