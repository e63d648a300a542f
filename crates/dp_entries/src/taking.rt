//! The next entry of what a splitter holds.

ghost use Rattle.std.specs.Prelude.{◌≡◌, ◌+◌, ◌≤◌, length, IfOk, IfErr, IfSome, IfNone};
ghost use Rattle.dp_frame.specs.Frames.{HoldsNoFrame};
ghost use Rattle.dp_entries.specs.Ends.{IfCause};
ghost use Rattle.dp_entries.specs.Reading.{TakesBad, TakesEntry};

use crate::{Refusal, Standing};
use dp_messages::Entry;
use dp_split::Splitter;
use std::alloc::Global;

/// Why no entry is taken: the frame at this byte of the splitter's stream may not stand there, or
/// memory ran out.
#[derive(Drop, Debug)]
pub struct Stop<C> {
    pub at: u64,
    pub why: Refusal<C>,
}

/// Takes the first frame that is held, and gives the entry that it stands for with `before` frames
/// before it. It gives `None` if no whole frame is held.
///
/// # Errors
///
/// The cause if the frame may not stand, `Memory` if memory runs out. The frame is taken all
/// the same. The place is that of the frame.
pub fn take_entry<S: Standing>(
    alloc: Global,
    splitter: &mut Splitter,
    before: u64,
) -> Result<Option<Entry>, Stop<S::Cause>>
    ensures taken { IfOk result (λ taken. IfSome taken
        (TakesEntry S.may_stand before splitter.old splitter.new)) }
    ensures none { IfOk result (λ taken. IfNone taken (HoldsNoFrame splitter.old.held)) }
    ensures kept { IfOk result (λ taken. IfNone taken (splitter.new ≡ splitter.old)) }
    ensures refused { IfErr result (λ stop.
        IfCause (TakesBad S.is_cause before splitter.old splitter.new) stop.why) }
    ensures place { IfErr result (λ stop. stop.at ≡ splitter.old.at) }
    ensures later { splitter.old.at ≤ splitter.new.at }
    ensures count { splitter.new.at + length splitter.new.held
        ≡ splitter.old.at + length splitter.old.held }
{
    let at = splitter.at();
    let judged = match splitter.peek_frame() {
        Some(frame) => S::judge(alloc, before, &frame),
        None => return Ok(None),
    };
    splitter.drop_frame();
    match judged {
        Ok(entry) => Ok(Some(entry)),
        Err(why) => Err(Stop { at, why }),
    }
}
