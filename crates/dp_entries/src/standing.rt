//! Which frames may stand in a stream, and for which entries.

use crate::Refusal;
use dp_frame::FrameView;
use dp_messages::Entry;
use std::alloc::Global;

/// Which frames may stand in a stream, and for which entries: a type for each kind of stream.
pub trait Standing {
    ghost use Rattle.std.specs.Prelude.{◌≡◌, ℕ, IfOk, IfErr};
    ghost use Rattle.dp_frame.specs.Frames.{FrameParts};
    ghost use Rattle.dp_messages.specs.declared.message.Entry.{Entry as Item};
    ghost use Rattle.dp_entries.specs.Ends.{IfCause};

    /// Why a frame may not stand.
    type Cause: Drop;

    /// With n frames before it, the frame may stand for the entry.
    ghost may_stand: { ℕ → FrameParts → Item → Type 0 };

    /// With n frames before it, the frame may stand for no entry, for this cause.
    ghost is_cause: { ℕ → FrameParts → Self.Cause → Type 0 };

    /// The entry that the frame stands for, with `before` frames before it.
    ///
    /// # Errors
    ///
    /// The cause if it may not stand; `Memory` if memory runs out.
    fn judge(
        alloc: Global,
        before: u64,
        frame: &FrameView<'_>,
    ) -> Result<Entry, Refusal<Self::Cause>>
        ensures stands { IfOk result (may_stand before frame.now) }
        ensures refused { IfErr result (IfCause (is_cause before frame.now)) };

    /// A frame may stand for at most one entry, and for none if there is a cause. It does
    /// nothing: its contract is the law.
    fn one_standing()
        ensures one { (before : ℕ) (frame : FrameParts) (e f : Item)
            → may_stand before frame e → may_stand before frame f → e ≡ f }
        ensures none { (before : ℕ) (frame : FrameParts) (cause : Self.Cause) (e : Item)
            → is_cause before frame cause → ¬ may_stand before frame e };
}
