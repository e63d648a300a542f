//! Laws of recordings. Each function does nothing but call others: its contract is the law.

ghost use Rattle.std.specs.Prelude.{◌≡◌, ℕ, ◌≤◌, List, length};
ghost use Rattle.std.specs.List.{AllByRecursion};
ghost use Rattle.dp_frame.specs.Frames.{FrameParts};
ghost use Rattle.dp_io.specs.Limits.{stream_limit};
ghost use Rattle.dp_messages.specs.declared.message.Entry.{Entry};
ghost use Rattle.dp_messages.specs.Messages.{HasSpelling};
ghost use Rattle.dp_lines.specs.declared.run_end.RunEnd.TheVariants.{Done, Truncated};
ghost use Rattle.dp_entries.specs.Anywhere.{StandsLifted};
ghost use Rattle.dp_entries.specs.Input.{ComesTo};
ghost use Rattle.dp_replay.specs.Replay.{is_mark, shown, user_act_of};
ghost use Rattle.dp_recording.specs.declared.header.Profile.TheVariants.{First};
ghost use Rattle.dp_recording.specs.Headers.{IsHeader};
ghost use Rattle.dp_recording.specs.Recordings.{RecordingComesTo, recording};
ghost use Rattle.dp_recording_laws.specs.FirstProfile.{StoodFirst};

use dp_messages::{entries_are_read_again, lifting, one_message};
use dp_recording::the_header_is_one;

/// A recording that was written is read again, entry by entry, to its end: of entries whose
/// messages have a spelling, and if it has no more bytes than count.
pub fn recordings_are_read_again()
    ensures { (entries : List Entry) → AllByRecursion (λ e. HasSpelling e.msg) entries
        → length (recording entries) ≤ stream_limit
        → RecordingComesTo (recording entries) entries Done }
{
    the_header_is_one();
    entries_are_read_again();
}

/// What stood for an entry in the first profile still stands for one, which does the same to
/// strokes. So a recording of that profile shows what it showed.
pub fn lifting_keeps_acts()
    ensures stands { (before : ℕ) (frame : FrameParts) (e : Entry) → StoodFirst before frame e
        → (f : Entry) × StandsLifted before frame f }
    ensures acts { (before : ℕ) (frame : FrameParts) (e f : Entry) → StoodFirst before frame e
        → StandsLifted before frame f
        → (user_act_of f ≡ user_act_of e) × (is_mark f ≡ is_mark e) }
    ensures whole { (input : List ℕ) (len : ℕ) (entries : List Entry) → IsHeader input First len
        → ComesTo StoodFirst len stream_limit input entries Done
        → (others : List Entry) × RecordingComesTo input others Done
        × (shown others ≡ shown entries) }
    ensures cut { (input : List ℕ) (len n : ℕ) (entries : List Entry) → IsHeader input First len
        → ComesTo StoodFirst len stream_limit input entries (Truncated n)
        → (others : List Entry) × RecordingComesTo input others (Truncated n)
        × (shown others ≡ shown entries) }
{
    lifting();
    one_message();
}
