//! Laws of inputs. Each function does nothing but call others: its contract is the law.

ghost use Rattle.std.specs.Prelude.{◌≡◌, ℕ, List};
ghost use Rattle.dp_messages.specs.declared.message.Entry.{Entry};
ghost use Rattle.dp_lines.specs.declared.run_end.RunEnd.{RunEnd};
ghost use Rattle.dp_recording.specs.Recordings.{RecordingComesTo};
ghost use Rattle.dp_viewer.specs.Ways.{ReplayComesTo};

use dp_entries::{Anywhere, each_input_ends, one_reading};
use dp_recording::{each_recording_ends, one_recording};

/// For `replay` an input comes to at most one end, with one list of entries: so the answer that it
/// is due is one.
pub fn one_replay()
    ensures entries { (input : List ℕ) (entries others : List Entry) (end other : RunEnd)
        → ReplayComesTo input entries end → ReplayComesTo input others other → entries ≡ others }
    ensures end { (input : List ℕ) (entries others : List Entry) (end other : RunEnd)
        → ReplayComesTo input entries end → ReplayComesTo input others other → end ≡ other }
{
    one_reading::<Anywhere>();
}

/// A recording comes to one list of entries and one end: the law for `play`.
pub fn one_play()
    ensures entries { (input : List ℕ) (entries others : List Entry) (end other : RunEnd)
        → RecordingComesTo input entries end → RecordingComesTo input others other
        → entries ≡ others }
    ensures end { (input : List ℕ) (entries others : List Entry) (end other : RunEnd)
        → RecordingComesTo input entries end → RecordingComesTo input others other → end ≡ other }
{
    one_recording();
}

/// For `replay` it can't be that an input comes to no end.
pub fn each_replay_ends()
    ensures { (input : List ℕ)
        → ¬ ((entries : List Entry) (end : RunEnd) → ¬ ReplayComesTo input entries end) }
{
    each_input_ends::<Anywhere>();
}

/// Each recording comes to some entries and an end: the law for `play`.
pub fn each_play_ends()
    ensures { (input : List ℕ)
        → ¬ ((entries : List Entry) (end : RunEnd) → ¬ RecordingComesTo input entries end) }
{
    each_recording_ends();
}
