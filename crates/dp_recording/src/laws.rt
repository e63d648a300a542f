//! Laws of recordings. Each function does nothing: its contract is the law.

ghost use Rattle.std.specs.Prelude.{◌≡◌, ℕ, List, ◌++◌};
ghost use Rattle.dp_messages.specs.declared.message.Entry.{Entry};
ghost use Rattle.dp_lines.specs.declared.run_end.RunEnd.{RunEnd};
ghost use Rattle.dp_recording.specs.declared.header.Profile.{Profile};
ghost use Rattle.dp_recording.specs.declared.header.Profile.TheVariants.{Second};
ghost use Rattle.dp_recording.specs.Headers.{HasNoHeader, IsHeader, IsShort, header_bytes};
ghost use Rattle.dp_recording.specs.Recordings.{RecordingComesTo};

use dp_entries::{Anywhere, FirstProfile, each_input_ends, one_reading};

/// Bytes begin with one header at most, which tells one profile. More bytes after it change
/// nothing. Bytes that are too few for a header begin with none; others that begin with none never
/// do.
pub fn one_header()
    ensures one { (bytes : List ℕ) (profile other : Profile) (len more : ℕ)
        → IsHeader bytes profile len → IsHeader bytes other more
        → (profile ≡ other) × (len ≡ more) }
    ensures goes_on { (bytes more : List ℕ) (profile : Profile) (len : ℕ)
        → IsHeader bytes profile len → IsHeader (bytes ++ more) profile len }
    ensures short { (bytes : List ℕ) → IsShort bytes → HasNoHeader bytes }
    ensures none { (bytes more : List ℕ) → HasNoHeader bytes → ¬ IsShort bytes
        → HasNoHeader (bytes ++ more) }
{}

/// The header that is written is one of today's profile, whatever comes after it.
pub fn the_header_is_one()
    ensures { (more : List ℕ) → IsHeader (header_bytes ++ more) Second 30 }
{}

/// A recording comes to at most one end, with one list of entries.
pub fn one_recording()
    ensures entries { (input : List ℕ) (entries others : List Entry) (end other : RunEnd)
        → RecordingComesTo input entries end → RecordingComesTo input others other
        → entries ≡ others }
    ensures end { (input : List ℕ) (entries others : List Entry) (end other : RunEnd)
        → RecordingComesTo input entries end → RecordingComesTo input others other → end ≡ other }
{
    one_header();
    one_reading::<FirstProfile>();
    one_reading::<Anywhere>();
}

/// It can't be that a recording comes to no end.
pub fn each_recording_ends()
    ensures { (input : List ℕ) → ¬ ((entries : List Entry) (end : RunEnd)
        → ¬ RecordingComesTo input entries end) }
{
    each_input_ends::<FirstProfile>();
    each_input_ends::<Anywhere>();
}
