//! The words of a line.
//!
//! The rule: docs/protocol.md, "Lines".

ghost use Rattle.std.specs.Prelude.{◌≡◌, length, slice_get};
ghost use Rattle.std.specs.Option.{option_copied};
ghost use Rattle.dp_lines.specs.Lines.{words};

use crate::Line;

/// The byte that separates two words.
const SPACE: u8 = b' ';

/// The word of the line at index `k`; `None` if it has no more than `k` words.
pub fn word(line: &Line, k: usize) -> Option<&[u8]>
    ensures { option_copied result ≡ slice_get (words line.now.bytes) k }
{
    line.bytes.as_slice().split(|byte| *byte == SPACE).nth(k)
}

/// How many words the line has: at least one.
pub fn word_count(line: &Line) -> usize
    ensures { result ≡ length (words line.now.bytes) }
{
    line.bytes.as_slice().split(|byte| *byte == SPACE).count()
}
