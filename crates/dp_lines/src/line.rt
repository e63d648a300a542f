//! A line with its number.
//!
//! The rule: docs/protocol.md, "Lines".

use dp_lists::Listed;

/// The bytes of a line, without its newline.
pub type LineBytes = Listed<u8>;

/// A line that isn't passed over, and its number: the first line of the text has the number 1.
#[derive(Drop, Debug)]
pub struct Line {
    pub number: u32,
    pub bytes: LineBytes,
}
