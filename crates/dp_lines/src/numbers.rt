//! Decimal numbers.
//!
//! The rule: docs/protocol.md, "Lines".

ghost use Rattle.std.specs.Prelude.{◌≡◌, ℕ, ◌++◌, decimal, IfSome, IfNone, OnOk, OnErr};
ghost use Rattle.dp_lines.specs.Numbers.{IsLongNumber, IsNumber};

use itoa::Buffer;
use std::alloc::AllocError;
use std::str;

/// The number of 32 bits that the word is; `None` if it is none.
pub fn number(word: &[u8]) -> Option<u32>
    ensures some { IfSome result (IsNumber word.now) }
    ensures none { IfNone result ((n : ℕ) → ¬ IsNumber word.now n) }
{
    u32::try_from(long_number(word)?).ok()
}

/// The number of 64 bits that the word is; `None` if it is none.
pub fn long_number(word: &[u8]) -> Option<u64>
    ensures some { IfSome result (IsLongNumber word.now) }
    ensures none { IfNone result ((n : ℕ) → ¬ IsLongNumber word.now n) }
{
    let n = told_number(word)?;
    let mut digits = Buffer::new();
    if digits.format(n).as_bytes() == word {
        Some(n)
    } else {
        None
    }
}

/// The number that the word's digits spell, which may have zeros or a plus in front.
fn told_number(word: &[u8]) -> Option<u64>
    ensures { (n : ℕ) → IsLongNumber word.now n → result ≡ Some n }
{
    let Ok(text) = str::from_utf8(word) else {
        return None;
    };
    text.parse::<u64>().ok()
}

/// Adds the number in decimal at the end. After an error nothing has changed.
pub fn put_number(n: u32, out: &mut Vec<u8>) -> Result<(), AllocError>
    ensures ok { OnOk result (out.new.items ≡ out.old.items ++ decimal n) }
    ensures err { OnErr result (out.new.items ≡ out.old.items) }
{
    let mut digits = Buffer::new();
    out.extend_from_slice(digits.format(n).as_bytes())
}
