//! The last field of a payload, which runs to its end.

ghost use Rattle.std.specs.Prelude.{◌++◌, List, ℕ};
ghost use Rattle.dp_fields.specs.Reading.{Answers, Spells};

use crate::error::PayloadError;
use crate::field::Field;
use std::alloc::Global;

/// What runs to the payload's end.
pub trait Tail: Drop {
    ghost spelling: { Self → List ℕ };

    ghost valid: { Self → Type 0 };

    /// What all the bytes are.
    fn read(alloc: Global, bytes: &[u8]) -> Result<Self, PayloadError>
        ensures { Answers (Spells spelling valid bytes.now) result };
}

/// A field, and then what runs to the payload's end.
pub fn read_both<F: Field, T: Tail>(alloc: Global, bytes: &[u8]) -> Result<(F, T), PayloadError>
    ensures { Answers (Spells (λ x. F.spelling x.0 ++ T.spelling x.1)
        (λ x. F.valid x.0 × T.valid x.1) bytes.now) result }
{
    let Some((field, rest)) = F::take(bytes) else {
        return Err(PayloadError::Malformed);
    };
    match T::read(alloc, rest) {
        Ok(tail) => Ok((field, tail)),
        Err(error) => Err(error),
    }
}
