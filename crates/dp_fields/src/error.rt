//! Why a payload was not read.

ghost use Rattle.std.specs.Prelude.{◌≡◌};
ghost use Rattle.dp_fields.specs.declared.error.PayloadError.TheVariants.{Memory};

use std::alloc::{AllocError, AllocFailed};

/// Why a payload was not read.
#[derive(Clone, Copy, Debug, PartialEq, Eq)]
pub enum PayloadError {
    /// The payload spells no message of its kind.
    Malformed,
    /// Memory ran out.
    Memory,
}

impl From<AllocError> for PayloadError {
    ghost from_gives = { λ _ e. e ≡ Memory };

    fn from(_e: AllocError) -> PayloadError {
        PayloadError::Memory
    }
}

impl<T: Drop> From<AllocFailed<T>> for PayloadError {
    ghost from_gives = { λ _ e. e ≡ Memory };

    fn from(_e: AllocFailed<T>) -> PayloadError {
        PayloadError::Memory
    }
}
