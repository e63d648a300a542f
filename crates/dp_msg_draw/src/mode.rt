//! Blend modes, as numbers.

ghost use Rattle.std.specs.Prelude.{◌≡◌, ◌↔◌, true};
ghost use Rattle.dp_fields.specs.Fields.{one_byte};
ghost use Rattle.dp_msg_draw.specs.FieldLaws.{mode_field};
ghost use Rattle.dp_msg_draw.specs.Limits.{IsListedMode};

use dp_fields::Field;
use std::alloc::AllocError;

/// Whether a number is that of a blend mode.
pub(crate) fn is_listed_mode(mode: u8) -> bool
    ensures { (result ≡ true) ↔ IsListedMode mode }
{
    matches!(mode, 0 | 1 | 2 | 9 | 10 | 255)
}

/// The number of a blend mode. Only those that are listed are taken.
#[derive(Drop)]
pub(crate) struct ModeNumber(pub u8);

impl Field for ModeNumber {
    ghost spelling = { λ m. one_byte m.0 };

    ghost valid = { λ m. IsListedMode m.0 };

    ghost is_field = { mode_field };

    fn take(bytes: &[u8]) -> Option<(ModeNumber, &[u8])> {
        match bytes {
            [mode, rest @ ..] if is_listed_mode(*mode) => Some((ModeNumber(*mode), rest)),
            _ => None,
        }
    }

    fn put(&self, out: &mut Vec<u8>) -> Result<(), AllocError> {
        self.0.put(out)
    }
}
