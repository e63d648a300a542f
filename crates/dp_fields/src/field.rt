//! Fields of a payload: how each is taken from the beginning of bytes, and put at their end.

ghost use Rattle.std.specs.Prelude.{◌≡◌, ◌<◌, ◌^◌, ◌++◌, ℕ, List, length, IfSome, IfNone, OnOk, ⊤};
ghost use Rattle.std.specs.Int.{w32};
ghost use Rattle.std.specs.Int.RustNames.{FitsSigned};
ghost use Rattle.dp_fields.specs.Fields.{one_byte, two_bytes, four_bytes, four_signed, flag_byte};
ghost use Rattle.dp_fields.specs.FieldLaws.{IsField, byte_field, two_field, four_field};
ghost use Rattle.dp_fields.specs.FieldLaws.{signed_field, flag_field, pair_field};
ghost use Rattle.dp_fields.specs.Reading.{Begins, Finds, Spells};

use byteorder::{BigEndian, ByteOrder};
use std::alloc::AllocError;

/// A field of a payload that doesn't depend on what follows.
pub trait Field: Drop {
    ghost spelling: { Self → List ℕ };

    ghost valid: { Self → Type 0 };

    /// The field that begins the bytes, and the bytes after it.
    fn take(bytes: &[u8]) -> Option<(Self, &[u8])>
        ensures some { IfSome result (λ x. Begins spelling valid bytes.now x.0 x.1.now) }
        ensures none { IfNone result ((x : Self) (rest : List ℕ)
            → Begins spelling valid bytes.now x rest → ⊥) }
        ensures shorter { IfSome result (λ x. length x.1.now < length bytes.now) };

    /// Puts the field at the end. If memory runs out, some of its bytes may stand there.
    fn put(&self, out: &mut Vec<u8>) -> Result<(), AllocError>
        ensures { OnOk result (out.new.items ≡ out.old.items ++ spelling self.now) };

    ghost is_field: { IsField spelling valid };
}

impl Field for u8 {
    ghost spelling = { one_byte };

    ghost valid = { λ n. n < 2 ^ 8 };

    ghost is_field = { byte_field };

    fn take(bytes: &[u8]) -> Option<(u8, &[u8])> {
        match bytes {
            [] => None,
            [byte, rest @ ..] => Some((*byte, rest)),
        }
    }

    fn put(&self, out: &mut Vec<u8>) -> Result<(), AllocError> {
        out.push(*self)?;
        Ok(())
    }
}

impl Field for u16 {
    ghost spelling = { two_bytes };

    ghost valid = { λ n. n < 2 ^ 16 };

    ghost is_field = { two_field };

    fn take(bytes: &[u8]) -> Option<(u16, &[u8])> {
        if bytes.len() < 2 {
            return None;
        }
        Some((BigEndian::read_u16(bytes), &bytes[2..]))
    }

    fn put(&self, out: &mut Vec<u8>) -> Result<(), AllocError> {
        let mut bytes = [0; 2];
        BigEndian::write_u16(&mut bytes, *self);
        out.extend_from_slice(&bytes)
    }
}

impl Field for u32 {
    ghost spelling = { four_bytes };

    ghost valid = { λ n. n < 2 ^ 32 };

    ghost is_field = { four_field };

    fn take(bytes: &[u8]) -> Option<(u32, &[u8])> {
        if bytes.len() < 4 {
            return None;
        }
        Some((BigEndian::read_u32(bytes), &bytes[4..]))
    }

    fn put(&self, out: &mut Vec<u8>) -> Result<(), AllocError> {
        let mut bytes = [0; 4];
        BigEndian::write_u32(&mut bytes, *self);
        out.extend_from_slice(&bytes)
    }
}

impl Field for i32 {
    ghost spelling = { four_signed };

    ghost valid = { λ z. FitsSigned w32 z };

    ghost is_field = { signed_field };

    fn take(bytes: &[u8]) -> Option<(i32, &[u8])> {
        if bytes.len() < 4 {
            return None;
        }
        Some((BigEndian::read_i32(bytes), &bytes[4..]))
    }

    fn put(&self, out: &mut Vec<u8>) -> Result<(), AllocError> {
        self.cast_unsigned().put(out)
    }
}

impl Field for bool {
    ghost spelling = { flag_byte };

    ghost valid = { λ _. ⊤ };

    ghost is_field = { flag_field };

    fn take(bytes: &[u8]) -> Option<(bool, &[u8])> {
        match bytes {
            [0, rest @ ..] => Some((false, rest)),
            [1, rest @ ..] => Some((true, rest)),
            _ => None,
        }
    }

    fn put(&self, out: &mut Vec<u8>) -> Result<(), AllocError> {
        u8::from(*self).put(out)
    }
}

/// One field after the other.
impl<A: Field, B: Field> Field for (A, B) {
    ghost spelling = { λ p. A.spelling p.0 ++ B.spelling p.1 };

    ghost valid = { λ p. A.valid p.0 × B.valid p.1 };

    ghost is_field = { pair_field A.is_field B.is_field };

    fn take(bytes: &[u8]) -> Option<((A, B), &[u8])> {
        let Some((first, rest)) = A::take(bytes) else {
            return None;
        };
        let Some((second, rest)) = B::take(rest) else {
            return None;
        };
        Some(((first, second), rest))
    }

    fn put(&self, out: &mut Vec<u8>) -> Result<(), AllocError> {
        self.0.put(out)?;
        self.1.put(out)
    }
}

/// The field that all the bytes are.
pub fn all<F: Field>(bytes: &[u8]) -> Option<F>
    ensures { Finds (Spells F.spelling F.valid bytes.now) result }
{
    let Some((field, rest)) = F::take(bytes) else {
        return None;
    };
    if rest.is_empty() { Some(field) } else { None }
}
