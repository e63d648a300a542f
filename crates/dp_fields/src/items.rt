//! Lists of fields that run to the payload's end.

ghost use Rattle.std.specs.Prelude.{◌≡◌, ◌≤◌, ◌++◌, List, length, All, IfOk, IfSome, IfNone, OnOk};
ghost use Rattle.std.specs.List.{flat_map};
ghost use Rattle.dp_fields.specs.Reading.{AnswersAs, Spells};

use crate::error::PayloadError;
use crate::field::Field;
use std::alloc::{AllocError, Global};

/// How many fields these bytes are, one after the other.
fn count_items<T: Field>(bytes: &[u8]) -> Option<usize>
    ensures some { IfSome result (λ _. (xs : List T)
        × Spells (flat_map T.spelling) (All T.valid) bytes.now xs) }
    ensures count { IfSome result (λ n. (xs : List T)
        → Spells (flat_map T.spelling) (All T.valid) bytes.now xs → length xs ≡ n) }
    ensures none { IfNone result ((xs : List T)
        → Spells (flat_map T.spelling) (All T.valid) bytes.now xs → ⊥) }
{
    let mut rest = bytes;
    let mut count = 0;
    while let Some((_, after)) = T::take(rest) {
        rest = after;
        count += 1;
    }
    if rest.is_empty() { Some(count) } else { None }
}

/// The fields that these bytes are, as many as `count` says.
fn collect_items<T: Field>(alloc: Global, bytes: &[u8], count: usize) -> Result<Vec<T>, AllocError>
    requires { (xs : List T) × Spells (flat_map T.spelling) (All T.valid) bytes.now xs }
    ensures { IfOk result (λ v. Spells (flat_map T.spelling) (All T.valid) bytes.now v.items) }
{
    let mut items = Vec::with_capacity(alloc, count)?;
    let mut rest = bytes;
    while let Some((item, after)) = T::take(rest) {
        items.push(item)?;
        rest = after;
    }
    Ok(items)
}

/// The fields that these bytes are, of which there have to be from `least` to `most`.
pub fn read_items<T: Field>(
    alloc: Global,
    bytes: &[u8],
    least: usize,
    most: usize,
) -> Result<Vec<T>, PayloadError>
    ensures { AnswersAs (λ v. v.items) (Spells (flat_map T.spelling)
        (λ xs. All T.valid xs × (least ≤ length xs) × (length xs ≤ most)) bytes.now) result }
{
    match count_items::<T>(bytes) {
        Some(count) if least <= count && count <= most => {
            Ok(collect_items(alloc, bytes, count)?)
        }
        _ => Err(PayloadError::Malformed),
    }
}

/// Puts the fields at the end, in order.
pub fn put_items<T: Field>(items: &[T], out: &mut Vec<u8>) -> Result<(), AllocError>
    ensures { OnOk result (out.new.items ≡ out.old.items ++ flat_map T.spelling items.now) }
{
    for item in items {
        item.put(out)?;
    }
    Ok(())
}
