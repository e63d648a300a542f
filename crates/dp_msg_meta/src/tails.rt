//! Names, texts and ids, which run to a payload's end.

ghost use Rattle.std.specs.Prelude.{◌≡◌, ◌≤◌, ◌↔◌, ◌++◌, OnOk, true};
ghost use Rattle.std.specs.Str.{IsUtf8};
ghost use Rattle.dp_fields.specs.Reading.{Answers, Spells};
ghost use Rattle.dp_msg_meta.specs.Fields.{RiseFrom, IsName, IsText};

use crate::lists::{Ids, NameBytes, Text};
use dp_fields::{Field, PayloadError, Tail};
use std::alloc::{AllocError, Global};
use std::str;

/// The most bytes of a name.
const NAME_LIMIT: usize = 32;

/// The most bytes of a text.
const TEXT_LIMIT: usize = 65_535;

/// The greatest id of a user.
const LAST_USER: u8 = 254;

/// Tests that ids rise strictly within `low` to 254.
fn do_rise(low: u8, ids: &[u8]) -> bool
    ensures { (result ≡ true) ↔ RiseFrom low ids.now }
{
    let mut least = low;
    for &id in ids {
        if id < least || id > LAST_USER {
            return false;
        }
        least = id + 1;
    }
    true
}

/// The ids that these bytes are, if they rise strictly within `low` to 254.
#[tactic(auto, using(crate::proofs::FieldLaws::rise_short))]
pub(crate) fn read_ids(alloc: Global, low: u8, bytes: &[u8]) -> Result<Ids, PayloadError>
    ensures { Answers (Spells (λ ids. ids) (RiseFrom low) bytes.now) result }
{
    if !do_rise(low, bytes) {
        return Err(PayloadError::Malformed);
    }
    Ok(Ids::from_vec(Vec::from_slice(alloc, bytes)?))
}

/// Ids of users, without 0.
impl Tail for Ids {
    ghost spelling = { λ ids. ids };

    ghost valid = { RiseFrom 1 };

    fn read(alloc: Global, bytes: &[u8]) -> Result<Ids, PayloadError> {
        read_ids(alloc, 1, bytes)
    }
}

fn has_length_of_name(bytes: &[u8]) -> bool
    ensures { (result ≡ true) ↔ IsName bytes.now }
{
    !bytes.is_empty() && bytes.len() <= NAME_LIMIT
}

impl Tail for NameBytes {
    ghost spelling = { λ name. name };

    ghost valid = { IsName };

    fn read(alloc: Global, bytes: &[u8]) -> Result<NameBytes, PayloadError> {
        if !has_length_of_name(bytes) {
            return Err(PayloadError::Malformed);
        }
        Ok(NameBytes::from_vec(Vec::from_slice(alloc, bytes)?))
    }
}

impl Tail for Text {
    ghost spelling = { λ text. text };

    ghost valid = { IsText };

    fn read(alloc: Global, bytes: &[u8]) -> Result<Text, PayloadError> {
        if bytes.len() > TEXT_LIMIT {
            return Err(PayloadError::Malformed);
        }
        match str::from_utf8(bytes) {
            Ok(text) => Ok(Text::from_str(alloc, text)?),
            Err(_) => Err(PayloadError::Malformed),
        }
    }
}

/// A name of 1 to 32 bytes that is a text.
#[derive(Drop)]
pub(crate) struct Name(pub Text);

impl Tail for Name {
    ghost spelling = { λ name. name.0 };

    ghost valid = { λ name. IsUtf8 name.0 × IsName name.0 };

    #[tactic(auto, using(crate::proofs::Forms::name_spelled))]
    fn read(alloc: Global, bytes: &[u8]) -> Result<Name, PayloadError> {
        if !has_length_of_name(bytes) {
            return Err(PayloadError::Malformed);
        }
        match str::from_utf8(bytes) {
            Ok(text) => Ok(Name(Text::from_str(alloc, text)?)),
            Err(_) => Err(PayloadError::Malformed),
        }
    }
}

/// Puts a field, and then bytes, at the end.
pub(crate) fn put_both<F: Field>(
    field: &F,
    tail: &[u8],
    out: &mut Vec<u8>,
) -> Result<(), AllocError>
    ensures { OnOk result (out.new.items ≡ out.old.items ++ (F.spelling field.now ++ tail.now)) }
{
    field.put(out)?;
    out.extend_from_slice(tail)
}
