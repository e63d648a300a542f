//! Headers.

ghost use Rattle.std.specs.Prelude.{◌≡◌, ◌<◌, ◌≤◌, length, IfOk, IfErr, IfSome, IfNone};
ghost use Rattle.dp_recording.specs.declared.header.HeaderError.TheVariants.{Short, Memory};
ghost use Rattle.dp_recording.specs.declared.header.Profile.{Profile as Told};
ghost use Rattle.dp_recording.specs.Headers.{IsHeader, IsHeaderRefused, TellsProfile, name_of};

use byteorder::{BigEndian, ByteOrder};
use dp_lists::{prefix_of, rest_of};
use serde_json::Value;
use std::alloc::{AllocError, Global};
use thiserror::Error;

/// The header that is written.
pub const HEADER: [u8; 30] = *b"DPREC\0\0\x16{\"profile\":\"dp-int-2\"}";

/// The first bytes of each recording.
const MAGIC: [u8; 6] = *b"DPREC\0";

/// The name of the first profile.
const FIRST: &str = "dp-int-1";

/// The name of the second one.
const SECOND: &str = "dp-int-2";

/// The profile by which the frames of a recording are read.
#[derive(Clone, Copy, Debug, PartialEq, Eq)]
pub enum Profile {
    /// dp-int-1, in which no message has kind 70.
    First,
    /// dp-int-2, which is today's.
    Second,
}

/// A header: which profile it tells, and how many bytes it has.
#[derive(Clone, Copy, Debug, PartialEq, Eq)]
pub struct Header {
    pub profile: Profile,
    pub len: usize,
}

/// Why bytes begin with no header.
#[derive(Clone, Copy, Debug, PartialEq, Eq, Error)]
pub enum HeaderError {
    /// Whatever comes after them, they begin with none.
    #[error("the recording has no header")]
    Bad,
    /// More bytes may make one of them.
    #[error("the recording's header is cut")]
    Short,
    #[error("out of memory")]
    Memory,
}

impl From<AllocError> for HeaderError {
    ghost from_gives = { λ _ e. e ≡ Memory };

    fn from(_e: AllocError) -> HeaderError {
        HeaderError::Memory
    }
}

/// The header with which these bytes begin: it has at most 65,543.
pub fn read_header(alloc: Global, bytes: &[u8]) -> Result<Header, HeaderError>
    ensures ok { IfOk result (λ header. IsHeader bytes.now header.profile header.len) }
    ensures few { IfOk result (λ header. header.len ≤ 65543) }
    ensures refused { IfErr result (IsHeaderRefused bytes.now) }
    ensures short { IfErr result (λ error. error ≡ Short → length bytes.now < 65543) }
{
    if prefix_of(bytes, MAGIC.len()) != prefix_of(&MAGIC, bytes.len()) {
        return Err(HeaderError::Bad);
    }
    if bytes.len() < 8 {
        return Err(HeaderError::Short);
    }
    let len = 8 + BigEndian::read_u16(rest_of(bytes, 6)) as usize;
    if bytes.len() < len {
        return Err(HeaderError::Short);
    }
    match read_profile(alloc, rest_of(prefix_of(bytes, len), 8))? {
        Some(profile) => Ok(Header { profile, len }),
        None => Err(HeaderError::Bad),
    }
}

/// The profile that the text of a header tells; `None` if it tells neither.
fn read_profile(alloc: Global, text: &[u8]) -> Result<Option<Profile>, AllocError>
    ensures told { IfOk result (λ told. IfSome told (λ profile.
        TellsProfile text.now (name_of profile))) }
    ensures none { IfOk result (λ told. IfNone told ((profile : Told)
        → ¬ TellsProfile text.now (name_of profile))) }
{
    match Value::from_slice(alloc, text) {
        Ok(value) => {
            let told = value.get("profile").and_then(Value::as_str);
            if told == Some(FIRST) {
                Ok(Some(Profile::First))
            } else if told == Some(SECOND) {
                Ok(Some(Profile::Second))
            } else {
                Ok(None)
            }
        }
        Err(error) if error.is_memory() => Err(AllocError),
        Err(_) => Ok(None),
    }
}
