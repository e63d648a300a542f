//! A source over bytes in memory that never fails.

ghost use Rattle.std.specs.Prelude.{◌≡◌, ◌≤◌, ℕ, List, Ok, Some, min, length, take, drop, vec_len};
ghost use Rattle.std.specs.Io.{ReadsAtMost};
ghost use Rattle.std.specs.Io.KnownBytes.{ReadConsumes};
ghost use Rattle.dp_io.specs.Faults.{HasCause, any_fault};
ghost use Rattle.dp_io.specs.Streams.{EndsExactly};

use crate::{Failed, Source};
use std::marker::Model;

/// A source over bytes in memory that never fails.
#[derive(Drop)]
pub struct SureSource {
    bytes: Vec<u8>,
    at: usize,
}

impl Model for SureSource {
    ghost Value = { List ℕ };

    ghost view = { λ s. drop s.at s.bytes.items };

    ghost invariant = { λ s. s.at ≤ vec_len s.bytes };
}

impl SureSource {
    /// A source of these bytes.
    pub fn new(bytes: Vec<u8>) -> Self
        ensures { result ≡ bytes.items }
    {
        SureSource { bytes, at: 0 }
    }
}

impl Source for SureSource {
    ghost left = { λ s. Some s };

    ghost faults = { λ _. 0 };

    fn read(&mut self, buf: &mut [u8]) -> Result<usize, Failed>
        ensures bound { ReadsAtMost result buf.new }
        ensures bytes { ReadConsumes (Some self.old) (Some self.new) result buf.new }
        ensures end { EndsExactly (Some self.old) result buf.new }
        ensures cause { HasCause any_fault 0 0 result }

        // It never fails, and gives as much as the buffer takes.
        ensures count { result ≡ Ok (min (length self.old) (length buf.old)) }
    {
        let rest = &self.bytes[self.at..];
        let count = rest.len().min(buf.len());
        copy_prefix(rest, buf, count);
        self.at += count;
        Ok(count)
    }
}

/// Copies the first `count` bytes to the prefix of the buffer.
pub(crate) fn copy_prefix(from: &[u8], to: &mut [u8], count: usize)
    requires from { count ≤ length from.now }
    requires to { count ≤ length to.old }
    ensures { take count to.new ≡ take count from.now }
{
    to[..count].copy_from_slice(&from[..count]);
}
