//! A source over bytes in memory that gives pieces and fails at listed calls.

ghost use Rattle.std.specs.Prelude.{◌≡◌, ◌≤◌, ◌↔◌, Some, length, drop, vec_len};
ghost use Rattle.std.specs.Prelude.{IfOk, OnOk, OnErr, IsErr};
ghost use Rattle.std.specs.Io.{ReadsAtMost};
ghost use Rattle.std.specs.Io.KnownBytes.{ReadConsumes};
ghost use Rattle.dp_io.specs.Faults.{HasCause, any_fault, IsDue, counted, refused};
ghost use Rattle.dp_io.specs.Streams.{EndsExactly};
ghost use Rattle.dp_io.specs.Memory.{SourceState, given_count};

use crate::plan::FaultPlan;
use crate::sure_source::copy_prefix;
use crate::{Failed, Source};
use std::marker::Model;

/// A source over bytes in memory, which gives them in pieces and fails at chosen calls.
#[derive(Drop)]
pub struct MemSource {
    bytes: Vec<u8>,
    at: usize,
    piece: usize,
    plan: FaultPlan,
}

impl Model for MemSource {
    ghost Value = { SourceState };

    ghost view = { λ s. record { left = drop s.at s.bytes.items; piece = s.piece; plan = s.plan } };

    ghost invariant = { λ s. (s.at ≤ vec_len s.bytes) × (1 ≤ s.piece) };
}

impl MemSource {
    /// A source of these bytes, at most `piece` of them a call. It fails at the calls whose
    /// numbers, counted from 1, are in `fails`.
    pub fn new(bytes: Vec<u8>, piece: usize, fails: Vec<u64>) -> Self
        requires { 1 ≤ piece }
        ensures left { result.left ≡ bytes.items }
        ensures piece { result.piece ≡ piece }
        ensures plan { result.plan ≡ record { fails = fails.items; calls = 0; faults = 0 } }
    {
        MemSource {
            bytes,
            at: 0,
            piece,
            plan: FaultPlan::new(fails),
        }
    }
}

impl Source for MemSource {
    ghost left = { λ s. Some s.left };

    ghost faults = { λ s. s.plan.faults };

    fn read(&mut self, buf: &mut [u8]) -> Result<usize, Failed>
        ensures bound { ReadsAtMost result buf.new }
        ensures bytes { ReadConsumes (Some self.old.left) (Some self.new.left) result buf.new }
        ensures end { EndsExactly (Some self.old.left) result buf.new }
        ensures cause { HasCause any_fault self.old.plan.faults self.new.plan.faults result }

        // It fails at the listed calls alone, and gives as much as the piece and the buffer let it.
        ensures failed { IsErr result ↔ IsDue self.old.plan }
        ensures count { IfOk result (λ n. n ≡ given_count self.old (length buf.old)) }
        ensures piece { self.new.piece ≡ self.old.piece }
        ensures counted { OnOk result (self.new.plan ≡ counted self.old.plan) }
        ensures refused { OnErr result (self.new.plan ≡ refused self.old.plan) }
    {
        if self.plan.next_fails() {
            return Err(self.plan.fail());
        }
        let rest = &self.bytes[self.at..];
        let count = rest.len().min(self.piece).min(buf.len());
        copy_prefix(rest, buf, count);
        self.at += count;
        Ok(count)
    }
}
