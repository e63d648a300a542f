//! A sink into memory.

ghost use Rattle.std.specs.Prelude.{◌≡◌, ◌≤◌, ◌↔◌, [], Some, length, vec_len, vec_capacity};
ghost use Rattle.std.specs.Prelude.{IfOk, OnOk, OnErr, IsErr};
ghost use Rattle.std.specs.Io.{WritesAtMost};
ghost use Rattle.std.specs.Io.KnownBytes.{WriteAppends};
ghost use Rattle.dp_io.specs.Faults.{HasCause, any_fault, counted, refused};
ghost use Rattle.dp_io.specs.Streams.{TakesSome};
ghost use Rattle.dp_io.specs.Memory.{SinkState, IsWriteRefused, taken_count};

use crate::plan::FaultPlan;
use crate::{Failed, Sink};
use std::alloc::{AllocError, Global};
use std::marker::Model;

/// A sink into memory, which takes pieces and fails at chosen calls, and if it is full.
#[derive(Drop)]
pub struct MemSink {
    bytes: Vec<u8>,
    room: usize,
    piece: usize,
    plan: FaultPlan,
}

impl Model for MemSink {
    ghost Value = { SinkState };

    ghost view = { λ s. record {
      held = s.bytes.items;
      room = s.room;
      piece = s.piece;
      plan = s.plan;
    } };

    ghost invariant = { λ s. (vec_len s.bytes ≤ s.room) × (s.room ≤ vec_capacity s.bytes)
        × (1 ≤ s.piece) };
}

impl MemSink {
    /// An empty sink for at most `room` bytes, whose memory it takes here, and at most `piece`
    /// bytes a call. It fails at the calls whose numbers, counted from 1, are in `fails`.
    pub fn new(
        alloc: Global,
        room: usize,
        piece: usize,
        fails: Vec<u64>,
    ) -> Result<MemSink, AllocError>
        requires { 1 ≤ piece }
        ensures held { IfOk result (λ sink. sink.held ≡ []) }
        ensures room { IfOk result (λ sink. sink.room ≡ room) }
        ensures piece { IfOk result (λ sink. sink.piece ≡ piece) }
        ensures plan { IfOk result (λ sink. sink.plan
            ≡ record { fails = fails.items; calls = 0; faults = 0 }) }
    {
        Ok(MemSink {
            bytes: Vec::with_capacity(alloc, room)?,
            room,
            piece,
            plan: FaultPlan::new(fails),
        })
    }

    /// The bytes that it holds.
    pub fn as_slice(&self) -> &[u8]
        ensures held { result.now ≡ self.now.held }
        ensures within { length self.now.held ≤ self.now.room }
    {
        &self.bytes
    }
}

impl Sink for MemSink {
    ghost held = { λ s. Some s.held };

    ghost faults = { λ s. s.plan.faults };

    fn write(&mut self, bytes: &[u8]) -> Result<usize, Failed>
        ensures bound { WritesAtMost result bytes.now }
        ensures some { TakesSome result bytes.now }
        ensures bytes { WriteAppends (Some self.old.held) (Some self.new.held) result bytes.now }
        ensures cause { HasCause any_fault self.old.plan.faults self.new.plan.faults result }

        // It fails at the listed calls and if it is full, and takes as much as the piece and its
        // room let it.
        ensures failed { IsErr result ↔ IsWriteRefused self.old (length bytes.now) }
        ensures count { IfOk result (λ n. n ≡ taken_count self.old (length bytes.now)) }
        ensures within { length self.new.held ≤ self.new.room }
        ensures room { self.new.room ≡ self.old.room }
        ensures piece { self.new.piece ≡ self.old.piece }
        ensures counted { OnOk result (self.new.plan ≡ counted self.old.plan) }
        ensures refused { OnErr result (self.new.plan ≡ refused self.old.plan) }
    {
        let room = self.room - self.bytes.len();
        if self.plan.next_fails() || (room == 0 && !bytes.is_empty()) {
            return Err(self.plan.fail());
        }
        let count = bytes.len().min(room).min(self.piece);
        self.bytes.extend_from_slice(&bytes[..count]).unwrap();
        Ok(count)
    }
}
