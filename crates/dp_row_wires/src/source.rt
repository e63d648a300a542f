//! The input of a row.

ghost use Rattle.std.specs.Prelude.{◌≤◌, None, length};

use dp_io::{Failed, FaultPlan, Source};
use dp_row_texts::Part;

/// The parts of an input that are left.
#[derive(Drop)]
struct Left<'a> {
    parts: &'a [Part],
    /// How often the first part was given.
    times: u64,
    /// How many bytes of it were given after that.
    at: usize,
}

impl<'a> Left<'a> {
    /// Gives the next bytes that lie together, at most `most`; none if nothing is left.
    fn next_bytes(&mut self, most: usize) -> &'a [u8]
        ensures { length result.now ≤ most }
    {
        for _ in 0..self.parts.len() {
            let Some((part, rest)) = self.parts.split_first() else {
                break;
            };
            let left = &part.bytes[self.at.min(part.bytes.len())..];
            let count = left.len().min(most);
            if self.times < part.times && count > 0 {
                self.at = self.at.saturating_add(count);
                if self.at >= part.bytes.len() {
                    self.times = self.times.saturating_add(1);
                    self.at = 0;
                }
                return &left[..count];
            }
            self.parts = rest;
            self.times = 0;
            self.at = 0;
        }
        &[]
    }
}

/// A source over the parts of an input, made as they are read. It gives them in pieces, and fails
/// at chosen calls. It tells none of its bytes.
#[derive(Drop)]
pub struct RowSource<'a> {
    left: Left<'a>,
    piece: usize,
    plan: FaultPlan,
}

impl<'a> RowSource<'a> {
    /// A source of these parts, at most `piece` bytes a call, which fails at the calls whose
    /// numbers are in `fails`.
    pub fn new(parts: &'a [Part], piece: usize, fails: Vec<u64>) -> Self {
        let left = Left {
            parts,
            times: 0,
            at: 0,
        };
        RowSource {
            left,
            piece,
            plan: FaultPlan::new(fails),
        }
    }
}

impl<'a> Source for RowSource<'a> {
    ghost left = { λ _. None };

    ghost faults = { λ s. s.plan.faults };

    fn read(&mut self, buf: &mut [u8]) -> Result<usize, Failed> {
        if self.plan.next_fails() {
            return Err(self.plan.fail());
        }
        let most = buf.len().min(self.piece);
        if most == 0 {
            return Ok(0);
        }
        let bytes = self.left.next_bytes(most);
        buf[..bytes.len()].copy_from_slice(bytes);
        Ok(bytes.len())
    }
}
