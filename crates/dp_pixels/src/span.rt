//! Stretches of a row.

ghost use Rattle.std.specs.Prelude.{◌≤◌, ◌<◌, ◌+◌, ◌^◌, ◌↔◌, ℕ};

/// The columns from `start` on before `end`.
#[derive(Clone, Copy)]
pub(crate) struct Span {
    pub start: usize,
    pub end: usize,
    ghost order: { start ≤ end },
}

impl Span {
    ghost use Rattle.dp_pixels.specs.Spans.{IsInSpan};

    /// The columns that are among `len` from `from` on, counted from there.
    pub(crate) fn part(self, from: usize, len: usize) -> Span
        requires { from + len < 2 ^ 64 }
        ensures within { result.end ≤ len }
        ensures columns { (k : ℕ) → k < len → IsInSpan result k ↔ IsInSpan self (from + k) }
    {
        let to = from + len;
        Span {
            start: self.start.clamp(from, to) - from,
            end: self.end.clamp(from, to) - from,
        }
    }
}
