//! The tiles along a side of a canvas.

ghost use Rattle.std.specs.Prelude.{◌≡◌, ◌+◌, ◌*◌, ◌<◌, ◌≤◌, ℕ, pos, ◌<ℤ◌};

/// The greatest length of a side, in pixels.
const MAX_SIDE: i64 = 4096;

/// Of the tiles along a side, from `left` on before `right`, those that have one of the places from
/// one on before another: the first of them, and the first after them.
pub(crate) fn tiles_met(from: i64, to: i64, left: u32, right: u32) -> (u32, u32)
    requires order { left ≤ right }
    requires few { right ≤ 64 }
    ensures order { result.0 ≤ result.1 }
    ensures from { left ≤ result.0 }
    ensures within { result.1 ≤ right }
    ensures all { (k : ℕ) → left ≤ k → k < right → from <ℤ to
        → from <ℤ pos (k * 64 + 64) → pos (k * 64) <ℤ to → (result.0 ≤ k) × (k < result.1) }
{
    if from >= to {
        return (left, left);
    }
    let first = from.clamp(0, MAX_SIDE) as u32 / 64;
    let after = (to.clamp(0, MAX_SIDE) as u32 + 63) / 64;
    (first.clamp(left, right), after.clamp(left, right))
}
