//! How the sides of a canvas change.

ghost use Rattle.std.specs.Prelude.{◌≤◌};

/// How a canvas is resized: its sides, the new sides, all at most 4096 pixels, and where its left
/// upper corner goes.
#[derive(Clone, Copy)]
pub struct Resize {
    pub width: usize,
    pub height: usize,
    pub new_width: usize,
    pub new_height: usize,
    pub left: i32,
    pub top: i32,
    ghost wide: { width ≤ 4096 },
    ghost high: { height ≤ 4096 },
    ghost narrow: { new_width ≤ 4096 },
    ghost low: { new_height ≤ 4096 },
}

/// The greatest length of a side, in pixels.
const MAX_SIDE: i64 = 4096;

impl Resize {
    ghost use Rattle.std.specs.Prelude.{◌≡◌, pos, ◌+ℤ◌, ◌&&◌, false, Some, None, IfSome};
    ghost use Rattle.std.specs.Prelude.{MatchOption, if◌then◌else◌};
    ghost use Rattle.dp_pixels.specs.Resizes.{IsResizeOf, is_side, side};

    /// The length of a side that grows by `before` and `after`, if it stays one.
    fn new_side(old: u32, before: i32, after: i32) -> Option<u32>
        ensures value { let new = pos old +ℤ before +ℤ after in
            result ≡ (if is_side new then Some (side new) else None) }
        ensures range { IfSome result (λ new. (1 ≤ new) × (new ≤ 4096)) }
    {
        let new = old as i64 + before as i64 + after as i64;
        if new >= 1 && new <= MAX_SIDE {
            Some(new as u32)
        } else {
            None
        }
    }

    /// The resize of a canvas of these sides, each at most 4096 pixels, whose four sides move so
    /// far outwards. `None` comes exactly if a new side would be none.
    pub fn of_sides(
        width: u32,
        height: u32,
        top: i32,
        right: i32,
        bottom: i32,
        left: i32,
    ) -> Option<Resize>
        requires wide { width ≤ 4096 }
        requires high { height ≤ 4096 }
        ensures value { MatchOption result
            ((is_side (pos width +ℤ left +ℤ right) && is_side (pos height +ℤ top +ℤ bottom))
            ≡ false)
            (IsResizeOf width height top right bottom left) }
        ensures sides { IfSome result (λ r. (1 ≤ r.new_width) × (1 ≤ r.new_height)) }
    {
        let new_width = Resize::new_side(width, left, right)?;
        let new_height = Resize::new_side(height, top, bottom)?;
        Some(Resize {
            width: width as usize,
            height: height as usize,
            new_width: new_width as usize,
            new_height: new_height as usize,
            left,
            top,
        })
    }
}
