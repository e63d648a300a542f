//! Colours that the tests use.

use dp_blend::Pixel;
use std::process::Abort;

pub const CLEAR: Pixel = Pixel::CLEAR;

pub const RED: u32 = 0xffff_0000;

pub const BLUE: u32 = 0xff00_00ff;

/// The pixel with these channels and this alpha; the test ends if they make none.
pub fn pixel(rt: &impl Abort, (r, g, b, a): (u16, u16, u16, u16)) -> Pixel {
    Pixel::new(r, g, b, a).expect(rt, "no pixel")
}
