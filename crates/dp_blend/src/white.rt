//! Pixels as bytes, laid on white: four at a time, in the lanes of vectors.
//!
//! The rule: docs/protocol.md, "The picture".

ghost use Rattle.std.specs.Prelude.{◌≡◌, ◌+◌, ◌%◌, ◌<◌, ◌≤◌, [], ◌∷◌, ◌++◌, length, map};
ghost use Rattle.std.specs.Prelude.{slice_index, slice_index_or, slice_set};
ghost use Rattle.std.specs.Simd.Lanes.{Each1};
ghost use Rattle.dp_blend.specs.Color.{clear};
ghost use Rattle.dp_blend.specs.Lanes.{ArePixels, first_of, second_of};
ghost use Rattle.dp_blend.specs.White.{rgb_on_white};

use crate::color::{ONE, Pixel, to8};
use crate::lanes::{high_halves, lanes_of, rests_of};
use std::simd::prelude::*;

/// The bytes of a pixel that is laid on white: red, green and blue.
#[inline]
pub fn rgb_on_white(pixel: Pixel) -> [u8; 3]
    ensures { result ≡ rgb_on_white pixel }
{
    let light = ONE - pixel.a();
    [
        to8(pixel.r() + light),
        to8(pixel.g() + light),
        to8(pixel.b() + light),
    ]
}

/// Puts the bytes of each pixel of a row that is laid on white.
pub fn row_on_white(pixels: &[Pixel], bytes: &mut [[u8; 3]])
    requires same_length { length pixels.now ≡ length bytes.old }
    ensures { bytes.new ≡ map rgb_on_white pixels.now }
{
    let (fours, rest) = bytes.split_at_mut(bytes.len() / 4 * 4);
    let (first, last) = pixels.split_at(fours.len());
    fours_on_white(first, fours);
    each_on_white(last, rest);
}

/// `row_on_white`, four pixels at a time.
fn fours_on_white(pixels: &[Pixel], bytes: &mut [[u8; 3]])
    requires same_length { length pixels.now ≡ length bytes.old }
    requires whole { length bytes.old % 4 ≡ 0 }
    ensures { bytes.new ≡ map rgb_on_white pixels.now }
{
    for k in 0..bytes.len() / 4 {
        four_on_white(pixels, bytes, 4 * k);
    }
}

/// `row_on_white`, one pixel at a time.
fn each_on_white(pixels: &[Pixel], bytes: &mut [[u8; 3]])
    requires same_length { length pixels.now ≡ length bytes.old }
    ensures { bytes.new ≡ map rgb_on_white pixels.now }
{
    for k in 0..bytes.len() {
        bytes[k] = rgb_on_white(pixels[k]);
    }
}

/// Puts the bytes of the pixels at a place of a row and at the next three, laid on white.
#[inline(always)]
fn four_on_white(pixels: &[Pixel], bytes: &mut [[u8; 3]], at: usize)
    requires same_length { length pixels.now ≡ length bytes.old }
    requires within { at + 3 < length bytes.old }
    ensures { bytes.new ≡ slice_set (slice_set (slice_set (slice_set bytes.old
        at (rgb_on_white (slice_index_or pixels.now at clear)))
        (at + 1) (rgb_on_white (slice_index_or pixels.now (at + 1) clear)))
        (at + 2) (rgb_on_white (slice_index_or pixels.now (at + 2) clear)))
        (at + 3) (rgb_on_white (slice_index_or pixels.now (at + 3) clear)) }
{
    let low = lanes_on_white(lanes_of(&pixels[at], &pixels[at + 1]));
    let high = lanes_on_white(lanes_of(&pixels[at + 2], &pixels[at + 3]));
    let [r, g, b, r1, g1, b1, r2, g2, b2, r3, g3, b3, ..] = bytes_of(low, high).to_array();
    bytes[at] = [r, g, b];
    bytes[at + 1] = [r1, g1, b1];
    bytes[at + 2] = [r2, g2, b2];
    bytes[at + 3] = [r3, g3, b3];
}

/// The bytes of two pixels that are laid on white, each in a lane. The lane of an alpha has 255.
///
/// A byte is the upper half of 510 times the channel, and one more if the lower half is at least
/// a half of one.
#[inline(always)]
fn lanes_on_white(values: u16x8) -> u16x8
    requires { ArePixels values }
    ensures value { result ≡ rgb_on_white (first_of values)
        ++ 255 ∷ rgb_on_white (second_of values) ++ 255 ∷ [] }
    ensures within { Each1 (λ v. v ≤ 255) result }
{
    let shown = values + rests_of(values);
    let factors = u16x8::splat(510);
    high_halves(shown, factors) + (shown * factors >> 15)
}

/// The lanes of four pixels as bytes: their channels, and then their alphas.
#[inline(always)]
fn bytes_of(low: u16x8, high: u16x8) -> u8x16
    requires low { Each1 (λ v. v ≤ 255) low }
    requires high { Each1 (λ v. v ≤ 255) high }
    ensures { result ≡ slice_index low 0 ∷ slice_index low 1 ∷ slice_index low 2
        ∷ slice_index low 4 ∷ slice_index low 5 ∷ slice_index low 6
        ∷ slice_index high 0 ∷ slice_index high 1 ∷ slice_index high 2
        ∷ slice_index high 4 ∷ slice_index high 5 ∷ slice_index high 6
        ∷ slice_index low 3 ∷ slice_index low 7 ∷ slice_index high 3 ∷ slice_index high 7 ∷ [] }
{
    let all: u16x16 = low.shuffle(high, [0, 1, 2, 3, 4, 5, 6, 7, 8, 9, 10, 11, 12, 13, 14, 15]);
    let bytes: u8x16 = all.cast::<u8>();
    bytes.swizzle([0, 1, 2, 4, 5, 6, 8, 9, 10, 12, 13, 14, 3, 7, 11, 15])
}
