//! Rows of sources over rows of pixels in the mode Normal, as layers mostly are.
//!
//! Where no source is clear, each lets less than one through, so that the products need no test of
//! a factor of one. That is found out for many sources together, since a test costs time, too.
//!
//! The rule: docs/protocol.md, "Numbers and blending".

ghost use Rattle.std.specs.Prelude.{◌≡◌, ◌<◌, ◌+◌, ◌%◌, ℕ, length, All, true};
ghost use Rattle.std.specs.Prelude.{slice_index, slice_index_or, slice_set};
ghost use Rattle.dp_blend.specs.Color.{Channels, clear, fade};
ghost use Rattle.dp_blend.specs.Blending.{blend, row_merged};
ghost use Rattle.dp_blend.specs.Lanes.{ArePixels, blended_lanes};
ghost use Rattle.dp_blend.specs.declared.modes.Mode.{Mode};

use crate::color::{ONE, Pixel};
use crate::kernels::{Covering, Whole};
use crate::lanes::{lanes_of, lesser_products, pixels_of, rests_of, smaller_of};
use crate::rows::merge_by;
use std::simd::prelude::*;

/// How many sources are looked at together, whether one of them is clear.
const STRETCH: usize = 64;

/// `row_merge` in the mode Normal, by one: stretches of sources, and then the last ones.
pub(crate) fn cover(sources: &[Pixel], row: &mut [Pixel])
    requires same_length { length sources.now ≡ length row.old }
    ensures value { row.new ≡ row_merged Mode.Normal 32768 sources.now row.old }
    ensures places { (k : ℕ) (s d : Channels) → k < length row.old →
        slice_index_or row.new k d ≡ blend Mode.Normal
        (fade (slice_index_or sources.now k s) 32768) (slice_index_or row.old k d) }
{
    for k in 0..row.len() / STRETCH {
        let start = k * STRETCH;
        cover_stretch(
            &sources[start..start + STRETCH],
            &mut row[start..start + STRETCH],
        );
    }
    let start = row.len() / STRETCH * STRETCH;
    merge_by::<Covering, Whole>(Whole, &sources[start..], &mut row[start..]);
}

/// `cover`, with or without the test of a factor of one.
#[inline(always)]
fn cover_stretch(sources: &[Pixel], row: &mut [Pixel])
    requires same_length { length sources.now ≡ length row.old }
    requires whole { length row.old % 8 ≡ 0 }
    ensures { row.new ≡ row_merged Mode.Normal 32768 sources.now row.old }
{
    if is_none_clear(sources) {
        cover_seen(sources, row);
    } else {
        merge_by::<Covering, Whole>(Whole, sources, row);
    }
}

/// Whether none of these sources is clear, which are of an even number.
#[inline(always)]
fn is_none_clear(sources: &[Pixel]) -> bool
    requires pairs { length sources.now % 2 ≡ 0 }
    ensures { result ≡ true → All (λ s. 0 < s.a) sources.now }
{
    let mut least = u16x8::splat(ONE);
    for k in 0..sources.len() / 2 {
        least = smaller_of(least, lanes_of(&sources[2 * k], &sources[2 * k + 1]));
    }
    let [_, _, _, first, _, _, _, second] = least.to_array();
    first > 0 && second > 0
}

/// `cover`, where no source is clear. A turn of the loop blends eight.
#[inline(always)]
fn cover_seen(sources: &[Pixel], row: &mut [Pixel])
    requires same_length { length sources.now ≡ length row.old }
    requires whole { length row.old % 8 ≡ 0 }
    requires seen { All (λ s. 0 < s.a) sources.now }
    ensures { row.new ≡ row_merged Mode.Normal 32768 sources.now row.old }
{
    for k in 0..row.len() / 8 {
        cover_next(sources, row, 8 * k);
        cover_next(sources, row, 8 * k + 2);
        cover_next(sources, row, 8 * k + 4);
        cover_next(sources, row, 8 * k + 6);
    }
}

/// Blends two sources, at a place and at the next, with the pixels of a row there. No source is
/// clear.
#[inline(always)]
fn cover_next(sources: &[Pixel], row: &mut [Pixel], at: usize)
    requires same_length { length sources.now ≡ length row.old }
    requires at { at + 1 < length row.old }
    requires seen { All (λ s. 0 < s.a) sources.now }
    ensures { row.new ≡ slice_set
        (slice_set row.old at (blend Mode.Normal
        (fade (slice_index_or sources.now at clear) 32768)
        (slice_index_or row.old at clear)))
        (at + 1) (blend Mode.Normal
        (fade (slice_index_or sources.now (at + 1) clear) 32768)
        (slice_index_or row.old (at + 1) clear)) }
{
    let news = lanes_of(&sources[at], &sources[at + 1]);
    let covered = cover_lanes(news, lanes_of(&row[at], &row[at + 1]));
    let (first, second) = pixels_of(covered);
    row[at] = first;
    row[at + 1] = second;
}

/// Two sources that aren't clear, each blended in the mode Normal with the pixel at its place.
#[inline(always)]
fn cover_lanes(sources: u16x8, old: u16x8) -> u16x8
    requires sources { ArePixels sources }
    requires old { ArePixels old }
    requires first { 0 < slice_index sources 3 }
    requires second { 0 < slice_index sources 7 }
    ensures value { result ≡ blended_lanes Mode.Normal sources old }
    ensures pixels { ArePixels result }
{
    sources + lesser_products(old, rests_of(sources))
}
