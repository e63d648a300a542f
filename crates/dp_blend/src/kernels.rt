//! The modes of blending, two pixels at a time.
//!
//! In a product the factor is what a row has throughout, if there is such a number: so what
//! depends on it alone is worked out once for the row.
//!
//! The rule: docs/protocol.md, "Numbers and blending".

ghost use Rattle.std.specs.Prelude.{◌≡◌, ◌+◌, ◌<◌, ◌≤◌, ℕ, length, slice_index_or, if◌then◌else◌};
ghost use Rattle.dp_blend.specs.Color.{Channels, clear, fade};
ghost use Rattle.dp_blend.specs.Blending.{blend, masked};
ghost use Rattle.dp_blend.specs.Lanes.{ArePixels, blended_lanes, lanes};
ghost use Rattle.dp_blend.specs.declared.modes.Mode.{Mode};

use crate::color::{ONE, Pixel};
use crate::lanes::{
    alphas_of, capped_sums, fours_of, kept_where_zero, lanes_of, lesser_products, pixels_of,
    products, rests_of, smaller_of, twice_of, with_alphas,
};
use std::simd::prelude::*;

/// A mode of blending, on the lanes of two pixels.
pub(crate) trait Kernel: Copy {
    ghost mode: { Mode };

    /// Two sources, each blended with the pixel at its place.
    fn blend_lanes(sources: u16x8, old: u16x8) -> u16x8
        requires sources { ArePixels sources }
        requires old { ArePixels old }
        ensures { result ≡ blended_lanes mode sources old };
}

/// The mode Erase.
#[derive(Clone, Copy)]
pub(crate) struct Erasing;

impl Kernel for Erasing {
    ghost mode = { Mode.Erase };

    #[inline(always)]
    fn blend_lanes(sources: u16x8, old: u16x8) -> u16x8 {
        products(old, rests_of(sources))
    }
}

/// The mode Normal.
#[derive(Clone, Copy)]
pub(crate) struct Covering;

impl Kernel for Covering {
    ghost mode = { Mode.Normal };

    #[inline(always)]
    fn blend_lanes(sources: u16x8, old: u16x8) -> u16x8 {
        sources + products(old, rests_of(sources))
    }
}

/// The mode Multiply.
#[derive(Clone, Copy)]
pub(crate) struct Multiplying;

impl Kernel for Multiplying {
    ghost mode = { Mode.Multiply };

    #[inline(always)]
    fn blend_lanes(sources: u16x8, old: u16x8) -> u16x8 {
        let parts = products(old, sources) + products(rests_of(old), sources);
        with_alphas(parts, sources) + products(old, rests_of(sources))
    }
}

/// The mode Add.
#[derive(Clone, Copy)]
pub(crate) struct Adding;

impl Kernel for Adding {
    ghost mode = { Mode.Add };

    #[inline(always)]
    fn blend_lanes(sources: u16x8, old: u16x8) -> u16x8 {
        let over = sources + products(old, rests_of(sources));
        smaller_of(capped_sums(sources, old), alphas_of(over))
    }
}

/// The mode Recolor.
#[derive(Clone, Copy)]
pub(crate) struct Recoloring;

impl Kernel for Recoloring {
    ghost mode = { Mode.Recolor };

    #[inline(always)]
    fn blend_lanes(sources: u16x8, old: u16x8) -> u16x8 {
        let shown = with_alphas(sources, u16x8::splat(ONE));
        let rests = with_alphas(rests_of(sources), u16x8::splat(0));
        products(alphas_of(old), shown) + products(old, rests)
    }
}

/// The mode Replace.
#[derive(Clone, Copy)]
pub(crate) struct Replacing;

impl Kernel for Replacing {
    ghost mode = { Mode.Replace };

    #[inline(always)]
    fn blend_lanes(sources: u16x8, _old: u16x8) -> u16x8 {
        sources
    }
}

/// A source that a row is filled with, and the mode by which it is blended.
pub(crate) trait Fill: Copy {
    ghost mode: { Self → Mode };

    ghost source: { Self → Channels };

    /// The source, blended with each of two pixels.
    fn fill_lanes(self, old: u16x8) -> u16x8
        requires { ArePixels old }
        ensures value { result
            ≡ blended_lanes (mode self) (lanes (source self) (source self)) old }
        ensures pixels { ArePixels result };
}

/// A source in the mode of a kernel.
#[derive(Clone, Copy)]
pub(crate) struct Source<K> {
    kernel: K,
    src: Pixel,
}

impl<K: Kernel> Source<K> {
    /// This source, in the mode of this kernel.
    #[inline(always)]
    pub fn of(kernel: K, src: Pixel) -> Source<K>
        ensures { result.src ≡ src }
    {
        Source { kernel, src }
    }
}

impl<K: Kernel> Fill for Source<K> {
    ghost mode = { λ _. K.mode };

    ghost source = { λ f. f.src };

    #[inline(always)]
    fn fill_lanes(self, old: u16x8) -> u16x8 {
        K::blend_lanes(twice_of(&self.src), old)
    }
}

/// A source in the mode Normal that isn't clear. It lets less than one through, so that the
/// products need no test of a factor of one.
#[derive(Clone, Copy)]
pub(crate) struct Seen {
    pub src: Pixel,
    ghost seen: { 0 < src.a },
}

impl Fill for Seen {
    ghost mode = { λ _. Mode.Normal };

    ghost source = { λ f. f.src };

    #[inline(always)]
    fn fill_lanes(self, old: u16x8) -> u16x8 {
        let sources = twice_of(&self.src);
        sources + lesser_products(old, rests_of(sources))
    }
}

/// A source, blended with each of two pixels of a row.
#[inline(always)]
pub(crate) fn fill_two<F: Fill>(fill: F, row: &[Pixel], at: usize, next: usize) -> (Pixel, Pixel)
    requires at { at < length row.now }
    requires next { next < length row.now }
    ensures first { result.0
        ≡ blend (F.mode fill) (F.source fill) (slice_index_or row.now at clear) }
    ensures second { result.1
        ≡ blend (F.mode fill) (F.source fill) (slice_index_or row.now next clear) }
{
    pixels_of(fill.fill_lanes(lanes_of(&row[at], &row[next])))
}

/// A number that sources are faded by throughout a row.
pub(crate) trait Fading: Copy {
    ghost by: { Self → ℕ };

    /// Two sources, each faded.
    fn fade_lanes(self, first: &Pixel, second: &Pixel) -> u16x8
        ensures value { result ≡ lanes (fade first.now (by self)) (fade second.now (by self)) }
        ensures pixels { ArePixels result };
}

/// Fading by one, which changes nothing.
#[derive(Clone, Copy)]
pub(crate) struct Whole;

impl Fading for Whole {
    ghost by = { λ _. 32768 };

    #[inline(always)]
    fn fade_lanes(self, first: &Pixel, second: &Pixel) -> u16x8 {
        lanes_of(first, second)
    }
}

/// Fading by a number, of which 32768 is one.
#[derive(Clone, Copy)]
pub(crate) struct Faded {
    pub by: u16,
    ghost within: { by ≤ 32768 },
}

impl Fading for Faded {
    ghost by = { λ f. f.by };

    #[inline(always)]
    fn fade_lanes(self, first: &Pixel, second: &Pixel) -> u16x8 {
        products(lanes_of(first, second), u16x8::splat(self.by))
    }
}

/// Two sources of a row, faded, and each blended with the pixel at its place of another row.
#[inline(always)]
pub(crate) fn merge_two<K: Kernel, F: Fading>(
    fading: F,
    sources: &[Pixel],
    row: &[Pixel],
    at: usize,
    next: usize,
) -> (Pixel, Pixel)
    requires long { length sources.now ≡ length row.now }
    requires at { at < length row.now }
    requires next { next < length row.now }
    ensures first { result.0 ≡ blend K.mode
        (fade (slice_index_or sources.now at clear) (F.by fading))
        (slice_index_or row.now at clear) }
    ensures second { result.1 ≡ blend K.mode
        (fade (slice_index_or sources.now next clear) (F.by fading))
        (slice_index_or row.now next clear) }
{
    let faded = fading.fade_lanes(&sources[at], &sources[next]);
    pixels_of(K::blend_lanes(faded, lanes_of(&row[at], &row[next])))
}

/// A source through two masks, blended with the pixel of a row at the place of each.
#[inline(always)]
pub(crate) fn blend_two<K: Kernel>(
    src: Pixel,
    masks: (u16, u16),
    row: &[Pixel],
    at: usize,
    next: usize,
) -> (Pixel, Pixel)
    requires first { masks.0 ≤ 32768 }
    requires second { masks.1 ≤ 32768 }
    requires at { at < length row.now }
    requires next { next < length row.now }
    ensures first { result.0 ≡ masked K.mode src masks.0 (slice_index_or row.now at clear) }
    ensures second { result.1 ≡ masked K.mode src masks.1 (slice_index_or row.now next clear) }
{
    let masks = fours_of(masks.0, masks.1);
    let old = lanes_of(&row[at], &row[next]);
    let faded = products(masks, lanes_of(&src, &src));
    pixels_of(kept_where_zero(masks, old, K::blend_lanes(faded, old)))
}
