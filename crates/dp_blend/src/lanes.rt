//! Two pixels at once, in the eight lanes of a vector.

ghost use Rattle.std.specs.Prelude.{◌≡◌, ◌<◌, ◌≤◌, ◌+◌, ◌-◌, ◌*◌, ◌/◌, ◌==◌, map, min, slice_index};
ghost use Rattle.std.specs.Simd.Lanes.{zip2, sel_l, Each1};
ghost use Rattle.dp_blend.specs.Color.{IsPixel, mul};
ghost use Rattle.dp_blend.specs.Lanes.{ArePixels, fours, lanes, with_alphas};

use crate::color::{ONE, Pixel};
use std::simd::prelude::*;

/// The lanes of two pixels: of each the channels and then the alpha.
#[inline(always)]
pub(crate) fn lanes_of(first: &Pixel, second: &Pixel) -> u16x8
    ensures value { result ≡ lanes first.now second.now }
    ensures first_pixel { IsPixel first.now }
    ensures second_pixel { IsPixel second.now }
{
    u16x8::from_array([
        first.r, first.g, first.b, first.a, second.r, second.g, second.b, second.a,
    ])
}

/// The lanes of one pixel, twice. Four numbers are put into a vector here, and not eight.
#[inline(always)]
pub(crate) fn twice_of(pixel: &Pixel) -> u16x8
    ensures value { result ≡ lanes pixel.now pixel.now }
    ensures pixel { IsPixel pixel.now }
{
    let once = u16x8::from_array([pixel.r, pixel.g, pixel.b, pixel.a, 0, 0, 0, 0]);
    once.swizzle([0, 1, 2, 3, 0, 1, 2, 3])
}

/// The two pixels whose lanes these are.
#[inline(always)]
pub(crate) fn pixels_of(values: u16x8) -> (Pixel, Pixel)
    requires { ArePixels values }
    ensures { lanes result.0 result.1 ≡ values }
{
    let [r, g, b, a, next_r, next_g, next_b, next_a] = values.to_array();
    (
        Pixel::of(r, g, b, a),
        Pixel::of(next_r, next_g, next_b, next_a),
    )
}

/// The first number in each lane of the first pixel, and the second in each of the second.
#[inline(always)]
pub(crate) fn fours_of(first: u16, second: u16) -> u16x8
    ensures { result ≡ fours first second }
{
    let both = u16x8::from_array([first, second, 0, 0, 0, 0, 0, 0]);
    both.swizzle([0, 0, 0, 0, 1, 1, 1, 1])
}

/// The alpha of its pixel in each lane.
#[inline(always)]
pub(crate) fn alphas_of(values: u16x8) -> u16x8
    ensures { result ≡ fours (slice_index values 3) (slice_index values 7) }
{
    values.swizzle([3, 3, 3, 3, 7, 7, 7, 7])
}

/// One less the alpha, in each lane of each pixel.
#[inline(always)]
pub(crate) fn rests_of(values: u16x8) -> u16x8
    requires { ArePixels values }
    ensures value { result ≡ fours (32768 - slice_index values 3) (32768 - slice_index values 7) }
    ensures within { Each1 (λ f. f ≤ 32768) result }
{
    u16x8::splat(ONE) - alphas_of(values)
}

/// The lanes of the channels from the first vector, and those of the alphas from the second.
#[inline(always)]
pub(crate) fn with_alphas(channels: u16x8, alphas: u16x8) -> u16x8
    ensures { result ≡ with_alphas channels alphas }
{
    channels.shuffle(alphas, [0, 1, 2, 11, 4, 5, 6, 15])
}

/// The lanes of the first vector if the mask is 0, and else those of the second.
#[inline(always)]
pub(crate) fn kept_where_zero(masks: u16x8, kept: u16x8, others: u16x8) -> u16x8
    ensures { result ≡ sel_l (map (λ m. m == 0) masks) kept others }
{
    masks.simd_eq(u16x8::splat(0)).select(kept, others)
}

/// The smaller of each two lanes.
#[inline(always)]
pub(crate) fn smaller_of(values: u16x8, limits: u16x8) -> u16x8
    ensures { result ≡ zip2 min values limits }
{
    values.simd_min(limits)
}

/// The sums of the lanes, or what fits a lane if a sum doesn't.
#[inline(always)]
pub(crate) fn capped_sums(values: u16x8, others: u16x8) -> u16x8
    ensures { result ≡ zip2 (λ v w. min (v + w) 65535) values others }
{
    values.saturating_add(others)
}

/// The upper halves of the products of the lanes: one instruction of the processor.
#[inline(always)]
pub(crate) fn high_halves(values: u16x8, factors: u16x8) -> u16x8
    ensures { result ≡ zip2 (λ v f. v * f / 65536) values factors }
{
    let products = values.cast::<u32>() * factors.cast::<u32>();
    (products >> 16).cast::<u16>()
}

/// The products of the lanes, of which 32768 is one, rounded down: the upper halves of twice the
/// products. Twice a factor of one doesn't fit a lane; there the product is the value.
#[inline(always)]
pub(crate) fn products(values: u16x8, factors: u16x8) -> u16x8
    requires { Each1 (λ f. f ≤ 32768) factors }
    ensures { result ≡ zip2 mul values factors }
{
    let is_one = factors.simd_eq(u16x8::splat(ONE));
    is_one.select(values, high_halves(values, factors + factors))
}

/// The products of the lanes by factors below one.
#[inline(always)]
pub(crate) fn lesser_products(values: u16x8, factors: u16x8) -> u16x8
    requires { Each1 (λ f. f < 32768) factors }
    ensures { result ≡ zip2 mul values factors }
{
    high_halves(values, factors + factors)
}
