//! Blending a pixel with another in each mode.
//!
//! The rule: docs/protocol.md, "Numbers and blending".

ghost use Rattle.std.specs.Prelude.{◌≡◌, ◌≤◌};
ghost use Rattle.dp_blend.specs.Color.{IsPixel};
ghost use Rattle.dp_blend.specs.Blending.{blend, channel_blended, over};

use crate::color::{ONE, Pixel, fade, mul};
use crate::modes::Mode;

/// The destination `dst` after the source `src` is blended with it.
#[inline]
pub fn blend(mode: Mode, src: Pixel, dst: Pixel) -> Pixel
    ensures value { result ≡ blend mode src dst }
    ensures pixel { IsPixel result }
{
    match mode {
        Mode::Erase => erased(src, dst),
        Mode::Normal => normal(src, dst),
        Mode::Multiply => multiplied(src, dst),
        Mode::Add => added(src, dst),
        Mode::Recolor => recolored(src, dst),
        Mode::Replace => src,
    }
}

/// The destination without the part that the source's alpha takes away.
#[inline]
fn erased(src: Pixel, dst: Pixel) -> Pixel
    ensures value { result ≡ blend Mode.Erase src dst }
    ensures pixel { IsPixel result }
{
    fade(dst, ONE - src.a())
}

/// The source over the destination.
#[inline]
fn normal(src: Pixel, dst: Pixel) -> Pixel
    ensures value { result ≡ blend Mode.Normal src dst }
    ensures pixel { IsPixel result }
{
    let rest = ONE - src.a();
    Pixel::of(
        src.r() + mul(dst.r(), rest),
        src.g() + mul(dst.g(), rest),
        src.b() + mul(dst.b(), rest),
        src.a() + mul(dst.a(), rest),
    )
}

/// One channel of `multiplied`, of the source's channel and alpha and the destination's.
#[inline]
fn channel_multiplied(sc: u16, sa: u16, dc: u16, da: u16) -> u16
    requires source { sc ≤ sa }
    requires source_alpha { sa ≤ 32768 }
    requires destination { dc ≤ da }
    requires destination_alpha { da ≤ 32768 }
    ensures value { result ≡ channel_blended Mode.Multiply sc sa dc da }
    ensures within { result ≤ over sa da }
{
    mul(sc, dc) + mul(sc, ONE - da) + mul(dc, ONE - sa)
}

/// The channels multiplied where both pixels lie.
#[inline]
fn multiplied(src: Pixel, dst: Pixel) -> Pixel
    ensures value { result ≡ blend Mode.Multiply src dst }
    ensures pixel { IsPixel result }
{
    let (sa, da) = (src.a(), dst.a());
    Pixel::of(
        channel_multiplied(src.r(), sa, dst.r(), da),
        channel_multiplied(src.g(), sa, dst.g(), da),
        channel_multiplied(src.b(), sa, dst.b(), da),
        sa + mul(da, ONE - sa),
    )
}

/// The channels added, up to the alpha of both.
#[inline]
fn added(src: Pixel, dst: Pixel) -> Pixel
    ensures value { result ≡ blend Mode.Add src dst }
    ensures pixel { IsPixel result }
{
    let a = src.a() + mul(dst.a(), ONE - src.a());
    Pixel::of(
        src.r().saturating_add(dst.r()).min(a),
        src.g().saturating_add(dst.g()).min(a),
        src.b().saturating_add(dst.b()).min(a),
        a,
    )
}

/// One channel of `recolored`, of the source's channel and alpha and the destination's.
#[inline]
fn channel_recolored(sc: u16, sa: u16, dc: u16, da: u16) -> u16
    requires source { sc ≤ sa }
    requires source_alpha { sa ≤ 32768 }
    requires destination { dc ≤ da }
    requires destination_alpha { da ≤ 32768 }
    ensures value { result ≡ channel_blended Mode.Recolor sc sa dc da }
    ensures within { result ≤ da }
{
    mul(sc, da) + mul(dc, ONE - sa)
}

/// The source over the destination where the destination lies.
#[inline]
fn recolored(src: Pixel, dst: Pixel) -> Pixel
    ensures value { result ≡ blend Mode.Recolor src dst }
    ensures pixel { IsPixel result }
{
    let (sa, da) = (src.a(), dst.a());
    Pixel::of(
        channel_recolored(src.r(), sa, dst.r(), da),
        channel_recolored(src.g(), sa, dst.g(), da),
        channel_recolored(src.b(), sa, dst.b(), da),
        da,
    )
}
