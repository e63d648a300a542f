//! Channels, premultiplied pixels, and the ways between them and bytes.
//!
//! The rule: docs/protocol.md, "Numbers and blending".

ghost use Rattle.std.specs.Prelude.{◌≡◌, ◌≤◌, ◌↔◌, [], ◌∷◌, IsSome, IfSome};
ghost use Rattle.dp_blend.specs.Color.{IsPixel, clear, white, mul, from8, to8, fade, of_argb};

use std::marker::Model;

/// One, as a channel and as an alpha.
pub const ONE: u16 = 32768;

/// A colour with premultiplied alpha: no channel is above alpha, and alpha is at most 32768, which
/// is one.
#[derive(Clone, Copy, Debug, PartialEq, Eq)]
pub struct Pixel {
    pub(crate) r: u16,
    pub(crate) g: u16,
    pub(crate) b: u16,
    pub(crate) a: u16,
}

impl Model for Pixel {
    ghost use Rattle.dp_blend.specs.Color.{Channels, IsPixel};

    ghost Value = { Channels };

    ghost view = { λ p. record { r = p.r; g = p.g; b = p.b; a = p.a } };

    ghost invariant = { λ p. IsPixel (record { r = p.r; g = p.g; b = p.b; a = p.a }) };

    ghost inverse = { λ p. record { r = p.r; g = p.g; b = p.b; a = p.a } };
}

impl Pixel {
    /// The pixel that shows nothing.
    pub const CLEAR: Pixel = Pixel {
        r: 0,
        g: 0,
        b: 0,
        a: 0,
    };

    /// Opaque white.
    pub const WHITE: Pixel = Pixel {
        r: ONE,
        g: ONE,
        b: ONE,
        a: ONE,
    };

    /// `CLEAR` and `WHITE`: a law of the constants, which a clause can't name.
    pub fn constants() -> [Pixel; 2]
        ensures { result ≡ clear ∷ white ∷ [] }
    {
        [Pixel::CLEAR, Pixel::WHITE]
    }

    /// The pixel with these channels and this alpha. `None` exactly if a channel is above alpha,
    /// or alpha above 32768.
    pub fn new(r: u16, g: u16, b: u16, a: u16) -> Option<Pixel>
        ensures valid { IsSome result ↔ IsPixel (record { r = r; g = g; b = b; a = a }) }
        ensures value { IfSome result (λ p. p ≡ record { r = r; g = g; b = b; a = a }) }
    {
        if a <= ONE && r <= a && g <= a && b <= a {
            Some(Pixel { r, g, b, a })
        } else {
            None
        }
    }

    /// The pixel with these channels and this alpha, which make one.
    #[inline]
    pub(crate) fn of(r: u16, g: u16, b: u16, a: u16) -> Pixel
        requires { IsPixel (record { r = r; g = g; b = b; a = a }) }
        ensures value { result ≡ record { r = r; g = g; b = b; a = a } }
    {
        Pixel { r, g, b, a }
    }

    /// The red channel, at most alpha.
    #[inline]
    pub fn r(self) -> u16
        ensures value { result ≡ self.r }
        ensures pixel { IsPixel self }
    {
        self.r
    }

    /// The green channel, at most alpha.
    #[inline]
    pub fn g(self) -> u16
        ensures value { result ≡ self.g }
        ensures pixel { IsPixel self }
    {
        self.g
    }

    /// The blue channel, at most alpha.
    #[inline]
    pub fn b(self) -> u16
        ensures value { result ≡ self.b }
        ensures pixel { IsPixel self }
    {
        self.b
    }

    /// Alpha, at most 32768.
    #[inline]
    pub fn a(self) -> u16
        ensures value { result ≡ self.a }
        ensures pixel { IsPixel self }
    {
        self.a
    }
}

impl Default for Pixel {
    ghost is_default = { λ p. p ≡ clear };

    fn default() -> Self {
        Pixel::CLEAR
    }
}

/// The product of two numbers of which 32768 is one, rounded down.
#[inline]
pub(crate) fn mul(a: u16, b: u16) -> u16
    requires { b ≤ 32768 }
    ensures value { result ≡ mul a b }
{
    (a as u32 * b as u32 / 32768) as u16
}

/// The channel nearest to a byte, of which 255 is one.
#[inline]
pub fn from8(v: u8) -> u16
    ensures value { result ≡ from8 v }
    ensures within { result ≤ 32768 }
{
    ((v as u32 * 32768 + 127) / 255) as u16
}

/// The byte nearest to a channel, of which 32768 is one.
#[inline]
pub fn to8(c: u16) -> u8
    requires { c ≤ 32768 }
    ensures { result ≡ to8 c }
{
    ((c as u32 * 255 + 16384) / 32768) as u8
}

/// The pixel of an ARGB number: its high byte is alpha, then come red, green and blue.
pub fn of_argb(argb: u32) -> Pixel
    ensures value { result ≡ of_argb argb }
    ensures pixel { IsPixel result }
{
    let a = from8((argb >> 24) as u8);
    let r = from8((argb >> 16 & 0xff) as u8);
    let g = from8((argb >> 8 & 0xff) as u8);
    let b = from8((argb & 0xff) as u8);
    Pixel::of(mul(r, a), mul(g, a), mul(b, a), a)
}

/// The pixel with each of its four numbers multiplied by `by`, of which 32768 is one, and rounded
/// down.
#[inline]
pub fn fade(p: Pixel, by: u16) -> Pixel
    requires { by ≤ 32768 }
    ensures value { result ≡ fade p by }
    ensures pixel { IsPixel result }
{
    Pixel::of(mul(p.r, by), mul(p.g, by), mul(p.b, by), mul(p.a, by))
}
