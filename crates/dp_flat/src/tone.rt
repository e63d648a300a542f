//! A tile of pixels, and layers laid on it.
//!
//! A tile that is of one colour stays a colour, and takes one blend a layer.
//!
//! The rule: docs/protocol.md, "The picture".

ghost use Rattle.std.specs.Prelude.{◌≡◌, ◌<◌, ◌≤◌, ℕ, All, List, length, slice_index_or, true};
ghost use Rattle.dp_blend.specs.Color.{Channels, IsPixel, clear, fade};
ghost use Rattle.dp_blend.specs.Blending.{blend};
ghost use Rattle.dp_pixels.specs.Tiles.{tile_pixel};
ghost use Rattle.dp_plain.specs.Picture.{laid, mode_of};
ghost use Rattle.dp_flat.specs.Tones.{IsAsLong, stretch_at, tone_at};

use dp_blend::{
    Mode, ONE, Pixel, Stretch, blend, fade, fade_by_one_keeps, from8,
    normal_over_clear_gives_source, row_fill, row_merge,
};
use dp_layers::LayerRow;

/// How many pixels a side of a tile has.
pub(crate) const SIDE: u32 = 64;

/// How many pixels a buffer has: those of a tile.
pub(crate) const BUFFER: usize = 4096;

/// The place of a tile: its column and its row. It has 64 by 64 places, as far as the canvas goes.
#[derive(Clone, Copy)]
pub(crate) struct TileAt {
    pub(crate) col: u32,
    pub(crate) row: u32,
}

/// What a tile shows: one colour, or the pixels of a buffer.
#[derive(Clone, Copy)]
pub(crate) enum Tone {
    /// All of one colour, whatever the buffer holds.
    Solid(Pixel),
    /// The pixels of the buffer.
    Mixed,
}

impl Tone {
    /// The tone of a tile that is of one colour, if one is given.
    pub(crate) fn of(color: Option<Pixel>) -> Tone
        ensures { (pixels : List Channels) (k : ℕ)
            → tone_at result pixels k ≡ tile_pixel color pixels k }
    {
        match color {
            Some(color) => Tone::Solid(color),
            None => Tone::Mixed,
        }
    }

    /// What is shown, with this buffer.
    pub(crate) fn shown(self, buffer: &[Pixel]) -> Stretch<'_>
        ensures places { (i : ℕ) → stretch_at result i ≡ tone_at self buffer.now i }
        ensures long { IsAsLong result (length buffer.now) }
    {
        match self {
            Tone::Solid(color) => Stretch::Solid(color),
            Tone::Mixed => Stretch::Pixels(buffer),
        }
    }
}

/// Lays what a row of the list shows on a tile, and gives the tile's tone.
pub(crate) fn lay(row: &LayerRow, shown: Stretch<'_>, under: Tone, buffer: &mut [Pixel]) -> Tone
    requires { IsAsLong shown (length buffer.old) }
    ensures { (i : ℕ) → i < length buffer.old → tone_at result buffer.new i
        ≡ laid row.now (stretch_at shown.entry i) (tone_at under buffer.old i) }
{
    let mode = mode_of(row);
    let opacity = from8(row.opacity);
    match shown {
        Stretch::Solid(color) => lay_faded(mode, opacity, color, under, buffer),
        Stretch::Pixels(pixels) => lay_pixels(mode, opacity, pixels, under, buffer),
    }
}

/// Lays a colour, faded by the opacity, on a tile.
fn lay_faded(mode: Mode, opacity: u16, color: Pixel, under: Tone, buffer: &mut [Pixel]) -> Tone
    requires { opacity ≤ 32768 }
    ensures { (i : ℕ) → i < length buffer.old → tone_at result buffer.new i
        ≡ blend mode (fade color opacity) (tone_at under buffer.old i) }
{
    if shows_nothing(mode, color) {
        known_pixels(buffer);
        return under;
    }
    lay_color(mode, fade(color, opacity), under, buffer)
}

/// Lays a colour on a tile.
fn lay_color(mode: Mode, color: Pixel, under: Tone, buffer: &mut [Pixel]) -> Tone
    ensures { (i : ℕ) → i < length buffer.old → tone_at result buffer.new i
        ≡ blend mode color (tone_at under buffer.old i) }
{
    match under {
        Tone::Solid(below) => Tone::Solid(blend(mode, color, below)),
        Tone::Mixed => lay_on_pixels(mode, color, buffer),
    }
}

/// Lays a colour on the pixels of a buffer.
fn lay_on_pixels(mode: Mode, color: Pixel, buffer: &mut [Pixel]) -> Tone
    ensures { (i : ℕ) → i < length buffer.old → tone_at result buffer.new i
        ≡ blend mode color (slice_index_or buffer.old i clear) }
{
    if hides(mode, color) {
        return Tone::Solid(color);
    }
    if shows_nothing(mode, color) {
        known_pixels(buffer);
        return Tone::Mixed;
    }
    row_fill(mode, color, buffer);
    Tone::Mixed
}

/// No channel of these pixels is above alpha. The call does nothing.
fn known_pixels(pixels: &[Pixel])
    ensures { All IsPixel pixels.now }
{
    for pixel in pixels {
        let _alpha = pixel.a();
    }
}

/// Whether the colour takes the place of whatever it is laid on.
pub(crate) fn hides(mode: Mode, color: Pixel) -> bool
    ensures { result ≡ true → (under : Channels) → blend mode color under ≡ color }
{
    match mode {
        Mode::Replace => true,
        Mode::Normal => color.a() == ONE,
        _ => false,
    }
}

/// Whether each pixel stays as it is if the colour is laid on it, whatever that is faded by.
fn shows_nothing(mode: Mode, color: Pixel) -> bool
    ensures plain { result ≡ true → (under : Channels) → IsPixel under
        → blend mode color under ≡ under }
    ensures faded { result ≡ true → (opacity : ℕ) → fade color opacity ≡ color }
{
    color == Pixel::CLEAR && mode != Mode::Replace
}

/// Lays pixels, faded by the opacity, on a tile.
fn lay_pixels(mode: Mode, opacity: u16, pixels: &[Pixel], under: Tone, buffer: &mut [Pixel]) -> Tone
    requires opacity { opacity ≤ 32768 }
    requires long { length pixels.now ≡ length buffer.old }
    ensures { (i : ℕ) → i < length buffer.old → tone_at result buffer.new i
        ≡ blend mode (fade (slice_index_or pixels.now i clear) opacity)
        (tone_at under buffer.old i) }
{
    if shows_source(mode, opacity, &under) {
        buffer.copy_from_slice(pixels);
    } else {
        spread(under, buffer);
        row_merge(mode, opacity, pixels, buffer);
    }
    Tone::Mixed
}

/// Whether a tile shows just the pixels that are laid on it so: it is clear, and they are laid in
/// the normal mode and not faded.
pub(crate) fn shows_source(mode: Mode, opacity: u16, under: &Tone) -> bool
    ensures { result ≡ true → (p : Channels) (pixels : List Channels) (i : ℕ)
        → blend mode (fade p opacity) (tone_at under.now pixels i) ≡ p }
{
    fade_by_one_keeps();
    normal_over_clear_gives_source();
    match under {
        Tone::Solid(below) => mode == Mode::Normal && opacity == ONE && *below == Pixel::CLEAR,
        Tone::Mixed => false,
    }
}

/// Leaves what is shown in the buffer.
fn spread(tone: Tone, buffer: &mut [Pixel])
    ensures { (i : ℕ) → i < length buffer.old
        → slice_index_or buffer.new i clear ≡ tone_at tone buffer.old i }
{
    if let Tone::Solid(color) = tone {
        row_fill(Mode::Replace, color, buffer);
    }
}

/// The row's blend mode.
pub(crate) fn mode_of(row: &LayerRow) -> Mode
    ensures { result ≡ mode_of row.now }
{
    Mode::from_u8(row.mode).unwrap_or(Mode::Normal)
}
