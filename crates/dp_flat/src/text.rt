//! The texts of pixels, in pieces.

ghost use Rattle.std.specs.Prelude.{◌≡◌, ◌+◌, ◌*◌, ◌≤◌, ◌++◌, length, replicate};
ghost use Rattle.std.specs.List.{flat_map};
ghost use Rattle.arrayvec.specs.ArrayVec.{array_vec_len};
ghost use Rattle.dp_plain.specs.Picture.{head};
ghost use Rattle.dp_flat.specs.Bands.{chunk_pixels, rgb_text};
ghost use Rattle.dp_flat.specs.Texts.{magic_of};

use crate::band::Rgb;
use arrayvec::{ArrayString, ArrayVec};
use itoa::Buffer;

/// The most bytes of a pixel: those of the line `255 255 255`.
const PIXEL_BYTES: usize = 12;

/// The most pixels of a chunk: those of a row of a tile.
const CHUNK: usize = 64;

/// The most bytes of a chunk.
pub(crate) const CHUNK_BYTES: usize = CHUNK * PIXEL_BYTES;

/// The most bytes that are written at once.
pub(crate) const PIECE_BYTES: usize = 64 * CHUNK_BYTES;

/// A piece of a text.
pub(crate) type Piece = ArrayVec<u8, PIECE_BYTES>;

/// A form in which the picture is written.
#[derive(Clone, Copy, PartialEq, Eq)]
pub(crate) enum Format {
    /// Three bytes a pixel.
    P6,
    /// A line of three decimal numbers a pixel.
    P3,
}

impl Format {
    /// The first line of a text in the format.
    fn name(self) -> &'static str
        ensures value { result.now ≡ magic_of self }
        ensures short { length result.now ≤ 3 }
    {
        match self {
            Format::P6 => "P6\n",
            Format::P3 => "P3\n",
        }
    }
}

/// The head of a picture of this width and height.
pub(crate) fn head_of(format: Format, width: u32, height: u32) -> ArrayString<96>
    ensures { result.bytes ≡ head (magic_of format) width height }
{
    let mut digits = Buffer::new();
    let mut head = ArrayString::new();
    head.push_str(format.name());
    head.push_str(digits.format(width));
    head.push_str(" ");
    head.push_str(digits.format(height));
    head.push_str("\n255\n");
    head
}

/// The text of a whole chunk of one colour. It is kept for the chunks of that colour to come.
#[derive(Drop)]
pub(crate) struct SolidText {
    format: Format,
    color: Rgb,
    bytes: ArrayVec<u8, CHUNK_BYTES>,
    ghost whole: { bytes.items ≡ flat_map (rgb_text format) (replicate 64 color) },
}

impl SolidText {
    /// The text of a chunk of this colour.
    pub(crate) fn new(format: Format, color: Rgb) -> SolidText
        ensures format { result.format ≡ format }
        ensures color { result.color ≡ color }
    {
        let mut bytes = ArrayVec::new();
        push_repeated(format, color, CHUNK, &mut bytes);
        SolidText {
            format,
            color,
            bytes,
        }
    }

    /// The bytes of the text of a chunk of this colour, made anew if another one is kept.
    fn bytes_of(&mut self, format: Format, color: Rgb) -> &[u8]
        ensures value { result.now ≡ flat_map (rgb_text format) (replicate 64 color) }
        ensures short { length result.now ≤ CHUNK_BYTES }
    {
        if self.color != color || self.format != format {
            *self = SolidText::new(format, color);
        }
        self.bytes.as_slice()
    }
}

/// Adds the texts of the pixels of a chunk. It is of one colour, if one is given, and else has
/// these pixels.
pub(crate) fn push_chunk(
    format: Format,
    color: Option<Rgb>,
    pixels: &[Rgb],
    solid: &mut SolidText,
    piece: &mut Piece,
)
    requires few { length pixels.now ≤ CHUNK }
    requires room { array_vec_len piece.old + CHUNK_BYTES ≤ PIECE_BYTES }
    ensures { piece.new.items
        ≡ piece.old.items ++ flat_map (rgb_text format) (chunk_pixels color pixels.now) }
{
    match color {
        Some(color) => push_solid(format, color, pixels.len(), solid, piece),
        None => push_pixels(format, pixels, piece),
    }
}

/// Adds the texts of the pixels of a chunk of one colour. That of a whole chunk is copied.
pub(crate) fn push_solid(
    format: Format,
    color: Rgb,
    count: usize,
    solid: &mut SolidText,
    piece: &mut Piece,
)
    requires few { count ≤ CHUNK }
    requires room { array_vec_len piece.old + CHUNK_BYTES ≤ PIECE_BYTES }
    ensures { piece.new.items
        ≡ piece.old.items ++ flat_map (rgb_text format) (replicate count color) }
{
    if count == CHUNK {
        push_all(solid.bytes_of(format, color), piece);
    } else {
        push_repeated(format, color, count, piece);
    }
}

/// Adds the text of a pixel `count` times.
#[tactic(auto, using(crate::proofs::Rows::copies_text))]
fn push_repeated<const CAP: usize>(
    format: Format,
    pixel: Rgb,
    count: usize,
    piece: &mut ArrayVec<u8, CAP>,
)
    requires few { count ≤ CHUNK }
    requires room { array_vec_len piece.old + CHUNK_BYTES ≤ CAP }
    ensures { piece.new.items
        ≡ piece.old.items ++ flat_map (rgb_text format) (replicate count pixel) }
{
    match format {
        Format::P6 => push_copies(&pixel, count, piece),
        Format::P3 => push_copies(line_of(pixel).as_bytes(), count, piece),
    }
}

/// Adds the bytes `count` times.
fn push_copies<const CAP: usize>(bytes: &[u8], count: usize, piece: &mut ArrayVec<u8, CAP>)
    requires short { length bytes.now ≤ PIXEL_BYTES }
    requires room { array_vec_len piece.old + count * PIXEL_BYTES ≤ CAP }
    ensures { piece.new.items
        ≡ piece.old.items ++ flat_map (λ copy. copy) (replicate count bytes.now) }
{
    for _ in 0..count {
        push_few(bytes, piece);
    }
}

/// Adds the texts of some pixels.
fn push_pixels(format: Format, pixels: &[Rgb], piece: &mut Piece)
    requires few { length pixels.now ≤ CHUNK }
    requires room { array_vec_len piece.old + CHUNK_BYTES ≤ PIECE_BYTES }
    ensures { piece.new.items ≡ piece.old.items ++ flat_map (rgb_text format) pixels.now }
{
    match format {
        Format::P6 => push_all(pixels.as_flattened(), piece),
        Format::P3 => push_lines(pixels, piece),
    }
}

/// Adds the lines of some pixels.
fn push_lines(pixels: &[Rgb], piece: &mut Piece)
    requires few { length pixels.now ≤ CHUNK }
    requires room { array_vec_len piece.old + CHUNK_BYTES ≤ PIECE_BYTES }
    ensures { piece.new.items ≡ piece.old.items ++ flat_map (rgb_text Format.P3) pixels.now }
{
    for pixel in pixels {
        push_few(line_of(*pixel).as_bytes(), piece);
    }
}

/// Adds the bytes, all at once.
pub(crate) fn push_all<const CAP: usize>(bytes: &[u8], piece: &mut ArrayVec<u8, CAP>)
    requires { array_vec_len piece.old + length bytes.now ≤ CAP }
    ensures { piece.new.items ≡ piece.old.items ++ bytes.now }
{
    if piece.try_extend_from_slice(bytes).is_err() {
        unreachable!();
    }
}

/// Adds the bytes one by one, which is faster if they are few.
#[inline]
fn push_few<const CAP: usize>(bytes: &[u8], piece: &mut ArrayVec<u8, CAP>)
    requires { array_vec_len piece.old + length bytes.now ≤ CAP }
    ensures { piece.new.items ≡ piece.old.items ++ bytes.now }
{
    for byte in bytes {
        piece.push(*byte);
    }
}

/// The line of a pixel.
fn line_of(pixel: Rgb) -> ArrayString<PIXEL_BYTES>
    ensures value { result.bytes ≡ rgb_text Format.P3 pixel }
    ensures short { length result.bytes ≤ PIXEL_BYTES }
{
    let mut digits = Buffer::new();
    let mut line = ArrayString::new();
    let [red, green, blue] = pixel;
    line.push_str(digits.format(red));
    line.push_str(" ");
    line.push_str(digits.format(green));
    line.push_str(" ");
    line.push_str(digits.format(blue));
    line.push_str("\n");
    line
}
