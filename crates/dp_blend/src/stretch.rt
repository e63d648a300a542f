//! Parts of rows of pixels.

use crate::color::Pixel;

/// A part of a row of pixels.
#[derive(Clone, Copy)]
pub enum Stretch<'a> {
    /// Pixels of one colour.
    Solid(Pixel),
    /// These pixels.
    Pixels(&'a [Pixel]),
}
