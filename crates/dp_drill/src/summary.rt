//! The summary of a drill.

ghost use Rattle.std.specs.Prelude.{◌≡◌, ℕ, ◌+◌, ◌<◌, ◌≤◌, ◌∷◌, ◌++◌, [], decimal, IfOk, OnOk};
ghost use Rattle.dp_plain.specs.Picture.{picture};
ghost use Rattle.dp_drill.specs.Summary.{AreAtMost, plus, picture_row, summary, sums_of};

use dp_blend::{Pixel, to8};
use dp_flat::flatten;
use dp_plain::BoardView;
use itoa::Buffer;
use std::alloc::{AllocError, Global};

/// The sums of the bytes of each colour.
#[derive(Clone, Copy)]
pub(crate) struct Sums {
    pub red: u64,
    pub green: u64,
    pub blue: u64,
}

/// The sums over the picture of the board.
pub(crate) fn sums_of<V: BoardView>(board: &V) -> Sums
    ensures { result ≡ sums_of (picture (V.board board.now)) }
{
    let mut sums = Sums {
        red: 0,
        green: 0,
        blue: 0,
    };
    for y in 0..board.height() {
        sums = with_row(board, y, sums);
    }
    sums
}

/// The sums with those of a row. None of them passes 4096 rows of 4096 pixels.
fn with_row<V: BoardView>(board: &V, y: u32, before: Sums) -> Sums
    requires inside { y < (V.board board.now).height }
    requires small { AreAtMost 4278190080 before }
    ensures sums { result ≡ plus before (sums_of (picture_row (V.board board.now) y)) }
    ensures more { (most : ℕ) → AreAtMost most before → AreAtMost (most + 1044480) result }
{
    let mut sums = before;
    for x in 0..board.width() {
        sums = with_pixel(sums, flatten(board, x, y));
    }
    sums
}

/// The sums with the bytes of a pixel.
fn with_pixel(before: Sums, pixel: Pixel) -> Sums
    requires { AreAtMost 8589934592 before }
    ensures sums { result ≡ plus before (sums_of (pixel ∷ [])) }
    ensures more { (most : ℕ) → AreAtMost most before → AreAtMost (most + 255) result }
{
    Sums {
        red: before.red + u64::from(to8(pixel.r())),
        green: before.green + u64::from(to8(pixel.g())),
        blue: before.blue + u64::from(to8(pixel.b())),
    }
}

/// The lines of a drill's number and count of rounds, of the history's length, and of the sums.
pub(crate) fn summary(
    alloc: Global,
    seed: u64,
    rounds: u32,
    entries: usize,
    sums: Sums,
) -> Result<Vec<u8>, AllocError>
    ensures { IfOk result (λ text. text.items ≡ summary seed rounds entries sums) }
{
    let mut text = Vec::new(alloc);
    put(&mut text, b"drill ", seed)?;
    put(&mut text, b" ", u64::from(rounds))?;
    put(&mut text, b"\nentries ", entries as u64)?;
    put(&mut text, b"\nred ", sums.red)?;
    put(&mut text, b" green ", sums.green)?;
    put(&mut text, b" blue ", sums.blue)?;
    text.push(b'\n')?;
    Ok(text)
}

/// Adds the words, and then the number in decimal.
fn put(text: &mut Vec<u8>, words: &[u8], n: u64) -> Result<(), AllocError>
    ensures { OnOk result (text.new.items ≡ text.old.items ++ words.now ++ decimal n) }
{
    let mut digits = Buffer::new();
    text.extend_from_slice(words)?;
    text.extend_from_slice(digits.format(n).as_bytes())
}
