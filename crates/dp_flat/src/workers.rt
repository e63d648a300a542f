//! Rows of tiles of a picture that are drawn at the same time by workers.
//!
//! Each row of tiles is drawn in a slot, which a lock keeps. What a slot holds is right by its
//! type, which names the board. So who takes the slot finds its row of tiles drawn, or draws it.

ghost use Rattle.std.specs.Prelude.{◌≡◌, ◌+◌, ◌*◌, ◌<◌, ◌≤◌, true, length, vec_len};
ghost use Rattle.std.specs.Prelude.{IfOk};
ghost use Rattle.dp_pixels.specs.Tiles.{tiles_along};
ghost use Rattle.dp_plain.specs.Board.{Board};
ghost use Rattle.dp_flat.specs.Bands.{IsBand};

use crate::band::{BLACK, Rgb, draw_band, tiles_along};
use crate::compose::depth_of;
use crate::tone::BUFFER;
use dp_blend::Pixel;
use dp_par::par_take;
use dp_plain::BoardView;
use dp_wire::Gate;
use std::alloc::{AllocError, Global};
use std::marker::{Brand, Model, PhantomData};
use std::sync::Mutex;
use std::thread::Threads;

/// A type that names a board.
pub(crate) trait Shown: Send + Sync {
    ghost shown: { Board };
}

impl Shown for Brand {
    ghost use Rattle.dp_plain.specs.Board.{empty_board};

    ghost shown = { empty_board };
}

/// Memory for a row of tiles of the picture of the board that `B` names. It may be drawn in it.
#[derive(Drop)]
pub(crate) struct Band<'a, V: BoardView, B: Shown> {
    board: &'a V,
    depth: usize,
    row: u32,
    is_drawn: bool,
    memory: Vec<Pixel>,
    colors: Vec<Option<Rgb>>,
    bytes: Vec<Rgb>,
    named: PhantomData<B>,
}

impl<'a, V: BoardView, B: Shown> Model for Band<'a, V, B> {
    ghost use Rattle.std.specs.Prelude.{◌≡◌};
    ghost use Rattle.dp_flat.specs.Jobs.{DrawnBand, HasBand};

    ghost Value = { DrawnBand };

    ghost view = { λ j. record {
      row = j.row;
      drawn = j.is_drawn;
      colors = j.colors.items;
      bytes = j.bytes.items;
    } };

    ghost invariant = { λ j. (V.board j.board.now ≡ B.shown)
        × HasBand B.shown j.depth j.row j.is_drawn j.memory.items j.colors.items j.bytes.items };
}

impl<'a, V: BoardView, B: Shown> Band<'a, V, B> {
    /// Memory in which nothing is drawn.
    fn new(alloc: Global, board: &'a V) -> Result<Band<'a, V, B>, AllocError>
        requires { V.board board.now ≡ B.shown }
    {
        let cols = tiles_along(board.width()) as usize;
        let depth = depth_of(board);
        let memory = vec![in alloc; Pixel::CLEAR; BUFFER * (depth + 1)]?;
        let colors = vec![in alloc; None; cols]?;
        let bytes = vec![in alloc; BLACK; BUFFER * cols]?;
        Ok(Band {
            board,
            depth,
            row: 0,
            is_drawn: false,
            memory,
            colors,
            bytes,
            named: PhantomData,
        })
    }

    /// Draws a row of tiles in it, if the board has it and it isn't drawn there.
    pub(crate) fn draw(&mut self, row: u32)
        ensures row { self.new.row ≡ row }
        ensures drawn { row * 64 < B.shown.height → self.new.drawn ≡ true }
    {
        if self.is_drawn && self.row == row {
            return;
        }
        self.row = row;
        self.is_drawn = false;
        if row as u64 * 64 < self.board.height() as u64 {
            self.draw_anew();
        }
    }

    /// Draws its row of tiles.
    fn draw_anew(&mut self)
        requires { self.old.row * 64 < B.shown.height }
        ensures row { self.new.row ≡ self.old.row }
        ensures drawn { self.new.drawn ≡ true }
    {
        let Band {
            board,
            depth,
            row,
            is_drawn,
            memory,
            colors,
            bytes,
            ..
        } = self;
        draw_band(*board, *depth, *row, memory, colors, bytes);
        *is_drawn = true;
    }

    /// The colours of the tiles of the row of tiles that is drawn in it.
    pub(crate) fn colors(&self) -> &[Option<Rgb>]
        ensures colors { result.now ≡ self.now.colors }
        ensures count { length result.now ≡ tiles_along B.shown.width }
    {
        &self.colors
    }

    /// The bytes of these tiles.
    pub(crate) fn bytes(&self) -> &[Rgb]
        ensures bytes { result.now ≡ self.now.bytes }
        ensures count { length result.now ≡ 4096 * tiles_along B.shown.width }
        ensures band { self.now.drawn ≡ true
            → IsBand B.shown self.now.row self.now.colors self.now.bytes }
    {
        &self.bytes
    }
}

/// What a lock keeps: memory for a row of tiles.
pub(crate) type Slot<'a, V, B> = Mutex<Band<'a, V, B>>;

/// Slots for the rows of tiles that are drawn at the same time.
pub(crate) fn make_slots<'a, V: BoardView, B: Shown>(
    alloc: Global,
    board: &'a V,
    count: u32,
) -> Result<Vec<Slot<'a, V, B>>, AllocError>
    requires { V.board board.now ≡ B.shown }
    ensures { IfOk result (λ slots. vec_len slots ≡ count) }
{
    let mut slots = Vec::with_capacity(alloc, count as usize)?;
    for _made in 0..count {
        slots.push(Mutex::new(Band::new(alloc, board)?))?;
    }
    Ok(slots)
}

/// Has workers draw the rows of tiles from one on in the slots.
pub(crate) fn draw_ahead<R: Threads + Sync, V: BoardView + Sync, B: Shown, G: Gate>(
    rt: &R,
    workers: u32,
    gate: &G,
    slots: &[Slot<'_, V, B>],
    first: u32,
)
    requires few { length slots.now ≤ 64 }
    requires first { first < 64 }
{
    par_take(
        rt,
        workers,
        gate,
        slots.len() as u32,
        &|k: u32|
            requires { (k < length slots.now) × (length slots.now ≤ 64) × (first < 64) }
        {
            if let Some(mut band) = slots[k as usize].try_lock() {
                band.draw(first + k);
            }
        },
    );
}

/// The slot after a slot, of `count` slots: the first one after the last.
pub(crate) fn next_slot(slot: usize, count: usize) -> usize
    requires { slot < count }
    ensures inside { result < count }
{
    if slot + 1 < count { slot + 1 } else { 0 }
}
