//! The canvas.

ghost use Rattle.std.specs.Prelude.{◌≡◌, ◌+◌, true, is_some, option_copied, option_map, length};
ghost use Rattle.std.specs.Prelude.{All, IfSome, OnOk, OnErr};
ghost use Rattle.dp_blend.specs.Color.{IsPixel};
ghost use Rattle.dp_board.specs.Counts.{CountsFew};
ghost use Rattle.dp_layers.specs.Rows.{content_of, with_content};
ghost use Rattle.dp_shift.specs.Grids.{IsGridOf};
ghost use Rattle.dp_pixels.specs.Feet.{are_apart, reach};
ghost use Rattle.dp_plain.specs.Board.{empty_board, IsBoard};
ghost use Rattle.dp_plain.specs.Commands.{draw, draw_all};
ghost use Rattle.dp_tile.specs.Tiles.{grid_pixels};

use crate::batch::draw_in_order;
use crate::tiled::TiledPixels;
use dp_blank::BlankBoard;
use dp_blend::Pixel;
use dp_board::Board;
use dp_layered::LayeredBoard;
use dp_layers::LayerRow;
use dp_msg_draw::Draw;
use dp_par::Workers;
use dp_plain::BoardView;
use dp_steps::Steps;
use dp_tile::Grid;
use dp_wire::Gate;
use std::alloc::{AllocError, Global};
use std::marker::Model;
use std::sync::ledger::Ledger;
use std::thread::Threads;

/// The board that is drawn on. It is seen as a `Board` of the definitions. Its layers are grids of
/// tiles, which canvases that were shared have in common until one of them is drawn on.
pub struct Canvas {
    board: LayeredBoard<TiledPixels>,
}

impl Model for Canvas {
    ghost use Rattle.dp_plain.specs.Board.{Board};

    ghost Value = { Board };

    ghost view = { λ c. c.board };
}

// It is written out, so that it is only called where a canvas is let go.
impl Drop for Canvas {
    fn drop(self) {
        let Canvas { board } = self;
        drop(board);
    }
}

impl Canvas {
    /// The canvas before anything is drawn: 0 by 0, without rows.
    pub fn new(alloc: Global) -> Canvas
        ensures { result ≡ empty_board }
    {
        Canvas {
            board: LayeredBoard::new(alloc),
        }
    }

    /// The grid whose pixels within the canvas are those of the paint layer of the id, or `None`
    /// if no paint layer has the id.
    pub fn grid(&self, id: u16) -> Option<&Grid>
        ensures pixels { option_map (grid_pixels self.now.width self.now.height)
            (option_copied result) ≡ content_of self.now.rows id }
        ensures sides { IfSome result (λ grid.
            IsGridOf self.now.width self.now.height grid.now) }
    {
        match self.board.content(id) {
            Some(content) => Some(&content.grid),
            None => None,
        }
    }

    /// Puts a grid in the place of that of the paint layer of the id.
    pub(crate) fn put_grid(&mut self, id: u16, grid: Grid)
        requires present { is_some (content_of self.old.rows id) ≡ true }
        requires sides { IsGridOf self.old.width self.old.height grid }
        requires pixels { All IsPixel (grid_pixels self.old.width self.old.height grid) }
        ensures { self.new ≡ record self.old {
          rows = with_content self.old.rows id
              (grid_pixels self.old.width self.old.height grid);
        } }
    {
        let _old = self.board.put_content(id, TiledPixels { grid });
    }

    /// Draws commands in order, by workers those that stand together and paint on one layer. The
    /// canvas is as if each were drawn by itself, whatever the number of workers.
    ///
    /// # Errors
    ///
    /// The canvas is as it was. Draws and tiles that were made are counted.
    pub fn draw_batch<R: Threads + Sync, G: Gate, D: Ledger, T: Ledger>(
        &mut self,
        rt: &R,
        ops: &[Draw],
        workers: &Workers<'_, G>,
        draws: &mut Steps<D>,
        tiles: &mut Steps<T>,
    ) -> Result<(), AllocError>
        ensures board { OnOk result (self.new ≡ draw_all self.old ops.now) }
        ensures draws { OnOk result (draws.new ≡ draws.old + length ops.now) }
        ensures err { OnErr result (self.new ≡ self.old) }
        ensures counts { CountsFew reach ops.now draws.old draws.new tiles.old tiles.new }
    {
        let mut next = self.share(draws, tiles)?;
        draw_in_order(rt, &mut next, ops, workers, draws, tiles)?;
        *self = next;
        Ok(())
    }
}

impl Board for Canvas {
    type Op = Draw;

    ghost is_board = { IsBoard };

    ghost drawn = { draw };

    ghost weight = { reach };

    ghost are_apart = { are_apart };

    fn known(&self) {
        self.board.known();
    }

    fn draw<D: Ledger, T: Ledger>(
        &mut self,
        op: &Draw,
        draws: &mut Steps<D>,
        tiles: &mut Steps<T>,
    ) -> Result<(), AllocError> {
        self.board.draw(op, draws, tiles)
    }

    fn share<D: Ledger, T: Ledger>(
        &self,
        draws: &mut Steps<D>,
        tiles: &mut Steps<T>,
    ) -> Result<Canvas, AllocError> {
        Ok(Canvas {
            board: self.board.share(draws, tiles)?,
        })
    }

    fn copy_op(_alloc: Global, op: &Draw) -> Result<Draw, AllocError> {
        op.copy()
    }

    fn apart(a: &Draw, b: &Draw) -> bool {
        LayeredBoard::<TiledPixels>::apart(a, b)
    }

    fn laws() {
        LayeredBoard::<TiledPixels>::laws();
    }
}

impl BlankBoard for Canvas {
    ghost blank = { empty_board };

    fn blank(alloc: Global) -> Result<Canvas, AllocError> {
        Ok(Canvas::new(alloc))
    }
}

impl BoardView for Canvas {
    ghost board = { λ board. board };

    fn width(&self) -> u32 {
        self.board.width()
    }

    fn height(&self) -> u32 {
        self.board.height()
    }

    fn background(&self) -> u32 {
        self.board.background()
    }

    fn rows(&self) -> &[LayerRow] {
        self.board.rows()
    }

    fn known_pixels(&self) {
        self.board.known_pixels();
    }

    fn copy_part(&self, id: u16, x: u32, y: u32, part: &mut [Pixel]) {
        self.board.copy_part(id, x, y, part);
    }

    fn tile_color(&self, id: u16, col: u32, row: u32) -> Option<Pixel> {
        self.board.tile_color(id, col, row)
    }

    fn tile(&self, id: u16, col: u32, row: u32, buffer: &mut [Pixel]) -> Option<Pixel> {
        self.board.tile(id, col, row, buffer)
    }

    fn pixel(&self, id: u16, x: u32, y: u32) -> Option<Pixel> {
        self.board.pixel(id, x, y)
    }
}
