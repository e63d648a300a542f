//! The board over contents of any kind: the dispatch of the commands.

ghost use Rattle.std.specs.Prelude.{◌≡◌, ◌+◌, ◌*◌, ◌≤◌, pos, ◌+ℤ◌, ◌&&◌, true, Some};
ghost use Rattle.std.specs.Prelude.{option_copied, option_map, is_some, IfSome, OnOk, OnErr};
ghost use Rattle.dp_layers.specs.Layers.{is_paint_row, row_limit};
ghost use Rattle.dp_layers.specs.Rows.{content_of, layers_of, with_content};
ghost use Rattle.dp_layers.specs.Changes.{IsCreate, has_effect};
ghost use Rattle.dp_pixels.specs.Feet.{are_apart};
ghost use Rattle.dp_pixels.specs.Resizes.{is_side};
ghost use Rattle.dp_plain.specs.Board.{empty_board, IsBoard};
ghost use Rattle.dp_plain.specs.Commands.{draw, resized, arranged, painted, painted_layer};
ghost use Rattle.dp_plain.specs.Commands.{IsArranging, is_accepted};
ghost use Rattle.dp_plain.specs.Weights.{board_weight};

use crate::plain::PlainPixels;
use crate::trees::{arrange_rows, new_content, paint_content, resized_tree};
use dp_blend::Pixel;
use dp_board::Board;
use dp_layers::{LayerRow, Tree, contents_ride_along, trees_stay_trees};
use dp_msg_draw::Draw;
use dp_pixels::{Resize, apart_commands_commute, foot, meets};
use dp_plain::{BoardView, LayerPixels};
use dp_steps::Steps;
use std::alloc::{AllocError, Global};
use std::marker::Model;
use std::sync::ledger::Ledger;

/// A board whose paint layers hold contents of one kind. It is seen as a `Board` of the
/// definitions, with the pixels of each content.
pub struct LayeredBoard<C: LayerPixels> {
    width: u32,
    height: u32,
    background: u32,
    tree: Tree<C>,
    alloc: Global,
}

// It is written out, so that it is only called where a board is let go.
impl<C: LayerPixels> Drop for LayeredBoard<C> {
    fn drop(self) {
        let LayeredBoard {
            width: _,
            height: _,
            background: _,
            tree,
            alloc: _,
        } = self;
        drop(tree);
    }
}

impl<C: LayerPixels> Model for LayeredBoard<C> {
    ghost use Rattle.dp_layers.specs.Rows.{map_contents};
    ghost use Rattle.dp_plain.specs.Board.{Board};
    ghost use Rattle.dp_plain.specs.Contents.{IsHeld};

    ghost Value = { Board };

    ghost view = { λ b. record {
      width = b.width;
      height = b.height;
      background = b.background;
      rows = map_contents (C.pixels b.width b.height) b.tree;
    } };

    ghost invariant = { λ b. IsHeld C.fits b.width b.height b.tree };
}

impl<C: LayerPixels> LayeredBoard<C> {
    /// The board before anything is drawn: 0 by 0, without rows.
    pub fn new(alloc: Global) -> Self
        ensures { result ≡ empty_board }
    {
        LayeredBoard {
            width: 0,
            height: 0,
            background: 0,
            tree: Tree::new(alloc),
            alloc,
        }
    }

    /// What the paint layer of the id holds, or `None` if no paint layer has the id.
    pub fn content(&self, id: u16) -> Option<&C>
        ensures pixels { option_map (C.pixels self.now.width self.now.height)
            (option_copied result) ≡ content_of self.now.rows id }
        ensures fits { IfSome result (λ content.
            C.fits self.now.width self.now.height content.now) }
    {
        contents_ride_along::<C, PlainPixels>();
        self.tree.content(id)
    }

    /// Puts a content in the place of what the paint layer of the id holds, and gives that back. A
    /// paint layer has the id, and the content belongs to the canvas.
    pub fn put_content(&mut self, id: u16, content: C) -> C
        requires present { is_some (content_of self.old.rows id) ≡ true }
        requires fits { C.fits self.old.width self.old.height content }
        ensures old { content_of self.old.rows id
            ≡ Some (C.pixels self.old.width self.old.height result) }
        ensures old_fits { C.fits self.old.width self.old.height result }
        ensures new { self.new ≡ record self.old {
          rows = with_content self.old.rows id
              (C.pixels self.old.width self.old.height content);
        } }
    {
        contents_ride_along::<C, PlainPixels>();
        trees_stay_trees::<C>();
        let _ = self.tree.content(id);
        self.tree.put_content(id, content)
    }

    /// Draws the command, as `draw` of the trait does, without counting a draw.
    fn apply<T: Ledger>(&mut self, command: &Draw, tiles: &mut Steps<T>) -> Result<(), AllocError>
        ensures ok { OnOk result (self.new ≡ draw self.old command.now) }
        ensures err { OnErr result (self.new ≡ self.old) }
        ensures memory { OnErr result (is_accepted self.old command.now ≡ true) }
        ensures tiles_rise { tiles.old ≤ tiles.new }
        ensures few_tiles { tiles.new ≤ tiles.old + board_weight C.resizing C.weight command.now }
    {
        match command {
            Draw::CanvasResize {
                top,
                right,
                bottom,
                left,
            } => self.resize(*top, *right, *bottom, *left, tiles),
            Draw::Background { color } => {
                self.background = *color;
                Ok(())
            }
            Draw::LayerCreate { .. } => self.create(command, tiles),
            Draw::LayerAttr { .. }
            | Draw::LayerTitle { .. }
            | Draw::LayerMove { .. }
            | Draw::LayerDelete { .. } => self.arrange(command),
            Draw::PutImage { layer, .. }
            | Draw::FillRect { layer, .. }
            | Draw::PutTile { layer, .. }
            | Draw::DabsRound { layer, .. }
            | Draw::DabsSquare { layer, .. }
            | Draw::MoveRect { layer, .. } => self.paint(*layer, command, tiles),
        }
    }

    /// Gives the canvas its new sides, if both are sides.
    fn resize<T: Ledger>(
        &mut self,
        top: i32,
        right: i32,
        bottom: i32,
        left: i32,
        tiles: &mut Steps<T>,
    ) -> Result<(), AllocError>
        ensures ok { OnOk result (self.new ≡ resized self.old top right bottom left) }
        ensures err { OnErr result (self.new ≡ self.old) }
        ensures memory { OnErr result ((is_side (pos self.old.width +ℤ left +ℤ right)
            && is_side (pos self.old.height +ℤ top +ℤ bottom)) ≡ true) }
        ensures tiles_rise { tiles.old ≤ tiles.new }
        ensures few_tiles { tiles.new ≤ tiles.old + row_limit * C.resizing }
    {
        let Some(change) = Resize::of_sides(self.width, self.height, top, right, bottom, left)
        else {
            return Ok(());
        };
        self.tree = resized_tree(self.alloc, &self.tree, change, tiles)?;
        self.width = change.new_width as u32;
        self.height = change.new_height as u32;
        Ok(())
    }

    /// Creates a row: a group, or a paint row with clear pixels.
    fn create<T: Ledger>(&mut self, command: &Draw, tiles: &mut Steps<T>) -> Result<(), AllocError>
        requires { IsCreate command.now }
        ensures ok { OnOk result (self.new ≡ arranged self.old command.now) }
        ensures err { OnErr result (self.new ≡ self.old) }
        ensures memory { OnErr result
            (has_effect (layers_of self.old.rows) command.now ≡ true) }
        ensures no_tile { tiles.new ≡ tiles.old }
    {
        contents_ride_along::<C, PlainPixels>();
        trees_stay_trees::<C>();
        if !self.tree.accepts(command) {
            return Ok(());
        }
        let content = new_content(self.alloc, command, self.width, self.height, tiles)?;
        let _effect = self.tree.create(command, content)?;
        Ok(())
    }

    /// Changes the rows by a command that makes none.
    fn arrange(&mut self, command: &Draw) -> Result<(), AllocError>
        requires { IsArranging command.now }
        ensures ok { OnOk result (self.new ≡ arranged self.old command.now) }
        ensures err { OnErr result (self.new ≡ self.old) }
        ensures memory { OnErr result
            (has_effect (layers_of self.old.rows) command.now ≡ true) }
    {
        contents_ride_along::<C, PlainPixels>();
        trees_stay_trees::<C>();
        arrange_rows(&mut self.tree, command)?;
        Ok(())
    }

    /// Draws a command on the pixels of the paint layer of the id, if there is one.
    fn paint<T: Ledger>(
        &mut self,
        id: u16,
        command: &Draw,
        tiles: &mut Steps<T>,
    ) -> Result<(), AllocError>
        requires { painted_layer command.now ≡ Some id }
        ensures ok { OnOk result (self.new ≡ painted self.old command.now id) }
        ensures err { OnErr result (self.new ≡ self.old) }
        ensures memory { OnErr result (is_paint_row (layers_of self.old.rows) id ≡ true) }
        ensures tiles_rise { tiles.old ≤ tiles.new }
        ensures few_tiles { tiles.new ≤ tiles.old + C.weight command.now }
    {
        paint_content(
            &mut self.tree,
            self.alloc,
            self.width,
            self.height,
            id,
            command,
            tiles,
        )?;
        Ok(())
    }
}

impl<C: LayerPixels> Board for LayeredBoard<C> {
    type Op = Draw;

    ghost is_board = { IsBoard };

    ghost drawn = { draw };

    ghost weight = { board_weight C.resizing C.weight };

    ghost are_apart = { are_apart };

    fn known(&self) {
        C::laws();
        let _rows = self.tree.rows();
    }

    fn draw<D: Ledger, T: Ledger>(
        &mut self,
        op: &Draw,
        draws: &mut Steps<D>,
        tiles: &mut Steps<T>,
    ) -> Result<(), AllocError>
        ensures board { OnOk result (self.new ≡ draw self.old op.now) }
        ensures one_draw { OnOk result (draws.new ≡ draws.old + 1) }
        ensures err_board { OnErr result (self.new ≡ self.old) }
        ensures err_draws { OnErr result (draws.new ≡ draws.old) }
        ensures memory { OnErr result (is_accepted self.old op.now ≡ true) }
        ensures tiles_rise { tiles.old ≤ tiles.new }
        ensures few_tiles { tiles.new ≤ tiles.old + board_weight C.resizing C.weight op.now }
    {
        self.apply(op, tiles)?;
        draws.tick();
        Ok(())
    }

    fn share<D: Ledger, T: Ledger>(
        &self,
        _draws: &mut Steps<D>,
        _tiles: &mut Steps<T>,
    ) -> Result<Self, AllocError> {
        Ok(LayeredBoard {
            width: self.width,
            height: self.height,
            background: self.background,
            tree: self.tree.share()?,
            alloc: self.alloc,
        })
    }

    fn copy_op(_alloc: Global, op: &Draw) -> Result<Draw, AllocError> {
        op.copy()
    }

    fn apart(a: &Draw, b: &Draw) -> bool {
        !meets(&foot(a), &foot(b))
    }

    fn laws() {
        apart_commands_commute();
        trees_stay_trees::<PlainPixels>();
    }
}

impl<C: LayerPixels> BoardView for LayeredBoard<C> {
    ghost board = { λ board. board };

    fn width(&self) -> u32 {
        self.known();
        self.width
    }

    fn height(&self) -> u32 {
        self.known();
        self.height
    }

    fn background(&self) -> u32 {
        self.background
    }

    fn rows(&self) -> &[LayerRow] {
        self.tree.rows()
    }

    fn known_pixels(&self) {
        C::laws();
        let _rows = self.tree.rows();
    }

    fn copy_part(&self, id: u16, x: u32, y: u32, part: &mut [Pixel]) {
        if let Some(content) = self.tree.content(id) {
            content.copy_part(self.width, self.height, x, y, part);
        }
    }

    fn tile_color(&self, id: u16, col: u32, row: u32) -> Option<Pixel> {
        let content = self.tree.content(id)?;
        content.tile_color(self.width, self.height, col, row)
    }

    fn tile(&self, id: u16, col: u32, row: u32, buffer: &mut [Pixel]) -> Option<Pixel> {
        match self.tree.content(id) {
            Some(content) => content.tile(self.width, self.height, col, row, buffer),
            None => None,
        }
    }

    fn pixel(&self, id: u16, x: u32, y: u32) -> Option<Pixel> {
        if x >= self.width || y >= self.height {
            return None;
        }
        let content = self.tree.content(id)?;
        Some(content.pixel(self.width, self.height, x, y))
    }
}
