//! The tree of layers.
//!
//! The rule: docs/protocol.md, "The layers".

ghost use Rattle.std.specs.Prelude.{◌≡◌, [], length, count_by, not, true, IfOk, OnOk, OnErr};
ghost use Rattle.std.specs.Prelude.{is_some, option_copied};
ghost use Rattle.std.specs.Option.{option_copied_mut};
ghost use Rattle.std.specs.Borrow.{sem};
ghost use Rattle.dp_layers.specs.Layers.{is_paint_row};
ghost use Rattle.dp_layers.specs.Rows.{layers_of, contents_of, content_of, with_content};
ghost use Rattle.dp_layers.specs.Changes.{
  has_effect,
  rows_after,
  makes_paint_row,
  IsCreate,
  IsAttr,
  IsTitleChange,
  IsMove,
  IsDelete,
};
ghost use Rattle.dp_layers.specs.Tree.{IsTree};
ghost use Rattle.dp_layers.specs.Inside.{IsRearranging};
ghost use Rattle.dp_layers.specs.Lends.{lends_content};

use crate::changes::{drop_held, drop_rows, new_row, put_last, rearrange};
use crate::held::{Held, held_by, paired, place_of_held, share_held};
use crate::lookup::{gone_ids, has_effect};
use crate::row::LayerRow;
use crate::rows::Rows;
use crate::share::Share;
use dp_msg_draw::Draw;
use std::alloc::{AllocError, Global};
use std::marker::Model;
use std::mem::replace;

/// The rows of the list of layers, the bottom one first, with what each paint row holds. It is seen
/// as the list of its rows, which keep to `IsTree`.
#[derive(Drop)]
pub struct Tree<X> {
    /// Other trees may share them.
    rows: Rows,
    /// What the paint rows hold, in no order.
    contents: Vec<Held<X>>,
}

impl<X> Model for Tree<X> {
    ghost use Rattle.std.specs.Prelude.{List};
    ghost use Rattle.dp_layers.specs.Rows.{Row};

    ghost Value = { List (Row X) };

    ghost use Rattle.dp_layers.specs.Inside.{rows_with, IsHolding};

    ghost view = { λ t. rows_with t.contents.items t.rows };

    ghost invariant = { λ t. IsHolding t.rows t.contents.items };
}

impl<X: Drop> Tree<X> {
    /// The tree without rows.
    pub fn new(alloc: Global) -> Tree<X>
        ensures { result ≡ [] }
    {
        Tree {
            rows: Rows::none(),
            contents: Vec::new(alloc),
        }
    }

    /// The rows, the bottom one first.
    pub fn rows(&self) -> &[LayerRow]
        ensures rows { result.now ≡ layers_of self.now }
        ensures tree { IsTree self.now }
    {
        self.rows.as_slice()
    }

    /// What the paint row of the id holds, or `None` if no paint row has the id.
    pub fn content(&self, id: u16) -> Option<&X>
        ensures value { option_copied result ≡ content_of self.now id }
        ensures paint { is_some result ≡ is_paint_row (layers_of self.now) id }
    {
        held_by(&self.contents, id)
    }

    /// What the paint row of the id holds, to be changed, or `None` if no paint row has the id.
    pub fn content_mut(&mut self, id: u16) -> Option<&mut X>
        ensures* writes_back { sem 𝓛 (lends_content X.row self.entry id result) }
        ensures value { option_copied_mut result ≡ content_of self.old id }
        ensures paint { is_some result ≡ is_paint_row (layers_of self.old) id }
    {
        let place = place_of_held(&self.contents, id)?;
        let held = &mut self.contents[place];
        Some(&mut held.x)
    }

    /// Puts x in the place of what the paint row of the id holds, and gives that back. A paint row
    /// has the id.
    pub fn put_content(&mut self, id: u16, x: X) -> X
        requires { is_paint_row (layers_of self.old) id ≡ true }
        ensures old { content_of self.old id ≡ Some result }
        ensures new { self.new ≡ with_content self.old id x }
    {
        match self.content_mut(id) {
            Some(held) => replace(held, x),
            None => unreachable!(),
        }
    }

    /// Whether a LayerCreate has an effect. It takes no memory.
    pub fn accepts(&self, command: &Draw) -> bool
        requires kind { IsCreate command.now }
        ensures { result ≡ has_effect (layers_of self.now) command.now }
    {
        has_effect(self.rows(), command)
    }

    /// LayerCreate: puts a new row last, which holds x, if it is no group. True exactly if
    /// the command has an effect.
    ///
    /// # Errors
    ///
    /// The rows are as they were.
    pub fn create(&mut self, command: &Draw, x: Option<X>) -> Result<bool, AllocError>
        requires kind { IsCreate command.now }
        requires content { is_some x ≡ makes_paint_row command.now }
        ensures effect { IfOk result
            (λ effect. effect ≡ has_effect (layers_of self.old) command.now) }
        ensures ok { OnOk result (self.new ≡ rows_after self.old command.now x) }
        ensures err { OnErr result (self.new ≡ self.old) }
        ensures memory { OnErr result (has_effect (layers_of self.old) command.now ≡ true) }
    {
        if !self.accepts(command) {
            return Ok(false);
        }
        let Draw::LayerCreate {
            id,
            parent,
            group,
            title,
        } = command
        else {
            unreachable!()
        };
        let row = new_row(*id, *parent, *group, title)?;
        let alloc = *self.contents.allocator();
        let rows = self.rows.sole(alloc)?;
        put_last(rows, &mut self.contents, row, x)?;
        Ok(true)
    }

    /// LayerAttr: gives the row its opacity and mode, and hides it or shows it. True exactly if
    /// the command has an effect.
    ///
    /// # Errors
    ///
    /// The rows are as they were.
    pub fn attr(&mut self, command: &Draw) -> Result<bool, AllocError>
        requires { IsAttr command.now }
        ensures effect { IfOk result
            (λ effect. effect ≡ has_effect (layers_of self.old) command.now) }
        ensures ok { OnOk result (self.new ≡ rows_after self.old command.now None) }
        ensures err { OnErr result (self.new ≡ self.old) }
        ensures memory { OnErr result (has_effect (layers_of self.old) command.now ≡ true) }
    {
        self.rearrange(command)
    }

    /// LayerTitle: gives the row its title. True exactly if the command has an effect.
    ///
    /// # Errors
    ///
    /// The rows are as they were.
    pub fn title(&mut self, command: &Draw) -> Result<bool, AllocError>
        requires { IsTitleChange command.now }
        ensures effect { IfOk result
            (λ effect. effect ≡ has_effect (layers_of self.old) command.now) }
        ensures ok { OnOk result (self.new ≡ rows_after self.old command.now None) }
        ensures err { OnErr result (self.new ≡ self.old) }
        ensures memory { OnErr result (has_effect (layers_of self.old) command.now ≡ true) }
    {
        self.rearrange(command)
    }

    /// LayerMove: puts the row into another parent, and after another row. True exactly if the
    /// command has an effect.
    ///
    /// # Errors
    ///
    /// The rows are as they were.
    pub fn shift(&mut self, command: &Draw) -> Result<bool, AllocError>
        requires { IsMove command.now }
        ensures effect { IfOk result
            (λ effect. effect ≡ has_effect (layers_of self.old) command.now) }
        ensures ok { OnOk result (self.new ≡ rows_after self.old command.now None) }
        ensures err { OnErr result (self.new ≡ self.old) }
        ensures memory { OnErr result (has_effect (layers_of self.old) command.now ≡ true) }
    {
        self.rearrange(command)
    }

    /// A command that changes rows and leaves what they hold.
    fn rearrange(&mut self, command: &Draw) -> Result<bool, AllocError>
        requires { IsRearranging command.now }
        ensures effect { IfOk result
            (λ effect. effect ≡ has_effect (layers_of self.old) command.now) }
        ensures ok { OnOk result (self.new ≡ rows_after self.old command.now None) }
        ensures err { OnErr result (self.new ≡ self.old) }
        ensures memory { OnErr result (has_effect (layers_of self.old) command.now ≡ true) }
    {
        if !has_effect(self.rows(), command) {
            return Ok(false);
        }
        let rows = self.rows.sole(*self.contents.allocator())?;
        rearrange(rows, command)?;
        Ok(true)
    }

    /// LayerDelete: takes the row away, with all rows below it. True exactly if the command has
    /// an effect.
    ///
    /// # Errors
    ///
    /// The rows are as they were.
    pub fn delete(&mut self, command: &Draw) -> Result<bool, AllocError>
        requires { IsDelete command.now }
        ensures effect { IfOk result
            (λ effect. effect ≡ has_effect (layers_of self.old) command.now) }
        ensures ok { OnOk result (self.new ≡ rows_after self.old command.now None) }
        ensures err { OnErr result (self.new ≡ self.old) }
        ensures memory { OnErr result (has_effect (layers_of self.old) command.now ≡ true) }
    {
        if !has_effect(self.rows(), command) {
            return Ok(false);
        }
        let Draw::LayerDelete { id } = command else {
            unreachable!()
        };
        let alloc = *self.contents.allocator();
        let gone = gone_ids(alloc, self.rows.as_slice(), *id)?;
        let rows = self.rows.sole(alloc)?;
        drop_rows(rows, &gone);
        drop_held(&mut self.contents, &gone);
        Ok(true)
    }

    /// A tree of the same rows, whose paint rows hold the contents, the bottom one the first. There
    /// are as many contents as paint rows.
    pub fn remake(&self, contents: Vec<X>) -> Result<Tree<X>, AllocError>
        requires { length contents.items ≡ count_by (λ row. not row.group) (layers_of self.now) }
        ensures rows { IfOk result (λ tree. layers_of tree ≡ layers_of self.now) }
        ensures contents { IfOk result (λ tree. contents_of tree ≡ contents.items) }
    {
        let rows = self.rows.share()?;
        let contents = paired(rows.as_slice(), contents)?;
        Ok(Tree { rows, contents })
    }
}

impl<X: Share + Drop> Tree<X> {
    /// A second tree of the same rows, which hold the same. It asks for each content once.
    pub fn share(&self) -> Result<Tree<X>, AllocError>
        ensures { IfOk result (λ tree. tree ≡ self.now) }
    {
        let rows = self.rows.share()?;
        let contents = share_held(&self.contents)?;
        Ok(Tree { rows, contents })
    }
}
