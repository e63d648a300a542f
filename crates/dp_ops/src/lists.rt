//! Operations that wait until the tiles on which they are done are painted or read.

ghost use Rattle.std.specs.Prelude.{◌≡◌, ◌+◌, ◌-◌, ◌*◌, ◌<◌, ◌≤◌, [], ◌∷◌, ◌++◌, length};
ghost use Rattle.std.specs.Prelude.{IfOk, OnOk, OnErr, true};
ghost use Rattle.dp_ops.specs.Ops.{IsPackable};
ghost use Rattle.dp_ops.specs.Lists.{AddsMore, HaveSame, HaveSameLists, IsChangedOn};
ghost use Rattle.dp_ops.specs.Lists.{AllCount, HasLists, IsFinished, StayOutside, cell_place};
ghost use Rattle.dp_ops.specs.Lists.{PutsMore, finished, list_at, listed_at, no_list, row_to};

use crate::filing::TileSource;
use crate::op::{PackedOp, TileOp};
use dp_tile::CellArea;
use std::alloc::{AllocError, Global};
use std::marker::Model;

/// What becomes of the operations of a list.
#[derive(Clone, Copy)]
pub enum Finish {
    /// Those that were added count.
    Keep,
    /// Those that were added go.
    Drop,
    /// All go.
    Clear,
}

/// The operations that wait on a tile, in order, and then those that were added since and don't
/// count yet.
#[derive(Drop)]
pub(crate) struct OpList {
    ops: Vec<PackedOp>,
    kept: usize,
}

impl Model for OpList {
    ghost use Rattle.std.specs.Prelude.{take, drop, ◌≤◌, length};
    ghost use Rattle.dp_ops.specs.Lists.{Waiting};

    ghost Value = { Waiting };

    ghost view = { λ l. record {
      ops = take l.kept l.ops.items;
      more = drop l.kept l.ops.items;
    } };

    ghost invariant = { λ l. l.kept ≤ length l.ops.items };
}

/// Adds an operation at the end of a list: without a call where there is room.
#[inline(always)]
fn push_quickly(ops: &mut Vec<PackedOp>, op: PackedOp) -> Result<(), AllocError>
    ensures added { OnOk result (ops.new.items ≡ ops.old.items ++ op ∷ []) }
    ensures same { OnErr result (ops.new.items ≡ ops.old.items) }
{
    if ops.len() < ops.capacity() {
        ops.push_reserved(op);
        return Ok(());
    }
    ops.push(op)?;
    Ok(())
}

impl OpList {
    /// No operation. It takes no memory.
    fn new(alloc: Global) -> OpList
        ensures { result ≡ no_list }
    {
        OpList {
            ops: Vec::new(alloc),
            kept: 0,
        }
    }

    /// Adds an operation after the others.
    #[inline(always)]
    fn add(&mut self, op: TileOp) -> Result<(), AllocError>
        requires { IsPackable op }
        ensures ops { self.new.ops ≡ self.old.ops }
        ensures more { OnOk result (self.new.more ≡ self.old.more ++ op ∷ []) }
    {
        self.ops.push(PackedOp::of(op))?;
        Ok(())
    }

    /// Adds an operation that counts. None was added before that doesn't.
    #[inline(always)]
    fn put(&mut self, op: TileOp) -> Result<(), AllocError>
        requires packs { IsPackable op }
        requires counts { self.old.more ≡ [] }
        ensures put { OnOk result
            (self.new ≡ record { ops = self.old.ops ++ op ∷ []; more = [] }) }
        ensures same { OnErr result (self.new ≡ self.old) }
    {
        push_quickly(&mut self.ops, PackedOp::of(op))?;
        self.kept = self.ops.len();
        Ok(())
    }

    /// Counts those that were added, or lets operations go.
    #[inline(always)]
    fn finish(&mut self, how: Finish)
        ensures { self.new ≡ finished how self.old }
    {
        match how {
            Finish::Keep => self.kept = self.ops.len(),
            Finish::Drop => self.ops.truncate(self.kept),
            Finish::Clear => {
                self.kept = 0;
                self.ops.clear();
            }
        }
    }

    /// A copy of the operations that count.
    fn share(&self) -> Result<OpList, AllocError>
        ensures { IfOk result (λ copy. copy ≡ record { ops = self.now.ops; more = [] }) }
    {
        let mut ops = Vec::with_capacity(*self.ops.allocator(), self.kept)?;
        for op in self.ops() {
            ops.push(op.copy())?;
        }
        let kept = ops.len();
        Ok(OpList { ops, kept })
    }

    /// The operations that count.
    fn ops(&self) -> &[PackedOp]
        ensures { result.now ≡ self.now.ops }
    {
        &self.ops[..self.kept]
    }
}

/// Whether an area is one cell, as that of most fills. Then no loop is needed.
#[inline(always)]
pub(crate) fn is_one_cell(area: CellArea) -> bool
    requires across { area.left ≤ area.right }
    requires down { area.top ≤ area.bottom }
    ensures right { result ≡ true → area.right ≡ area.left + 1 }
    ensures bottom { result ≡ true → area.bottom ≡ area.top + 1 }
{
    area.right - area.left == 1 && area.bottom - area.top == 1
}

/// Lists of operations of the tiles of a grid, from a row of tiles on, in strips of 8
/// rows. The last ones may not be there yet.
#[derive(Drop)]
pub struct TileLists {
    first: u32,
    lists: Vec<OpList>,
    added: usize,
}

impl Model for TileLists {
    ghost use Rattle.dp_ops.specs.Lists.{Lists};

    ghost Value = { Lists };

    ghost view = { λ l. record { first = l.first; lists = l.lists.items } };
}

impl TileLists {
    /// No operation on any tile from a row of tiles on. It takes no memory.
    pub fn new(alloc: Global, first: u32) -> TileLists
        ensures { result ≡ record { first = first; lists = [] } }
    {
        TileLists {
            first,
            lists: Vec::new(alloc),
            added: 0,
        }
    }

    /// How many operations were added since the lists were made.
    pub fn added(&self) -> usize {
        self.added
    }

    /// Whether there is no list yet, so that nothing waits.
    pub fn is_blank(&self) -> bool
        ensures { result ≡ true → self.now.lists ≡ [] }
    {
        self.lists.is_empty()
    }

    /// Where the list of a tile stands: in strips of 8 rows, and there column by column.
    #[inline(always)]
    fn index(&self, col: u32, row: u32) -> usize
        requires col { col < 64 }
        requires first { self.now.first ≤ row }
        ensures { result ≡ cell_place col (row - self.now.first) }
    {
        let down = (row - self.first) as usize;
        (down / 8 * 64 + col as usize) * 8 + down % 8
    }

    /// Makes the lists of the tiles in the columns before one and the rows before one, if they
    /// aren't there yet. Those of the whole last column of a strip are made.
    #[inline(always)]
    pub(crate) fn grow(&mut self, alloc: Global, right: u32, bottom: u32) -> Result<(), AllocError>
        requires cols { right ≤ 64 }
        requires first { self.old.first ≤ bottom }
        requires few { bottom ≤ 64 }
        ensures first { self.new.first ≡ self.old.first }
        ensures same { HaveSameLists self.old self.new }
        ensures room { OnOk result (HasLists right bottom self.new) }
    {
        let strips = (bottom - self.first).saturating_sub(1) / 8;
        for _made in self.lists.len()..(strips * 64 + right) as usize * 8 {
            self.lists.push(OpList::new(alloc))?;
        }
        Ok(())
    }

    /// Whether the list of the tile at a column and a row is there.
    #[inline(always)]
    pub(crate) fn has_list(&self, col: u32, row: u32) -> bool
        requires col { col < 64 }
        requires first { self.now.first ≤ row }
        ensures { result ≡ true
            → cell_place col (row - self.now.first) < length self.now.lists }
    {
        self.index(col, row) < self.lists.len()
    }

    /// Adds what a source does on the tile at a column and a row, so that it counts. None was added
    /// there before that doesn't.
    #[inline(always)]
    pub(crate) fn put<S: TileSource>(
        &mut self,
        source: &S,
        col: u32,
        row: u32,
    ) -> Result<(), AllocError>
        requires col { col < 64 }
        requires row { row < 64 }
        requires first { self.old.first ≤ row }
        requires room { cell_place col (row - self.old.first) < length self.old.lists }
        requires counts { (list_at self.old col row).more ≡ [] }
        ensures first { self.new.first ≡ self.old.first }
        ensures put { OnOk result (IsChangedOn (row_to row col (col + 1))
            (PutsMore (S.among source.now) (S.change source.now)) self.old self.new) }
        ensures same { OnErr result (HaveSameLists self.old self.new) }
    {
        self.added = self.added.saturating_add(1);
        let at = self.index(col, row);
        self.lists[at].put(source.op(col, row))
    }

    /// Adds what a source does on the tile at a column and a row.
    #[inline(always)]
    fn add_at<S: TileSource>(&mut self, source: &S, col: u32, row: u32) -> Result<(), AllocError>
        requires col { col < 64 }
        requires row { row < 64 }
        requires first { self.old.first ≤ row }
        requires room { cell_place col (row - self.old.first) < length self.old.lists }
        ensures first { self.new.first ≡ self.old.first }
        ensures len { length self.new.lists ≡ length self.old.lists }
        ensures same { HaveSame self.old self.new }
        ensures others { StayOutside (row_to row col (col + 1)) self.old self.new }
        ensures added { OnOk result (IsChangedOn (row_to row col (col + 1))
            (AddsMore (S.among source.now) (S.change source.now)) self.old self.new) }
    {
        let at = self.index(col, row);
        self.lists[at].add(source.op(col, row))
    }

    /// Adds it on the tiles of a row, from column `left` on before `right`.
    #[inline(always)]
    fn add_row<S: TileSource>(
        &mut self,
        source: &S,
        row: u32,
        left: u32,
        right: u32,
    ) -> Result<(), AllocError>
        requires order { left ≤ right }
        requires cols { right ≤ 64 }
        requires row { row < 64 }
        requires first { self.old.first ≤ row }
        requires room { HasLists right (row + 1) self.old }
        ensures first { self.new.first ≡ self.old.first }
        ensures len { length self.new.lists ≡ length self.old.lists }
        ensures same { HaveSame self.old self.new }
        ensures others { StayOutside (row_to row left right) self.old self.new }
        ensures added { OnOk result (IsChangedOn (row_to row left right)
            (AddsMore (S.among source.now) (S.change source.now)) self.old self.new) }
    {
        for col in left..right {
            self.add_at(source, col, row)?;
        }
        Ok(())
    }

    /// Adds what a source does on the tiles of an area.
    ///
    /// # Errors
    ///
    /// It may be added on some of them.
    pub(crate) fn add<S: TileSource>(
        &mut self,
        source: &S,
        area: CellArea,
    ) -> Result<(), AllocError>
        requires across { area.left ≤ area.right }
        requires down { area.top ≤ area.bottom }
        requires cols { area.right ≤ 64 }
        requires rows { area.bottom ≤ 64 }
        requires first { self.old.first ≤ area.top }
        requires room { HasLists area.right area.bottom self.old }
        ensures first { self.new.first ≡ self.old.first }
        ensures len { length self.new.lists ≡ length self.old.lists }
        ensures same { HaveSame self.old self.new }
        ensures others { StayOutside area self.old self.new }
        ensures added { OnOk result (IsChangedOn area
            (AddsMore (S.among source.now) (S.change source.now)) self.old self.new) }
    {
        let count = (area.right - area.left) * (area.bottom - area.top);
        self.added = self.added.saturating_add(count as usize);
        if is_one_cell(area) {
            return self.add_at(source, area.left, area.top);
        }
        for row in area.top..area.bottom {
            self.add_row(source, row, area.left, area.right)?;
        }
        Ok(())
    }

    /// Finishes the list of a tile, if it is there.
    #[inline(always)]
    fn finish_at(&mut self, col: u32, row: u32, how: Finish)
        requires col { col < 64 }
        requires row { row < 64 }
        requires first { self.old.first ≤ row }
        ensures { IsChangedOn (row_to row col (col + 1)) (IsFinished how) self.old self.new }
    {
        let at = self.index(col, row);
        if at >= self.lists.len() {
            return;
        }
        self.lists[at].finish(how);
    }

    /// Finishes the lists of a row, from column `left` on before `right`.
    #[inline(always)]
    fn finish_row(&mut self, row: u32, left: u32, right: u32, how: Finish)
        requires order { left ≤ right }
        requires cols { right ≤ 64 }
        requires row { row < 64 }
        requires first { self.old.first ≤ row }
        ensures { IsChangedOn (row_to row left right) (IsFinished how) self.old self.new }
    {
        for col in left..right {
            self.finish_at(col, row, how);
        }
    }

    /// Counts what was added on the tiles of an area, or lets operations go there.
    pub fn finish(&mut self, area: CellArea, how: Finish)
        requires across { area.left ≤ area.right }
        requires down { area.top ≤ area.bottom }
        requires cols { area.right ≤ 64 }
        requires rows { area.bottom ≤ 64 }
        requires first { self.old.first ≤ area.top }
        ensures { IsChangedOn area (IsFinished how) self.old self.new }
    {
        if is_one_cell(area) {
            return self.finish_at(area.left, area.top, how);
        }
        for row in area.top..area.bottom {
            self.finish_row(row, area.left, area.right, how);
        }
    }

    /// A copy of the lists, with the operations that count.
    pub fn share(&self) -> Result<TileLists, AllocError>
        ensures same { IfOk result (HaveSame self.now) }
        ensures counts { IfOk result AllCount }
        ensures first { IfOk result (λ copy. copy.first ≡ self.now.first) }
    {
        let mut lists = Vec::with_capacity(*self.lists.allocator(), self.lists.len())?;
        for list in &self.lists {
            lists.push(list.share()?)?;
        }
        Ok(TileLists {
            first: self.first,
            lists,
            added: self.added,
        })
    }

    /// The operations that wait on the tile at a column and a row.
    pub fn ops(&self, col: u32, row: u32) -> &[PackedOp]
        requires col { col < 64 }
        ensures { result.now ≡ listed_at self.now col row }
    {
        if row < self.first {
            return &[];
        }
        match self.lists.get(self.index(col, row)) {
            Some(list) => list.ops(),
            None => &[],
        }
    }
}
