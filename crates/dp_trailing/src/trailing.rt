//! A board that trails its history.

ghost use Rattle.std.specs.Prelude.{◌≡◌, ℕ, ◌+◌, ◌-◌, ◌<◌, ◌≤◌, List, [], ◌∷◌, ◌++◌, length};
ghost use Rattle.std.specs.Prelude.{IfOk, OnOk, take, drop};
ghost use Rattle.std.specs.List.{fold};
ghost use Rattle.std.specs.Option.{ForSome};
ghost use Rattle.std.specs.Vec.{vec_len, vec_capacity};
ghost use Rattle.dp_board.specs.declared.act.UserAct.{UserAct as UserActOf};
ghost use Rattle.dp_board.specs.Replay.{replay};
ghost use Rattle.dp_board.specs.Table.{oldest_in};
ghost use Rattle.dp_savepoints.specs.Kept.{drawn_among, commands_among};
ghost use Rattle.dp_trailing.specs.Trailing.{Trails, IsHeldNext, marked_later, with_act};
ghost use Rattle.dp_trailing.specs.Trailing.{drawn_to_reach};

use dp_board::{Board, StrokeTable, UserAct, tables_follow};
use dp_savepoints::{KeptAct, Mark, draw_act, is_draw, mark_all, mark_of, stroke_laws};
use dp_steps::Steps;
use std::alloc::{AllocError, Global};
use std::marker::Model;
use std::mem::replace;
use std::sync::ledger::Ledger;

/// How many more acts are held, at least, before those that no act can move any more are drawn.
const SLACK: usize = 64;

/// A board that trails its history: drawn up to an act that no later undo or redo comes before. The
/// acts from there on are held, so that each command is drawn once.
pub struct TrailingBoard<B: Board> {
    board: B,
    table: StrokeTable,
    base: usize,
    kept: Vec<KeptAct<B::Op>>,
    limit: usize,
}

// It is written out, so that it is only called where a board is let go.
impl<B: Board> Drop for TrailingBoard<B> {
    fn drop(self) {
        let TrailingBoard {
            board,
            table,
            base: _,
            kept,
            limit: _,
        } = self;
        drop(board);
        drop(table);
        drop(kept);
    }
}

impl<B: Board> Model for TrailingBoard<B> {
    ghost use Rattle.std.specs.Vec.{vec_len};
    ghost use Rattle.dp_board.specs.Table.{oldest_in};
    ghost use Rattle.dp_trailing.specs.Trailing.{Trailing, HoldsReach};

    ghost Value = { Trailing B B.Op };

    ghost view = { λ t. record {
      board = t.board;
      table = t.table;
      base = t.base;
      kept = t.kept.items;
    } };

    ghost invariant = { λ t.
        HoldsReach t.table.position (oldest_in t.table) t.base (vec_len t.kept) };
}

/// Adds an act to those that are held from the position `base` on. The acts of a group that moves
/// get their new flag: all of them come after its point. It takes no memory.
#[inline(always)]
fn add_later<Op: Drop>(
    kept: &mut Vec<KeptAct<Op>>,
    base: usize,
    mark: Option<Mark>,
    act: KeptAct<Op>,
)
    requires room { vec_len kept.old < vec_capacity kept.old }
    requires reach { ForSome mark (λ mark. base ≤ mark.group) }
    requires before { ForSome mark (λ mark. mark.group < base + vec_len kept.old) }
    ensures items { kept.new.items ≡ marked_later base mark kept.old.items ++ act ∷ [] }
    ensures len { vec_len kept.new ≡ vec_len kept.old + 1 }
{
    if let Some(mark) = mark {
        mark_all(&mut kept[mark.group - base..], mark);
    }
    kept.push_reserved(act);
}

/// Gives the acts before the position `first`, where they are held from `base` on, and lets them
/// go. After that as many acts again may come as are left, and some more, before `limit` are held:
/// so each is moved in memory but a few times.
///
/// # Errors
///
/// If memory runs out. The acts may be lost then.
fn let_go<Op: Drop>(
    base: &mut usize,
    kept: &mut Vec<KeptAct<Op>>,
    limit: &mut usize,
    first: usize,
) -> Result<Vec<KeptAct<Op>>, AllocError>
    requires later { base.old ≤ first }
    requires within { first ≤ base.old + vec_len kept.old }
    ensures given { IfOk result (λ given. given.items ≡ take (first - base.old) kept.old.items) }
    ensures base { OnOk result (base.new ≡ base.old + (first - base.old)) }
    ensures items { OnOk result (kept.new.items ≡ drop (first - base.old) kept.old.items) }
    ensures reach { base.new ≤ first }
    ensures len { base.new + vec_len kept.new ≡ base.old + vec_len kept.old }
{
    let count = first - *base;
    let later = kept.split_off(count)?;
    let given = replace(kept, later);
    *base += count;
    let more = kept.len().saturating_add(SLACK);
    kept.reserve(more)?;
    *limit = kept.len().saturating_add(more);
    Ok(given)
}

/// Holds acts in other memory from now on.
///
/// # Errors
///
/// They are held where they were.
fn hold_in<Op: Drop>(
    mut room: Vec<KeptAct<Op>>,
    kept: &mut Vec<KeptAct<Op>>,
) -> Result<(), AllocError>
    requires { room.items ≡ [] }
    ensures items { kept.new.items ≡ kept.old.items }
    ensures len { vec_len kept.new ≡ vec_len kept.old }
{
    room.append(kept)?;
    *kept = room;
    Ok(())
}

/// Draws the commands among acts that are to be drawn.
///
/// # Errors
///
/// Some of the commands were drawn.
pub fn draw_kept<B: Board, D: Ledger, T: Ledger>(
    board: &mut B,
    kept: &[KeptAct<B::Op>],
    draws: &mut Steps<D>,
    tiles: &mut Steps<T>,
) -> Result<(), AllocError>
    ensures board { OnOk result (board.new ≡ fold B.drawn board.old (drawn_among kept.now)) }
    ensures draws_rise { draws.old ≤ draws.new }
    ensures few_draws { draws.new ≤ draws.old + length (commands_among kept.now) }
    ensures tiles_rise { tiles.old ≤ tiles.new }
{
    for next in kept {
        draw_act(board, &next.act.act, next.drawn, draws, tiles)?;
    }
    Ok(())
}

impl<B: Board> TrailingBoard<B> {
    /// A board before the first act, if undo and redo reach the last `depth` points.
    pub fn new(alloc: Global, depth: u32, blank: B) -> Result<Self, AllocError>
        ensures { IfOk result (Trails B.drawn blank depth []) }
    {
        tables_follow::<B::Op>();
        Ok(TrailingBoard {
            board: blank,
            table: StrokeTable::new(alloc, depth)?,
            base: 0,
            kept: Vec::new(alloc),
            limit: SLACK,
        })
    }

    /// Puts a board in the place of the one that trails, and gives that back.
    pub fn put_board(&mut self, board: B) -> B
        ensures old { result ≡ self.old.board }
        ensures new { self.new ≡ record self.old { board = board } }
    {
        replace(&mut self.board, board)
    }

    /// Adds an act to the history.
    ///
    /// # Errors
    ///
    /// The board may trail no history then. Some commands may have been drawn.
    #[inline(always)]
    pub fn take<D: Ledger, T: Ledger>(
        &mut self,
        act: UserAct<B::Op>,
        draws: &mut Steps<D>,
        tiles: &mut Steps<T>,
    ) -> Result<(), AllocError>
        ensures trails { OnOk result ((blank : B) (depth : ℕ) (acts : List (UserActOf B.Op))
            → Trails B.drawn blank depth acts self.old
            → Trails B.drawn blank depth (acts ++ act ∷ []) self.new) }
        ensures draws_rise { draws.old ≤ draws.new }
        ensures few_draws { OnOk result (draws.new + length (commands_among self.new.kept)
            ≤ draws.old + length (commands_among self.old.kept) + 1) }
        ensures tiles_rise { tiles.old ≤ tiles.new }
    {
        self.hold(act)?;
        self.settle(draws, tiles)
    }

    /// Holds an act that comes next, and draws nothing. Another board that trailed the history in
    /// the place of this one would trail it too.
    ///
    /// # Errors
    ///
    /// If memory runs out. No board may trail the history then.
    #[inline(always)]
    pub fn hold(&mut self, act: UserAct<B::Op>) -> Result<(), AllocError>
        ensures trails { OnOk result ((blank : B) (depth : ℕ) (acts : List (UserActOf B.Op))
            → Trails B.drawn blank depth acts self.old
            → Trails B.drawn blank depth (acts ++ act ∷ []) self.new) }
        ensures apart { OnOk result ((board blank : B) (depth : ℕ)
            (acts : List (UserActOf B.Op))
            → Trails B.drawn blank depth acts (record self.old { board = board })
            → Trails B.drawn blank depth (acts ++ act ∷ []) (record self.new { board = board })) }
        ensures few { OnOk result (length (commands_among self.new.kept)
            ≤ length (commands_among self.old.kept) + 1) }
    {
        stroke_laws::<B::Op>();
        self.push(act)
    }

    /// Holds an act that comes next.
    #[inline(always)]
    fn push(&mut self, act: UserAct<B::Op>) -> Result<(), AllocError>
        ensures known { OnOk result (IsHeldNext self.old act) }
        ensures held { OnOk result (self.new ≡ with_act act self.old) }
    {
        let join = self.table.join_of(&act);
        let mark = mark_of(&self.table, &act);
        let drawn = is_draw(&act.act);
        self.kept.reserve(1)?;
        self.table.advance(&act)?;
        let act = KeptAct { act, join, drawn };
        add_later(&mut self.kept, self.base, mark, act);
        Ok(())
    }

    /// If many acts are held, draws those that no act can move any more, and lets them go.
    #[inline(always)]
    fn settle<D: Ledger, T: Ledger>(
        &mut self,
        draws: &mut Steps<D>,
        tiles: &mut Steps<T>,
    ) -> Result<(), AllocError>
        ensures trails { OnOk result ((blank : B) (depth : ℕ) (acts : List (UserActOf B.Op))
            → Trails B.drawn blank depth acts self.old
            → Trails B.drawn blank depth acts self.new) }
        ensures draws_rise { draws.old ≤ draws.new }
        ensures few_draws { OnOk result (draws.new + length (commands_among self.new.kept)
            ≤ draws.old + length (commands_among self.old.kept)) }
        ensures tiles_rise { tiles.old ≤ tiles.new }
    {
        if self.kept.len() < self.limit {
            return Ok(());
        }
        self.draw_to_reach(draws, tiles)
    }

    /// Draws the acts before the oldest point in reach, and lets them go.
    #[inline(never)]
    fn draw_to_reach<D: Ledger, T: Ledger>(
        &mut self,
        draws: &mut Steps<D>,
        tiles: &mut Steps<T>,
    ) -> Result<(), AllocError>
        ensures drawn { OnOk result (self.new ≡ drawn_to_reach B.drawn self.old) }
        ensures draws_rise { draws.old ≤ draws.new }
        ensures few_draws { OnOk result (draws.new + length (commands_among self.new.kept)
            ≤ draws.old + length (commands_among self.old.kept)) }
        ensures tiles_rise { tiles.old ≤ tiles.new }
    {
        let first = self.table.oldest();
        let given = let_go(&mut self.base, &mut self.kept, &mut self.limit, first)?;
        draw_kept(&mut self.board, &given, draws, tiles)?;
        Ok(())
    }

    /// Gives the acts before the oldest point in reach, which no act can move any more, and holds
    /// them no longer. The acts after them are held in `room` from then on. A board that trailed
    /// the history trails it once the acts that are given are drawn on it.
    ///
    /// # Errors
    ///
    /// If memory runs out. No board may trail the history then.
    pub fn give_settled(
        &mut self,
        room: Vec<KeptAct<B::Op>>,
    ) -> Result<Vec<KeptAct<B::Op>>, AllocError>
        requires { room.items ≡ [] }
        ensures trails { IfOk result (λ given. (board blank : B) (depth : ℕ)
            (acts : List (UserActOf B.Op))
            → Trails B.drawn blank depth acts (record self.old { board = board })
            → Trails B.drawn blank depth acts (record self.new {
              board = fold B.drawn board (drawn_among given.items);
            })) }
        ensures none_before_reach { OnOk result (oldest_in self.new.table ≤ self.new.base) }
    {
        let first = self.table.oldest();
        let settled = let_go(&mut self.base, &mut self.kept, &mut self.limit, first)?;
        hold_in(room, &mut self.kept)?;
        Ok(settled)
    }

    /// The board after all acts.
    ///
    /// # Errors
    ///
    /// Some of the commands were drawn.
    pub fn finish<D: Ledger, T: Ledger>(
        self,
        draws: &mut Steps<D>,
        tiles: &mut Steps<T>,
    ) -> Result<B, AllocError>
        ensures replay { IfOk result (λ board. (blank : B) (depth : ℕ)
            (acts : List (UserActOf B.Op)) → Trails B.drawn blank depth acts self
            → board ≡ replay B.drawn blank depth acts) }
        ensures draws_rise { draws.old ≤ draws.new }
        ensures few_draws { draws.new ≤ draws.old + length (commands_among self.kept) }
        ensures tiles_rise { tiles.old ≤ tiles.new }
    {
        stroke_laws::<B::Op>();
        let TrailingBoard {
            mut board,
            table,
            base: _,
            kept,
            limit: _,
        } = self;
        drop(table);
        draw_kept(&mut board, &kept, draws, tiles)?;
        Ok(board)
    }
}
