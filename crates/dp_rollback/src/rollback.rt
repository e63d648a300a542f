//! A board that goes on act by act, and back to savepoints.

ghost use Rattle.std.specs.Prelude.{◌≡◌, ℕ, ◌+◌, ◌-◌, ◌<◌, ◌≤◌, List, []};
ghost use Rattle.std.specs.Prelude.{◌∷◌, ◌++◌};
ghost use Rattle.std.specs.Prelude.{true, length};
ghost use Rattle.std.specs.Prelude.{IfOk, OnOk, OnErr, IfSome, None, if◌then◌else◌};
ghost use Rattle.std.specs.Option.{ForSome, option_to_list};
ghost use Rattle.dp_board.specs.declared.act.UserAct.{UserAct as UserActOf};
ghost use Rattle.dp_board.specs.Replay.{replay};
ghost use Rattle.dp_board.specs.declared.act.Change.TheVariants.{Drew, Nothing};
ghost use Rattle.dp_board.specs.Table.{oldest_in};
ghost use Rattle.dp_board.specs.Moves.{is_draw};
ghost use Rattle.dp_board.specs.Strokes.{concerned, is_eligible};
ghost use Rattle.dp_board.specs.Commands.{command_of};
ghost use Rattle.dp_board.specs.Counts.{CountsFew};
ghost use Rattle.dp_savepoints.specs.Kept.{commands_among};
ghost use Rattle.dp_rollback.specs.Due.{CountsDue, change_of};
ghost use Rattle.dp_rollback.specs.Rollback.{StandsFor, IsInOrder, FitsOn, put_on, change_in};
ghost use Rattle.dp_savepoints.specs.Marks.{mark_in};
ghost use Rattle.dp_rollback.specs.Moves.{kept_from, due_in};
ghost use Rattle.dp_savepoints.specs.Saves.{save_of};
ghost use Rattle.dp_rollback.specs.Moves.{HasAdded};
ghost use Rattle.dp_rollback.specs.Moves.{IsRedrawn, IsDrawnLast, IsMade, IsKnown, IsNext};

use crate::ready::Ready;
use dp_board::{Act, Board, Change, StrokeTable, UserAct, tables_follow};
use dp_savepoints::{
    KeptAct, Mark, Run, Save, add_act, copy_saves, depth_after, draw_act, draw_next, forget,
    is_draw, let_go, mark_of, push_save, put_save, save_at, save_last, save_of, stroke_laws,
};
use dp_steps::Steps;
use std::alloc::{AllocError, Global};
use std::marker::Model;
use std::sync::Arc;
use std::sync::ledger::Ledger;

/// A board, drawn on act by act, that can go back: it holds the acts that an undo or a redo may
/// still need, with a savepoint for each point in reach. While nothing is drawn after a point, its
/// savepoint is at hand as the last one, for the next point.
pub struct Rollback<B: Board> {
    board: B,
    table: StrokeTable,
    depth: usize,
    base: usize,
    kept: Vec<KeptAct<B::Op>>,
    last: Option<Arc<B>>,
    saves: Vec<Save<B>>,
    alloc: Global,
}

// It is written out, so that it is only called where a board is let go.
impl<B: Board> Drop for Rollback<B> {
    fn drop(self) {
        let Rollback {
            board,
            table,
            depth: _,
            base: _,
            kept,
            last,
            saves,
            alloc: _,
        } = self;
        drop(board);
        drop(table);
        drop(kept);
        drop(last);
        drop(saves);
    }
}

impl<B: Board> Model for Rollback<B> {
    ghost use Rattle.std.specs.Prelude.{◌≡◌, ◌-◌, min};
    ghost use Rattle.std.specs.Vec.{vec_len, vec_capacity};
    ghost use Rattle.std.specs.Option.{ForSome};
    ghost use Rattle.dp_rollback.specs.Rollback.{Rolled, KeepsReach};
    ghost use Rattle.dp_savepoints.specs.Saves.{points_of};

    ghost Value = { Rolled B B.Op };

    ghost view = { λ r. record {
      board = r.board;
      table = r.table;
      base = r.base;
      kept = r.kept.items;
      saves = r.saves.items;
      spare = min (vec_capacity r.kept - vec_len r.kept) (vec_capacity r.saves - vec_len r.saves);
    } };

    ghost invariant = { λ r. (r.depth ≡ r.table.window.depth)
        × (ForSome r.last (λ save. save.value ≡ r.board))
        × KeepsReach r.table r.base (vec_len r.kept) (points_of r.saves.items) };
}

/// An equal act.
fn copy_act<B: Board>(alloc: Global, act: &Act<B::Op>) -> Result<Act<B::Op>, AllocError>
    ensures { IfOk result (λ copy. copy ≡ act.now) }
{
    Ok(match act {
        Act::Point => Act::Point,
        Act::Undo { who } => Act::Undo { who: *who },
        Act::Redo { who } => Act::Redo { who: *who },
        Act::Draw(op) => Act::Draw(B::copy_op(alloc, op)?),
        Act::Depth(depth) => Act::Depth(*depth),
        Act::Other => Act::Other,
    })
}

/// What an act that moves no group does to the board.
fn change_by_draw(drawn: bool) -> Change
    ensures { result ≡ (if drawn then Drew else Nothing) }
{
    if drawn { Change::Drew } else { Change::Nothing }
}

/// What is drawn for an act: the board and the savepoints.
#[derive(Drop)]
struct Drawn<B> {
    board: B,
    saves: Vec<Save<B>>,
}

impl<B: Board> Rollback<B> {
    /// A board on which nothing was drawn yet, if undo and redo reach the last `depth` points.
    pub fn new(alloc: Global, blank: B, depth: u32) -> Result<Self, AllocError>
        ensures { IfOk result (StandsFor B.drawn blank depth []) }
    {
        tables_follow::<B::Op>();
        let table = StrokeTable::new(alloc, depth)?;
        Ok(Rollback {
            board: blank,
            table,
            depth: depth as usize,
            base: 0,
            kept: Vec::new(alloc),
            last: None,
            saves: Vec::new(alloc),
            alloc,
        })
    }

    /// The board after the acts so far.
    pub fn board(&self) -> &B
        ensures value { result.now ≡ self.now.board }
        ensures replay { (blank : B) (depth : ℕ) (acts : List (UserActOf B.Op))
            → StandsFor B.drawn blank depth acts self.now
            → result.now ≡ replay B.drawn blank depth acts }
    {
        &self.board
    }

    /// How many acts are held, in case an undo or a redo comes to need them: those from the oldest
    /// point in reach on.
    pub fn kept(&self) -> usize
        ensures value { result ≡ length self.now.kept }
        ensures few { result ≡ self.now.table.position - oldest_in self.now.table }
    {
        let _ = &self.base;
        self.kept.len()
    }

    /// How many boards are held as savepoints at most: one for each point in reach, and the last
    /// one. Points with no draw between them share one.
    pub fn saves(&self) -> usize
        ensures value { result ≡ length self.now.saves + 1 }
        ensures few { result ≡ length self.now.table.window.points + 1 }
    {
        let _ = &self.base;
        self.saves.len() + 1
    }

    /// Adds an act to those that the board stands for.
    ///
    /// # Errors
    ///
    /// The board stands for the same acts as before. Some commands may have been drawn on a copy.
    pub fn take<D: Ledger, T: Ledger>(
        &mut self,
        user: u8,
        act: &Act<B::Op>,
        draws: &mut Steps<D>,
        tiles: &mut Steps<T>,
    ) -> Result<Change, AllocError>
        ensures stands { OnOk result ((blank : B) (depth : ℕ) (acts : List (UserActOf B.Op))
            → StandsFor B.drawn blank depth acts self.old
            → StandsFor B.drawn blank depth
            (acts ++ (record { user = user; act = act.now }) ∷ []) self.new) }
        ensures change { IfOk result (λ change. (blank : B) (depth : ℕ)
            (acts : List (UserActOf B.Op)) → StandsFor B.drawn blank depth acts self.old
            → change ≡ change_of depth acts (record { user = user; act = act.now })) }
        ensures err { OnErr result (self.new ≡ record self.old { spare = self.new.spare }) }
        ensures still { OnErr result ((blank : B) (depth : ℕ) (acts : List (UserActOf B.Op))
            → StandsFor B.drawn blank depth acts self.old
            → StandsFor B.drawn blank depth acts self.new) }
        ensures counts { CountsDue B.drawn B.weight self.old
            (record { user = user; act = act.now }) draws.old draws.new tiles.old tiles.new }
    {
        let next = self.admit(user, act)?;
        stroke_laws::<B::Op>();
        self.add(next, draws, tiles)
    }

    /// Adds an act, for which there is room.
    fn add<D: Ledger, T: Ledger>(
        &mut self,
        act: UserAct<B::Op>,
        draws: &mut Steps<D>,
        tiles: &mut Steps<T>,
    ) -> Result<Change, AllocError>
        requires room { 1 ≤ self.old.spare }
        ensures known { IsKnown self.old act }
        ensures added { IfOk result (λ change. HasAdded B.drawn self.old act change self.new) }
        ensures err { OnErr result (self.new ≡ self.old) }
        ensures counts { CountsFew B.weight (due_in self.old act.act (mark_in self.old.table act))
            draws.old draws.new tiles.old tiles.new }
    {
        if self.is_plain(&act) {
            return self.draw_here(act, draws, tiles);
        }
        let ready = self.made(act, draws, tiles)?;
        let change = ready.change();
        self.settle(ready);
        Ok(change)
    }

    /// Whether an act that comes next moves no group.
    fn is_plain(&self, act: &UserAct<B::Op>) -> bool
        ensures unmoved { result ≡ true → mark_in self.now.table act.now ≡ None }
        ensures order { IsInOrder self.now }
    {
        let _ = &self.base;
        mark_of(&self.table, act).is_none()
    }

    /// Adds an act that moves no group. The board itself is drawn on, after all memory was got.
    fn draw_here<D: Ledger, T: Ledger>(
        &mut self,
        act: UserAct<B::Op>,
        draws: &mut Steps<D>,
        tiles: &mut Steps<T>,
    ) -> Result<Change, AllocError>
        requires room { 1 ≤ self.old.spare }
        requires unmoved { mark_in self.old.table act ≡ None }
        ensures sender { act.user < 256 }
        ensures known { concerned act < 256 }
        ensures added { IfOk result (λ change. HasAdded B.drawn self.old act change self.new) }
        ensures err { OnErr result (self.new ≡ self.old) }
        ensures counts { CountsFew B.weight (command_of act.act true) draws.old draws.new tiles.old
            tiles.new }
    {
        let join = self.table.join_of(&act);
        let drawn = is_draw(&act.act);
        let depth = depth_after(self.depth, &act.act);
        let next = KeptAct { act, join, drawn };
        let strokes = self.table.next(self.alloc, &next.act)?;
        let save = save_last(
            self.alloc,
            self.table.position(),
            &self.board,
            &mut self.last,
            &next.act.act,
            draws,
            tiles,
        )?;
        draw_next(&mut self.board, &mut self.last, &next.act.act, draws, tiles)?;
        self.depth = depth;
        put_save(&mut self.saves, save, depth);
        self.table.put(strokes);
        self.kept.push_reserved(next);
        let first = self.table.oldest();
        let_go(&mut self.base, &mut self.kept, first);
        Ok(change_by_draw(drawn))
    }

    /// What an act that comes next makes of the board, with all memory that it takes. The board
    /// still stands for the acts before it.
    ///
    /// # Errors
    ///
    /// Some commands may have been drawn on a copy.
    pub fn ready<D: Ledger, T: Ledger>(
        &mut self,
        user: u8,
        act: &Act<B::Op>,
        draws: &mut Steps<D>,
        tiles: &mut Steps<T>,
    ) -> Result<Ready<B>, AllocError>
        ensures same { self.new ≡ record self.old { spare = self.new.spare } }
        ensures still { (blank : B) (depth : ℕ) (acts : List (UserActOf B.Op))
            → StandsFor B.drawn blank depth acts self.old
            → StandsFor B.drawn blank depth acts self.new }
        ensures fits { IfOk result (λ ready. FitsOn ready self.new) }
        ensures stands { IfOk result (λ ready. (blank : B) (depth : ℕ)
            (acts : List (UserActOf B.Op)) → StandsFor B.drawn blank depth acts self.old
            → StandsFor B.drawn blank depth
            (acts ++ (record { user = user; act = act.now }) ∷ []) (put_on ready self.new)) }
        ensures change { IfOk result (λ ready. (blank : B) (depth : ℕ)
            (acts : List (UserActOf B.Op)) → StandsFor B.drawn blank depth acts self.old
            → change_in ready ≡ change_of depth acts (record { user = user; act = act.now })) }
        ensures counts { CountsDue B.drawn B.weight self.old
            (record { user = user; act = act.now }) draws.old draws.new tiles.old tiles.new }
    {
        let next = self.admit(user, act)?;
        stroke_laws::<B::Op>();
        self.made(next, draws, tiles)
    }

    /// What an act makes of the board.
    fn made<D: Ledger, T: Ledger>(
        &self,
        act: UserAct<B::Op>,
        draws: &mut Steps<D>,
        tiles: &mut Steps<T>,
    ) -> Result<Ready<B>, AllocError>
        ensures known { IsKnown self.now act }
        ensures next { IfOk result (IsNext B.drawn self.now act) }
        ensures counts { CountsFew B.weight (due_in self.now act.act (mark_in self.now.table act))
            draws.old draws.new tiles.old tiles.new }
    {
        let join = self.table.join_of(&act);
        let mark = mark_of(&self.table, &act);
        let drawn = is_draw(&act.act);
        let depth = depth_after(self.depth, &act.act);
        let act = KeptAct { act, join, drawn };
        let strokes = self.table.next(self.alloc, &act.act)?;
        let Drawn { board, saves } = self.drawn(&act.act.act, mark, draws, tiles)?;
        Ok(Ready {
            act,
            mark,
            strokes,
            depth,
            board,
            saves,
        })
    }

    /// Makes room for one more act, and an equal one. The board stands for the same acts.
    fn admit(&mut self, user: u8, act: &Act<B::Op>) -> Result<UserAct<B::Op>, AllocError>
        ensures same { self.new ≡ record self.old { spare = self.new.spare } }
        ensures room { OnOk result (1 ≤ self.new.spare) }
        ensures act { IfOk result (λ next. next ≡ record { user = user; act = act.now }) }
        ensures still { (blank : B) (depth : ℕ) (acts : List (UserActOf B.Op))
            → StandsFor B.drawn blank depth acts self.old
            → StandsFor B.drawn blank depth acts self.new }
    {
        self.make_room()?;
        let act = copy_act::<B>(self.alloc, act)?;
        Ok(UserAct { user, act })
    }

    /// Makes room for one more act. The board stands for the same acts.
    fn make_room(&mut self) -> Result<(), AllocError>
        ensures same { self.new ≡ record self.old { spare = self.new.spare } }
        ensures room { OnOk result (1 ≤ self.new.spare) }
        ensures still { (blank : B) (depth : ℕ) (acts : List (UserActOf B.Op))
            → StandsFor B.drawn blank depth acts self.old
            → StandsFor B.drawn blank depth acts self.new }
    {
        self.reserve()
    }

    /// Makes room for one more act.
    fn reserve(&mut self) -> Result<(), AllocError>
        ensures same { self.new ≡ record self.old { spare = self.new.spare } }
        ensures room { OnOk result (1 ≤ self.new.spare) }
    {
        self.kept.reserve(1)?;
        self.saves.reserve(1)?;
        Ok(())
    }

    /// What is drawn for an act, which moves the group of the mark.
    fn drawn<D: Ledger, T: Ledger>(
        &self,
        act: &Act<B::Op>,
        mark: Option<Mark>,
        draws: &mut Steps<D>,
        tiles: &mut Steps<T>,
    ) -> Result<Drawn<B>, AllocError>
        requires among { ForSome mark
            (λ mark. is_eligible self.now.table.window mark.group ≡ true) }
        requires reach { ForSome mark (λ mark. oldest_in self.now.table ≤ mark.group) }
        requires before { ForSome mark (λ mark. mark.group < self.now.table.position) }
        ensures made { IfOk result (λ drawn. IsMade B.drawn self.now act.now mark
            drawn.board drawn.saves.items) }
        ensures counts { CountsFew B.weight (due_in self.now act.now mark) draws.old draws.new
            tiles.old tiles.new }
    {
        let Drawn { board, mut saves } = match mark {
            None => self.drawn_last(act, draws, tiles)?,
            Some(mark) => self.redrawn(mark, draws, tiles)?,
        };
        let save = self.saved_for(act, draws, tiles)?;
        push_save(&mut saves, save, depth_after(self.depth, act))?;
        Ok(Drawn { board, saves })
    }

    /// The savepoint of an act that comes next, if it is a point.
    fn saved_for<D: Ledger, T: Ledger>(
        &self,
        act: &Act<B::Op>,
        draws: &mut Steps<D>,
        tiles: &mut Steps<T>,
    ) -> Result<Option<Save<B>>, AllocError>
        ensures saved { IfOk result (λ save. option_to_list save
            ≡ save_of self.now.table.position self.now.board act.now) }
        ensures no_draw { draws.new ≡ draws.old }
        ensures no_tile { tiles.new ≡ tiles.old }
    {
        let position = self.table.position();
        save_of(
            self.alloc,
            position,
            &self.board,
            &self.last,
            act,
            draws,
            tiles,
        )
    }

    /// The board with the command of an act, if it is one.
    fn drawn_last<D: Ledger, T: Ledger>(
        &self,
        act: &Act<B::Op>,
        draws: &mut Steps<D>,
        tiles: &mut Steps<T>,
    ) -> Result<Drawn<B>, AllocError>
        ensures made { IfOk result (λ drawn. IsDrawnLast B.drawn self.now act.now
            drawn.board drawn.saves.items) }
        ensures counts { CountsFew B.weight (command_of act.now true) draws.old draws.new tiles.old
            tiles.new }
    {
        let mut board = self.board.share(draws, tiles)?;
        draw_act(&mut board, act, true, draws, tiles)?;
        Ok(Drawn {
            board,
            saves: copy_saves(self.alloc, &self.saves)?,
        })
    }

    /// The board drawn anew from the savepoint of the group of the mark.
    fn redrawn<D: Ledger, T: Ledger>(
        &self,
        mark: Mark,
        draws: &mut Steps<D>,
        tiles: &mut Steps<T>,
    ) -> Result<Drawn<B>, AllocError>
        requires among { is_eligible self.now.table.window mark.group ≡ true }
        requires reach { oldest_in self.now.table ≤ mark.group }
        requires before { mark.group < self.now.table.position }
        ensures made { IfOk result (λ drawn. IsRedrawn B.drawn self.now mark
            drawn.board drawn.saves.items) }
        ensures counts { CountsFew B.weight (commands_among (kept_from self.now mark)) draws.old
            draws.new tiles.old tiles.new }
    {
        let Some(from) = save_at(&self.saves, mark.group) else {
            unreachable!()
        };
        let run = Run {
            start: mark.group,
            at: mark.group,
            board: from.board.share(draws, tiles)?,
        };
        let kept = &self.kept[mark.group - self.base..];
        let (board, saves) = run.finish(self.alloc, kept, mark, &self.saves, draws, tiles)?;
        Ok(Drawn { board, saves })
    }

    /// Adds the act that was made ready. It takes no memory.
    pub fn put(&mut self, ready: Ready<B>)
        requires { FitsOn ready self.old }
        ensures after { self.new ≡ record (put_on ready self.old) { spare = self.new.spare } }
        ensures stands { (blank : B) (depth : ℕ) (acts : List (UserActOf B.Op))
            → StandsFor B.drawn blank depth acts (put_on ready self.old)
            → StandsFor B.drawn blank depth acts self.new }
    {
        self.settle(ready);
    }

    /// Adds the act that was made ready, and lets go of what no act may need any more.
    fn settle(&mut self, ready: Ready<B>)
        requires { FitsOn ready self.old }
        ensures { self.new ≡ record (put_on ready self.old) { spare = self.new.spare } }
    {
        let Ready {
            act,
            mark,
            strokes,
            depth,
            board,
            saves,
        } = ready;
        add_act(&mut self.kept, mark, act);
        self.table.put(strokes);
        self.depth = depth;
        self.board = board;
        forget(&mut self.last);
        self.saves = saves;
        let first = self.table.oldest();
        let_go(&mut self.base, &mut self.kept, first);
    }

    /// How many more acts there is room for.
    pub fn spare(&self) -> usize
        ensures { result ≡ self.now.spare }
    {
        let kept = self.kept.capacity() - self.kept.len();
        kept.min(self.saves.capacity() - self.saves.len())
    }
}
