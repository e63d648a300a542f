//! The strokes of all users as a history is read.

ghost use Rattle.std.specs.Prelude.{◌≡◌, ◌+◌, ◌<◌, ◌≤◌, ◌^◌, [], length, OnOk, OnErr, IfOk, IfSome};
ghost use Rattle.std.specs.Vec.{vec_len};
ghost use Rattle.std.specs.List.{All};
ghost use Rattle.dp_board.specs.Strokes.{concerned};
ghost use Rattle.dp_board.specs.Users.{HaveNoGroups, HaveDone};
ghost use Rattle.dp_board.specs.Joins.{joins_from};
ghost use Rattle.dp_board.specs.Table.{HasNoStrokes, HasStrokes, TakesAct, moved_in, joined_in};
ghost use Rattle.dp_board.specs.Table.{oldest_in, next_strokes, table_with};

use crate::act::{Act, UserAct};
use crate::groups::UserGroups;
use crate::join::Join;
use crate::sorted::SortedGroups;
use crate::window::PointWindow;
use std::alloc::{AllocError, Global};
use std::marker::Model;

/// The number of users, one for each context id.
const USERS: usize = 256;

/// The strokes of all users after the acts so far, kept as the acts come one at a time. Of the done
/// groups of a user only those are kept that an undo may still reach, and some last ones.
#[derive(Drop)]
pub struct StrokeTable {
    position: usize,
    window: PointWindow,
    users: Vec<UserGroups>,
}

impl Model for StrokeTable {
    ghost use Rattle.std.specs.Prelude.{◌≡◌, ◌<◌, All};
    ghost use Rattle.std.specs.Vec.{vec_len};
    ghost use Rattle.dp_board.specs.Table.{Table, IsInOrder};

    ghost Value = { Table };

    ghost view = { λ t. record {
      position = t.position;
      window = t.window;
      users = t.users.items;
    } };

    ghost invariant = { λ t. IsInOrder t.position t.window (vec_len t.users) };
}

/// What an act makes of the strokes: those of the user whom it concerns, and which points are in
/// reach.
#[derive(Drop)]
pub struct NextStrokes {
    position: usize,
    window: PointWindow,
    user: u8,
    groups: UserGroups,
}

impl Model for NextStrokes {
    ghost use Rattle.dp_board.specs.Table.{NextStrokes as Next, IsInOrder};

    ghost Value = { Next };

    ghost view = { λ n. record {
      position = n.position;
      window = n.window;
      user = n.user;
      groups = n.groups;
    } };

    ghost invariant = { λ n. IsInOrder n.position n.window 256 };
}

/// `count` users without groups.
fn without_groups(alloc: Global, count: usize) -> Result<Vec<UserGroups>, AllocError>
    ensures count { IfOk result (λ users. vec_len users ≡ count) }
    ensures empty { IfOk result (λ users. HaveNoGroups users.items) }
{
    let mut users = Vec::with_capacity(alloc, count)?;
    for _ in 0..count {
        users.push(UserGroups::new(alloc))?;
    }
    Ok(users)
}

/// The user whose groups an act changes: whom an undo or a redo names, or else the sender.
pub fn concerned<Op>(act: &UserAct<Op>) -> u8
    ensures { result ≡ concerned act.now }
{
    match &act.act {
        Act::Undo { who } | Act::Redo { who } => *who,
        _ => act.user,
    }
}

impl StrokeTable {
    /// The strokes before the first act, if undo and redo reach the last `depth` points.
    pub fn new(alloc: Global, depth: u32) -> Result<Self, AllocError>
        ensures count { IfOk result (λ table. length table.users ≡ 256) }
        ensures empty { IfOk result (HasNoStrokes depth) }
    {
        Ok(StrokeTable {
            position: 0,
            window: PointWindow::new(alloc, depth),
            users: without_groups(alloc, USERS)?,
        })
    }

    /// How many acts there were.
    pub fn position(&self) -> usize
        ensures { result ≡ self.now.position }
    {
        self.position
    }

    /// The position of the oldest point in reach, or of the next act if none is.
    #[tactic(auto, using(crate::proofs::TableSteps::fold_min_le))]
    pub fn oldest(&self) -> usize
        ensures value { result ≡ oldest_in self.now }
        ensures within { result ≤ self.now.position }
    {
        self.window.oldest(self.position)
    }

    /// The group that an act which comes next moves, by the position of its point.
    pub fn moved<Op>(&self, act: &UserAct<Op>) -> Option<usize>
        ensures user { concerned act.now < 256 }
        ensures value { result ≡ moved_in self.now act.now }
        ensures before { IfSome result (λ group. group < self.now.position) }
        ensures reach { IfSome result (λ group. oldest_in self.now ≤ group) }
    {
        let _ = &self.window;
        self.group_moved(act)
    }

    /// The group that an act which comes next moves.
    fn group_moved<Op>(&self, act: &UserAct<Op>) -> Option<usize>
        ensures user { concerned act.now < 256 }
        ensures value { result ≡ moved_in self.now act.now }
    {
        let groups = &self.users[usize::from(concerned(act))];
        match act.act {
            Act::Undo { .. } => groups.undoable(&self.window),
            Act::Redo { .. } => groups.redoable(&self.window),
            _ => None,
        }
    }

    /// What an act that comes next joins.
    pub fn join_of<Op>(&self, act: &UserAct<Op>) -> Join
        ensures user { act.now.user < 256 }
        ensures value { result ≡ joined_in self.now act.now }
    {
        let user = act.user;
        if !matches!(act.act, Act::Draw(_)) {
            return Join::NoCommand;
        }
        match self.users[usize::from(user)].last_done() {
            None => Join::GroupZero,
            Some(group) => Join::InGroup { user, group },
        }
    }

    /// What an act that comes next makes of the strokes.
    ///
    /// # Errors
    ///
    /// Memory was refused, or there were 2^64 - 1 acts, which no run reaches.
    pub fn next<Op>(&self, alloc: Global, act: &UserAct<Op>) -> Result<NextStrokes, AllocError>
        ensures user { concerned act.now < 256 }
        ensures value { IfOk result (λ next. next ≡ next_strokes self.now act.now) }
        ensures reach { IfOk result (λ next. oldest_in self.now
            ≤ oldest_in (table_with next self.now)) }
    {
        let user = concerned(act);
        if self.position == usize::MAX {
            return Err(AllocError);
        }
        let mut window = self.window.copy(alloc)?;
        window.take(self.position, &act.act)?;
        let mut groups = self.users[usize::from(user)].copy(alloc)?;
        groups.take(self.position, &self.window, &act.act)?;
        groups.tidy(&window, &act.act);
        Ok(NextStrokes {
            position: self.position + 1,
            window,
            user,
            groups,
        })
    }

    /// Goes on to what an act made of the strokes. It takes no memory.
    pub fn put(&mut self, next: NextStrokes)
        ensures { self.new ≡ table_with next self.old }
    {
        let NextStrokes {
            position,
            window,
            user,
            groups,
        } = next;
        self.users[usize::from(user)] = groups;
        self.window = window;
        self.position = position;
    }

    /// Adds an act.
    ///
    /// # Errors
    ///
    /// The strokes are as they were.
    pub fn take<Op>(&mut self, alloc: Global, act: &UserAct<Op>) -> Result<(), AllocError>
        ensures user { concerned act.now < 256 }
        ensures ok { OnOk result (self.new ≡ table_with (next_strokes self.old act.now) self.old) }
        ensures err { OnErr result (self.new ≡ self.old) }
    {
        let next = self.next(alloc, act)?;
        self.put(next);
        Ok(())
    }

    /// Adds an act in place. It copies no window and no groups.
    ///
    /// # Errors
    ///
    /// As `next`. The position and the window are as they were. Nothing is said of the groups.
    pub fn advance<Op>(&mut self, act: &UserAct<Op>) -> Result<(), AllocError>
        ensures user { concerned act.now < 256 }
        ensures ok { OnOk result (self.new ≡ table_with (next_strokes self.old act.now) self.old) }
        ensures reach { OnOk result (oldest_in self.old ≤ oldest_in self.new) }
        ensures err { OnErr result (self.new ≡ record self.old { users = self.new.users }) }
    {
        let user = usize::from(concerned(act));
        if self.position == usize::MAX {
            return Err(AllocError);
        }
        let groups = &mut self.users[user];
        groups.take(self.position, &self.window, &act.act)?;
        self.window.take(self.position, &act.act)?;
        groups.tidy(&self.window, &act.act);
        self.position += 1;
        Ok(())
    }

    /// Adds an act, and keeps all groups.
    fn add<Op>(&mut self, act: &UserAct<Op>) -> Result<(), AllocError>
        requires { self.old.position + 1 < 2 ^ 64 }
        ensures position { OnOk result (self.new.position ≡ self.old.position + 1) }
        ensures strokes { OnOk result (TakesAct act.now self.old self.new) }
    {
        let user = usize::from(concerned(act));
        self.users[user].take(self.position, &self.window, &act.act)?;
        self.window.take(self.position, &act.act)?;
        self.position += 1;
        Ok(())
    }

    /// The table at the end of a history, and what each of its acts joined.
    pub(crate) fn read<Op>(
        alloc: Global,
        depth: u32,
        acts: &[UserAct<Op>],
    ) -> Result<(StrokeTable, Vec<Join>), AllocError>
        ensures strokes { IfOk result (λ read. HasStrokes depth acts.now read.0) }
        ensures joins { IfOk result (λ read. read.1.items ≡ joins_from depth [] acts.now) }
        ensures in_range { OnOk result (All (λ act. act.user < 256) acts.now) }
    {
        let mut table = StrokeTable::new(alloc, depth)?;
        let mut joins = Vec::with_capacity(alloc, acts.len())?;
        for act in acts {
            joins.push(table.join_of(act))?;
            table.add(act)?;
        }
        Ok((table, joins))
    }

    /// The done groups of each user.
    pub(crate) fn done(&self, alloc: Global) -> Result<Vec<SortedGroups>, AllocError>
        ensures count { IfOk result (λ done. vec_len done ≡ 256) }
        ensures same { IfOk result (λ done. HaveDone self.now.users done.items) }
    {
        let mut done = Vec::with_capacity(alloc, self.users.len())?;
        for user in &self.users {
            done.push(user.sorted_done(alloc)?)?;
        }
        Ok(done)
    }
}
