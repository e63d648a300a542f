//! The groups of one user.

ghost use Rattle.std.specs.Prelude.{◌≡◌, ◌<◌, length, position, OnOk, IfOk, IfSome};
ghost use Rattle.dp_board.specs.Table.{begins_settled};
ghost use Rattle.dp_board.specs.Users.{HaveSame};

use crate::act::Act;
use crate::sorted::SortedGroups;
use crate::window::PointWindow;
use std::alloc::{AllocError, Global};
use std::marker::Model;

/// The groups of a user, each named by the position of its point: the done ones in order, and the
/// undone ones from the latest undone on.
#[derive(Drop)]
pub(crate) struct UserGroups {
    done: Vec<usize>,
    undone: Vec<usize>,
}

impl Model for UserGroups {
    ghost use Rattle.dp_board.specs.Strokes.{Groups};

    ghost Value = { Groups };

    ghost view = { λ g. record { done = g.done.items; undone = g.undone.items } };
}

/// Whether the first two of some done groups are out of reach.
fn begins_settled(done: &[usize], window: &PointWindow) -> bool
    ensures { result ≡ begins_settled window.now done.now }
{
    done.len() > 1 && !window.is_eligible(done[0]) && !window.is_eligible(done[1])
}

impl UserGroups {
    ghost use Rattle.dp_board.specs.Strokes.{no_groups, last_of, is_eligible};
    ghost use Rattle.dp_board.specs.Strokes.{Strokes, groups_after, open_group, clear_undone};
    ghost use Rattle.dp_board.specs.Strokes.{undo, redo, undoable, redoable};
    ghost use Rattle.dp_board.specs.Table.{kept_after, unsettled};

    pub(crate) fn new(alloc: Global) -> Self
        ensures { result ≡ no_groups }
    {
        UserGroups {
            done: Vec::new(alloc),
            undone: Vec::new(alloc),
        }
    }

    /// The group that a command joins, or `None` for group 0.
    pub(crate) fn last_done(&self) -> Option<usize>
        ensures { result ≡ last_of self.now.done }
    {
        self.done.last().copied()
    }

    /// Takes an act that concerns the user.
    pub(crate) fn take<Op>(
        &mut self,
        position: usize,
        window: &PointWindow,
        act: &Act<Op>,
    ) -> Result<(), AllocError>
        ensures { let before : Strokes =
            record { position = position; window = window.now; groups = self.old } in
            OnOk result (self.new ≡ groups_after before act.now) }
    {
        match act {
            Act::Point => self.open(position)?,
            Act::Undo { .. } => self.undo(window)?,
            Act::Redo { .. } => self.redo(window)?,
            Act::Draw(_) => self.clear_undone(),
            Act::Depth(_) | Act::Other => {}
        }
        Ok(())
    }

    /// Opens a group.
    fn open(&mut self, group: usize) -> Result<(), AllocError>
        ensures { OnOk result (self.new ≡ open_group group self.old) }
    {
        self.done.push(group)?;
        self.clear_undone();
        Ok(())
    }

    /// Forgets the undone groups.
    fn clear_undone(&mut self)
        ensures { self.new ≡ clear_undone self.old }
    {
        self.undone.clear();
    }

    /// Takes back the last done group, if it is eligible.
    fn undo(&mut self, window: &PointWindow) -> Result<(), AllocError>
        ensures { OnOk result (self.new ≡ undo (undoable window.now self.old) self.old) }
    {
        if let Some(group) = self.last_done()
            && window.is_eligible(group)
        {
            self.undone.insert(0, group)?;
            self.done.pop();
        }
        Ok(())
    }

    /// The group that an undo moves: the last done one, if it is eligible.
    pub(crate) fn undoable(&self, window: &PointWindow) -> Option<usize>
        ensures { result ≡ undoable window.now self.now }
    {
        self.last_done().filter(|&group| window.is_eligible(group))
    }

    /// The group that a redo moves: the first eligible one of the undone.
    pub(crate) fn redoable(&self, window: &PointWindow) -> Option<usize>
        ensures { result ≡ redoable window.now self.now }
    {
        self.undone
            .iter()
            .copied()
            .find(|&group| window.is_eligible(group))
    }

    /// Equal groups.
    pub(crate) fn copy(&self, alloc: Global) -> Result<Self, AllocError>
        ensures { IfOk result (λ copy. copy ≡ self.now) }
    {
        Ok(UserGroups {
            done: Vec::from_slice(alloc, &self.done)?,
            undone: Vec::from_slice(alloc, &self.undone)?,
        })
    }

    /// If the act that was taken last is a point, forgets each done group out of reach that comes
    /// before another such one.
    pub(crate) fn tidy<Op>(&mut self, window: &PointWindow, act: &Act<Op>)
        ensures { self.new ≡ kept_after window.now act.now self.old }
    {
        if matches!(act, Act::Point) {
            self.forget_settled(window);
        }
    }

    /// Forgets done groups that are out of reach and come before another that is out of reach.
    fn forget_settled(&mut self, window: &PointWindow)
        ensures { self.new ≡ unsettled window.now self.old }
    {
        while begins_settled(&self.done, window) {
            self.done.remove(0);
        }
    }

    /// The place of the first eligible group among the undone ones.
    fn first_eligible(&self, window: &PointWindow) -> Option<usize>
        ensures value { result ≡ position (is_eligible window.now) self.now.undone }
        ensures within { IfSome result (λ place. place < length self.now.undone) }
    {
        self.undone
            .iter()
            .position(|&group| window.is_eligible(group))
    }

    /// Brings back the first eligible group of the undone ones.
    fn redo(&mut self, window: &PointWindow) -> Result<(), AllocError>
        ensures { OnOk result (self.new ≡ redo (redoable window.now self.old) self.old) }
    {
        if let Some(place) = self.first_eligible(window) {
            self.done.push(self.undone[place])?;
            self.undone.remove(place);
        }
        Ok(())
    }

    /// The done groups, to look them up.
    pub(crate) fn sorted_done(&self, alloc: Global) -> Result<SortedGroups, AllocError>
        ensures { IfOk result (λ sorted. HaveSame sorted self.now.done) }
    {
        SortedGroups::new(alloc, &self.done)
    }
}
