//! The points that undo and redo reach.

ghost use Rattle.std.specs.Prelude.{◌≡◌, ◌<◌, min, IfOk, OnOk, OnErr};
ghost use Rattle.std.specs.List.{fold, All};

use crate::act::Act;
use std::alloc::{AllocError, Global};
use std::collections::VecDeque;
use std::marker::Model;

/// The positions of the last points of all users, as many as the depth at most.
#[derive(Drop)]
pub(crate) struct PointWindow {
    depth: u32,
    points: VecDeque<usize>,
}

impl Model for PointWindow {
    ghost use Rattle.std.specs.List.Sorted.{IsNonDecreasing};
    ghost use Rattle.dp_board.specs.Strokes.{Window};

    ghost Value = { Window };

    ghost view = { λ window. record { depth = window.depth; points = window.points.items } };

    ghost invariant = { λ window. IsNonDecreasing window.points.items };
}

impl PointWindow {
    ghost use Rattle.dp_board.specs.Strokes.{empty_window, is_eligible, cut, window_after};

    /// The window of no point.
    pub(crate) fn new(alloc: Global, depth: u32) -> Self
        ensures { result ≡ empty_window depth }
    {
        PointWindow {
            depth,
            points: VecDeque::new(alloc),
        }
    }

    /// Whether the point of a group is in reach.
    pub(crate) fn is_eligible(&self, group: usize) -> bool
        ensures { result ≡ is_eligible self.now group }
    {
        if let Some(first) = self.points.front()
            && group < *first
        {
            return false;
        }
        if let Some(last) = self.points.back()
            && *last < group
        {
            return false;
        }
        self.points.contains(&group)
    }

    /// The oldest point in reach, or `end` if none is before it.
    pub(crate) fn oldest(&self, end: usize) -> usize
        ensures { result ≡ fold min end self.now.points }
    {
        self.points
            .iter()
            .fold(end, |oldest, point| oldest.min(*point))
    }

    /// An equal window.
    pub(crate) fn copy(&self, alloc: Global) -> Result<Self, AllocError>
        ensures { IfOk result (λ copy. copy ≡ self.now) }
    {
        Ok(PointWindow {
            depth: self.depth,
            points: self.points.iter().copied().collect(alloc)?,
        })
    }

    /// Takes an act at a position: a point joins the window, a depth sets how many points it has.
    /// Then the last ones alone are kept.
    pub(crate) fn take<Op>(&mut self, position: usize, act: &Act<Op>) -> Result<(), AllocError>
        requires { All (λ point. point < position) self.old.points }
        ensures ok { OnOk result (self.new ≡ window_after position act.now self.old) }
        ensures err { OnErr result (self.new ≡ self.old) }
    {
        match act {
            Act::Point => self.points.push_back(position)?,
            Act::Depth(depth) => self.depth = u32::from(*depth),
            _ => {}
        }
        self.cut();
        Ok(())
    }

    /// Keeps the last points alone.
    fn cut(&mut self)
        ensures { self.new ≡ cut self.old }
    {
        while self.points.len() > self.depth as usize {
            self.points.pop_front();
        }
    }
}
