//! Acts with what they joined and whether they are drawn.

ghost use Rattle.std.specs.Prelude.{◌≡◌, map};
ghost use Rattle.dp_board.specs.Moves.{flag_with};
ghost use Rattle.dp_savepoints.specs.Kept.{marked};

use dp_board::{Join, UserAct};

/// An act with what it joined and whether its command is drawn.
pub struct KeptAct<Op> {
    /// The act.
    pub act: UserAct<Op>,
    /// What it joined when it came.
    pub join: Join,
    /// Whether it is a command that is drawn now.
    pub drawn: bool,
}

// It is written out, so that it is only called where an act is let go. A derived one would be
// a part of each such function, and proved there.
impl<Op: Drop> Drop for KeptAct<Op> {
    fn drop(self) {
        let KeptAct {
            act: _,
            join: _,
            drawn: _,
        } = self;
    }
}

/// A group that moves, and whether its commands are drawn then.
#[derive(Clone, Copy)]
pub struct Mark {
    /// The user whose group it is, by context id.
    pub user: u8,
    /// The group, by the position of its point.
    pub group: usize,
    /// Whether its commands are drawn.
    pub drawn: bool,
}

impl Mark {
    /// The flag of an act that joined so, if it was `old`.
    pub fn flag(self, join: Join, old: bool) -> bool
        ensures { result ≡ flag_with self.user self.group self.drawn join old }
    {
        match join {
            Join::NoCommand | Join::GroupZero => old,
            Join::InGroup { user, group } => {
                if user == self.user && group == self.group {
                    self.drawn
                } else {
                    old
                }
            }
        }
    }
}

/// Gives the acts of a group that moves their new flag.
pub fn mark_all<Op>(kept: &mut [KeptAct<Op>], mark: Mark)
    ensures { kept.new ≡ map (marked mark) kept.old }
{
    for act in kept.iter_mut() {
        act.drawn = mark.flag(act.join, act.drawn);
    }
}
