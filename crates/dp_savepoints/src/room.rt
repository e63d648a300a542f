//! Lists that grow in room that was made before, and lists without their first elements.

ghost use Rattle.std.specs.Prelude.{◌≡◌, ◌+◌, ◌-◌, ◌<◌, ◌≤◌, ◌∷◌, ◌++◌, [], drop};
ghost use Rattle.std.specs.Vec.{vec_len, vec_capacity};
ghost use Rattle.dp_savepoints.specs.Kept.{marked_all};

use crate::kept::{KeptAct, Mark, mark_all};

/// Without the first `count` elements.
pub fn drop_first<T: Drop>(items: &mut Vec<T>, count: usize)
    requires { count ≤ vec_len items.old }
    ensures items { items.new.items ≡ drop count items.old.items }
    ensures len { vec_len items.new + count ≡ vec_len items.old }
{
    items.drain(..count);
}

/// Of the acts that are held from `base` on, lets go of those before the position `first`.
pub fn let_go<Op: Drop>(base: &mut usize, kept: &mut Vec<KeptAct<Op>>, first: usize)
    requires later { base.old ≤ first }
    requires within { first ≤ base.old + vec_len kept.old }
    ensures base { base.new ≡ base.old + (first - base.old) }
    ensures items { kept.new.items ≡ drop (first - base.old) kept.old.items }
    ensures len { base.new + vec_len kept.new ≡ base.old + vec_len kept.old }
{
    let count = first - *base;
    drop_first(kept, count);
    *base += count;
}

/// Gives the acts of a group that moves their new flag, and adds an act. It takes no memory.
pub fn add_act<Op: Drop>(kept: &mut Vec<KeptAct<Op>>, mark: Option<Mark>, act: KeptAct<Op>)
    requires { vec_len kept.old < vec_capacity kept.old }
    ensures items { kept.new.items ≡ marked_all mark kept.old.items ++ act ∷ [] }
    ensures len { vec_len kept.new ≡ vec_len kept.old + 1 }
{
    if let Some(mark) = mark {
        mark_all(kept, mark);
    }
    kept.push_reserved(act);
}
