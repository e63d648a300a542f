//! Groups in ascending order.

ghost use Rattle.std.specs.Prelude.{◌≡◌, ℕ, List, IfOk};
ghost use Rattle.std.specs.List.Sorted.{IsSorted};
ghost use Rattle.std.specs.Ordering.{nat_cmp};
ghost use Rattle.dp_board.specs.Strokes.{is_among};
ghost use Rattle.dp_board.specs.Users.{HaveSame};

use std::alloc::{AllocError, Global};
use std::marker::Model;

/// Groups that are looked up by binary search.
#[derive(Drop)]
pub(crate) struct SortedGroups {
    groups: Vec<usize>,
}

impl Model for SortedGroups {
    ghost Value = { List ℕ };

    ghost view = { λ sorted. sorted.groups.items };

    ghost invariant = { λ sorted. IsSorted nat_cmp sorted.groups.items };
}

impl SortedGroups {
    /// The groups of the list in ascending order.
    pub(crate) fn new(alloc: Global, groups: &[usize]) -> Result<Self, AllocError>
        ensures { IfOk result (λ sorted. HaveSame sorted groups.now) }
    {
        let mut groups = Vec::from_slice(alloc, groups)?;
        groups.sort_unstable();
        Ok(SortedGroups { groups })
    }

    /// Whether the group is one of them.
    pub(crate) fn contains(&self, group: usize) -> bool
        ensures { result ≡ is_among self.now group }
    {
        self.groups.binary_search(&group).is_ok()
    }
}
