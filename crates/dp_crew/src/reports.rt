//! The reports of all links.

ghost use Rattle.std.specs.Prelude.{◌≡◌, ◌==◌, ◌<◌, ◌^◌, [], length, slice_get, option_map};
ghost use Rattle.dp_crew.specs.Gathering.{all_reports};

use std::alloc::Global;
use std::marker::Model;

/// Reports, by rising worker and then by rising link. They are kept as one list for each worker, so
/// that gathering them takes no memory. Contracts see them as one list.
#[derive(Drop)]
pub struct Reports<P> {
    lists: Vec<Vec<P>>,
}

impl<P> Model for Reports<P> {
    ghost use Rattle.std.specs.Prelude.{List, ◌<◌, ◌^◌, length};
    ghost use Rattle.dp_crew.specs.Gathering.{all_reports};

    ghost Value = { List P };

    ghost view = { λ r. all_reports r.lists.items };

    ghost invariant = { λ r. length (all_reports r.lists.items) < 2 ^ 64 };
}

impl<P> Reports<P> {
    /// No reports.
    pub fn new(alloc: Global) -> Reports<P>
        ensures { result ≡ [] }
    {
        Reports {
            lists: Vec::new(alloc),
        }
    }

    /// The reports of these lists, one list after another.
    pub fn of(lists: Vec<Vec<P>>) -> Reports<P>
        requires { length (all_reports lists.items) < 2 ^ 64 }
        ensures { result ≡ all_reports lists.items }
    {
        Reports { lists }
    }

    /// How many there are.
    pub fn len(&self) -> usize
        ensures { result ≡ length self.now }
    {
        let mut count = 0;
        for list in &self.lists {
            count += list.len();
        }
        count
    }

    /// Whether there is none.
    pub fn is_empty(&self) -> bool
        ensures { result ≡ (length self.now == 0) }
    {
        self.len() == 0
    }

    /// The report of this number, counted from 0. There is none exactly past the end.
    pub fn get(&self, k: usize) -> Option<&P>
        ensures { option_map (λ report. report.now) result ≡ slice_get self.now k }
    {
        let mut k = k;
        for list in &self.lists {
            match list.get(k) {
                Some(report) => return Some(report),
                None => k -= list.len(),
            }
        }
        None
    }
}
