//! Sets of user ids.

ghost use Rattle.std.specs.Prelude.{◌≡◌, ◌<◌, ◌==◌, ◌&&◌, ◌↔◌, [], true, false, not, length};
ghost use Rattle.std.specs.Prelude.{if◌then◌else◌, IfOk, All};
ghost use Rattle.std.specs.List.{filter, list_all};
ghost use Rattle.dp_acl.specs.LookBack.{lists};
ghost use Rattle.dp_acl.specs.Rights.{is_open_to};
ghost use Rattle.dp_acl.specs.Table.{mark_of, Mark};
ghost use Rattle.dp_acl.specs.Marks.{marked};

use std::alloc::{AllocError, Global};
use std::marker::Model;

/// The number of ids.
const IDS: u16 = 256;

/// A set of user ids, as a mark for each.
#[derive(Debug, Drop)]
pub(crate) struct IdSet {
    marks: [bool; 256],
}

impl Model for IdSet {
    ghost use Rattle.std.specs.Prelude.{Bool, List};

    ghost Value = { List Bool };

    ghost view = { λ set. set.marks };
}

/// Whether no mark is set.
fn are_clear(marks: &[bool]) -> bool
    ensures { result ≡ list_all not marks.now }
{
    marks.iter().all(|mark| !*mark)
}

impl IdSet {
    /// No ids.
    pub(crate) fn new() -> IdSet
        ensures { Mark result (λ id. false) }
    {
        IdSet {
            marks: [false; 256],
        }
    }

    /// Whether the id is in the set.
    pub(crate) fn contains(&self, id: u8) -> bool
        ensures { result ≡ mark_of self.now id }
    {
        self.marks[id as usize]
    }

    /// Puts the id in, or takes it out.
    pub(crate) fn set(&mut self, id: u8, present: bool)
        ensures { Mark self.new (λ other. if id == other then present else mark_of self.old other) }
    {
        self.marks[id as usize] = present;
    }

    /// The ids of a list.
    pub(crate) fn of(ids: &[u8]) -> IdSet
        ensures marks { Mark result (lists ids.now) }
        ensures bytes { All (λ id. id < 256) ids.now }
    {
        let mut set = IdSet::new();
        for id in ids {
            set.set(*id, true);
        }
        set
    }

    /// The ids that are in both sets.
    pub(crate) fn both(&self, other: &IdSet) -> IdSet
        ensures { Mark result (λ id. mark_of self.now id && mark_of other.now id) }
    {
        let mut both = IdSet::new();
        for number in 0..IDS {
            let id = number as u8;
            both.set(id, self.contains(id) && other.contains(id));
        }
        both
    }

    /// Whether no id is in the set.
    fn is_empty(&self) -> bool
        ensures { (result ≡ true) ↔ (marked self.now ≡ []) }
    {
        are_clear(&self.marks)
    }

    /// Whether the id is in the set, or none is.
    pub(crate) fn is_open_to(&self, id: u8) -> bool
        ensures { result ≡ is_open_to (marked self.now) id }
    {
        self.is_empty() || self.contains(id)
    }

    /// Those of the ids that are in the set, in order.
    pub(crate) fn among(&self, alloc: Global, ids: &[u8]) -> Result<Vec<u8>, AllocError>
        ensures { IfOk result (λ found. found.items ≡ filter (mark_of self.now) ids.now) }
    {
        ids.iter()
            .copied()
            .filter(|id| self.contains(*id))
            .collect(alloc)
    }

    /// The ids of the set, rising.
    pub(crate) fn to_vec(&self, alloc: Global) -> Result<Vec<u8>, AllocError>
        ensures { IfOk result (λ ids. ids.items ≡ marked self.now) }
    {
        let mut ids = Vec::new(alloc);
        for number in 0..IDS {
            let id = number as u8;
            if self.contains(id) {
                ids.push(id)?;
            }
        }
        Ok(ids)
    }
}
