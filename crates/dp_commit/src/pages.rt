//! What a connection is to get of the history.

ghost use Rattle.std.specs.Prelude.{◌≡◌, ℕ, List, [], take, map, All, IfOk, OnErr};
ghost use Rattle.dp_epochs.specs.State.{State, epoch_of, connection_of};
ghost use Rattle.dp_epochs.specs.Pull.{page as due_page, pulled_from, pulled_by_left, pulled_where};
ghost use Rattle.dp_epochs.specs.declared.event.Event.{Event as Kept};
ghost use Rattle.dp_history.specs.Items.{entry_in, IsIn};
ghost use Rattle.dp_history.specs.Made.{AreMadeOf};
ghost use Rattle.dp_history.specs.Pages.{IsBounded, IsPage};
ghost use Rattle.dp_commit.specs.Marks.{quiet_of};
ghost use Rattle.dp_commit.specs.Pages.{answer_of, AreRead};

use crate::connections::{Roster, connection, is_flagged};
use crate::live::LiveEpoch;
use dp_epochs::{Answer, Ending, Entries, Event, Place};
use dp_history::{Page, PageFrames, copies};
use dp_lists::{prefix_of, rest_of};
use std::alloc::AllocError;

/// What is due of the live history: from a place on up to another.
#[derive(Clone, Copy)]
pub(crate) struct Due {
    pub(crate) epoch: u32,
    pub(crate) at: u32,
    pub(crate) end: usize,
}

impl LiveEpoch {
    /// Copies of entries of the history before a place, from another place on, at most that many.
    fn page(&self, journal: &[Event], end: usize, at: u32, most: u32) -> Result<Entries, AllocError>
        requires { All (IsIn journal.now) self.now.history.items }
        ensures { IfOk result (λ copies. copies ≡ due_page at most
            (take end (map (entry_in journal.now) self.now.history.items))) }
    {
        let history = prefix_of(&self.history, end);
        let most = 1u32.max(most) as usize;
        let items = prefix_of(rest_of(history, at as usize), most);
        copies(*self.history.allocator(), journal, items)
    }

    /// What is due of the history before a place, by a cursor.
    fn due_before(&self, end: usize, epoch: u32, at: u32) -> Due
        ensures { (s : State) (most : ℕ) → self.now.number ≡ epoch_of s
            → pulled_from s epoch at most (take end s.live)
            ≡ answer_of s.live most (Some result) }
    {
        if epoch == self.number {
            Due { epoch, at, end }
        } else {
            Due {
                epoch: self.number,
                at: 0,
                end,
            }
        }
    }

    /// What is due to a connection that left at a place.
    fn due_left(&self, place: Place, epoch: u32, at: u32) -> Option<Due>
        ensures { (s : State) (most : ℕ) → self.now.number ≡ epoch_of s
            → pulled_by_left s epoch at most place ≡ answer_of s.live most result }
    {
        if place.epoch != self.number {
            return None;
        }
        if epoch == self.number && place.index < at {
            return None;
        }
        Some(self.due_before(place.index as usize + 1, epoch, at))
    }

    /// What is due to a connection, from a cursor on.
    fn due(&self, roster: &Roster, conn: u32, epoch: u32, at: u32) -> Option<Due>
        ensures { (s : State) (journal : List Kept) (most : ℕ)
            → AreRead s journal roster.now self.now
            → pulled_where s (quiet_of roster.now.quiet.items) conn epoch at most
            (connection_of s conn) ≡ answer_of s.live most result }
    {
        let found = connection(&roster.connections, conn)?;
        match found.ending {
            Ending::Running if is_flagged(&roster.quiet, conn) => None,
            Ending::Running => Some(self.due_before(self.history.len(), epoch, at)),
            Ending::Left(place) => self.due_left(place, epoch, at),
            Ending::Shut => None,
        }
    }

    /// What a connection is to get, from a cursor on, at most `most` entries; 0 counts as 1.
    ///
    /// # Errors
    ///
    /// Memory ran out.
    pub fn pull(
        &self,
        journal: &[Event],
        roster: &Roster,
        conn: u32,
        epoch: u32,
        at: u32,
        most: u32,
    ) -> Result<Answer, AllocError>
        requires { All (IsIn journal.now) self.now.history.items }
        ensures { (s : State) → AreRead s journal.now roster.now self.now
            → IfOk result (λ answer. answer
            ≡ pulled_where s (quiet_of roster.now.quiet.items) conn epoch at most
            (connection_of s conn)) }
    {
        match self.due(roster, conn, epoch, at) {
            Some(Due { epoch, at, end }) => {
                let list = self.page(journal, end, at, most)?;
                Ok(Answer::Entries { epoch, at, list })
            }
            None => Ok(Answer::Gone),
        }
    }

    /// Puts what a connection is to get into a page, as frames, from a cursor on: a page of some
    /// length. `None` means that nothing more is to come. It makes no frame that was made before,
    /// and shares those that stand in a full segment.
    ///
    /// # Errors
    ///
    /// Memory ran out: no frame is in the page.
    pub fn put_page(
        &self,
        journal: &[Event],
        roster: &Roster,
        conn: u32,
        epoch: u32,
        at: u32,
        page: &mut PageFrames,
    ) -> Result<Option<Page>, AllocError>
        requires said { All (IsIn journal.now) self.now.history.items }
        requires made { AreMadeOf self.now.frames
            (map (entry_in journal.now) self.now.history.items) }
        ensures page { (s : State) → AreRead s journal.now roster.now self.now
            → IfOk result (λ found. IsPage
            (λ most. pulled_where s (quiet_of roster.now.quiet.items) conn epoch at most
            (connection_of s conn)) found page.new) }
        ensures bounds { IfOk result (λ found. IsBounded found page.new) }
        ensures err { OnErr result (page.new ≡ []) }
    {
        match self.due(roster, conn, epoch, at) {
            Some(Due { epoch, at, end }) => {
                let count = self
                    .frames
                    .put_page(journal, &self.history, end, at as usize, page)?;
                Ok(Some(Page { epoch, at, count }))
            }
            None => {
                page.clear();
                Ok(None)
            }
        }
    }
}
