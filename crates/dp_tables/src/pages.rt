//! What a connection is to get of the history.

ghost use Rattle.std.specs.Prelude.{◌≡◌, [], IfOk, OnErr};
ghost use Rattle.dp_epochs.specs.State.{connection_of};
ghost use Rattle.dp_epochs.specs.Pull.{pulled_where};
ghost use Rattle.dp_history.specs.Pages.{IsBounded, IsPage};
ghost use Rattle.dp_tables.specs.SessionLog.{state_in};

use crate::tables::Tables;
use dp_epochs::Answer;
use dp_history::{Page, PageFrames};
use std::alloc::AllocError;

impl Tables {
    /// What a connection is to get, from a cursor on, at most `most` entries; 0 counts as 1.
    pub fn pull(&self, conn: u32, epoch: u32, at: u32, most: u32) -> Result<Answer, AllocError>
        ensures { IfOk result (λ answer. answer
            ≡ pulled_where (state_in self.now) self.now.quiet conn epoch at most
            (connection_of (state_in self.now) conn)) }
    {
        self.live
            .pull(&self.journal, &self.roster, conn, epoch, at, most)
    }

    /// Puts what a connection is to get into a page, as frames, from a cursor on: a page of some
    /// length. `None` means that nothing more is to come. It makes no frame that was made before,
    /// and shares those that stand in a full segment.
    ///
    /// # Errors
    ///
    /// No frame is in the page.
    pub fn put_page(
        &self,
        conn: u32,
        epoch: u32,
        at: u32,
        page: &mut PageFrames,
    ) -> Result<Option<Page>, AllocError>
        ensures page { IfOk result (λ found. IsPage
            (λ most. pulled_where (state_in self.now) self.now.quiet conn epoch at most
            (connection_of (state_in self.now) conn)) found page.new) }
        ensures bounds { IfOk result (λ found. IsBounded found page.new) }
        ensures err { OnErr result (page.new ≡ []) }
    {
        self.live
            .put_page(&self.journal, &self.roster, conn, epoch, at, page)
    }

    /// Makes the frames of the entries that have none yet, as far as memory goes. What a session is
    /// stays.
    pub fn write_frames(&mut self)
        ensures { self.new ≡ self.old }
    {
        self.live.write_frames(&self.journal);
    }
}
