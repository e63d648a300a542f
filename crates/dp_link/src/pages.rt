//! Pages of a history, on their way to a peer.

ghost use Rattle.dp_link.specs.Sending.{SeesPage};

use dp_any_session::{AnySession, SessionCore};
use dp_hall::Look;
use dp_history::{Page, PageFrames};
use std::alloc::AllocError;

/// Where the next entry for a peer stands.
#[derive(Clone, Copy)]
pub(crate) struct Cursor {
    pub epoch: u32,
    pub at: u32,
}

/// What is asked for a peer, and the page that came of it, with its frames. Their bytes are used
/// again for each page.
#[derive(Drop)]
pub(crate) struct Asked {
    pub conn: u32,
    pub cursor: Cursor,
    pub frames: PageFrames,
    pub page: Result<Option<Page>, AllocError>,
    /// Whether a page had little once: all that was there then had come.
    pub caught_up: bool,
}

impl<C: SessionCore> Look<AnySession<C>> for Asked {
    ghost sees = { SeesPage };

    fn look(&mut self, session: &AnySession<C>) {
        let Cursor { epoch, at } = self.cursor;
        self.page = session.put_page(self.conn, epoch, at, &mut self.frames);
    }
}
