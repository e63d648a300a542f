//! The frames of a page.

ghost use Rattle.std.specs.Prelude.{◌≡◌, [], IfOk, OnOk, OnErr, take, drop};
ghost use Rattle.dp_messages.specs.Messages.{entry_bytes};

use crate::segment::Segment;
use dp_messages::{Entry, put_entry};
use std::alloc::{AllocError, Global};
use std::marker::Model;
use std::sync::Arc;

/// Bytes of a segment that others have too.
#[derive(Drop)]
struct Share {
    segment: Arc<Segment>,
    start: usize,
    size: usize,
}

/// The frames of a page: a part of a segment that is shared, or copies. They are seen as their
/// bytes.
pub struct PageFrames {
    copies: Vec<u8>,
    share: Option<Share>,
}

// It is written out, so that it is only called where a page is let go.
impl Drop for PageFrames {
    fn drop(self) {
        let PageFrames { copies, share } = self;
        drop(copies);
        drop(share);
    }
}

impl Model for PageFrames {
    ghost use Rattle.std.specs.Prelude.{List, ℕ, take, drop};
    ghost use Rattle.std.specs.Option.{option_map_or};

    ghost Value = { List ℕ };

    ghost view = { λ page. option_map_or
        (λ share. take share.size (drop share.start share.segment.value.bytes))
        page.share page.copies.items };
}

impl PageFrames {
    /// No frame.
    pub fn new(alloc: Global) -> PageFrames
        ensures { result ≡ [] }
    {
        PageFrames {
            copies: Vec::new(alloc),
            share: None,
        }
    }

    /// Their bytes.
    pub fn as_slice(&self) -> &[u8]
        ensures { result.now ≡ self.now }
    {
        match &self.share {
            Some(share) => share.segment.part(share.start, share.size),
            None => self.copies.as_slice(),
        }
    }

    /// Takes all frames away.
    pub fn clear(&mut self)
        ensures { self.new ≡ [] }
    {
        self.share = None;
        self.copies.clear();
    }

    /// Copies of these bytes, in place of what there was.
    ///
    /// # Errors
    ///
    /// No frame is left.
    pub(crate) fn copy(&mut self, bytes: &[u8]) -> Result<(), AllocError>
        ensures ok { OnOk result (self.new ≡ bytes.now) }
        ensures err { OnErr result (self.new ≡ []) }
    {
        self.share = None;
        self.copies.clear();
        self.copies.extend_from_slice(bytes)?;
        Ok(())
    }

    /// The frame of an entry, in place of what there was.
    ///
    /// # Errors
    ///
    /// No frame is left.
    pub fn put(&mut self, entry: &Entry) -> Result<(), AllocError>
        ensures ok { OnOk result (self.new ≡ entry_bytes entry.now) }
        ensures err { OnErr result (self.new ≡ []) }
    {
        self.share = None;
        self.copies.clear();
        put_entry(entry, &mut self.copies)
    }

    /// A part of a segment, in place of what there was. Nothing is copied.
    ///
    /// # Errors
    ///
    /// No frame is left.
    pub(crate) fn share(
        &mut self,
        segment: &Arc<Segment>,
        start: usize,
        size: usize,
    ) -> Result<(), AllocError>
        ensures ok { OnOk result (self.new ≡ take size (drop start segment.now.value.bytes)) }
        ensures err { OnErr result (self.new ≡ []) }
    {
        self.clear();
        let segment = segment.clone()?;
        self.share = Some(Share {
            segment,
            start,
            size,
        });
        Ok(())
    }
}
