//! How the writing of a picture ends.

ghost use Rattle.std.specs.Prelude.{◌≡◌};

use dp_io::Failed;
use std::alloc::AllocError;

/// Why a picture was not written.
#[derive(Clone, Copy, Debug, PartialEq, Eq)]
pub enum PictureEnd {
    /// The sink failed.
    Failed,
    /// Memory ran out.
    Memory,
}

impl From<Failed> for PictureEnd {
    ghost use Rattle.dp_shown.specs.declared.end.PictureEnd.{PictureEnd};

    ghost from_gives = { λ _ e. e ≡ PictureEnd.Failed };

    fn from(_failed: Failed) -> PictureEnd {
        PictureEnd::Failed
    }
}

impl From<AllocError> for PictureEnd {
    ghost use Rattle.dp_shown.specs.declared.end.PictureEnd.{PictureEnd};

    ghost from_gives = { λ _ e. e ≡ PictureEnd.Memory };

    fn from(_full: AllocError) -> PictureEnd {
        PictureEnd::Memory
    }
}
