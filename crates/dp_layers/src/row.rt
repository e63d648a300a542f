//! A row of the list of layers.

ghost use Rattle.std.specs.Prelude.{◌≡◌};

use dp_msg_draw::Title;
use std::alloc::AllocError;

/// A row of the list of layers: a paint layer, or a group of layers.
#[derive(Drop, PartialEq)]
pub struct LayerRow {
    /// Its id, which is not 0.
    pub id: u16,
    /// The id of the group that it is in, or 0 for the root.
    pub parent: u16,
    pub group: bool,
    pub title: Title,
    pub opacity: u8,
    /// The number of its blend mode.
    pub mode: u8,
    pub hidden: bool,
}

impl Clone for LayerRow {
    ghost is_clone = { λ a b. b ≡ a };

    fn clone(&self) -> Result<LayerRow, AllocError> {
        Ok(LayerRow {
            id: self.id,
            parent: self.parent,
            group: self.group,
            title: self.title.copy()?,
            opacity: self.opacity,
            mode: self.mode,
            hidden: self.hidden,
        })
    }
}
