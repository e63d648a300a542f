//! A vector that contracts see as its list.

ghost use Rattle.std.specs.Prelude.{◌≡◌, ◌↔◌, ◌∷◌, ◌++◌, [], take, drop, length};
ghost use Rattle.std.specs.Prelude.{IfOk, OnOk, OnErr, true};

use std::alloc::{AllocError, Global};
use std::marker::Model;

/// Items in order. Contracts see them as that list, and not as a vector with its capacity.
#[derive(Debug)]
pub struct Listed<T> {
    entries: Vec<T>,
}

impl<T: Drop> Drop for Listed<T> {
    fn drop(self) {
        let Listed { entries } = self;
        drop(entries);
    }
}

impl<T> Model for Listed<T> {
    ghost use Rattle.std.specs.Prelude.{List};

    ghost Value = { List T };

    ghost view = { λ l. l.entries.items };
}

impl<T> Listed<T> {
    /// No items.
    pub fn new(alloc: Global) -> Listed<T>
        ensures { result ≡ [] }
    {
        Listed {
            entries: Vec::new(alloc),
        }
    }

    /// The items of a vector.
    pub fn from_vec(entries: Vec<T>) -> Listed<T>
        ensures { result ≡ entries.items }
    {
        Listed { entries }
    }

    /// The items as a slice.
    pub fn as_slice(&self) -> &[T]
        ensures { result.now ≡ self.now }
    {
        self.entries.as_slice()
    }

    /// Where its memory comes from.
    pub fn allocator(&self) -> Global {
        *self.entries.allocator()
    }
}

impl<T: Drop> Listed<T> {
    /// Adds an item at the end.
    ///
    /// # Errors
    ///
    /// If memory runs out. The item is dropped then, and the list is as it was.
    pub fn push(&mut self, item: T) -> Result<(), AllocError>
        ensures ok { OnOk result (self.new ≡ self.old ++ item ∷ []) }
        ensures err { OnErr result (self.new ≡ self.old) }
    {
        self.entries.push(item)?;
        Ok(())
    }
}

impl Listed<u8> {
    /// How many bytes there are.
    pub fn len(&self) -> usize
        ensures { result ≡ length self.now }
    {
        self.entries.len()
    }

    /// Whether there is no byte.
    pub fn is_empty(&self) -> bool
        ensures { (result ≡ true) ↔ (length self.now ≡ 0) }
    {
        self.entries.is_empty()
    }

    /// Adds the bytes at the end.
    ///
    /// # Errors
    ///
    /// If memory runs out. The bytes are then as they were.
    pub fn append(&mut self, bytes: &[u8]) -> Result<(), AllocError>
        ensures ok { OnOk result (self.new ≡ self.old ++ bytes.now) }
        ensures err { OnErr result (self.new ≡ self.old) }
    {
        self.entries.extend_from_slice(bytes)
    }

    /// Adds one run of bytes and then another at the end.
    ///
    /// # Errors
    ///
    /// If memory runs out. The bytes are then as they were.
    pub fn append_both(&mut self, first: &[u8], second: &[u8]) -> Result<(), AllocError>
        ensures ok { OnOk result (self.new ≡ self.old ++ first.now ++ second.now) }
        ensures err { OnErr result (self.new ≡ self.old) }
    {
        self.entries.reserve(first.len() + second.len())?;
        self.entries.extend_from_slice(first)?;
        self.entries.extend_from_slice(second)
    }

    /// A copy of the bytes.
    pub fn copy(&self) -> Result<Listed<u8>, AllocError>
        ensures { IfOk result (λ copy. copy ≡ self.now) }
    {
        let entries = self.entries.clone()?;
        Ok(Listed { entries })
    }
}

/// The items from a place on.
pub fn rest_of<T>(items: &[T], from: usize) -> &[T]
    ensures { result.now ≡ drop from items.now }
{
    if from < items.len() {
        &items[from..]
    } else {
        &[]
    }
}

/// The first items, at most `most` of them.
pub fn prefix_of<T>(items: &[T], most: usize) -> &[T]
    ensures { result.now ≡ take most items.now }
{
    if most < items.len() {
        &items[..most]
    } else {
        items
    }
}
