//! Words of a command line.

ghost use Rattle.std.specs.Prelude.{◌≡◌, IfOk, option_map, string_bytes};

use std::alloc::{AllocError, Global};
use std::marker::Model;

/// A word as it was written: an address, or a path. Contracts see its bytes.
#[derive(Debug, Drop)]
pub struct Word {
    text: String,
}

impl Model for Word {
    ghost use Rattle.std.specs.Prelude.{ℕ, List, string_bytes};

    ghost Value = { List ℕ };

    ghost view = { λ a. string_bytes a.text };
}

impl Word {
    /// A word with a copy of these characters.
    pub fn from_str(alloc: Global, text: &str) -> Result<Word, AllocError>
        ensures { IfOk result (λ made. made ≡ text.now) }
    {
        Ok(Word {
            text: String::from_str(alloc, text)?,
        })
    }

    /// Its characters.
    pub fn as_str(&self) -> &str
        ensures { result.now ≡ self.now }
    {
        self.text.as_str()
    }
}

/// A word with a copy of these characters, if there are some.
pub(crate) fn word_of(alloc: Global, text: Option<&str>) -> Result<Option<Word>, AllocError>
    ensures { IfOk result (λ made. made ≡ option_map (λ s. s.now) text.entry) }
{
    match text {
        Some(text) => Ok(Some(Word::from_str(alloc, text)?)),
        None => Ok(None),
    }
}
