//! Lists of bytes that messages hold: ids, names and texts.
//!
//! The rule: docs/protocol.md, "Control and meta messages".

ghost use Rattle.std.specs.Prelude.{◌≡◌, ◌≤◌, ◌↔◌, List, ℕ, [], length, string_bytes, vec_len};
ghost use Rattle.std.specs.Prelude.{IfOk, IfSome, IsSome, bytes_eq};
ghost use Rattle.std.specs.Cmp.{partial_equiv_from_equiv};
ghost use Rattle.std.specs.Cmp.Lexicographic.{nat_list_eq_equiv};
ghost use Rattle.dp_msg_meta.specs.Fields.{IsText};

use std::alloc::{AllocError, Global};
use std::marker::Model;

/// User ids, at most 255 of them.
#[derive(Debug)]
pub struct Ids {
    ids: Vec<u8>,
}

impl Drop for Ids {
    fn drop(self) {
        let Ids { ids } = self;
        drop(ids);
    }
}

impl Model for Ids {
    ghost Value = { List ℕ };

    ghost view = { λ l. l.ids.items };

    ghost invariant = { λ l. length l.ids.items ≤ 255 };
}

impl Ids {
    /// No ids.
    pub fn new(alloc: Global) -> Ids
        ensures { result ≡ [] }
    {
        Ids {
            ids: Vec::new(alloc),
        }
    }

    /// The ids of a vector.
    pub fn from_vec(ids: Vec<u8>) -> Ids
        requires { vec_len ids ≤ 255 }
        ensures { result ≡ ids.items }
    {
        Ids { ids }
    }

    /// The ids as a slice.
    pub fn as_slice(&self) -> &[u8]
        ensures value { result.now ≡ self.now }
        ensures short { length self.now ≤ 255 }
    {
        self.ids.as_slice()
    }

    /// A copy of the ids.
    pub fn copy(&self) -> Result<Ids, AllocError>
        ensures { IfOk result (λ ids. ids ≡ self.now) }
    {
        Ok(Ids {
            ids: self.ids.clone()?,
        })
    }
}

impl PartialEq for Ids {
    ghost eq = { bytes_eq };

    ghost laws = { partial_equiv_from_equiv nat_list_eq_equiv };

    fn eq(&self, other: &Ids) -> bool {
        self.ids == other.ids
    }
}

/// The name of a Hello: any bytes, at most 32 of them.
#[derive(Debug)]
pub struct NameBytes {
    bytes: Vec<u8>,
}

impl Drop for NameBytes {
    fn drop(self) {
        let NameBytes { bytes } = self;
        drop(bytes);
    }
}

impl Model for NameBytes {
    ghost Value = { List ℕ };

    ghost view = { λ n. n.bytes.items };

    ghost invariant = { λ n. length n.bytes.items ≤ 32 };
}

impl NameBytes {
    /// The empty name.
    pub fn new(alloc: Global) -> NameBytes
        ensures { result ≡ [] }
    {
        NameBytes {
            bytes: Vec::new(alloc),
        }
    }

    /// The name of these bytes.
    pub fn from_vec(bytes: Vec<u8>) -> NameBytes
        requires { vec_len bytes ≤ 32 }
        ensures { result ≡ bytes.items }
    {
        NameBytes { bytes }
    }

    /// The bytes of the name.
    pub fn as_slice(&self) -> &[u8]
        ensures value { result.now ≡ self.now }
        ensures short { length self.now ≤ 32 }
    {
        self.bytes.as_slice()
    }

    /// A copy of the name.
    pub fn copy(&self) -> Result<NameBytes, AllocError>
        ensures { IfOk result (λ name. name ≡ self.now) }
    {
        Ok(NameBytes {
            bytes: self.bytes.clone()?,
        })
    }
}

impl PartialEq for NameBytes {
    ghost eq = { bytes_eq };

    ghost laws = { partial_equiv_from_equiv nat_list_eq_equiv };

    fn eq(&self, other: &NameBytes) -> bool {
        self.bytes == other.bytes
    }
}

/// A text: UTF-8, at most 65,535 bytes of it.
#[derive(Debug)]
pub struct Text {
    text: String,
}

impl Drop for Text {
    fn drop(self) {
        let Text { text } = self;
        drop(text);
    }
}

impl Model for Text {
    ghost Value = { List ℕ };

    ghost view = { λ t. string_bytes t.text };

    ghost invariant = { λ t. length (string_bytes t.text) ≤ 65535 };
}

impl Text {
    /// The empty text.
    pub fn new(alloc: Global) -> Text
        ensures { result ≡ [] }
    {
        Text {
            text: String::new(alloc),
        }
    }

    /// The text of these bytes. `None` exactly if they are no UTF-8 or too many.
    pub fn from_vec(bytes: Vec<u8>) -> Option<Text>
        ensures valid { IsSome result ↔ IsText bytes.items }
        ensures value { IfSome result (λ text. text ≡ bytes.items) }
    {
        if bytes.len() > 65535 {
            return None;
        }
        match String::from_utf8(bytes) {
            Ok(text) => Some(Text { text }),
            Err(_) => None,
        }
    }

    /// A text with a copy of these characters.
    pub fn from_str(alloc: Global, text: &str) -> Result<Text, AllocError>
        requires { length text.now ≤ 65535 }
        ensures { IfOk result (λ made. made ≡ text.now) }
    {
        Ok(Text {
            text: String::from_str(alloc, text)?,
        })
    }

    /// The bytes of the text, which are UTF-8.
    pub fn as_slice(&self) -> &[u8]
        ensures value { result.now ≡ self.now }
        ensures text { IsText self.now }
    {
        self.text.as_bytes()
    }

    /// The text.
    pub fn as_str(&self) -> &str
        ensures { result.now ≡ self.now }
    {
        self.text.as_str()
    }

    /// A copy of the text.
    pub fn copy(&self) -> Result<Text, AllocError>
        ensures { IfOk result (λ text. text ≡ self.now) }
    {
        Ok(Text {
            text: self.text.clone()?,
        })
    }
}

impl PartialEq for Text {
    ghost eq = { bytes_eq };

    ghost laws = { partial_equiv_from_equiv nat_list_eq_equiv };

    fn eq(&self, other: &Text) -> bool {
        self.text == other.text
    }
}
