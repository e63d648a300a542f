//! Links to come.

use crate::keeping::filled;
use crate::names::{Names, put_times, read_word};
use crate::reading::put_numbers;
use std::alloc::{AllocError, Global};

/// A pause of a link. Its bytes from the place `at` on come once another link was sent `sent`
/// bytes. That is the link of this number, from 0 over all wires of the row.
#[derive(Clone, Copy)]
pub struct Pause {
    pub at: usize,
    pub link: usize,
    pub sent: usize,
}

/// A link to come: what its peer sends, with its pauses, and the reads and writes that fail.
#[derive(Drop)]
pub struct Coming {
    pub bytes: Vec<u8>,
    pub pauses: Vec<Pause>,
    pub reads: Vec<u64>,
    pub writes: Vec<u64>,
}

impl Coming {
    /// A link of these bytes, with no pause, on which no call fails.
    pub fn new(bytes: Vec<u8>) -> Coming {
        let alloc = *bytes.allocator();
        Coming {
            bytes,
            pauses: Vec::new(alloc),
            reads: Vec::new(alloc),
            writes: Vec::new(alloc),
        }
    }

    /// An equal link.
    pub fn copy(&self, alloc: Global) -> Result<Coming, AllocError> {
        let mut copy = Coming::new(Vec::new(alloc));
        let end = self.put_on(&mut copy);
        filled(copy, end)
    }

    /// Adds all that this link has to another one.
    fn put_on(&self, other: &mut Coming) -> Result<(), AllocError> {
        other.bytes.extend_from_slice(&self.bytes)?;
        other.pauses.extend_from_slice(&self.pauses)?;
        other.reads.extend_from_slice(&self.reads)?;
        other.writes.extend_from_slice(&self.writes)
    }

    /// Adds what words say of the link, and answers whether they are right ones.
    fn put_words(
        &mut self,
        alloc: Global,
        names: &Names<'_>,
        words: &str,
    ) -> Result<bool, AllocError> {
        for word in words.split_whitespace() {
            if !self.put_word(alloc, names, word)? {
                return Ok(false);
            }
        }
        Ok(true)
    }

    /// Adds what a word says of the link, and answers whether it is a right one.
    fn put_word(
        &mut self,
        alloc: Global,
        names: &Names<'_>,
        word: &str,
    ) -> Result<bool, AllocError> {
        if let Some(place) = word.strip_prefix('@') {
            self.put_pause(place)
        } else if let Some(value) = word.strip_prefix("read=") {
            put_numbers(value, &mut self.reads)
        } else if let Some(value) = word.strip_prefix("write=") {
            put_numbers(value, &mut self.writes)
        } else {
            self.put_bytes(alloc, names, word)
        }
    }

    /// Adds a pause after the bytes so far.
    fn put_pause(&mut self, place: &str) -> Result<bool, AllocError> {
        let Some((link, sent)) = place.split_once(':') else {
            return Ok(false);
        };
        let at = self.bytes.len();
        match (link.parse::<usize>(), sent.parse::<usize>()) {
            (Ok(link), Ok(sent)) => {
                self.pauses.push(Pause { at, link, sent })?;
                Ok(true)
            }
            _ => Ok(false),
        }
    }

    /// Adds the bytes of a word of hexadecimal.
    fn put_bytes(
        &mut self,
        alloc: Global,
        names: &Names<'_>,
        word: &str,
    ) -> Result<bool, AllocError> {
        let Some(part) = read_word(alloc, names, word)? else {
            return Ok(false);
        };
        let end = put_times(part.times, &part.bytes, &mut self.bytes);
        drop(part);
        end?;
        Ok(true)
    }
}

/// Adds a link to the last wire, and answers whether its words are right.
pub fn put_link(
    alloc: Global,
    names: &Names<'_>,
    words: &str,
    wires: &mut Vec<Vec<Coming>>,
) -> Result<bool, AllocError> {
    let Some(links) = wires.last_mut() else {
        return Ok(false);
    };
    links.push(Coming::new(Vec::new(alloc)))?;
    match links.last_mut() {
        Some(link) => link.put_words(alloc, names, words),
        None => Ok(false),
    }
}
