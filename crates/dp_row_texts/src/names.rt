//! Words of rows, and what they stand for.

use crate::keeping::{both, filled};
use crate::row::Part;
use dp_lines::hex_of;
use std::alloc::{AllocError, Global};

/// Names, each with its text.
#[derive(Drop)]
pub struct Names<'a> {
    pub pairs: Vec<(&'a str, &'a str)>,
}

impl<'a> Names<'a> {
    /// Adds a name with its text, and answers whether this has both.
    pub fn put(&mut self, pair: &'a str) -> Result<bool, AllocError> {
        match pair.split_once(' ') {
            Some(pair) => {
                self.pairs.push(pair)?;
                Ok(true)
            }
            None => Ok(false),
        }
    }

    /// What the word stands for: the text of its name, or itself.
    pub fn text<'b>(&'b self, word: &'b str) -> &'b str {
        for pair in self.pairs.iter().rev() {
            if pair.0 == word {
                return pair.1;
            }
        }
        word
    }
}

/// How often a word stands there, and the word; never if the number is none.
fn counted(word: &str) -> (u64, &str) {
    match word.split_once('*') {
        Some((times, word)) => (times.parse::<u64>().unwrap_or(0), word),
        None => (1, word),
    }
}

/// The bytes of a word of hexadecimal, `None` if it is none.
pub fn read_word(alloc: Global, names: &Names<'_>, word: &str) -> Result<Option<Part>, AllocError> {
    let (times, name) = counted(word);
    let mut bytes = Vec::new(alloc);
    let put = put_digits(alloc, names.text(name), &mut bytes);
    let (bytes, right) = both(bytes, put)?;
    if right && times > 0 {
        Ok(Some(Part { times, bytes }))
    } else {
        drop(bytes);
        Ok(None)
    }
}

/// Adds the bytes of what a name stands for, and answers whether it is hexadecimal.
fn put_digits(alloc: Global, text: &str, out: &mut Vec<u8>) -> Result<bool, AllocError> {
    for word in text.split(' ') {
        let (times, digits) = counted(word);
        if times == 0 {
            return Ok(false);
        }
        let Some(bytes) = hex_of(alloc, digits.as_bytes())? else {
            return Ok(false);
        };
        let end = put_times(times, &bytes, out);
        drop(bytes);
        end?;
    }
    Ok(true)
}

/// Adds bytes so often.
pub fn put_times(times: u64, bytes: &[u8], out: &mut Vec<u8>) -> Result<(), AllocError> {
    for _ in 0..times {
        out.extend_from_slice(bytes)?;
    }
    Ok(())
}

/// Adds what a word stands for.
fn put_word(names: &Names<'_>, word: &str, out: &mut Vec<u8>) -> Result<(), AllocError> {
    let text = (&*names).text(&*word);
    out.extend_from_slice(text.as_bytes())
}

/// Adds a line of text, with what its words stand for.
pub fn put_line(names: &Names<'_>, line: &str, out: &mut Vec<u8>) -> Result<(), AllocError> {
    for (k, word) in line.split(' ').enumerate() {
        if k > 0 {
            out.push(b' ')?;
        }
        put_word(names, word, out)?;
    }
    out.push(b'\n')?;
    Ok(())
}

/// A line of text, once.
pub fn line_of(alloc: Global, names: &Names<'_>, line: &str) -> Result<Part, AllocError> {
    let mut bytes = Vec::new(alloc);
    let end = put_line(names, line, &mut bytes);
    let bytes = filled(bytes, end)?;
    Ok(Part { times: 1, bytes })
}
