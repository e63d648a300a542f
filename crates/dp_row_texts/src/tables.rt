//! Tables of damaged links.

use crate::names::{Names, line_of, read_word};
use crate::row::Part;
use std::alloc::{AllocError, Global};

/// What a client over a link does next.
#[derive(Drop)]
pub enum Does {
    Print(Vec<u8>),
    Send(Vec<u8>),
}

/// A step of a client over a link, and how many frames of the link have come before.
#[derive(Drop)]
pub struct Step {
    pub wanted: usize,
    pub does: Does,
}

/// What is tried with the first link of a row, and what its frames are for.
#[derive(Drop)]
pub struct Table {
    /// Frames that may stand nowhere, but the one that they equal.
    pub lies: Vec<Vec<u8>>,
    /// Frames that end a link.
    pub ends: Vec<Vec<u8>>,
    /// Frames of a painter, each with what a session places in their stead.
    pub instead: Vec<Vec<u8>>,
    /// How many writes fail in turn, in pieces of one byte.
    pub writes: u64,
    /// Of `join`: what the client does, in order.
    pub steps: Vec<Step>,
    /// Of `serve`: what the session places for each frame of each link, and then for its end.
    pub placed: Vec<Vec<Vec<u8>>>,
}

impl Table {
    /// A table in which nothing is tried.
    pub fn new(alloc: Global) -> Table {
        Table {
            lies: Vec::new(alloc),
            ends: Vec::new(alloc),
            instead: Vec::new(alloc),
            writes: 0,
            steps: Vec::new(alloc),
            placed: Vec::new(alloc),
        }
    }

    /// Whether anything is to be tried.
    pub fn is_empty(&self) -> bool {
        self.steps.is_empty() && self.placed.is_empty()
    }
}

/// Reads a line of a table, and answers whether it has the form of one.
pub fn put_table_line(
    alloc: Global,
    names: &Names<'_>,
    table: &mut Table,
    line: &str,
) -> Result<bool, AllocError> {
    let (word, rest) = line.split_once(' ').unwrap_or((line, ""));
    match word {
        "lies" => put_frames(alloc, names, rest, &mut table.lies),
        "ends" => put_frames(alloc, names, rest, &mut table.ends),
        "instead" => put_frames(alloc, names, rest, &mut table.instead),
        "placed" => {
            table.placed.push(Vec::new(alloc))?;
            match table.placed.last_mut() {
                Some(frames) => put_frames(alloc, names, rest, frames),
                None => Ok(false),
            }
        }
        "writes" => {
            table.writes = rest.parse::<u64>().unwrap_or(0);
            Ok(table.writes > 0)
        }
        _ => put_step(alloc, names, word, rest, &mut table.steps),
    }
}

/// Adds the bytes of each word of hexadecimal; `-` has none. It answers whether they are such.
pub fn put_frames(
    alloc: Global,
    names: &Names<'_>,
    words: &str,
    out: &mut Vec<Vec<u8>>,
) -> Result<bool, AllocError> {
    for word in words.split_whitespace() {
        if word == "-" {
            out.push(Vec::new(alloc))?;
            continue;
        }
        match read_word(alloc, names, word)? {
            Some(part) => out.push(part.bytes)?,
            None => return Ok(false),
        }
    }
    Ok(true)
}

/// Adds a step that comes after a number of frames: `x WORD` is sent, and another line is printed.
fn put_step(
    alloc: Global,
    names: &Names<'_>,
    wanted: &str,
    line: &str,
    steps: &mut Vec<Step>,
) -> Result<bool, AllocError> {
    let Ok(wanted) = wanted.parse::<usize>() else {
        return Ok(false);
    };
    match does_of(alloc, names, line)? {
        Some(does) => {
            steps.push(Step { wanted, does })?;
            Ok(true)
        }
        None => Ok(false),
    }
}

/// What a client does by a line, `None` if it is none.
fn does_of(alloc: Global, names: &Names<'_>, line: &str) -> Result<Option<Does>, AllocError> {
    match line.strip_prefix("x ") {
        Some(word) => Ok(sent_of(read_word(alloc, names, word)?)),
        None => Ok(Some(printed_of(line_of(alloc, names, line)?))),
    }
}

/// What a client does that sends bytes, if there are some.
fn sent_of(word: Option<Part>) -> Option<Does> {
    match word {
        Some(Part { times: _, bytes }) => Some(Does::Send(bytes)),
        None => None,
    }
}

/// What a client does that prints a line.
fn printed_of(line: Part) -> Does {
    let Part { times: _, bytes } = line;
    Does::Print(bytes)
}
