//! Rows of a text.

use crate::fails::{Fail, Object};
use crate::keeping::filled;
use crate::links::put_link;
use crate::names::{Names, line_of, put_line, read_word};
use crate::row::{Part, Row};
use crate::tables::{put_frames, put_table_line};
use std::alloc::{AllocError, Global};

/// What a text has.
#[derive(Drop)]
pub enum Rows {
    Read(Vec<Row>),
    /// The line of this number has no form of a line.
    Bad(u64),
}

/// The rows of a text.
pub fn read_rows(alloc: Global, text: &str) -> Result<Rows, AllocError> {
    let mut rows = Vec::new(alloc);
    match put_rows(alloc, text, &mut rows) {
        Ok(None) => Ok(Rows::Read(rows)),
        Ok(Some(number)) => {
            drop(rows);
            Ok(Rows::Bad(number))
        }
        Err(error) => {
            drop(rows);
            Err(error)
        }
    }
}

/// Adds the rows of a text. Answers the number of the first line that has no form of one.
fn put_rows(alloc: Global, text: &str, rows: &mut Vec<Row>) -> Result<Option<u64>, AllocError> {
    let mut names = Names {
        pairs: Vec::new(alloc),
    };
    let bad = read_lines(alloc, text, &mut names, rows);
    drop(names);
    bad
}

/// Reads the lines of a text, up to the first that has no form of one, and answers its number.
fn read_lines<'a>(
    alloc: Global,
    text: &'a str,
    names: &mut Names<'a>,
    rows: &mut Vec<Row>,
) -> Result<Option<u64>, AllocError> {
    let mut number = 0u64;
    for line in text.lines() {
        number = number.saturating_add(1);
        if !read_line(alloc, names, rows, line)? {
            return Ok(Some(number));
        }
    }
    Ok(None)
}

/// Reads a line of the text, and answers whether it has the form of one.
fn read_line<'a>(
    alloc: Global,
    names: &mut Names<'a>,
    rows: &mut Vec<Row>,
    line: &'a str,
) -> Result<bool, AllocError> {
    if line.is_empty() || line.starts_with('#') {
        return Ok(true);
    }
    if let Some(pair) = line.strip_prefix("= ") {
        return names.put(pair);
    }
    if let Some(head) = line.strip_prefix("> ") {
        return put_row(alloc, rows, head);
    }
    match rows.last_mut() {
        Some(row) => read_row_line(alloc, names, row, line),
        None => Ok(false),
    }
}

/// Adds a row that begins with this line, and answers whether it is a right one.
fn put_row(alloc: Global, rows: &mut Vec<Row>, head: &str) -> Result<bool, AllocError> {
    rows.push(Row::new(alloc, head)?)?;
    match rows.last_mut() {
        Some(row) => read_head(alloc, row, head),
        None => Ok(false),
    }
}

/// Reads the line that begins a row, and answers whether it is a right one.
fn read_head(alloc: Global, row: &mut Row, head: &str) -> Result<bool, AllocError> {
    for word in head.split_whitespace() {
        if !read_head_word(alloc, row, word)? {
            return Ok(false);
        }
    }
    if row.pieces.is_empty() {
        put_numbers("1,7,4096", &mut row.pieces)?;
    }
    Ok(true)
}

/// Reads a word of the line that begins a row, and answers whether it is a right one.
fn read_head_word(alloc: Global, row: &mut Row, word: &str) -> Result<bool, AllocError> {
    if let Some((name, value)) = word.split_once('=') {
        if let Some(object) = Object::of(name) {
            return put_fails(alloc, object, value, &mut row.fails);
        }
        if let Some(option) = RowOption::of(name) {
            return option.put_on(row, value);
        }
    }
    row.words.push(String::from_str(alloc, word)?)?;
    Ok(true)
}

/// An option of a row.
#[derive(Clone, Copy)]
enum RowOption {
    Pieces,
    Room,
    Hold,
    Each,
}

impl RowOption {
    /// The option of this name.
    fn of(name: &str) -> Option<RowOption> {
        match name {
            "pieces" => Some(RowOption::Pieces),
            "room" => Some(RowOption::Room),
            "hold" => Some(RowOption::Hold),
            "each" => Some(RowOption::Each),
            _ => None,
        }
    }

    /// Gives a row this value of the option, and answers whether it is a right one.
    fn put_on(self, row: &mut Row, value: &str) -> Result<bool, AllocError> {
        match self {
            RowOption::Pieces => put_numbers(value, &mut row.pieces),
            RowOption::Room => {
                row.room = value.parse::<u64>().unwrap_or(0);
                Ok(row.room > 0)
            }
            RowOption::Hold => {
                row.hold = value.parse::<u32>().ok();
                Ok(row.hold.is_some())
            }
            RowOption::Each => put_object(value, &mut row.each),
        }
    }
}

/// Adds the object of this name, and answers whether there is one.
fn put_object(name: &str, objects: &mut Vec<Object>) -> Result<bool, AllocError> {
    match Object::of(name) {
        Some(object) => {
            objects.push(object)?;
            Ok(true)
        }
        None => Ok(false),
    }
}

/// Adds the calls of an object that have these numbers.
fn put_fails(
    alloc: Global,
    object: Object,
    value: &str,
    fails: &mut Vec<Fail>,
) -> Result<bool, AllocError> {
    let mut calls = Vec::new(alloc);
    let end = put_fails_by(object, value, &mut calls, fails);
    drop(calls);
    end
}

/// The same by way of a list of numbers.
fn put_fails_by(
    object: Object,
    value: &str,
    calls: &mut Vec<u64>,
    fails: &mut Vec<Fail>,
) -> Result<bool, AllocError> {
    let right = put_numbers(value, calls)?;
    if right {
        put_calls(object, calls, fails)?;
    }
    Ok(right)
}

/// Adds calls of an object.
fn put_calls(object: Object, calls: &[u64], fails: &mut Vec<Fail>) -> Result<(), AllocError> {
    for call in calls {
        let call = *call;
        fails.push(Fail { object, call })?;
    }
    Ok(())
}

/// Adds the numbers of a list such as `1,5-9`, and answers whether it is one.
pub fn put_numbers(value: &str, out: &mut Vec<u64>) -> Result<bool, AllocError> {
    for item in value.split(',') {
        let (first, last) = ends_of(item);
        if first == 0 || last < first || last > 100_000_000 {
            return Ok(false);
        }
        put_range(first, last, out)?;
    }
    Ok(true)
}

/// The first number and the last one of a text such as `5-9` or `7`, 0 for what is no number.
fn ends_of(item: &str) -> (u64, u64) {
    let (first, last) = item.split_once('-').unwrap_or((item, item));
    let first = first.parse::<u64>().unwrap_or(0);
    (first, last.parse::<u64>().unwrap_or(0))
}

/// Adds the numbers from the first to the last.
fn put_range(first: u64, last: u64, out: &mut Vec<u64>) -> Result<(), AllocError> {
    for number in first..=last {
        out.push(number)?;
    }
    Ok(())
}

/// Reads a line of a row, and answers whether it has the form of one.
fn read_row_line(
    alloc: Global,
    names: &Names<'_>,
    row: &mut Row,
    line: &str,
) -> Result<bool, AllocError> {
    if line == "wire" {
        row.wires.push(Vec::new(alloc))?;
        return Ok(true);
    }
    match line.split_once(' ') {
        Some(("x", words)) => put_words(alloc, names, words, &mut row.input),
        Some(("link", words)) => put_link(alloc, names, words, &mut row.wires),
        Some(("repeat", rest)) => put_repeated(alloc, names, rest, &mut row.input),
        Some(("kept", words)) => put_frames(alloc, names, words, &mut row.kept),
        Some(("table", rest)) => put_table_line(alloc, names, &mut row.table, rest),
        _ => {
            let line = line.strip_prefix('|').unwrap_or(line);
            put_input_line(alloc, names, line, &mut row.input)?;
            Ok(true)
        }
    }
}

/// Adds a line of text.
fn put_input_line(
    alloc: Global,
    names: &Names<'_>,
    line: &str,
    input: &mut Vec<Part>,
) -> Result<(), AllocError> {
    put_part(line_of(alloc, names, line)?, input)
}

/// Adds a part to an input.
fn put_part(part: Part, input: &mut Vec<Part>) -> Result<(), AllocError> {
    if part.times == 1 {
        if let Some(last) = input.last_mut() {
            if last.times == 1 {
                let end = last.bytes.extend_from_slice(&part.bytes);
                drop(part);
                return end;
            }
        }
    }
    input.push(part)?;
    Ok(())
}

/// Adds the bytes of words of hexadecimal, and answers whether they are such.
fn put_words(
    alloc: Global,
    names: &Names<'_>,
    words: &str,
    input: &mut Vec<Part>,
) -> Result<bool, AllocError> {
    for word in words.split_whitespace() {
        match read_word(alloc, names, word)? {
            Some(part) => put_part(part, input)?,
            None => return Ok(false),
        }
    }
    Ok(true)
}

/// Adds lines that stand there so often, and answers whether there is a number.
fn put_repeated(
    alloc: Global,
    names: &Names<'_>,
    rest: &str,
    input: &mut Vec<Part>,
) -> Result<bool, AllocError> {
    let (times, lines) = rest.split_once(' ').unwrap_or((rest, ""));
    let times = times.parse::<u64>().unwrap_or(0);
    put_part(lines_of(alloc, names, times, lines)?, input)?;
    Ok(times > 0)
}

/// Lines of text, so often.
fn lines_of(alloc: Global, names: &Names<'_>, times: u64, lines: &str) -> Result<Part, AllocError> {
    let mut bytes = Vec::new(alloc);
    let end = put_lines(names, lines, &mut bytes);
    let bytes = filled(bytes, end)?;
    Ok(Part { times, bytes })
}

/// Adds lines of text.
fn put_lines(names: &Names<'_>, lines: &str, out: &mut Vec<u8>) -> Result<(), AllocError> {
    for line in lines.split(" ; ") {
        put_line(names, line, out)?;
    }
    Ok(())
}
