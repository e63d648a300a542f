//! What is printed of a run.

use crate::answer::Answer;
use dp_lines::{put_hex, put_number};
use std::alloc::AllocError;

/// Adds texts.
pub fn put_parts(parts: &[&[u8]], out: &mut Vec<u8>) -> Result<(), AllocError> {
    for part in parts {
        out.extend_from_slice(part)?;
    }
    Ok(())
}

/// Adds a number between two texts.
pub fn put_numbered(
    before: &[u8],
    number: u64,
    after: &[u8],
    out: &mut Vec<u8>,
) -> Result<(), AllocError> {
    out.extend_from_slice(before)?;
    put_number(u32::try_from(number).unwrap_or(u32::MAX), out)?;
    out.extend_from_slice(after)
}

/// Adds how often the gate was passed, if it was.
pub fn put_passes(passes: u64, out: &mut Vec<u8>) -> Result<(), AllocError> {
    if passes == 0 {
        return Ok(());
    }
    put_numbered(b"passed ", passes, b"\n", out)
}

/// Adds that the line of this number has no form of a line.
pub fn put_bad_row(line: u64, out: &mut Vec<u8>) -> Result<(), AllocError> {
    put_numbered(b"bad row at line ", line, b"\n", out)
}

/// Adds what a run gave.
pub fn put_answer(answer: &Answer, out: &mut Vec<u8>) -> Result<(), AllocError> {
    put_numbered(b"status ", u64::from(answer.status), b"\n", out)?;
    put_output(&answer.output, out)?;
    put_text(b"! ", &answer.said, out)?;
    put_lines(&answer.sent, out)?;
    out.extend_from_slice(&answer.left)
}

/// Adds an output: a text, or a picture of bytes.
fn put_output(output: &[u8], out: &mut Vec<u8>) -> Result<(), AllocError> {
    let Some(len) = head_len(output) else {
        return put_text(b"", output, out);
    };
    let (head, pixels) = output.split_at(len.min(output.len()));
    put_head(head, out)?;
    put_pixels(pixels, out)
}

/// Adds lines that have their newlines before them.
fn put_lines(lines: &[u8], out: &mut Vec<u8>) -> Result<(), AllocError> {
    match lines.split_first() {
        Some((_, lines)) => put_parts(&[lines, b"\n"], out),
        None => Ok(()),
    }
}

/// Adds a text after this, and what says that it has no newline at its end.
pub fn put_text(before: &[u8], text: &[u8], out: &mut Vec<u8>) -> Result<(), AllocError> {
    match text.last() {
        None => Ok(()),
        Some(b'\n') => put_parts(&[before, text], out),
        Some(_) => put_parts(&[before, text, b"\\\n"], out),
    }
}

/// How long the head of a picture of bytes is, its three lines; `None` if it isn't whole.
fn head_len(output: &[u8]) -> Option<usize> {
    if !output.starts_with(b"P6\n") {
        return None;
    }
    let mut lines = 0u64;
    for (at, byte) in output.iter().enumerate() {
        if *byte == b'\n' {
            lines = lines.saturating_add(1);
        }
        if lines == 3 {
            return Some(at.saturating_add(1));
        }
    }
    None
}

/// Adds the head of a picture in one line.
fn put_head(head: &[u8], out: &mut Vec<u8>) -> Result<(), AllocError> {
    let mut before: &[u8] = b"";
    for line in head.split(|byte| *byte == b'\n') {
        if !line.is_empty() {
            put_parts(&[before, line], out)?;
            before = b" ";
        }
    }
    Ok(())
}

/// Adds pixels, of equal ones that follow each other the first, with how many they are.
fn put_pixels(pixels: &[u8], out: &mut Vec<u8>) -> Result<(), AllocError> {
    let mut last: &[u8] = &[];
    let mut count = 0u64;
    for pixel in pixels.chunks(3) {
        if pixel != last {
            put_run(last, count, out)?;
            last = pixel;
            count = 0;
        }
        count = count.saturating_add(1);
    }
    put_run(last, count, out)?;
    out.push(b'\n')?;
    Ok(())
}

/// Adds `count` equal pixels.
fn put_run(pixel: &[u8], count: u64, out: &mut Vec<u8>) -> Result<(), AllocError> {
    match count {
        0 => return Ok(()),
        1 => out.push(b' ')?,
        _ => put_numbered(b" ", count, b"*", out)?,
    }
    put_hex(pixel, out)
}
