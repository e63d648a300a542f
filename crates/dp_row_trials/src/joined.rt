//! What a client over a damaged link is to give.

use crate::damage::{Damage, place_of, whole_within};
use dp_lines::put_hex;
use dp_row_texts::{Answer, Does, Step, put_numbered};
use std::alloc::{AllocError, Global};

/// How a run ends if a step wants more frames than came whole, and where these end. Then how many
/// bytes are sent before a write fails.
#[derive(Clone, Copy)]
struct Limits {
    whole: usize,
    at: usize,
    status: u8,
    sent: usize,
}

/// Puts what the client gives that takes these steps over a link with this damage into an answer.
pub fn put_client_answer(
    alloc: Global,
    steps: &[Step],
    frames: &[&[u8]],
    damage: Damage<'_>,
    piece: usize,
    answer: &mut Answer,
) -> Result<(), AllocError> {
    let limits = limits_of(frames, damage, piece);
    let mut sent = Vec::new(alloc);
    let end = take_all(steps, limits, answer, &mut sent);
    drop(sent);
    end
}

/// Takes steps, and adds the line of what was sent.
fn take_all(
    steps: &[Step],
    limits: Limits,
    answer: &mut Answer,
    sent: &mut Vec<u8>,
) -> Result<(), AllocError> {
    take_steps(steps, limits, answer, sent)?;
    put_sent(sent, &mut answer.sent)
}

/// Adds the line of what was sent, with its newline before it.
fn put_sent(sent: &[u8], text: &mut Vec<u8>) -> Result<(), AllocError> {
    text.extend_from_slice(b"\nsent ")?;
    put_hex(sent, text)
}

/// Takes steps, up to the first after which the client doesn't go on.
fn take_steps(
    steps: &[Step],
    limits: Limits,
    answer: &mut Answer,
    sent: &mut Vec<u8>,
) -> Result<(), AllocError> {
    for step in steps {
        if !take_step(step, limits, answer, sent)? {
            break;
        }
    }
    Ok(())
}

/// Takes a step, and answers whether the client goes on.
fn take_step(
    step: &Step,
    limits: Limits,
    answer: &mut Answer,
    sent: &mut Vec<u8>,
) -> Result<bool, AllocError> {
    if step.wanted > limits.whole {
        answer.status = limits.status;
        put_end(limits.status, limits.at, &mut answer.said)?;
        return Ok(false);
    }
    match &step.does {
        Does::Print(text) => {
            answer.output.extend_from_slice(text)?;
            Ok(true)
        }
        Does::Send(bytes) => send(bytes, limits.sent, answer, sent),
    }
}

/// Sends bytes up to this many in all, and answers whether the client goes on.
fn send(
    bytes: &[u8],
    most: usize,
    answer: &mut Answer,
    sent: &mut Vec<u8>,
) -> Result<bool, AllocError> {
    let room = most.saturating_sub(sent.len());
    sent.extend_from_slice(&bytes[..room.min(bytes.len())])?;
    if room >= bytes.len() {
        return Ok(true);
    }
    answer.status = 5;
    put_end(5, 0, &mut answer.said)?;
    Ok(false)
}

/// How far the link goes with this damage.
fn limits_of(frames: &[&[u8]], damage: Damage<'_>, piece: usize) -> Limits {
    let all = frames.len();
    let (whole, status, sent) = match damage {
        Damage::Cut(len) => (whole_within(frames, len), 11, usize::MAX),
        Damage::Lie(k, _) | Damage::Instead(k, _, _) => (k, 10, usize::MAX),
        Damage::End(k, _) => (k, 11, usize::MAX),
        Damage::Read(call) => (read_whole(frames, call, piece), 5, usize::MAX),
        Damage::Write(call) => (all, 5, call.saturating_sub(1)),
    };
    Limits {
        whole,
        at: place_of(frames, whole),
        status,
        sent,
    }
}

/// Adds what is said of a run that ends with this status, at this place of the link.
fn put_end(status: u8, at: usize, said: &mut Vec<u8>) -> Result<(), AllocError> {
    match status {
        10 => put_numbered(b"bad message at ", at as u64, b"\n", said),
        11 => said.extend_from_slice(b"link closed\n"),
        _ => said.extend_from_slice(b"link fault\n"),
    }
}

/// How many frames are whole before the read of this number.
pub fn read_whole(frames: &[&[u8]], call: usize, piece: usize) -> usize {
    whole_within(frames, call.saturating_sub(1).saturating_mul(piece))
}
