//! One stream of three frames, in pieces of any length, and frames of the least and greatest
//! length.

use crate::checks::{are, check};
use dp_frame::{Frame, Octets, write_frame};
use dp_split::Splitter;
use std::alloc::Global;
use std::process::Abort;

/// Three frames of user 1, at the places 0, 20 and 29: kinds 0x81, 0x82 and 0x89, with payloads of
/// 16, 5 and 23 bytes.
const STREAM: [u8; 56] = [
    0x00, 0x10, 0x81, 0x01, 0x00, 0x00, 0x00, 0x00, 0x00, 0x00, 0x00, 0x02, 0x00, 0x00, 0x00, 0x01,
    0x00, 0x00, 0x00, 0x00, 0x00, 0x05, 0x82, 0x01, 0x01, 0x01, 0x00, 0x00, 0x00, 0x00, 0x17, 0x89,
    0x01, 0x01, 0x01, 0x01, 0x00, 0x00, 0x00, 0x00, 0x00, 0x00, 0x00, 0x00, 0x00, 0x00, 0x00, 0x01,
    0x00, 0x00, 0x00, 0x01, 0xff, 0xff, 0x00, 0x00,
];

/// Feeds a piece to a splitter that holds little.
fn feed(rt: &impl Abort, splitter: &mut Splitter, piece: &[u8]) {
    assert!(rt; splitter.at() < 1_000_000 && splitter.rest_len() < 1_000_000);
    splitter.feed(piece).expect(rt, "memory");
}

/// Whether a frame is that of the stream with this number.
fn is_of_stream(frame: &Frame, number: usize) -> bool {
    let (kind, start, end) = match number {
        0 => (0x81, 4, 20),
        1 => (0x82, 24, 29),
        2 => (0x89, 33, 56),
        _ => return false,
    };
    frame.kind() == kind && frame.user() == 1 && are(frame.body().as_slice(), &STREAM[start..end])
}

/// Takes the frames that are whole, compares each with the next one of the stream, and answers how
/// many were seen.
fn take_frames(rt: &impl Abort, splitter: &mut Splitter, mut seen: usize) -> usize {
    for _ in 0..4 {
        let Some(frame) = splitter.take_frame().expect(rt, "memory") else {
            break;
        };
        check(rt, is_of_stream(&frame, seen), "frames", seen);
        drop(frame);
        seen = seen.saturating_add(1);
    }
    seen
}

/// Feeds a part of the stream in pieces of this length: how many frames it has, the place after
/// them, and how many bytes are left.
fn split(rt: &impl Abort, alloc: Global, part: &[u8], piece_len: usize) -> (usize, u64, usize) {
    let mut splitter = Splitter::new(alloc);
    let mut seen = 0;
    assert!(rt; 0 < piece_len);
    for piece in part.chunks(piece_len) {
        feed(rt, &mut splitter, piece);
        seen = take_frames(rt, &mut splitter, seen);
    }
    let found = (seen, splitter.at(), splitter.rest_len());
    drop(splitter);
    found
}

#[test]
fn the_frames_do_not_depend_on_the_pieces(rt: HostRuntime) {
    for piece_len in 1..58 {
        // The last byte is missing, and then it is not.
        let found = split(&rt, rt.alloc(), &STREAM[..55], piece_len);
        check(&rt, found == (2, 29, 26), "pieces of 55 bytes", piece_len);
        let found = split(&rt, rt.alloc(), &STREAM, piece_len);
        check(&rt, found == (3, 56, 0), "pieces of 56 bytes", piece_len);
    }
}

/// The next frame.
fn next_frame(rt: &impl Abort, splitter: &mut Splitter) -> Frame {
    splitter
        .take_frame()
        .expect(rt, "memory")
        .expect(rt, "a frame")
}

/// Splits a stream of three frames, and writes them again.
fn rewritten(rt: &impl Abort, alloc: Global, stream: &[u8]) -> Octets {
    let mut splitter = Splitter::new(alloc);
    feed(rt, &mut splitter, stream);
    let mut out = Octets::new(alloc);
    assert!(rt; out.is_empty());
    for _ in 0..3 {
        let frame = next_frame(rt, &mut splitter);
        write_frame(&frame, &mut out).expect(rt, "memory");
        drop(frame);
    }
    drop(splitter);
    out
}

/// Whether octets and a copy of them are these bytes.
fn is_copied(rt: &impl Abort, octets: &Octets, bytes: &[u8]) -> bool {
    let copy = octets.copy().expect(rt, "memory");
    are(octets.as_slice(), bytes) && are(copy.as_slice(), bytes)
}

#[test]
fn frames_are_written_as_they_are_read(rt: HostRuntime) {
    let mut out = rewritten(&rt, rt.alloc(), &STREAM);
    assert!(rt; is_copied(&rt, &out, &STREAM));
    out.append(&[7]).expect(&rt, "memory");
    assert!(rt; out.len() == 57);
    drop(out);
}

/// A frame of user 1 with a payload of this length, written.
fn written(rt: &impl Abort, alloc: Global, len: usize) -> Octets {
    let body = vec![in alloc; 9u8; len].expect(rt, "memory");
    assert!(rt; body.len() < 65_536);
    let mut out = Octets::new(alloc);
    let frame = Frame::new(0x80, 1, Octets::from_vec(body));
    write_frame(&frame, &mut out).expect(rt, "memory");
    out
}

/// The only frame of some bytes.
fn only_frame(rt: &impl Abort, alloc: Global, bytes: &[u8]) -> Frame {
    let mut splitter = Splitter::new(alloc);
    feed(rt, &mut splitter, bytes);
    let frame = next_frame(rt, &mut splitter);
    assert!(rt; splitter.rest_len() == 0);
    drop(splitter);
    frame
}

/// Whether a frame of user 1 has a payload of this length, each byte of which is 9.
fn is_of_nines(frame: &Frame, len: usize) -> bool {
    for byte in frame.body().as_slice() {
        if *byte != 9 {
            return false;
        }
    }
    frame.kind() == 0x80 && frame.user() == 1 && frame.body().len() == len
}

/// A frame whose payload has this length is written with this header, and read again.
fn check_length(rt: &impl Abort, alloc: Global, len: usize, header: &[u8]) {
    let out = written(rt, alloc, len);
    check(rt, out.len() == len.saturating_add(4), "lengths", len);
    check(rt, out.as_slice().starts_with(header), "headers", len);
    let frame = only_frame(rt, alloc, out.as_slice());
    drop(out);
    check(rt, is_of_nines(&frame, len), "frames", len);
    drop(frame);
}

#[test]
fn payloads_of_the_least_and_greatest_length(rt: HostRuntime) {
    check_length(&rt, rt.alloc(), 0, &[0x00, 0x00, 0x80, 0x01]);
    check_length(&rt, rt.alloc(), 65_535, &[0xff, 0xff, 0x80, 0x01]);
}
