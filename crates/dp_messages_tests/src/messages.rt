//! Payloads with the messages that they spell.

use dp_frame::{Frame, Octets};
use dp_lines::hex_of;
use dp_messages::{DecodeError, Entry, Msg, decode, encode, same};
use dp_msg_draw::{Draw, Title};
use dp_msg_meta::{Control, Ids, Meta, NameBytes, PayloadError, Text, read_meta};
use std::alloc::Global;
use std::process::Abort;

/// Lines of a kind, a payload in hexadecimal (`-` has no bytes), and the message that it spells, or
/// how it is refused.
static PAYLOADS: &str = "\
0 616e6e Control(Hello { name: NameBytes { bytes: [97, 110, 110] } })
0 ff Control(Hello { name: NameBytes { bytes: [255] } })
0 e0e1e2e3e4e5e6e7e8e9eaebecedeeeff0f1f2f3f4f5f6f7f8f9fafbfcfdfeff Control(Hello { name: \
NameBytes { bytes: [224, 225, 226, 227, 228, 229, 230, 231, 232, 233, 234, 235, 236, 237, 238, \
239, 240, 241, 242, 243, 244, 245, 246, 247, 248, 249, 250, 251, 252, 253, 254, 255] } })
1 02 Control(Disconnect { reason: 2 })
1 ff Control(Disconnect { reason: 255 })
2 00 Control(Ping { pong: false })
2 01 Control(Ping { pong: true })
3 00000102 Control(Ack { epoch: 258 })
4 0001010000000000000001 Control(Welcome { version: 1, user: 1, epoch: 0, at: 1 })
4 0102030000000400050000 Control(Welcome { version: 258, user: 3, epoch: 4, at: 327680 })
5 - Control(ResetBegin)
7 - Control(ResetEnd)
32 00616e6e Meta(Join { registered: false, name: Text { text: \"ann\" } })
32 016f Meta(Join { registered: true, name: Text { text: \"o\" } })
32 016162636465666768696a6b6c6d6e6f707172737475767778797a61626364c3a9 Meta(Join { registered: \
true, name: Text { text: \"abcdefghijklmnopqrstuvwxyzabcdé\" } })
33 - Meta(Leave)
34 01 Meta(Owners { ids: Ids { ids: [1] } })
34 - Meta(Owners { ids: Ids { ids: [] } })
34 0102fe Meta(Owners { ids: Ids { ids: [1, 2, 254] } })
35 6869 Meta(Chat { text: Text { text: \"hi\" } })
35 - Meta(Chat { text: Text { text: \"\" } })
36 02fe Meta(Trusted { ids: Ids { ids: [2, 254] } })
37 0000000000000000 Meta(ResetMark { epoch: 0, carried: 0 })
37 0000000100000002 Meta(ResetMark { epoch: 1, carried: 2 })
64 ffffffff00000002 Meta(Laser { x: -1, y: 2 })
64 0000010080000000 Meta(Laser { x: 256, y: -2147483648 })
65 fffffffe00000003 Meta(MovePointer { x: -2, y: 3 })
66 0005 Meta(UserAcl { ids: Ids { ids: [0, 5] } })
67 01010103 Meta(LayerAcl { layer: 257, locked: true, tier: 3, ids: Ids { ids: [] } })
67 010200000107 Meta(LayerAcl { layer: 258, locked: false, tier: 0, ids: Ids { ids: [1, 7] } })
68 0001020303020100 Meta(FeatureTiers { tiers: Tiers { image: 0, move_: 1, resize: 2, background: \
3, edit_layers: 3, own_layers: 2, laser: 1, undo: 0 } })
69 23 Meta(Filtered { kind: 35 })
0 - Malformed(0)
1 00 Control(Disconnect { reason: 0 })
2 02 Malformed(2)
3 00000001 Control(Ack { epoch: 1 })
4 000101000000000000000b Control(Welcome { version: 1, user: 1, epoch: 0, at: 11 })
5 00 Malformed(5)
6 820101000002 Malformed(6)
6 8100000000000000020000000100000000 Part(Draw of kind 129)
6 8001 Malformed(6)
6 80 Malformed(6)
6 ff0000 Malformed(6)
6 - Malformed(6)
8 00000007 Control(ResetFrom { at: 7 })
8 - Malformed(8)
9 - Unknown(9)
20 - Unknown(20)
31 00 Unknown(31)
34 0102 Meta(Owners { ids: Ids { ids: [1, 2] } })
34 0201 Malformed(34)
36 - Meta(Trusted { ids: Ids { ids: [] } })
38 - Unknown(38)
63 00 Unknown(63)
64 00000001ffffffff Meta(Laser { x: 1, y: -1 })
65 0000000100000002 Meta(MovePointer { x: 1, y: 2 })
66 00 Meta(UserAcl { ids: Ids { ids: [0] } })
67 0101010103 Meta(LayerAcl { layer: 257, locked: true, tier: 1, ids: Ids { ids: [3] } })
68 0303030303030303 Meta(FeatureTiers { tiers: Tiers { image: 3, move_: 3, resize: 3, background: \
3, edit_layers: 3, own_layers: 3, laser: 3, undo: 3 } })
68 0303030303030304 Malformed(68)
69 81 Meta(Filtered { kind: 129 })
70 01 Meta(UndoDepth { depth: 1 })
70 00 Malformed(70)
70 - Malformed(70)
70 0101 Malformed(70)
71 - Opaque { kind: 71, body: Listed { entries: [] } }
127 0102 Opaque { kind: 127, body: Listed { entries: [1, 2] } }
128 - Point
128 00 Malformed(128)
129 00000000000000020000000100000000 Draw(Draw of kind 129)
129 000000000000000200000001000000 Malformed(129)
130 01010000004869 Draw(Draw of kind 130)
130 01010000014869 Draw(Draw of kind 130)
130 0101000002 Malformed(130)
131 0101800100 Draw(Draw of kind 131)
132 01014869 Draw(Draw of kind 132)
133 010100000102 Draw(Draw of kind 133)
134 0101 Draw(Draw of kind 134)
135 0101 Opaque { kind: 135, body: Listed { entries: [1, 1] } }
136 01010100000000000000000000000100000001ff00ff00 Draw(Draw of kind 136)
137 01010100000000000000000000000100000001ffff0000 Draw(Draw of kind 137)
137 01010300000000000000000000000100000001ffff0000 Malformed(137)
146 0101000000000000008000000000008000 Draw(Draw of kind 146)
146 0101000000000000000001000000000000 Malformed(146)
147 ff00ff00 Draw(Draw of kind 147)
149 01010000000000000000ff00000100000080 Malformed(149)
149 01010000000000000000ff00000100000980 Draw(Draw of kind 149)
150 01010000000000000000ff00000100000980 Draw(Draw of kind 150)
152 0101000000000000000000000002000000010000000100000000 Draw(Draw of kind 152)
200 - Opaque { kind: 200, body: Listed { entries: [] } }
255 0300 Undo { target: 3, redo: false }
255 0301 Undo { target: 3, redo: true }
255 0002 Malformed(255)
255 00 Malformed(255)
0 dfe0e1e2e3e4e5e6e7e8e9eaebecedeeeff0f1f2f3f4f5f6f7f8f9fafbfcfdfeff Malformed(0)
1 - Malformed(1)
1 0102 Malformed(1)
2 - Malformed(2)
2 0000 Malformed(2)
3 000001 Malformed(3)
3 0000000001 Malformed(3)
4 00010100000000000000 Malformed(4)
4 000101000000000000000100 Malformed(4)
7 00 Malformed(7)
32 - Malformed(32)
32 00 Malformed(32)
32 0261 Malformed(32)
32 006162636465666768696a6b6c6d6e6f707172737475767778797a6162636465c3a9 Malformed(32)
32 00ff Malformed(32)
33 00 Malformed(33)
34 00 Malformed(34)
34 ff Malformed(34)
34 0101 Malformed(34)
35 c3 Malformed(35)
36 00 Malformed(36)
36 ff Malformed(36)
36 0201 Malformed(36)
36 0101 Malformed(36)
37 00000000000000 Malformed(37)
37 000000000000000000 Malformed(37)
64 00000000000000 Malformed(64)
64 000000000000000000 Malformed(64)
65 00000000000000 Malformed(65)
65 000000000000000000 Malformed(65)
66 ff Malformed(66)
66 0201 Malformed(66)
66 0000 Malformed(66)
67 010101 Malformed(67)
67 01010203 Malformed(67)
67 01010104 Malformed(67)
67 0101010300 Malformed(67)
67 01010103ff Malformed(67)
67 010101030201 Malformed(67)
67 010101030101 Malformed(67)
68 03030303030303 Malformed(68)
68 030303030303030303 Malformed(68)
68 0403030303030303 Malformed(68)
68 0304030303030303 Malformed(68)
68 0303040303030303 Malformed(68)
68 0303030403030303 Malformed(68)
68 0303030304030303 Malformed(68)
68 0303030303040303 Malformed(68)
68 0303030303030403 Malformed(68)
69 - Malformed(69)
69 0102 Malformed(69)
";

/// Whether the entry is written as this kind and these bytes, and so is its copy, which is equal.
fn is_written_as(rt: &impl Abort, alloc: Global, entry: &Entry, kind: u8, payload: &[u8]) -> bool {
    let copy = entry.copy().expect(rt, "memory");
    let is_same = same(&copy.msg, &entry.msg) && copy.msg.kind() == kind;
    let written = encode(alloc, &copy);
    drop(copy);
    is_same && has_payload(written.expect(rt, "memory"), kind, payload)
}

/// Whether a frame of user 7 has this kind and these bytes.
fn has_payload(frame: Frame, kind: u8, payload: &[u8]) -> bool {
    let is_so = (frame.kind(), frame.user()) == (kind, 7) && frame.body().as_slice() == payload;
    drop(frame);
    is_so
}

/// The frame of a payload, from user 7.
fn frame_of(rt: &impl Abort, alloc: Global, kind: u8, payload: &[u8]) -> Frame {
    let body = Vec::from_slice(alloc, payload).expect(rt, "memory");
    assert!(rt; body.len() < 65_536);
    Frame::new(kind, 7, Octets::from_vec(body))
}

/// What an entry says, if it is written as this kind and these bytes.
fn text_of_entry(
    rt: &impl Abort,
    alloc: Global,
    entry: &Entry,
    kind: u8,
    payload: &[u8],
) -> String {
    if !is_written_as(rt, alloc, entry, kind, payload) {
        return String::from_str(alloc, "another payload").expect(rt, "memory");
    }
    let msg = &entry.msg;
    format!(in alloc; "{msg:?}").expect(rt, "memory")
}

/// What a payload of user 7 is read as.
fn text_of(rt: &impl Abort, alloc: Global, kind: u8, payload: &[u8]) -> String {
    let frame = frame_of(rt, alloc, kind, payload);
    match decode(alloc, &frame.view()) {
        Ok(entry) => {
            let text = text_of_entry(rt, alloc, &entry, kind, payload);
            drop(entry);
            text
        }
        Err(error) => format!(in alloc; "{error:?}").expect(rt, "memory"),
    }
}

/// The test ends if this doesn't hold of a payload.
fn check(rt: &impl Abort, holds: bool, kind: u8, digits: &str) {
    assert!(rt; holds, "{digits} of kind {kind}");
}

/// The kind of a line, its payload, and what it says.
fn parts_of<'a>(rt: &impl Abort, line: &'a str) -> (u8, &'a str, &'a str) {
    let (kind, rest) = line.split_once(' ').expect(rt, "a kind");
    let (digits, wanted) = rest.split_once(' ').expect(rt, "a payload");
    let kind = kind.parse::<u8>().ok().expect(rt, "a number");
    (kind, digits, wanted)
}

/// The bytes of a payload.
fn payload_of(rt: &impl Abort, alloc: Global, digits: &str) -> Vec<u8> {
    if digits == "-" {
        return Vec::new(alloc);
    }
    let bytes = hex_of(alloc, digits.as_bytes()).expect(rt, "memory");
    bytes.expect(rt, "hexadecimal")
}

/// Checks what the payload of a line is read as.
fn check_line(rt: &impl Abort, alloc: Global, line: &str) {
    let (kind, digits, wanted) = parts_of(rt, line);
    let payload = payload_of(rt, alloc, digits);
    let text = text_of(rt, alloc, kind, &payload);
    check(rt, text.as_str() == wanted, kind, digits);
}

#[test]
fn payloads(rt: HostRuntime) {
    let mut count = 0u64;
    for line in PAYLOADS.lines() {
        check_line(&rt, rt.alloc(), line);
        count = count.saturating_add(1);
    }
    assert!(rt; count == 145);
}

/// A message that no payload spells is written as a frame that is refused.
fn check_unspelled(rt: &impl Abort, alloc: Global, msg: Msg) {
    let entry = Entry { user: 7, msg };
    let frame = encode(alloc, &entry);
    drop(entry);
    let frame = frame.expect(rt, "memory");
    assert!(rt; is_unknown(alloc, &frame));
    assert!(rt; has_payload(frame, 9, b""));
}

/// Whether a frame is of no message, as its kind is 9.
fn is_unknown(alloc: Global, frame: &Frame) -> bool {
    match decode(alloc, &frame.view()) {
        Ok(entry) => {
            drop(entry);
            false
        }
        Err(error) => error == DecodeError::Unknown(9),
    }
}

/// A message of a kind that has these bytes.
fn opaque(kind: u8, bytes: Vec<u8>) -> Msg {
    let body = Octets::from_vec(bytes);
    Msg::Opaque { kind, body }
}

#[test]
fn messages_without_a_spelling(rt: HostRuntime) {
    let alloc = rt.alloc();
    let hi = Vec::from_slice(alloc, b"hi").expect(&rt, "memory");
    check_unspelled(&rt, alloc, opaque(35, hi));
    let zeros = vec![in alloc; 0u8; 65_536].expect(&rt, "memory");
    check_unspelled(&rt, alloc, opaque(200, zeros));
    let mode = Msg::Draw(Draw::LayerAttr {
        id: 0x0101,
        opacity: 255,
        mode: 3,
        hidden: false,
    });
    check_unspelled(&rt, alloc, mode);
}

#[test]
fn a_text_that_is_too_long(rt: HostRuntime) {
    let letters = vec![in rt.alloc(); 97u8; 65_536].expect(&rt, "memory");
    let read = read_meta(rt.alloc(), 35, &letters);
    assert!(rt; matches!(&read, Err(PayloadError::Malformed)));
    drop(read);
}

/// Whether messages are the same. They are let go.
fn are_same(one: Msg, other: Msg) -> bool {
    let are_same = same(&one, &other);
    drop(one);
    drop(other);
    are_same
}

/// An undo, or a redo.
fn undo(redo: bool) -> Msg {
    Msg::Undo { target: 3, redo }
}

/// A command that gives a layer no title.
fn title(alloc: Global) -> Draw {
    Draw::LayerTitle {
        id: 1,
        title: Title::new(alloc),
    }
}

/// A chat without letters.
fn chat(alloc: Global) -> Msg {
    Msg::Meta(Meta::Chat {
        text: Text::new(alloc),
    })
}

#[test]
fn messages_that_differ(rt: HostRuntime) {
    let alloc = rt.alloc();
    assert!(rt; are_same(undo(true), undo(true)));
    assert!(rt; !are_same(undo(true), undo(false)));
    assert!(rt; !are_same(Msg::Point, Msg::Control(Control::ResetBegin)));
    let layer = title(alloc);
    let part = Msg::Part(layer.copy().expect(&rt, "memory"));
    assert!(rt; !are_same(part, Msg::Draw(layer)));
    let chat = chat(alloc);
    let copy = chat.copy().expect(&rt, "memory");
    assert!(rt; are_same(chat, copy));
}

/// Lists of ids, and their copies.
fn check_ids(rt: &impl Abort, alloc: Global) {
    let two = Vec::from_slice(alloc, &[1, 7]).expect(rt, "memory");
    let ids = Ids::from_vec(two).copy().expect(rt, "memory");
    assert!(rt; ids.as_slice() == [1, 7].as_slice());
    assert!(rt; Ids::new(alloc).as_slice().is_empty());
}

/// Names, and their copies. A byte of a name may be no text.
fn check_names(rt: &impl Abort, alloc: Global) {
    let byte = Vec::from_slice(alloc, &[255]).expect(rt, "memory");
    let again = byte.to_vec(alloc).expect(rt, "memory");
    assert!(rt; Text::from_vec(again).is_none());
    let name = NameBytes::from_vec(byte).copy().expect(rt, "memory");
    assert!(rt; name.as_slice() == [255].as_slice());
    assert!(rt; NameBytes::new(alloc).as_slice().is_empty());
}

/// Texts, and their copies.
fn check_texts(rt: &impl Abort, alloc: Global) {
    let hi = Text::from_str(alloc, "hi").expect(rt, "memory");
    let bytes = hi.as_slice().to_vec(alloc).expect(rt, "memory");
    drop(hi);
    let text = Text::from_vec(bytes).expect(rt, "a text");
    let copy = text.copy().expect(rt, "memory");
    drop(text);
    assert!(rt; copy.as_str() == "hi");
    assert!(rt; Text::new(alloc).as_slice().is_empty());
}

#[test]
fn lists_and_texts(rt: HostRuntime) {
    check_ids(&rt, rt.alloc());
    check_names(&rt, rt.alloc());
    check_texts(&rt, rt.alloc());
}
