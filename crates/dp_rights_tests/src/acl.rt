//! Rights of control messages, which no line of a schedule says.

use dp_acl::Rights;
use dp_frame::{Frame, Octets};
use dp_lines::hex_of;
use dp_messages::{Entry, decode};
use dp_msg_meta::{Ids, Meta, kind_of_meta};
use std::alloc::Global;
use std::process::Abort;

/// A user, a kind and a payload in hexadecimal. User 1 is the operator, 2 is trusted, 3 is
/// registered, and 4 is a guest.
static SESSION: [(u8, u8, &str); 6] = [
    (1, 32, "0061"),
    (2, 32, "0062"),
    (3, 32, "0163"),
    (4, 32, "0064"),
    (1, 34, "01"),
    (1, 36, "02"),
];

/// A kind below 32, a payload, and the users who may send it.
static CONTROLS: [(u8, &str, &str); 9] = [
    (0, "61", ""),
    (1, "00", "1234"),
    (2, "00", "1234"),
    (3, "00000000", "1234"),
    (4, "0001010000000000000001", ""),
    (5, "", "1"),
    (7, "", "1"),
    (8, "00000000", "1"),
    (6, "820401000000", "1"),
];

/// The entry of a user, a kind and a payload.
fn entry_of(rt: &impl Abort, alloc: Global, user: u8, kind: u8, digits: &str) -> Entry {
    let bytes = hex_of(alloc, digits.as_bytes()).expect(rt, "memory");
    let payload = bytes.expect(rt, "hexadecimal");
    assert!(rt; payload.len() < 65_536);
    let frame = Frame::new(kind, user, Octets::from_vec(payload));
    let entry = decode(alloc, &frame.view());
    drop(frame);
    entry.expect(rt, "an entry")
}

/// The rights after the session.
fn rights_of_session(rt: &impl Abort, alloc: Global) -> Rights {
    let mut rights = Rights::new(alloc);
    for (user, kind, digits) in &SESSION {
        let entry = entry_of(rt, alloc, *user, *kind, digits);
        let noted = rights.note(&entry);
        drop(entry);
        noted.expect(rt, "memory");
    }
    rights
}

/// The test ends if this doesn't hold of a user and a kind.
fn check(rt: &impl Abort, holds: bool, user: u8, kind: u8) {
    assert!(rt; holds, "kind {kind} of user {user}");
}

/// These of the users 1 to 4 may send an entry of a kind.
fn check_users(rt: &impl Abort, rights: &Rights, entry: &Entry, kind: u8, users: &str) {
    for user in 1..5u8 {
        let may = users.as_bytes().contains(&(b'0' + user));
        check(rt, rights.permits(user, &entry.msg) == may, user, kind);
    }
}

#[test]
fn rights_of_control_messages(rt: HostRuntime) {
    let alloc = rt.alloc();
    let mut rights = rights_of_session(&rt, alloc);
    for (kind, digits, users) in &CONTROLS {
        let entry = entry_of(&rt, alloc, 0, *kind, digits);
        check_users(&rt, &rights, &entry, *kind, users);
        drop(entry);
    }
    check_carried(&rt, alloc, &mut rights);
    drop(rights);
}

/// The messages that carry the rights of users 1 to 3.
fn carried_of(rt: &impl Abort, alloc: Global, rights: &mut Rights) -> Vec<Meta> {
    rights.reserve(1).expect(rt, "memory");
    let present = Vec::from_slice(alloc, &[1, 2, 3]).expect(rt, "memory");
    let present = Ids::from_vec(present);
    let carried = rights.carry(&present);
    drop(present);
    carried.expect(rt, "memory")
}

/// The messages have these kinds.
fn check_kinds(rt: &impl Abort, carried: &[Meta], kinds: &[u8; 4]) {
    assert!(rt; carried.len() == 4);
    for (meta, kind) in carried.iter().zip(kinds) {
        check(rt, kind_of_meta(meta) == *kind, 0, *kind);
    }
}

/// Who is operator, and the kinds of the messages that carry the rights of users 1 to 3.
fn check_carried(rt: &impl Abort, alloc: Global, rights: &mut Rights) {
    assert!(rt; rights.is_operator(1) && !rights.is_operator(2));
    let carried = carried_of(rt, alloc, rights);
    check_kinds(rt, &carried, &[34, 36, 66, 68]);
    drop(carried);
}
