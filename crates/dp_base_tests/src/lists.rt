//! Lists with ample memory.

use crate::checks::are;
use dp_lists::{Listed, items_are_numbered, prefix_of, rest_of};

#[test]
fn pieces_of_a_list(rt: HostRuntime) {
    let bytes = Vec::from_slice(rt.alloc(), &[3u8, 1, 4]).expect(&rt, "memory");
    let list = Listed::from_vec(bytes);
    assert!(rt; are(list.as_slice(), &[3, 1, 4]));
    assert!(rt; are(rest_of(list.as_slice(), 1), &[1, 4]));
    assert!(rt; rest_of(list.as_slice(), 4).is_empty());
    assert!(rt; are(prefix_of(list.as_slice(), 2), &[3, 1]));
    assert!(rt; are(prefix_of(list.as_slice(), 9), &[3, 1, 4]));
    drop(list);
    items_are_numbered::<u8>();
}

#[test]
fn lists_grow(rt: HostRuntime) {
    let mut bytes = Listed::<u8>::new(rt.alloc());
    assert!(rt; bytes.as_slice().is_empty() && bytes.is_empty());
    bytes.push(1).expect(&rt, "memory");
    bytes.append(&[2, 3]).expect(&rt, "memory");
    bytes.append_both(&[4], &[5]).expect(&rt, "memory");
    let copy = bytes.copy().expect(&rt, "memory");
    assert!(rt; are(copy.as_slice(), &[1, 2, 3, 4, 5]));
    assert!(rt; bytes.len() == 5);
    drop(copy);
    drop(bytes);
}
