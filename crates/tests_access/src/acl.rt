//! Lists of entries: bytes that others wrote are read, and written as they stand.

use ad_acl::{AceKind, read_acl, write_acl};
use std::test::*;

// An entry that allows S-1-5-18 to read, and is inherited, and one that allows S-1-5-11 an extended right.
#[rattlefmt::skip]
const LIST: [u8; 68] = [
    4, 0, 68, 0, 2, 0, 0, 0, 0, 2, 20, 0, 0x10, 0, 0, 0, 1, 1, 0, 0, 0, 0, 0, 5, 18, 0, 0, 0, 5, 0,
    40, 0, 0, 1, 0, 0, 1, 0, 0, 0, 1, 2, 3, 4, 5, 6, 7, 8, 9, 10, 11, 12, 13, 14, 15, 16, 1, 1, 0,
    0, 0, 0, 0, 5, 11, 0, 0, 0,
];

#[test]
fn a_list_is_read_and_written(rt: HostRuntime) {
    let list = read_acl(rt.alloc(), &LIST).expect(&rt, "a list");
    assert!(rt; list.len() == 2);
    let written = write_acl(rt.alloc(), &list).expect(&rt, "memory");
    assert!(rt; written.as_slice() == LIST.as_slice());
}

#[test]
fn the_first_entry_allows(rt: HostRuntime) {
    let list = read_acl(rt.alloc(), &LIST).expect(&rt, "a list");
    let kind = list.first().map(|ace| ace.kind);
    assert!(rt; kind == Some(AceKind::Allow));
}
