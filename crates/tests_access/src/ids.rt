//! Identifiers and tokens: bytes and texts that were worked by hand, and that calls succeed where there is memory.

use ad_ids::{Guid, Sid, Token};
use std::alloc::AllocGlobal;
use std::process::Abort;
use std::test::*;

// S-1-5-18.
const SYSTEM: [u8; 12] = [1, 1, 0, 0, 0, 0, 0, 5, 18, 0, 0, 0];

// S-1-5-32-544.
const ADMINISTRATORS: [u8; 16] = [1, 2, 0, 0, 0, 0, 0, 5, 32, 0, 0, 0, 32, 2, 0, 0];

fn is_shown(rt: &(impl Abort + AllocGlobal), sid: &Sid, text: &str) {
    let shown = sid.text(rt.alloc()).expect(rt, "memory");
    assert!(rt; shown.as_str() == text);
}

fn is_written(rt: &(impl Abort + AllocGlobal), sid: &Sid, bytes: &[u8]) {
    let mut again = Vec::new(rt.alloc());
    sid.append(&mut again).expect(rt, "memory");
    assert!(rt; again.as_slice() == bytes);
}

fn assert_text(rt: &(impl Abort + AllocGlobal), bytes: &[u8], text: &str) {
    let (sid, _) = Sid::from_bytes(bytes).ok().expect(rt, "an identifier");
    is_shown(rt, &sid, text);
    is_written(rt, &sid, bytes);
}

#[test]
fn an_identifier_is_shown_and_written(rt: HostRuntime) {
    assert_text(&rt, &SYSTEM, "S-1-5-18");
    assert_text(&rt, &ADMINISTRATORS, "S-1-5-32-544");
    assert_text(
        &rt,
        &[1, 1, 0, 1, 0, 0, 0, 0, 1, 0, 0, 0],
        "S-1-0x000100000000-1",
    );
}

// The bytes of bf967aba-0de6-11d0-a285-00aa003049e2, the class `user`.
const USER: [u8; 16] = [
    0xba, 0x7a, 0x96, 0xbf, 0xe6, 0x0d, 0xd0, 0x11, 0xa2, 0x85, 0x00, 0xaa, 0x00, 0x30, 0x49, 0xe2,
];

#[test]
fn a_guid_is_read_and_shown(rt: HostRuntime) {
    let user = Guid::from_text(b"BF967ABA-0DE6-11d0-A285-00AA003049E2").expect(&rt, "a text");
    assert!(rt; user.bytes == USER);
    let shown = user.text(rt.alloc()).expect(&rt, "memory");
    assert!(rt; shown.as_str() == "bf967aba-0de6-11d0-a285-00aa003049e2");
}

fn put(rt: &impl Abort, bytes: &mut Vec<u8>, more: &[u8]) {
    bytes.extend_from_slice(more).expect(rt, "memory");
}

// The bytes of a token of the system whose groups are so many below S-1-5.
fn token_bytes(rt: &(impl Abort + AllocGlobal), count: u8) -> Vec<u8> {
    let mut bytes = Vec::new(rt.alloc());
    put(rt, &mut bytes, &[2, 7]);
    for _ in 0..3 {
        put(rt, &mut bytes, &SYSTEM);
    }
    put(rt, &mut bytes, &[0, count]);
    for number in 0..count {
        put(
            rt,
            &mut bytes,
            &[0, 1, 1, 0, 0, 0, 0, 0, 5, number, 0, 0, 0],
        );
    }
    put(rt, &mut bytes, &[0, 0]);
    bytes
}

fn token_of(rt: &(impl Abort + AllocGlobal), count: u8) -> Token {
    let bytes = token_bytes(rt, count);
    let token = Token::from_bytes(rt.alloc(), bytes.as_slice());
    token.ok().expect(rt, "a token")
}

fn is_copied(rt: &(impl Abort + AllocGlobal), token: &Token) {
    let copy = token.copy(rt.alloc()).expect(rt, "memory");
    assert!(rt; copy == *token, "an equal token");
    assert!(rt; copy.groups.contains(&Sid::well_known(5, 3)), "one of all");
    assert!(rt;
        !copy.groups.contains(&Sid::well_known(5, 40)),
        "none of them"
    );
}

// A list of 40 has an index, one of 4 has none.
#[test]
fn a_token_is_read_and_copied(rt: HostRuntime) {
    for count in [4, 40] {
        is_copied(&rt, &token_of(&rt, count));
    }
}
