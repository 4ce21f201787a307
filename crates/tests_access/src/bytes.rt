//! Bytes and the numbers in them: in which order a number takes them, and that a list keeps what it is given.

use ad_bytes::{Bytes, Input, OneOrMany};
use std::alloc::AllocGlobal;
use std::process::Abort;
use std::test::*;

const BYTES: [u8; 8] = [1, 2, 3, 4, 5, 6, 7, 8];

#[test]
fn numbers_are_read_in_their_order(rt: HostRuntime) {
    assert!(rt; Input::new(&BYTES).be16() == Ok(0x0102));
    assert!(rt; Input::new(&BYTES).be48() == Ok(0x0102_0304_0506));
    assert!(rt; Input::new(&BYTES).le16() == Ok(0x0201));
    assert!(rt; Input::new(&BYTES).le32() == Ok(0x0403_0201));
}

// The numbers from 0 to 39.
fn forty(rt: &(impl Abort + AllocGlobal)) -> Bytes {
    let mut list = Bytes::new(rt.alloc());
    for byte in 0..40u8 {
        list.push(byte).expect(rt, "memory");
    }
    list
}

#[test]
fn a_list_of_bytes_keeps_them(rt: HostRuntime) {
    let mut list = forty(&rt);
    let copy = list.copy(rt.alloc()).expect(&rt, "memory");
    assert!(rt; copy.len() == 40);
    assert!(rt; copy.as_slice().get(30) == Some(&30));
    list.truncate(3);
    assert!(rt; list.as_slice() == [0, 1, 2].as_slice());
}

#[test]
fn letters_become_small_ones(rt: HostRuntime) {
    let mut list = Bytes::from_slice(rt.alloc(), b"CN=Amy7").expect(&rt, "memory");
    list.make_ascii_lowercase();
    assert!(rt; list.as_slice() == b"cn=amy7".as_slice());
}

// The numbers from 1 to 3.
fn three(rt: &(impl Abort + AllocGlobal)) -> OneOrMany<u8> {
    let mut few = OneOrMany::new(rt.alloc());
    for value in 1..4u8 {
        few.push(value).expect(rt, "memory");
        assert!(rt; few.len() == usize::from(value));
    }
    few
}

#[test]
fn a_few_values_stand_in_their_order(rt: HostRuntime) {
    let few = three(&rt);
    assert!(rt; few.as_slice() == [1, 2, 3].as_slice());
    let one = OneOrMany::one(rt.alloc(), 9u8)
        .into_vec()
        .expect(&rt, "memory");
    assert!(rt; one.as_slice() == [9].as_slice());
}
