//! Descriptors: bytes that others wrote are read, kept in normal bytes, and written.

use ad_sd::{NormalSd, read_sd, write_view};
use std::test::*;

// The self-relative descriptor of S-1-5-18, to whom it allows everything.
#[rattlefmt::skip]
const DESCRIPTOR: [u8; 72] = [
    1, 0, 4, 0x84, 20, 0, 0, 0, 32, 0, 0, 0, 0, 0, 0, 0, 44, 0, 0, 0, 1, 1, 0, 0, 0, 0, 0, 5, 18,
    0, 0, 0, 1, 1, 0, 0, 0, 0, 0, 5, 18, 0, 0, 0, 2, 0, 28, 0, 1, 0, 0, 0, 0, 0, 20, 0, 0xff, 1,
    15, 0, 1, 1, 0, 0, 0, 0, 0, 5, 18, 0, 0, 0,
];

#[test]
fn a_descriptor_is_kept_and_written(rt: HostRuntime) {
    let sd = read_sd(rt.alloc(), &DESCRIPTOR).expect(&rt, "a descriptor");
    let kept = NormalSd::of(rt.alloc(), &sd).expect(&rt, "memory");
    let written = write_view(rt.alloc(), kept.view(), 7).expect(&rt, "memory");
    assert!(rt; written.as_slice() == DESCRIPTOR.as_slice());
}

#[test]
fn other_bytes_are_those_of_none(rt: HostRuntime) {
    let kept = NormalSd::from_bytes(rt.alloc(), &DESCRIPTOR).expect(&rt, "memory");
    assert!(rt; kept.is_none());
}
