//! One change of a modify request as a value.

use ad_bytes::{Bytes, List};

/// One change of a modify request (RFC 4511 4.6): 0 adds the values, 1 deletes them, 2 replaces all values by them.
#[derive(Drop)]
pub struct Item {
    pub op: u8,
    pub attr: Bytes,
    pub values: List<Bytes>,
}
