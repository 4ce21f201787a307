//! A reply to a client as a value.

use ad_bytes::{Bytes, List};

/// A message to a client (RFC 4511 4.1.1).
#[derive(Drop)]
pub enum Reply {
    /// An entry of a search (RFC 4511 4.5.2).
    Entry {
        id: u32,
        dn: Bytes,
        attrs: List<(Bytes, List<Bytes>)>,
    },
    /// A result (RFC 4511 4.1.9). The tag is the first byte of the response's element, as 0x65 for that of a search.
    Done {
        id: u32,
        tag: u8,
        code: u8,
        matched: Bytes,
        text: Bytes,
    },
    /// The Notice of Disconnection (RFC 4511 4.4.1) with result 2 and empty texts.
    Notice,
}
