//! A frame as a value.

use ad_bytes::Bytes;
use ad_ids::Token;

/// One event of the input, on a connection.
#[derive(Drop)]
pub struct Frame {
    /// Below 1,024.
    pub connection: u16,
    pub body: FrameBody,
}

/// What a frame brings.
#[derive(Drop)]
pub enum FrameBody {
    /// The token of the connection from here on.
    Token(Token),
    /// One LDAP message, at most 1,048,576 bytes, as it came.
    Message(Bytes),
    /// That so many steps of the propagation are to be done, 1 to 1,000,000.
    Steps(u32),
    /// That protected objects are to be given their descriptor.
    Run,
}
