//! A control as a value, and what controls ask for.

use ad_bytes::Bytes;

/// A control (RFC 4511 4.1.11), with its object identifier as it was sent.
#[derive(Debug, Drop)]
pub struct Control {
    pub oid: Bytes,
    pub critical: bool,
    pub value: Option<Bytes>,
}

/// What the controls of a message ask for.
#[derive(Clone, Copy, Debug, PartialEq, Eq)]
pub struct Settings {
    /// Which parts of a descriptor are meant: the sum of 1 for the owner, 2 for the group, 4 for the access control
    /// list and 8 for the system access control list.
    pub sd_flags: u8,
    /// Whether an object is deleted with all that is below it.
    pub tree: bool,
}

/// What a control is to an operation.
#[derive(Clone, Copy)]
pub(crate) enum Role {
    SdFlags,
    TreeDelete,
    /// The control is unknown, or doesn't apply.
    Other,
}
