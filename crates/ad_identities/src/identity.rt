//! Whose rights can be asked for.

use ad_ids::Sid;

/// A principal, or an identifier that counts without one.
#[derive(Clone, Copy, Debug, PartialEq, Eq)]
pub struct Identity {
    /// The identifier.
    pub sid: Sid,
    /// The principal's number, if there is one.
    pub number: Option<u32>,
}
