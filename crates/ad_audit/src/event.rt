//! An event of the security log as a value.

use ad_bytes::Bytes;
use ad_ids::{Guid, Sid};

/// What an access leaves in the security log.
#[derive(Drop)]
pub struct Event {
    /// The number of the frame that tried it, from 1.
    pub frame: u32,
    /// The frame's connection.
    pub connection: u16,
    /// Whether the access was granted.
    pub success: bool,
    /// The right that was tried, as a mask.
    pub right: u32,
    /// The last GUID of the path on which it was tried. None where it was tried on the object as a whole.
    pub guid: Option<Guid>,
    /// The user of the token that tried it.
    pub user: Sid,
    /// The name of the object, as text.
    pub dn: Bytes,
}
