//! Descriptors as values: with all parts, and with those that are there.

use ad_acl::Aces;
use ad_ids::Sid;

/// An access control list of a descriptor.
#[derive(Debug, Drop)]
pub struct AceList {
    /// Whether the list takes no entries from the parent's.
    pub protected: bool,
    pub entries: Aces,
}

/// A security descriptor ([MS-DTYP] 2.4.6).
#[derive(Debug, Drop)]
pub struct Sd {
    pub owner: Sid,
    pub group: Sid,
    /// The DACL, which grants and refuses rights.
    pub dacl: AceList,
    /// The SACL, which asks for audit events.
    pub sacl: AceList,
}

/// A security descriptor any part of which may be absent.
#[derive(Debug, Drop)]
pub struct SdParts {
    pub owner: Option<Sid>,
    pub group: Option<Sid>,
    pub dacl: Option<AceList>,
    pub sacl: Option<AceList>,
}
