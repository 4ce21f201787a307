//! Changes that are asked for, resolved against a directory: objects by number, class and attributes by their
//! places in the schema. Values are the bytes that were sent.

use ad_bytes::{Bytes, List};
use ad_schema::{AttrId, ClassId};
use ad_sd::SdParts;

/// A change that is asked for.
#[derive(Drop)]
pub enum Act {
    /// An object more.
    Add {
        parent: u32,
        class: ClassId,
        /// The naming value.
        name: Bytes,
        /// The attributes that are given but for objectClass, name, the naming attribute and nTSecurityDescriptor.
        values: List<(AttrId, List<Bytes>)>,
        /// The parts of nTSecurityDescriptor that are given and asked for. None where it isn't given.
        sd: Option<SdParts>,
    },
    /// An object less, and with `tree` all that is below it.
    Delete {
        target: u32,
        tree: bool,
    },
    /// A naming value and a parent, which may be those from before.
    Rename {
        target: u32,
        parent: u32,
        name: Bytes,
    },
    /// Other values, and other parts of the descriptor.
    Modify {
        target: u32,
        /// The changes in their order, but for those of nTSecurityDescriptor.
        items: List<ActItem>,
        /// As for an addition.
        sd: Option<SdParts>,
    },
}

/// One change of an attribute: 0 adds the values, 1 deletes them, or all where there are none, 2 replaces all by
/// them.
#[derive(Drop)]
pub struct ActItem {
    pub op: u8,
    pub attr: AttrId,
    pub values: List<Bytes>,
}
