//! The counters of a directory, and the edits of one.

use crate::object::Object;
use ad_dn::Dn;
use prop_queue::Pending;

/// The counters of a directory, and the name above its root.
#[derive(Debug, Drop)]
pub struct Meta {
    /// The number that the next object gets.
    pub next_number: u32,
    /// The last sub-authority of the next identifier.
    pub next_rid: u32,
    /// The parts of the root's name after its first one.
    pub suffix: Dn,
}

/// One change of a directory.
#[derive(Drop)]
pub enum Edit {
    /// The object, in the place of the one that has its number if there is one, and the normal bytes of its
    /// descriptor.
    PutObject(Object, Vec<u8>),
    /// The object of this number goes.
    RemoveObject(u32),
    /// The whole pending list.
    PutQueue(Vec<Pending>),
    /// The counters and the name above the root.
    PutMeta(Meta),
}
