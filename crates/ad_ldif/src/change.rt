//! Change records, as they are read (RFC 2849, section "Formal Syntax Definition of LDIF": ldif-change-record).

use crate::record::LdifLine;
use ad_bytes::{Bytes, List};

/// A change record. `line` is the number of the physical line where its `dn` begins; `dn` is that line's value, of at
/// most 1,048,576 bytes; `controls` are those of the lines after it, in order.
#[derive(Debug, Drop)]
pub struct LdifChange {
    pub line: u32,
    pub dn: Bytes,
    pub controls: List<LdifControl>,
    pub kind: LdifOp,
}

/// A control: its object identifier, digits and dots, and whether it is critical. It has no value.
#[derive(Debug, Drop)]
pub struct LdifControl {
    pub oid: Bytes,
    pub critical: bool,
}

/// What a change record does to its object.
#[derive(Debug, Drop)]
pub enum LdifOp {
    /// The attributes' lines of the new object, in order; at least one.
    Add(Vec<LdifLine>),
    Delete,
    /// The new relative name, whether the old naming value goes, and the new parent, if one is named.
    Rename {
        rdn: Bytes,
        delete_old: bool,
        superior: Option<Bytes>,
    },
    /// The changes of its attributes, in order.
    Modify(List<LdifItem>),
}

/// A change of one attribute: 0 adds the values, 1 deletes them, 2 puts them in place of those that are there.
/// `name` is spelled as in the line that begins the change.
#[derive(Debug, Drop)]
pub struct LdifItem {
    pub op: u8,
    pub name: Bytes,
    pub values: List<Bytes>,
}
