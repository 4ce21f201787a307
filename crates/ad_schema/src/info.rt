//! What a schema tells of its attributes, classes and rights.

use crate::guids::Guids;
use ad_bytes::Bytes;
use ad_ids::Guid;
use ad_value::Syntax;

/// An attribute, by its place among the attribute records of a schema; the first is 0.
#[derive(Clone, Copy, Debug, PartialEq, Eq)]
pub struct AttrId(pub u32);

/// A class, by its place among the class records of a schema; the first is 0.
#[derive(Clone, Copy, Debug, PartialEq, Eq)]
pub struct ClassId(pub u32);

/// An attribute ([MS-ADTS] 3.1.1.2.3).
#[derive(Debug, Drop)]
pub struct AttrInfo {
    /// lDAPDisplayName, as spelled.
    pub name: Bytes,
    /// The syntax whose object identifier attributeSyntax is.
    pub syntax: Syntax,
    /// schemaIDGUID.
    pub guid: Guid,
    /// attributeSecurityGUID: the property set that the attribute belongs to.
    pub set: Option<Guid>,
    /// Whether searchFlags has bit 0x80.
    pub confidential: bool,
    /// Whether isSingleValued is TRUE.
    pub single: bool,
    /// linkID.
    pub link: Option<u32>,
}

/// A class ([MS-ADTS] 3.1.1.2.4).
#[derive(Debug, Drop)]
pub struct ClassInfo {
    /// lDAPDisplayName, as spelled.
    pub name: Bytes,
    /// schemaIDGUID.
    pub guid: Guid,
    /// objectClassCategory: 1 is structural, 2 abstract, 3 auxiliary. 1 where it isn't said.
    pub category: u8,
    /// The superclass that subClassOf names. A class that names itself has none.
    pub above: Option<ClassId>,
    /// The attribute of its objects' RDNs: rDNAttID, else that of the superclass, else `cn`.
    pub naming: AttrId,
    /// defaultSecurityDescriptor, as spelled.
    pub default_sd: Option<Bytes>,
}

/// A control access right ([MS-ADTS] 5.1.3.2.1).
#[derive(Debug, Drop)]
pub struct RightInfo {
    /// cn, as spelled.
    pub name: Bytes,
    /// rightsGuid.
    pub guid: Guid,
    /// validAccesses: 48 is a property set, 256 an extended right, 8 a validated write.
    pub accesses: u32,
    /// appliesTo: the GUIDs of the classes that the right applies to, in order.
    pub applies: Guids,
}
