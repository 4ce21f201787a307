//! What a schema is read from: records of lines.

use crate::lines::Lines;
use ad_bytes::Bytes;

/// A line `name: value` of a record. Names compare without regard to ASCII case.
#[derive(Debug, Drop)]
pub struct Line {
    pub name: Bytes,
    pub value: Bytes,
}

/// What a record defines: an attribute (objectClass `attributeSchema`), a class (`classSchema`) or a
/// right (`controlAccessRight`).
#[derive(Clone, Copy, Debug, PartialEq, Eq)]
pub enum SchemaKind {
    Attribute,
    Class,
    Right,
}

/// A record of a schema, with all its lines in order.
#[derive(Debug, Drop)]
pub struct SchemaRecord {
    pub kind: SchemaKind,
    pub lines: Lines,
}
