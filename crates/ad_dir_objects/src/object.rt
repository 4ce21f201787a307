//! Objects and their stored values.

use ad_bytes::{Bytes, List, OneOrMany};
use ad_schema::{AttrId, ClassId};
use ad_value::Value;

/// A stored value.
#[derive(Drop)]
pub enum Stored {
    /// A value that isn't a link, in the normal form of its attribute's syntax.
    Plain(Value),
    /// The number of the object that a link names.
    Link(u32),
}

/// An object but for its descriptor.
#[derive(Drop)]
pub struct Object {
    /// Its number, 1 for the root.
    pub number: u32,
    /// The number of its parent, 0 for the root.
    pub parent: u32,
    /// Its structural class.
    pub class: ClassId,
    /// Its naming value, in UTF-8.
    pub name: Bytes,
    /// The attributes that it has, by rising place in the schema, each with its stored values in their order.
    pub values: List<(AttrId, OneOrMany<Stored>)>,
}
