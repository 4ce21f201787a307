//! Which attributes are indexed. No contract speaks of it: what is found is the same, whichever they are.

use ad_schema::{AttrId, Line, Schema, SchemaKind, SchemaRecord};
use ad_schema_classes::same_name;
use std::alloc::{AllocError, Global};

// Attributes that are indexed whatever their records say.
fn is_always(name: &[u8]) -> bool {
    same_name(name, b"objectSid") || same_name(name, b"sAMAccountName")
}

// Whether a number has bit 1, by its last digit.
fn is_odd(number: &[u8]) -> bool {
    match number.last() {
        Some(digit) => *digit % 2 == 1,
        None => false,
    }
}

fn says_indexed(line: &Line) -> bool {
    let value = line.value.as_slice();
    if same_name(line.name.as_slice(), b"searchFlags") {
        return is_odd(value);
    }
    same_name(line.name.as_slice(), b"lDAPDisplayName") && is_always(value)
}

fn is_indexed(record: &SchemaRecord) -> bool {
    record
        .lines
        .as_slice()
        .iter()
        .any(|line| says_indexed(line))
}

fn push_flag(flags: &mut Vec<bool>, record: &SchemaRecord) -> Result<(), AllocError> {
    if record.kind == SchemaKind::Attribute {
        flags.push(is_indexed(record))?;
    }
    Ok(())
}

fn set(flags: &mut Vec<bool>, attr: AttrId) {
    let place = attr.0 as usize;
    if place < flags.len() {
        flags[place] = true;
    }
}

/// A flag for each attribute of a schema, set where it is indexed: where searchFlags has bit 1 ([MS-ADTS] 2.2.10),
/// and always for objectSid, sAMAccountName and the attributes that name objects.
///
/// # Errors
///
/// Out of memory.
pub fn indexed_attrs(alloc: Global, schema: &Schema) -> Result<Vec<bool>, AllocError> {
    let mut flags = Vec::new(alloc);
    for record in schema.records() {
        push_flag(&mut flags, record)?;
    }
    for class in schema.classes() {
        set(&mut flags, class.naming);
    }
    Ok(flags)
}
