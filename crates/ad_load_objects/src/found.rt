//! Attributes and classes come again: most objects have lines of the same names, and are of the same classes. So
//! what was found last is kept, in a table with a place for the names of each sum of a few of their bytes:
//! attributes first, and classes after them.

ghost use Rattle.std.specs.Prelude.{◌≡◌, ◌<◌, Some, List, length, IfSome, IfOk, OnOk};
ghost use Rattle.ad_schema.specs.declared.line.SchemaRecord.{SchemaRecord};
ghost use Rattle.ad_schema.specs.Attributes.{attrs_of, attr_named};
ghost use Rattle.ad_schema.specs.Classes.{classes_of, class_named};
ghost use Rattle.ad_load_objects.specs.Found.{IsFound, AreFound};

use ad_bytes::Bytes;
use ad_schema::{AttrId, ClassId, Schema};
use std::alloc::{AllocError, Global};

// How many names of attributes are kept, and as many of classes.
const PLACES: usize = 256;

/// The attribute or the class that was found by a name. None where nothing is kept.
#[derive(Drop)]
pub(crate) struct Found {
    name: Bytes,
    attr: Option<AttrId>,
    class: Option<ClassId>,
}

/// A table of nothing.
#[tactic(auto, using(crate::proofs::Places::all_more))]
pub(crate) fn none_found(alloc: Global) -> Result<Vec<Found>, AllocError>
    ensures { IfOk result (λ found. (schema : List SchemaRecord) → AreFound schema found.items) }
{
    let mut found = Vec::with_capacity(alloc, 2 * PLACES)?;
    for _ in 0..2 * PLACES {
        found.push(Found {
            name: Bytes::new(alloc),
            attr: None,
            class: None,
        })?;
    }
    Ok(found)
}

// The place of a name. What it is made of keeps names of one directory apart.
fn place_of(name: &[u8]) -> usize {
    match name {
        [] => 0,
        [first, ..] => {
            let middle = name[name.len() / 2].wrapping_mul(31);
            let last = name[name.len() - 1].wrapping_mul(13);
            let sum = first
                .wrapping_mul(5)
                .wrapping_add(middle)
                .wrapping_add(last);
            usize::from(sum)
        }
    }
}

// What is kept, where it was found by this name.
fn if_named<'a>(one: &'a Found, name: &[u8]) -> Option<&'a Found>
    ensures { IfSome result (λ kept. (kept.now ≡ one.now) × (kept.now.name ≡ name.now)) }
{
    if one.name.as_slice() == name {
        return Some(one);
    }
    None
}

// The same at a place.
#[tactic(auto, using(crate::proofs::Places::all_here))]
fn entry_at<'a>(found: &'a [Found], place: usize, name: &[u8]) -> Option<&'a Found>
    ensures named { IfSome result (λ kept. kept.now.name ≡ name.now) }
    ensures found { (schema : List SchemaRecord) → AreFound schema found.now
        → IfSome result (λ kept. IsFound schema kept.now) }
{
    if place < found.len() {
        return if_named(&found[place], name);
    }
    None
}

// PutsOnce something at a place, where there is such a place.
#[tactic(auto, using(crate::proofs::Places::all_set))]
fn put_at(found: &mut Vec<Found>, place: usize, one: Found)
    ensures { (schema : List SchemaRecord) → AreFound schema found.old.items → IsFound schema one
        → AreFound schema found.new.items }
{
    if place < found.len() {
        found[place] = one;
    }
}

// The attribute that is kept at a place, where it was found by this name.
fn attr_at(found: &[Found], place: usize, name: &[u8]) -> Option<AttrId>
    ensures { (schema : List SchemaRecord) → AreFound schema found.now → IfSome result
        (λ id. (attr_named schema name.now ≡ Some id) × (id.0 < length (attrs_of schema))) }
{
    entry_at(found, place, name)?.attr
}

/// The attribute of a name, as the schema has it.
pub(crate) fn attr_of(
    alloc: Global,
    schema: &Schema,
    found: &mut Vec<Found>,
    name: &[u8],
) -> Result<Option<AttrId>, AllocError>
    requires { AreFound schema.now found.old.items }
    ensures attr { IfOk result (λ attr. attr ≡ attr_named schema.now name.now) }
    ensures in_range { IfOk result (λ attr.
        IfSome attr (λ id. id.0 < length (attrs_of schema.now))) }
    ensures found { OnOk result (AreFound schema.now found.new.items) }
{
    let place = place_of(name);
    if let Some(attr) = attr_at(found.as_slice(), place, name) {
        return Ok(Some(attr));
    }
    let Some(attr) = schema.attr(name) else {
        return Ok(None);
    };
    let one = Found {
        name: Bytes::from_slice(alloc, name)?,
        attr: Some(attr),
        class: None,
    };
    put_at(found, place, one);
    Ok(Some(attr))
}

// ---- classes

// The class that is kept at a place, where it was found by this name.
fn class_at(found: &[Found], place: usize, name: &[u8]) -> Option<ClassId>
    ensures { (schema : List SchemaRecord) → AreFound schema found.now → IfSome result
        (λ id. (class_named schema name.now ≡ Some id) × (id.0 < length (classes_of schema))) }
{
    entry_at(found, place, name)?.class
}

/// The class of a name, as the schema has it.
pub(crate) fn class_named(
    alloc: Global,
    schema: &Schema,
    found: &mut Vec<Found>,
    name: &[u8],
) -> Result<Option<ClassId>, AllocError>
    requires { AreFound schema.now found.old.items }
    ensures class { IfOk result (λ class. class ≡ class_named schema.now name.now) }
    ensures in_range { IfOk result (λ class.
        IfSome class (λ id. id.0 < length (classes_of schema.now))) }
    ensures found { OnOk result (AreFound schema.now found.new.items) }
{
    let place = PLACES.saturating_add(place_of(name));
    if let Some(class) = class_at(found.as_slice(), place, name) {
        return Ok(Some(class));
    }
    let Some(class) = schema.class(name) else {
        return Ok(None);
    };
    let one = Found {
        name: Bytes::from_slice(alloc, name)?,
        attr: None,
        class: Some(class),
    };
    put_at(found, place, one);
    Ok(Some(class))
}
