//! The class of a new object, by the values of its objectClass.

ghost use Rattle.std.specs.Prelude.{◌≡◌, ◌<◌, Some, map, length, slice_get, option_map, true, IfOk};
ghost use Rattle.std.specs.List.{list_all};
ghost use Rattle.ad_schema_classes.specs.Chains.{contains};
ghost use Rattle.ad_schema.specs.Classes.{classes_of, chain_of};
ghost use Rattle.ad_schema_defaults.specs.Lowest.{lower, if_below_all};
ghost use Rattle.ad_schema_defaults.specs.NewClass.{class_by_names, classes_named, is_of_schema, is_schema_class};
ghost use Rattle.ad_schema_defaults.specs.NewClass.{is_structural, lowest_of};

use ad_bytes::Bytes;
use ad_schema::{ClassId, Schema, chains_end};
use ad_schema_classes::same_name;
use std::alloc::{AllocError, Global};

// Whether all of the classes are in the chain of one.
#[tactic(auto, unfolding(ad_schema::specs::Meaning::is_in_chain))]
fn is_below_all(schema: &Schema, classes: &[ClassId], class: ClassId) -> bool
    ensures { result ≡ list_all (λ other. contains (chain_of schema.now class.0) other.0)
        classes.now }
{
    classes.iter().all(|other| schema.in_chain(class, *other))
}

// Of two classes the one that may have all in its chain: the first, unless the second isn't in its chain.
#[tactic(auto, unfolding(ad_schema::specs::Meaning::is_in_chain))]
fn lower(schema: &Schema, class: ClassId, next: ClassId) -> ClassId
    ensures { result.0 ≡ lower schema.now class.0 next.0 }
{
    if schema.in_chain(class, next) {
        return class;
    }
    next
}

// The only one of the classes that may have all of them in its chain: going over them, each time one isn't in the
// chain of the last, that one.
fn candidate(schema: &Schema, classes: &[ClassId], first: ClassId) -> ClassId
    requires first { slice_get classes.now 0 ≡ Some first }
    ensures { lowest_of schema.now (map (λ id. id.0) classes.now) ≡ if_below_all schema.now
        (map (λ id. id.0) classes.now) result.0 }
{
    schema.make_schema();
    chains_end();
    let mut class = first;
    for one in classes {
        class = lower(schema, class, *one);
    }
    class
}

// The lowest of classes, of which this is the first.
fn lowest_from(schema: &Schema, classes: &[ClassId], first: ClassId) -> Option<ClassId>
    requires first { slice_get classes.now 0 ≡ Some first }
    ensures { option_map (λ id. id.0) result ≡ lowest_of schema.now (map (λ id. id.0) classes.now) }
{
    let class = candidate(schema, classes, first);
    if is_below_all(schema, classes, class) {
        return Some(class);
    }
    None
}

/// The first of the classes whose chain has all of them.
#[tactic(auto, unfolding(crate::specs::NewClass::lowest_of))]
pub fn lowest(schema: &Schema, classes: &[ClassId]) -> Option<ClassId>
    ensures { option_map (λ id. id.0) result ≡ lowest_of schema.now (map (λ id. id.0) classes.now) }
{
    match classes {
        [] => None,
        [first, ..] => lowest_from(schema, classes, *first),
    }
}

/// Whether a class is neither abstract nor auxiliary, so that objects may have it.
#[tactic(auto, unfolding(crate::specs::NewClass::is_structural))]
pub fn is_structural(schema: &Schema, class: ClassId) -> bool
    ensures structural { result ≡ is_structural schema.now class.0 }
    ensures in_range { result ≡ true → class.0 < length (classes_of schema.now) }
{
    match schema.classes().get(class.0 as usize) {
        Some(info) => info.category != 2 && info.category != 3,
        None => false,
    }
}

// The classes of the names, where each names one.
fn classes_named(
    alloc: Global,
    schema: &Schema,
    names: &[Bytes],
) -> Result<Option<Vec<ClassId>>, AllocError>
    ensures { IfOk result (λ classes. option_map (λ ids. map (λ id. id.0) ids.items) classes
        ≡ classes_named schema.now names.now) }
{
    let mut classes = Vec::with_capacity(alloc, names.len())?;
    for name in names {
        let Some(class) = schema.class(name.as_slice()) else {
            return Ok(None);
        };
        classes.push(class)?;
    }
    Ok(Some(classes))
}

/// The class that the values of objectClass give: each names a class, and the one whose chain has all of them is
/// neither abstract nor auxiliary. Else there is none.
///
/// # Errors
///
/// Out of memory.
#[tactic(auto, unfolding(crate::specs::NewClass::class_by_names, crate::specs::NewClass::if_structural))]
pub fn class_by_names(
    alloc: Global,
    schema: &Schema,
    names: &[Bytes],
) -> Result<Option<ClassId>, AllocError>
    ensures { IfOk result (λ class. option_map (λ id. id.0) class ≡ class_by_names schema.now
        names.now) }
{
    let Some(classes) = classes_named(alloc, schema, names)? else {
        return Ok(None);
    };
    let Some(class) = lowest(schema, classes.as_slice()) else {
        return Ok(None);
    };
    if is_structural(schema, class) {
        Ok(Some(class))
    } else {
        Ok(None)
    }
}

fn is_of_schema(name: &[u8]) -> bool
    ensures { result ≡ is_of_schema name.now }
{
    same_name(name, b"attributeSchema")
        || same_name(name, b"classSchema")
        || same_name(name, b"controlAccessRight")
}

/// Whether a class is one of those that describe a schema: attributeSchema, classSchema and controlAccessRight.
pub fn is_schema_class(schema: &Schema, class: ClassId) -> bool
    ensures { result ≡ is_schema_class schema.now class.0 }
{
    match schema.classes().get(class.0 as usize) {
        Some(info) => is_of_schema(info.name.as_slice()),
        None => false,
    }
}
