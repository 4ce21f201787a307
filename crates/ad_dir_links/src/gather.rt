//! What is counted of an object, as a list: the mark of its naming value, the targets of its links, and the marks of
//! its values that are indexed.

ghost use Rattle.std.specs.Prelude.{◌≡◌, ◌++◌, [], ◌∷◌, map, filter_map, if◌then◌else◌, Option, Some, None, OnOk, IfOk};
ghost use Rattle.ad_dir_objects.specs.Seen.{stored_seen, held_seen};
ghost use Rattle.ad_dir_links.specs.Marks.{mark, tie, is_indexed, ties_in, all_ties};

use crate::marks::{mark, name_mark};
use ad_bytes::OneOrMany;
use ad_dir_objects::{Object, Stored};
use ad_schema::AttrId;
use ad_value::Value;
use std::alloc::{AllocError, Global};

/// Whether the values of an attribute are counted.
pub fn is_indexed(indexed: &[bool], attr: AttrId) -> bool
    ensures { result ≡ is_indexed indexed.now attr.0 }
{
    match indexed.get(attr.0 as usize) {
        Some(flag) => *flag,
        None => false,
    }
}

// The mark of a value, where it counts.
fn mark_if(
    alloc: Global,
    counts: bool,
    attr: AttrId,
    value: &Value,
) -> Result<Option<u32>, AllocError>
    ensures { IfOk result (λ found. found
        ≡ (if counts then Some (mark attr.0 value.now.key) else None)) }
{
    if !counts {
        return Ok(None);
    }
    let key = value.key(alloc)?;
    Ok(Some(mark(attr.0, &key)))
}

/// What stands for a stored value.
pub(crate) fn tie_of(
    alloc: Global,
    counts: bool,
    attr: AttrId,
    value: &Stored,
) -> Result<Option<u32>, AllocError>
    ensures { IfOk result (λ found. found ≡ tie counts attr.0 (stored_seen value.now)) }
{
    match value {
        Stored::Plain(value) => mark_if(alloc, counts, attr, value),
        Stored::Link(target) => Ok(Some(*target)),
    }
}

// Puts what stands for a value at the end.
fn push_tie(
    alloc: Global,
    counts: bool,
    attr: AttrId,
    value: &Stored,
    all: &mut Vec<u32>,
) -> Result<(), AllocError>
    ensures { OnOk result (all.new.items ≡ all.old.items ++ filter_map (tie counts attr.0)
        (stored_seen value.now ∷ [])) }
{
    match tie_of(alloc, counts, attr, value)? {
        Some(number) => all.push(number)?,
        None => {}
    }
    Ok(())
}

// Puts what stands for the values of an attribute at the end.
fn push_ties(
    alloc: Global,
    counts: bool,
    attr: AttrId,
    values: &[Stored],
    all: &mut Vec<u32>,
) -> Result<(), AllocError>
    ensures { OnOk result (all.new.items ≡ all.old.items ++ filter_map (tie counts attr.0)
        (map stored_seen values.now)) }
{
    'each: for value in values {
        push_tie(alloc, counts, attr, value, all)?;
    }
    Ok(())
}

// Puts what is counted of the values of attributes at the end.
#[tactic(auto, unfolding(crate::specs::Marks::ties_in))]
fn push_all(
    alloc: Global,
    indexed: &[bool],
    values: &[(AttrId, OneOrMany<Stored>)],
    all: &mut Vec<u32>,
) -> Result<(), AllocError>
    ensures { OnOk result (all.new.items ≡ all.old.items
        ++ ties_in indexed.now (map held_seen values.now)) }
{
    'each: for held in values {
        let counts = is_indexed(indexed, held.0);
        push_ties(alloc, counts, held.0, held.1.as_slice(), all)?;
    }
    Ok(())
}

/// What is counted of an object.
///
/// # Errors
///
/// Out of memory.
pub(crate) fn ties_of(
    alloc: Global,
    indexed: &[bool],
    object: &Object,
) -> Result<Vec<u32>, AllocError>
    ensures { IfOk result (λ all. all.items ≡ all_ties indexed.now object.now.name
        (map held_seen object.now.values)) }
{
    let mut all = Vec::new(alloc);
    all.push(name_mark(alloc, object.name.as_slice())?)?;
    push_all(alloc, indexed, object.values.as_slice(), &mut all)?;
    Ok(all)
}
