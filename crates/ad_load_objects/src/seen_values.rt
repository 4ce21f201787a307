//! Which attributes an object has values of, and which values. It is kept once the values are many, so that one
//! more isn't compared with each of them.

ghost use Rattle.std.specs.Prelude.{◌≡◌, ◌++◌, List, [], ◌∷◌, not, map, IfOk, IfSome, OnOk};
ghost use Rattle.std.specs.List.{list_any};
ghost use Rattle.ad_load_objects.specs.Drafts as drafts;
ghost use Rattle.ad_load_objects.specs.Drafts.{is_given};
ghost use Rattle.ad_load_objects.specs.Had.{AreHad, IsKeyOf, is_had};
ghost use Rattle.ad_load_objects.specs.Seen.{given_seen};

use crate::drafts::Given;
use ad_schema::AttrId;
use ad_value::{Key, Value};
use std::alloc::{AllocError, Global};
use std::collections::BTreeSet;

/// What a value of an attribute is found by: its number, or else its bytes.
#[derive(PartialEq, Eq, PartialOrd, Ord, Drop)]
pub(crate) struct ValueKey {
    attr: u32,
    number: Option<i64>,
    bytes: Vec<u8>,
}

/// The attributes that values are of, and what the values are found by.
#[derive(Drop)]
pub(crate) struct SeenValues {
    attrs: BTreeSet<u32>,
    values: BTreeSet<ValueKey>,
}

fn copy_of(alloc: Global, bytes: &[u8]) -> Result<Vec<u8>, AllocError>
    ensures { IfOk result (λ copy. copy.items ≡ bytes.now) }
{
    let mut copy = Vec::with_capacity(alloc, bytes.len())?;
    copy.extend_from_slice(bytes)?;
    Ok(copy)
}

fn key_of(alloc: Global, attr: AttrId, value: &Value) -> Result<ValueKey, AllocError>
    ensures { IfOk result (IsKeyOf attr.0 value.now.key) }
{
    match value.key(alloc)? {
        Key::Bytes(bytes) => Ok(ValueKey {
            attr: attr.0,
            number: None,
            bytes: copy_of(alloc, bytes.as_slice())?,
        }),
        Key::Number(number) => Ok(ValueKey {
            attr: attr.0,
            number: Some(number),
            bytes: Vec::new(alloc),
        }),
    }
}

// Of no values.
fn nothing_had(alloc: Global) -> SeenValues
    ensures { AreHad [] result }
{
    SeenValues {
        attrs: BTreeSet::new(alloc),
        values: BTreeSet::new(alloc),
    }
}

/// Notes one more value, and tells whether it is new: its attribute where one value is all, else the value.
pub(crate) fn note(
    alloc: Global,
    had: &mut SeenValues,
    single: bool,
    one: &Given,
) -> Result<bool, AllocError>
    ensures new { (given : List drafts.Given) → AreHad given had.old
        → IfOk result (λ new. new ≡ not (is_had single (given_seen one.now) given)) }
    ensures had { (given : List drafts.Given) → AreHad given had.old
        → OnOk result (AreHad (given ++ given_seen one.now ∷ []) had.new) }
{
    let key = key_of(alloc, one.attr, &one.value)?;
    let new_attr = had.attrs.insert(one.attr.0)?;
    let new_value = had.values.insert(key)?;
    Ok(if single { new_attr } else { new_value })
}

// What is to be kept of these values.
fn had_of(alloc: Global, items: &[Given]) -> Result<SeenValues, AllocError>
    ensures { IfOk result (AreHad (map given_seen items.now)) }
{
    let mut had = nothing_had(alloc);
    for i in 0..items.len() {
        note(alloc, &mut had, false, &items[i])?;
    }
    Ok(had)
}

// How many values are many.
const MANY: usize = 128;

/// What is to be kept of these values, where they are many.
pub(crate) fn had_of_many(alloc: Global, items: &[Given]) -> Result<Option<SeenValues>, AllocError>
    ensures { IfOk result (λ had. IfSome had (AreHad (map given_seen items.now))) }
{
    if items.len() < MANY {
        return Ok(None);
    }
    Ok(Some(had_of(alloc, items)?))
}

/// Whether one of these values is of the attribute.
pub(crate) fn has_attr(had: &SeenValues, attr: AttrId) -> bool
    ensures { (given : List drafts.Given) → AreHad given had.now
        → result ≡ list_any (is_given attr.0) given }
{
    had.attrs.contains(&attr.0)
}
