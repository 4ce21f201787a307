//! Many values of one object, by their attributes. They are kept in the order of the attributes as they come, so
//! that the place of one more isn't looked for among all of them.

ghost use Rattle.std.specs.Prelude.{◌≡◌, ◌≤◌, ◌++◌, ◌∷◌, ◌-◌, [], List, map, length, unwrap_or, IfOk, OnOk};
ghost use Rattle.std.specs.BTreeMap.{btree_map_len};
ghost use Rattle.ad_bytes.specs.Reading.{GivesUnless};
ghost use Rattle.ad_dir_objects.specs.Seen.{stored_seen, held_seen};
ghost use Rattle.ad_load_records.specs.Faults.{is_memory};
ghost use Rattle.ad_load.specs.Links.{with_stored, with_given, all_stored};
ghost use Rattle.ad_load.specs.Seen.{by_attr};
ghost use Rattle.ad_load_objects.specs.Drafts.{Draft as DraftValue};
ghost use Rattle.ad_load_objects.specs.Index.{AreNames};
ghost use Rattle.ad_load_objects.specs.Seen.{given_seen};
ghost use Rattle.ad_load_records.specs.Records.{most_lines};

use crate::links::stored_of;
use ad_bytes::OneOrMany;
use ad_dir::Stored;
use ad_load_objects::Given;
use ad_load_records::LoadFault;
use ad_schema::{AttrId, Schema};
use ad_schema_classes::Names;
use std::alloc::{AllocError, Global};
use std::collections::BTreeMap;

// The values that there are.
fn or_none(alloc: Global, held: Option<OneOrMany<Stored>>) -> OneOrMany<Stored>
    ensures { result ≡ unwrap_or held [] }
{
    match held {
        Some(held) => held,
        None => OneOrMany::new(alloc),
    }
}

// Puts a value after the others of its attribute.
fn put_stored(
    alloc: Global,
    values: &mut BTreeMap<u32, OneOrMany<Stored>>,
    attr: AttrId,
    value: Stored,
) -> Result<(), AllocError>
    ensures { OnOk result (by_attr values.new.entries ≡ with_stored attr.0 (stored_seen value)
        (by_attr values.old.entries)) }
{
    let held = values.insert(attr.0, OneOrMany::new(alloc))?;
    let mut all = or_none(alloc, held);
    all.push(value)?;
    values.insert(attr.0, all)?;
    Ok(())
}

#[tactic(auto, unfolding(crate::specs::Links::with_given))]
fn add_given(
    alloc: Global,
    schema: &Schema,
    names: &Names,
    values: &mut BTreeMap<u32, OneOrMany<Stored>>,
    one: Given,
) -> Result<(), LoadFault>
    ghost all: { List DraftValue }
    requires few { length all ≤ most_lines }
    requires names { AreNames all names.now }
    ensures { GivesUnless is_memory (λ _. by_attr values.new.entries) result
        (with_given schema.now all (by_attr values.old.entries) (given_seen one)) }
{
    let attr = one.attr;
    let value = stored_of(alloc, schema, names, one)?;
    put_stored(alloc, values, attr, value)?;
    Ok(())
}

// All values under their attributes.
#[tactic(auto, unfolding(crate::specs::Links::all_stored))]
fn all_by_attr(
    alloc: Global,
    schema: &Schema,
    names: &Names,
    given: Vec<Given>,
) -> Result<BTreeMap<u32, OneOrMany<Stored>>, LoadFault>
    ghost all: { List DraftValue }
    requires few { length all ≤ most_lines }
    requires names { AreNames all names.now }
    ensures { GivesUnless is_memory (λ values. by_attr values.entries) result
        (all_stored schema.now all (map given_seen given.items)) }
{
    let mut values = BTreeMap::new(alloc);
    for one in given {
        add_given(alloc, schema, names, &mut values, one)?;
    }
    Ok(values)
}

// Moves the values of the first attribute after those of all before it.
fn move_first(
    values: &mut BTreeMap<u32, OneOrMany<Stored>>,
    all: &mut Vec<(AttrId, OneOrMany<Stored>)>,
) -> Result<(), AllocError>
    ensures moved { OnOk result (map held_seen all.new.items ++ by_attr values.new.entries
        ≡ map held_seen all.old.items ++ by_attr values.old.entries) }
    ensures fewer { OnOk result (btree_map_len values.new ≡ btree_map_len values.old - 1) }
{
    if let Some((attr, held)) = values.pop_first() {
        all.push((AttrId(attr), held))?;
    }
    Ok(())
}

// The attributes with their values, in order.
fn in_order(
    alloc: Global,
    values: BTreeMap<u32, OneOrMany<Stored>>,
) -> Result<Vec<(AttrId, OneOrMany<Stored>)>, AllocError>
    ensures { IfOk result (λ all. map held_seen all.items ≡ by_attr values.entries) }
{
    let mut values = values;
    let count = values.len();
    let mut all = Vec::with_capacity(alloc, count)?;
    for _ in 0..count {
        move_first(&mut values, &mut all)?;
    }
    Ok(all)
}

/// The values of an object as they are stored, by rising attributes.
pub(crate) fn many_stored(
    alloc: Global,
    schema: &Schema,
    names: &Names,
    given: Vec<Given>,
) -> Result<Vec<(AttrId, OneOrMany<Stored>)>, LoadFault>
    ghost all: { List DraftValue }
    requires few { length all ≤ most_lines }
    requires names { AreNames all names.now }
    ensures { GivesUnless is_memory (λ values. map held_seen values.items) result
        (all_stored schema.now all (map given_seen given.items)) }
{
    let values = all_by_attr(alloc, schema, names, given)?;
    Ok(in_order(alloc, values)?)
}
