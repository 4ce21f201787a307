//! Phase 4: the objects with their values, where links are numbers of objects.

ghost use Rattle.std.specs.Prelude.{◌≡◌, ◌≤◌, ◌<◌, [], ◌∷◌, nat_le, position, map, length, List, ok_or, IfOk, IfSome};
ghost use Rattle.std.specs.Prelude.{OnOk};
ghost use Rattle.std.specs.Option.{option_copied};
ghost use Rattle.ad_bytes.specs.Reading.{GivesUnless};
ghost use Rattle.ad_schema.specs.Meaning.{attr_is_link};
ghost use Rattle.ad_dir_objects.specs.Seen.{stored_seen, held_seen};
ghost use Rattle.ad_load_records.specs.declared.fault.LoadCause.TheVariants as cause;
ghost use Rattle.ad_load_records.specs.Faults.{at, is_memory};
ghost use Rattle.ad_load.specs.Links.{target_of, stored_of, with_stored, with_given, all_stored, domain_of};
ghost use Rattle.ad_load.specs.Links.{object_of, with_object, objects_of};
ghost use Rattle.ad_load_objects.specs.Seen.{given_seen, draft_seen};
ghost use Rattle.ad_load.specs.Seen.{entry_seen, with_stored_at};
ghost use Rattle.ad_load_objects.specs.Index.{AreNames};
ghost use Rattle.ad_load_objects.specs.Drafts.{Draft as DraftValue};
ghost use Rattle.ad_load_records.specs.Records.{most_lines};

use crate::by_attr::many_stored;
use crate::descriptors::own_sd;
use ad_bytes::{Bytes, List, OneOrMany};
use ad_dir::{Object, Stored};
use ad_dn::DnFault;
use ad_ids::Sid;
use ad_load_objects::{Draft, Given, draft_sid, naming_value, number_in};
use ad_load_records::{LoadCause, LoadFault, bad};
use ad_schema::{AttrId, Schema};
use ad_schema_classes::Names;
use ad_sd::NormalSd;
use std::alloc::{AllocError, Global};

// ---- values

// The object of a name's text.
fn target_of(alloc: Global, names: &Names, text: &[u8]) -> Result<Option<u32>, AllocError>
    ghost all: { List DraftValue }
    requires few { length all ≤ most_lines }
    requires names { AreNames all names.now }
    ensures { IfOk result (λ number. number ≡ target_of all text.now) }
{
    match ad_dn::read(alloc, text) {
        Ok(dn) => number_in(alloc, names, &dn),
        Err(DnFault::Bad { .. }) => Ok(None),
        Err(DnFault::Memory) => Err(AllocError),
    }
}

#[tactic(auto, unfolding(ad_schema::specs::Meaning::attr_is_link))]
fn is_link(schema: &Schema, attr: AttrId) -> bool
    ensures { result ≡ attr_is_link schema.now attr.0 }
{
    if (attr.0 as usize) < schema.attrs().len() {
        return schema.is_link(attr);
    }
    false
}

fn link_to(alloc: Global, names: &Names, one: &Given) -> Result<u32, LoadFault>
    ghost all: { List DraftValue }
    requires few { length all ≤ most_lines }
    requires names { AreNames all names.now }
    ensures { GivesUnless is_memory (λ number. number) result
        (ok_or (target_of all one.now.value.shown)
        (at one.now.line (cause.Link one.now.spelled))) }
{
    match target_of(alloc, names, one.value.shown())? {
        Some(number) => Ok(number),
        None => Err(bad(one.line, LoadCause::Link(one.spelled.copy(alloc)?))),
    }
}

/// A value as it is stored: that of a link is the number of the object that it names.
#[tactic(auto, unfolding(crate::specs::Links::stored_of))]
pub(crate) fn stored_of(
    alloc: Global,
    schema: &Schema,
    names: &Names,
    one: Given,
) -> Result<Stored, LoadFault>
    ghost all: { List DraftValue }
    requires few { length all ≤ most_lines }
    requires names { AreNames all names.now }
    ensures { GivesUnless is_memory stored_seen result (stored_of schema.now all (given_seen one)) }
{
    if is_link(schema, one.attr) {
        return Ok(Stored::Link(link_to(alloc, names, &one)?));
    }
    Ok(Stored::Plain(one.value))
}

// The place of the first attribute that isn't below this one.
fn place_of(values: &[(AttrId, OneOrMany<Stored>)], attr: AttrId) -> Option<usize>
    ensures place { result ≡ position (λ held. nat_le attr.0 held.0.0) values.now }
    ensures within { IfSome result (λ place. place < length values.now) }
{
    values.iter().position(|held| attr.0 <= held.0.0)
}

fn alone(alloc: Global, attr: AttrId, value: Stored) -> (AttrId, OneOrMany<Stored>)
    ensures { held_seen result ≡ record { attr = attr.0; values = stored_seen value ∷ [] } }
{
    (attr, OneOrMany::one(alloc, value))
}

// Puts a value at a place, after the others of its attribute if that stands there, or else before what stands there.
fn put_at(
    alloc: Global,
    values: &mut Vec<(AttrId, OneOrMany<Stored>)>,
    place: usize,
    attr: AttrId,
    value: Stored,
) -> Result<(), AllocError>
    requires { place < length values.old.items }
    ensures { OnOk result (map held_seen values.new.items ≡ with_stored_at place attr.0
        (stored_seen value) (map held_seen values.old.items)) }
{
    if values[place].0.0 == attr.0 {
        return values[place].1.push(value);
    }
    let held = alone(alloc, attr, value);
    values.insert(place, held)?;
    Ok(())
}

// Puts a value after the others of its attribute.
fn put_stored(
    alloc: Global,
    values: &mut Vec<(AttrId, OneOrMany<Stored>)>,
    attr: AttrId,
    value: Stored,
) -> Result<(), AllocError>
    ensures { OnOk result (map held_seen values.new.items ≡ with_stored attr.0 (stored_seen value)
        (map held_seen values.old.items)) }
{
    match place_of(values.as_slice(), attr) {
        Some(place) => put_at(alloc, values, place, attr, value),
        None => {
            let held = alone(alloc, attr, value);
            values.push(held)?;
            Ok(())
        }
    }
}

#[tactic(auto, unfolding(crate::specs::Links::with_given))]
fn add_given(
    alloc: Global,
    schema: &Schema,
    names: &Names,
    values: &mut Vec<(AttrId, OneOrMany<Stored>)>,
    one: Given,
) -> Result<(), LoadFault>
    ghost all: { List DraftValue }
    requires few { length all ≤ most_lines }
    requires names { AreNames all names.now }
    ensures { GivesUnless is_memory (λ _. map held_seen values.new.items) result
        (with_given schema.now all (map held_seen values.old.items) (given_seen one)) }
{
    let attr = one.attr;
    let value = stored_of(alloc, schema, names, one)?;
    put_stored(alloc, values, attr, value)?;
    Ok(())
}

#[tactic(auto, unfolding(crate::specs::Links::all_stored))]
fn few_stored(
    alloc: Global,
    schema: &Schema,
    names: &Names,
    given: Vec<Given>,
) -> Result<Vec<(AttrId, OneOrMany<Stored>)>, LoadFault>
    ghost all: { List DraftValue }
    requires few { length all ≤ most_lines }
    requires names { AreNames all names.now }
    ensures { GivesUnless is_memory (λ values. map held_seen values.items) result
        (all_stored schema.now all (map given_seen given.items)) }
{
    let mut values = Vec::with_capacity(alloc, given.len())?;
    for one in given {
        add_given(alloc, schema, names, &mut values, one)?;
    }
    Ok(values)
}

// How many values are many.
const MANY: usize = 128;

// The values of an object as they are stored, by rising attributes.
fn all_stored(
    alloc: Global,
    schema: &Schema,
    names: &Names,
    given: Vec<Given>,
) -> Result<Vec<(AttrId, OneOrMany<Stored>)>, LoadFault>
    ghost all: { List DraftValue }
    requires few { length all ≤ most_lines }
    requires names { AreNames all names.now }
    ensures { GivesUnless is_memory (λ values. map held_seen values.items) result
        (all_stored schema.now all (map given_seen given.items)) }
{
    if given.len() < MANY {
        return few_stored(alloc, schema, names, given);
    }
    many_stored(alloc, schema, names, given)
}

// ---- objects

/// The domain's identifier, which is the root's.
pub(crate) fn domain_of(schema: &Schema, drafts: &[Draft]) -> Option<Sid>
    ensures { result ≡ domain_of schema.now (map draft_seen drafts.now) }
{
    match drafts {
        [] => None,
        [root, ..] => draft_sid(schema, root),
    }
}

#[tactic(auto, unfolding(crate::specs::Links::object_of))]
fn object_of(
    alloc: Global,
    schema: &Schema,
    names: &Names,
    domain: Option<&Sid>,
    number: u32,
    draft: Draft,
) -> Result<(Object, NormalSd), LoadFault>
    ghost all: { List DraftValue }
    requires few { length all ≤ most_lines }
    requires names { AreNames all names.now }
    ensures { GivesUnless is_memory entry_seen result (object_of schema.now all
        (option_copied domain.entry) number (draft_seen draft)) }
{
    let name = Bytes::from_slice(alloc, naming_value(&draft.dn.rdns))?;
    let values = all_stored(alloc, schema, names, draft.given)?;
    let sd = own_sd(alloc, schema, domain, draft.class, draft.sd)?;
    let object = Object {
        number,
        parent: draft.parent,
        class: draft.class,
        name,
        values: List::from_vec(values),
    };
    Ok((object, sd))
}

#[tactic(auto, unfolding(crate::specs::Links::with_object))]
fn add_object(
    alloc: Global,
    schema: &Schema,
    names: &Names,
    domain: Option<&Sid>,
    objects: &mut Vec<(Object, NormalSd)>,
    draft: Draft,
) -> Result<(), LoadFault>
    ghost all: { List DraftValue }
    requires few { length all ≤ most_lines }
    requires names { AreNames all names.now }
    requires fewer { length objects.old.items < most_lines }
    ensures { GivesUnless is_memory (λ _. map entry_seen objects.new.items) result
        (with_object schema.now all (option_copied domain.entry)
        (map entry_seen objects.old.items) (draft_seen draft)) }
{
    let number = objects.len() as u32 + 1;
    let entry = object_of(alloc, schema, names, domain, number, draft)?;
    objects.push(entry)?;
    Ok(())
}

/// The objects of drafts, each with the descriptor that it has as its own. Each draft's values and descriptor
/// become its object's.
#[tactic(auto, unfolding(crate::specs::Links::objects_of))]
pub(crate) fn objects_of(
    alloc: Global,
    schema: &Schema,
    names: &Names,
    items: Vec<Draft>,
    domain: Option<&Sid>,
) -> Result<Vec<(Object, NormalSd)>, LoadFault>
    ghost all: { List DraftValue }
    requires few { length all ≤ most_lines }
    requires names { AreNames all names.now }
    requires same { all ≡ map draft_seen items.items }
    requires domain { option_copied domain ≡ domain_of schema.now (map draft_seen items.items) }
    ensures { GivesUnless is_memory (λ objects. map entry_seen objects.items) result
        (objects_of schema.now (map draft_seen items.items)) }
{
    let mut objects = Vec::with_capacity(alloc, items.len())?;
    for draft in items {
        add_object(alloc, schema, names, domain, &mut objects, draft)?;
    }
    Ok(objects)
}
