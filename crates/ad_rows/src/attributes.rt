//! Reading the attributes of an object, and whether they and their values are of the schema.

ghost use Rattle.std.specs.Prelude.{◌≡◌, ◌↔◌, ◌+◌, ◌^◌, ◌<◌, ◌≤◌, length, map, codes, true, false, IsTrue, IfOk};
ghost use Rattle.std.specs.Prelude.{IfSome};
ghost use Rattle.std.specs.List.{AllByRecursion};
ghost use Rattle.std.specs.Option.{option_copied};
ghost use Rattle.ad_bytes.specs.Reading.{GivesUnless, ReadsUnless, many_at};
ghost use Rattle.ad_value.specs.Value.{as_shown};
ghost use Rattle.ad_value.specs.ValueOf.{normal_or_fault};
ghost use Rattle.ad_schema.specs.Attributes.{attrs_of};
ghost use Rattle.ad_dir_model.specs.Attributes.{is_named, syntax_at};
ghost use Rattle.ad_dir_model.specs.Soundness.{IsHeld, IsPlainValue, IsStored};
ghost use Rattle.ad_dir_objects.specs.Seen.{held_seen, stored_seen};
ghost use Rattle.ad_rows.specs.Form.{value_by};
ghost use Rattle.ad_rows.specs.Parsing.{any_stored_of, attributes_at, attrs_rise, held_at, helds_at, is_memory};
ghost use Rattle.ad_rows.specs.Parsing.{link_of, stored_at, stored_of, values_at};

use crate::parsing::{BodyFault, both, text};
use ad_bytes::{Input, List, OneOrMany};
use ad_dir::{Stored, is_password};
use ad_schema::{AttrId, Schema};
use ad_value::{Syntax, Value, ValueFault, normal};
use std::alloc::{AllocError, Global};

// A digest, and whether it is as long as one.
fn digest(alloc: Global, bytes: &[u8]) -> Result<(Value, bool), AllocError>
    ensures good { IfOk result (λ read. IsTrue read.1
        ↔ ((length read.0.shown ≡ 32) × (read.0 ≡ as_shown read.0.shown))) }
    ensures value { IfOk result (λ read. read.0 ≡ as_shown bytes.now) }
{
    let value = Value::as_shown(alloc, bytes)?;
    Ok((value, bytes.len() == 32))
}

// The value with the bytes as they stand, and whether they are its normal form.
fn value_as_it_stands(
    alloc: Global,
    syntax: Syntax,
    bytes: &[u8],
    value: Value,
) -> Result<(Value, bool), AllocError>
    requires { normal_or_fault syntax bytes.now ≡ Ok value }
    ensures good { IfOk result (λ read. IsTrue read.1
        ↔ (normal_or_fault syntax read.0.shown ≡ Ok read.0)) }
    ensures value { IfOk result (λ read. read.0 ≡ value_by false syntax bytes.now) }
{
    if value.shown() == bytes {
        return Ok((value, true));
    }
    Ok((value.with_shown(alloc, bytes)?, false))
}

fn normal_value(alloc: Global, syntax: Syntax, bytes: &[u8]) -> Result<(Value, bool), AllocError>
    ensures good { IfOk result (λ read. IsTrue read.1
        ↔ (normal_or_fault syntax read.0.shown ≡ Ok read.0)) }
    ensures value { IfOk result (λ read. read.0 ≡ value_by false syntax bytes.now) }
{
    match normal(alloc, syntax, bytes) {
        Ok(value) => value_as_it_stands(alloc, syntax, bytes, value),
        Err(ValueFault::Memory) => Err(AllocError),
        Err(_) => Ok((Value::as_shown(alloc, bytes)?, false)),
    }
}

// A value that is no link, and whether it is one of the attribute.
#[tactic(auto, unfolding(ad_dir_model::specs::Attributes::syntax_at))]
fn plain(
    alloc: Global,
    schema: &Schema,
    attr: AttrId,
    bytes: &[u8],
) -> Result<(Value, bool), AllocError>
    requires { attr.0 < length (attrs_of schema.now) }
    ensures good { IfOk result (λ read. IsTrue read.1 ↔ IsPlainValue schema.now attr.0 read.0) }
    ensures value { IfOk result (λ read. read.0
        ≡ value_by (is_named schema.now (codes "unicodePwd") attr.0) (syntax_at schema.now attr.0)
        bytes.now) }
{
    if is_password(schema, attr) {
        digest(alloc, bytes)
    } else {
        normal_value(alloc, schema.attr_info(attr).syntax, bytes)
    }
}

// The number of an object in four bytes.
#[tactic(auto, unfolding(crate::specs::Parsing::link_of))]
fn link(bytes: &[u8]) -> Result<u32, BodyFault>
    ensures { GivesUnless is_memory (λ number. number) result (link_of bytes.now) }
{
    let mut input = Input::new(bytes);
    let number = input.be32()?;
    if !input.is_empty() {
        return Err(BodyFault::Bad);
    }
    Ok(number)
}

#[tactic(auto, unfolding(crate::specs::Parsing::stored_of))]
fn stored_of(
    alloc: Global,
    schema: &Schema,
    attr: AttrId,
    bytes: &[u8],
) -> Result<(Stored, bool), BodyFault>
    requires { attr.0 < length (attrs_of schema.now) }
    ensures good { IfOk result (λ read. IsTrue read.1 ↔ IsStored schema.now attr.0
        (stored_seen read.0)) }
    ensures stored { GivesUnless is_memory (λ read. stored_seen read.0) result
        (stored_of schema.now attr.0 bytes.now) }
{
    if schema.is_link(attr) {
        return Ok((Stored::Link(link(bytes)?), true));
    }
    let (value, good) = plain(alloc, schema, attr, bytes)?;
    Ok((Stored::Plain(value), good))
}

// Where the attribute isn't of the schema, or there is no schema, no value is a link.
fn any_stored(
    alloc: Global,
    schema: Option<&Schema>,
    attr: AttrId,
    bytes: &[u8],
) -> Result<(Stored, bool), BodyFault>
    ensures good { IfOk result (λ read. IfSome (option_copied schema.entry)
        (λ s. attr.0 < length (attrs_of s)
        → IsTrue read.1 ↔ IsStored s attr.0 (stored_seen read.0))) }
    ensures stored { GivesUnless is_memory (λ read. stored_seen read.0) result
        (any_stored_of (option_copied schema.entry) attr.0 bytes.now) }
{
    match schema {
        Some(schema) => {
            if (attr.0 as usize) < schema.attrs().len() {
                return stored_of(alloc, schema, attr, bytes);
            }
            Ok((Stored::Plain(Value::as_shown(alloc, bytes)?), false))
        }
        None => Ok((Stored::Plain(Value::as_shown(alloc, bytes)?), false)),
    }
}

fn is_attribute(schema: Option<&Schema>, attr: AttrId) -> bool
    ensures { IfSome (option_copied schema.entry)
        (λ s. IsTrue result ↔ (attr.0 < length (attrs_of s))) }
{
    match schema {
        Some(schema) => (attr.0 as usize) < schema.attrs().len(),
        None => false,
    }
}

// The next value, and whether it is one of the attribute.
#[tactic(auto, unfolding(crate::specs::Parsing::stored_at))]
fn next_value(
    alloc: Global,
    schema: Option<&Schema>,
    attr: AttrId,
    input: &mut Input<'_>,
) -> Result<(Stored, bool), BodyFault>
    ensures good { IfOk result (λ read. IfSome (option_copied schema.entry)
        (λ s. attr.0 < length (attrs_of s)
        → IsTrue read.1 ↔ IsStored s attr.0 (stored_seen read.0))) }
    ensures stored { ReadsUnless is_memory (λ read. stored_seen read.0) result input.new
        (stored_at (option_copied schema.entry) attr.0 input.old) }
{
    let shown = text(input)?;
    any_stored(alloc, schema, attr, shown)
}

// So many values of an attribute, and whether they are values of it.
fn each_value(
    alloc: Global,
    schema: Option<&Schema>,
    attr: AttrId,
    input: &mut Input<'_>,
    count: u64,
) -> Result<(OneOrMany<Stored>, bool), BodyFault>
    ensures count { IfOk result (λ read. length read.0 ≡ count) }
    ensures each { IfOk result (λ read. IfSome (option_copied schema.entry)
        (λ s. attr.0 < length (attrs_of s)
        → IsTrue read.1 ↔ AllByRecursion (IsStored s attr.0) (map stored_seen read.0))) }
    ensures read { ReadsUnless is_memory (λ read. map stored_seen read.0) result input.new
        (many_at (stored_at (option_copied schema.entry) attr.0) count input.old) }
{
    let mut values = OneOrMany::new(alloc);
    let mut good = true;
    for _ in 0..count {
        let (value, fits) = next_value(alloc, schema, attr, input)?;
        values.push(value)?;
        good = both(good, fits);
    }
    Ok((values, good))
}

// The values of an attribute, at least one, and whether it is one of the schema and they are values of it.
#[tactic(auto, unfolding(crate::specs::Parsing::values_at))]
fn values(
    alloc: Global,
    schema: Option<&Schema>,
    attr: AttrId,
    input: &mut Input<'_>,
) -> Result<(OneOrMany<Stored>, bool), BodyFault>
    ensures good { IfOk result (λ read. IfSome (option_copied schema.entry) (λ s. IsTrue read.1
        ↔ IsHeld s (record { attr = attr.0; values = map stored_seen read.0 }))) }
    ensures read { ReadsUnless is_memory (λ read. map stored_seen read.0) result input.new
        (values_at (option_copied schema.entry) attr.0 input.old) }
{
    let count = input.be64()?;
    if count == 0 {
        return Err(BodyFault::Bad);
    }
    let (values, good) = each_value(alloc, schema, attr, input, count)?;
    let fits = both(good, is_attribute(schema, attr));
    Ok((values, fits))
}

// The least attribute that may come after this one.
fn next_of(attr: u32) -> u64
    ensures value { result ≡ attr + 1 }
    ensures small { result ≤ 2 ^ 32 }
{
    u64::from(attr) + 1
}

/// The attributes of an object and their values.
pub(crate) type Attributes = List<(AttrId, OneOrMany<Stored>)>;

/// An attribute with its values.
type Attribute = (AttrId, OneOrMany<Stored>);

// The next attribute, and whether it and its values are of the schema.
#[tactic(auto, unfolding(crate::specs::Parsing::held_at))]
fn next_attribute(
    alloc: Global,
    schema: Option<&Schema>,
    input: &mut Input<'_>,
) -> Result<(Attribute, bool), BodyFault>
    ensures good { IfOk result (λ read. IfSome (option_copied schema.entry)
        (λ s. IsTrue read.1 ↔ IsHeld s (held_seen read.0))) }
    ensures read { ReadsUnless is_memory (λ read. held_seen read.0) result input.new
        (held_at (option_copied schema.entry) input.old) }
{
    let attr = AttrId(input.be32()?);
    let (values, good) = values(alloc, schema, attr, input)?;
    Ok(((attr, values), good))
}

// How many attributes room is made for at once: a count that no object has takes no memory.
const MOST_ROOM: u64 = 64;

// So many attributes, and whether they and their values are of the schema.
fn each_attribute(
    alloc: Global,
    schema: Option<&Schema>,
    input: &mut Input<'_>,
    count: u64,
) -> Result<(Vec<Attribute>, bool), BodyFault>
    ensures each { IfOk result (λ read. IfSome (option_copied schema.entry)
        (λ s. IsTrue read.1 ↔ AllByRecursion (IsHeld s) (map held_seen read.0.items))) }
    ensures read { ReadsUnless is_memory (λ read. map held_seen read.0.items) result input.new
        (many_at (held_at (option_copied schema.entry)) count input.old) }
{
    let mut all = Vec::with_capacity(alloc, count.min(MOST_ROOM) as usize)?;
    let mut good = true;
    for _ in 0..count {
        let (attribute, fits) = next_attribute(alloc, schema, input)?;
        all.push(attribute)?;
        good = both(good, fits);
    }
    Ok((all, good))
}

// All attributes of an object, and whether they and their values are of the schema.
#[tactic(auto, unfolding(crate::specs::Parsing::helds_at))]
fn all_attributes(
    alloc: Global,
    schema: Option<&Schema>,
    input: &mut Input<'_>,
) -> Result<(Attributes, bool), BodyFault>
    ensures each { IfOk result (λ read. IfSome (option_copied schema.entry)
        (λ s. IsTrue read.1 ↔ AllByRecursion (IsHeld s) (map held_seen read.0))) }
    ensures read { ReadsUnless is_memory (λ read. map held_seen read.0) result input.new
        (helds_at (option_copied schema.entry) input.old) }
{
    let count = input.be64()?;
    let (all, good) = each_attribute(alloc, schema, input, count)?;
    Ok((List::from_vec(all), good))
}

// Whether each attribute is above the one before it.
fn rise(all: &[Attribute]) -> bool
    ensures { result ≡ attrs_rise 0 (map held_seen all.now) }
{
    let mut least = 0;
    for held in all {
        if u64::from(held.0.0) < least {
            return false;
        }
        least = next_of(held.0.0);
    }
    true
}

/// The attributes of an object, which rise, and whether they and their values are of the schema.
#[tactic(auto, unfolding(crate::specs::Parsing::attributes_at))]
pub(crate) fn attributes(
    alloc: Global,
    schema: Option<&Schema>,
    input: &mut Input<'_>,
) -> Result<(Attributes, bool), BodyFault>
    ensures rise { IfOk result (λ read. attrs_rise 0 (map held_seen read.0) ≡ true) }
    ensures each { IfOk result (λ read. IfSome (option_copied schema.entry)
        (λ s. IsTrue read.1 ↔ AllByRecursion (IsHeld s) (map held_seen read.0))) }
    ensures read { ReadsUnless is_memory (λ read. map held_seen read.0) result input.new
        (attributes_at (option_copied schema.entry) input.old) }
{
    let (all, good) = all_attributes(alloc, schema, input)?;
    if !rise(all.as_slice()) {
        return Err(BodyFault::Bad);
    }
    Ok((all, good))
}
