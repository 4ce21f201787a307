//! Values that were sent: how they are read and stored, and the checks of them.

ghost use Rattle.std.specs.Prelude.{◌≡◌, ◌<◌, ◌==◌, ◌&&◌, ◌++◌, not, true, [], ◌∷◌, map, length, IfOk};
ghost use Rattle.std.specs.List.{list_all, list_any, AllByRecursion};
ghost use Rattle.std.specs.Option.{option_to_list};
ghost use Rattle.std.specs.Result.{result_ok};
ghost use Rattle.ad_bytes.specs.Reading.{GivesUnless, IsBytes};
ghost use Rattle.ad_value.specs.Value.{same_key};
ghost use Rattle.ad_value.specs.ValueOf.{is_memory};
ghost use Rattle.ad_schema.specs.Attributes.{attrs_of};
ghost use Rattle.ad_schema.specs.Classes.{classes_of};
ghost use Rattle.ad_schema.specs.Meaning.{attr_is_link};
ghost use Rattle.ad_dir_objects.specs.declared.object.Stored.TheVariants as kept;
ghost use Rattle.ad_dir_objects.specs.Seen.{stored_seen};
ghost use Rattle.ad_needs_rules.specs.Checks.{or_code};
ghost use Rattle.ad_dir_model.specs.Attributes as attributes;
ghost use Rattle.ad_change_values.specs.Values as values;
ghost use Rattle.ad_change_values.specs.Judging.{Judges, values_in, reading_checks};

use crate::refusal::Refusal;
use ad_bytes::{Bytes, List, OneOrMany};
use ad_dir::{Dir, Stored, digest_value, is_password};
use ad_ldap::result_code;
use ad_needs_rules::number_of_name;
use ad_schema::{AttrId, ClassId, Schema};
use ad_value::{Value, ValueFault, equal, normal};
use std::alloc::{AllocError, Global};

// ---- attributes

/// Whether an object of the class lacks the attribute, and may not. It is said whether the object has a value of it.
pub fn is_lacking(schema: &Schema, class: ClassId, attr: AttrId, has_some: bool) -> bool
    requires class { class.0 < length (classes_of schema.now) }
    requires attr { attr.0 < length (attrs_of schema.now) }
    ensures { result ≡ values.is_lacking schema.now class.0 attr.0 has_some }
{
    !has_some && (schema.must(class, attr) && !schema.never_missing(class, attr))
}

// ---- reading

// One value, in the attribute's syntax.
#[tactic(auto, unfolding(crate::specs::Values::value_in, ad_dir_model::specs::Attributes::syntax_at))]
fn value_in(alloc: Global, schema: &Schema, attr: AttrId, bytes: &[u8]) -> Result<Value, ValueFault>
    requires { attr.0 < length (attrs_of schema.now) }
    ensures { GivesUnless is_memory (λ value. value) result
        (values.value_in schema.now attr.0 bytes.now) }
{
    if is_password(schema, attr) {
        return Ok(digest_value(alloc, bytes)?);
    }
    normal(alloc, schema.attr_info(attr).syntax, bytes)
}

// Reads one value more, and tells whether it isn't too long.
fn read_more(
    alloc: Global,
    schema: &Schema,
    attr: AttrId,
    read: &mut List<Value>,
    bytes: &[u8],
) -> Result<bool, Refusal>
    requires { attr.0 < length (attrs_of schema.now) }
    ensures { Judges (or_code (values.reads schema.now attr.0 bytes.now) 21 ∷ [])
        (λ short. (short ≡ values.is_short schema.now attr.0 bytes.now)
        × (read.new ≡ read.old ++ option_to_list
        (result_ok (values.value_in schema.now attr.0 bytes.now))) × IsBytes bytes.now) result }
{
    match value_in(alloc, schema, attr, bytes) {
        Ok(value) => {
            read.push(value)?;
            Ok(true)
        }
        Err(ValueFault::TooLong) => Ok(false),
        Err(ValueFault::Syntax) => Err(Refusal::Code(result_code::INVALID_ATTRIBUTE_SYNTAX)),
        Err(ValueFault::Memory) => Err(Refusal::Memory),
    }
}

fn both(a: bool, b: bool) -> bool
    ensures { result ≡ (a && b) }
{
    a && b
}

/// The values of an attribute, read: 21 where one isn't of the syntax, and else 19 where one is too long. What was
/// read were bytes.
pub fn read_values(
    alloc: Global,
    schema: &Schema,
    attr: AttrId,
    sent: &[Bytes],
) -> Result<List<Value>, Refusal>
    requires { attr.0 < length (attrs_of schema.now) }
    ensures { Judges (reading_checks schema.now attr.0 sent.now)
        (λ read. (read ≡ values_in schema.now attr.0 sent.now) × AllByRecursion IsBytes sent.now) result }
{
    let mut read = List::new(alloc);
    let mut short = true;
    for bytes in sent {
        let one = read_more(alloc, schema, attr, &mut read, bytes.as_slice())?;
        short = both(short, one);
    }
    if !short {
        return Err(Refusal::Code(result_code::CONSTRAINT_VIOLATION));
    }
    Ok(read)
}

// Whether one of the others has the key of the value.
fn is_equal_to_one(value: &Value, others: &[Value]) -> bool
    ensures { result ≡ list_any (λ other. same_key value.now.key other.key) others.now }
{
    others.iter().any(|other| equal(value, other))
}

/// Whether two of the values are equal.
#[tactic(auto, unfolding(crate::specs::Values::are_repeated))]
pub fn are_repeated(read: &[Value]) -> bool
    ensures { result ≡ values.are_repeated read.now }
{
    for i in 0..read.len() {
        if is_equal_to_one(&read[i], &read[i + 1..]) {
            return true;
        }
    }
    false
}

fn none_is_empty(password: bool, sent: &[Bytes]) -> bool
    ensures { result ≡ list_all (λ bytes. not (password && length bytes == 0)) sent.now }
{
    sent.iter().all(|bytes| !(password && bytes.is_empty()))
}

/// Whether none of the values is an empty password.
pub fn has_no_empty_password(schema: &Schema, attr: AttrId, sent: &[Bytes]) -> bool
    ensures { result ≡ list_all (values.is_no_empty_password schema.now attr.0) sent.now }
{
    none_is_empty(is_password(schema, attr), sent)
}

// ---- storing

// The links that the values of an attribute of links are: 19 where one names no object.
fn links_to(
    alloc: Global,
    dir: &Dir,
    attr: AttrId,
    sent: &[Bytes],
) -> Result<OneOrMany<Stored>, Refusal>
    requires { attr_is_link dir.now.schema attr.0 ≡ true }
    ensures { Judges (or_code (list_all (values.leads dir.now attr.0) sent.now) 19 ∷ [])
        (λ stored. map stored_seen stored ≡ values.all_stored dir.now attr.0 sent.now) result }
{
    let mut stored = OneOrMany::new(alloc);
    for text in sent {
        let target = number_of_name(alloc, dir, text.as_slice())?;
        match target {
            Some(number) => stored.push(Stored::Link(number))?,
            None => return Err(Refusal::Code(result_code::CONSTRAINT_VIOLATION)),
        }
    }
    Ok(stored)
}

fn all_plain(alloc: Global, read: List<Value>) -> Result<OneOrMany<Stored>, AllocError>
    ensures { IfOk result (λ stored. stored ≡ map (λ value. kept.Plain value) read) }
{
    let mut stored = OneOrMany::new(alloc);
    for value in read.into_vec() {
        stored.push(Stored::Plain(value))?;
    }
    Ok(stored)
}

/// The values of an attribute as they are stored, from what [`read_values`] gave: 19 where a link names no object.
pub fn stored_values(
    alloc: Global,
    dir: &Dir,
    attr: AttrId,
    sent: &[Bytes],
    read: List<Value>,
) -> Result<OneOrMany<Stored>, Refusal>
    requires attr { attr.0 < length (attrs_of dir.now.schema) }
    requires read { read ≡ values_in dir.now.schema attr.0 sent.now }
    ensures { Judges (or_code (list_all (values.leads dir.now attr.0) sent.now) 19 ∷ [])
        (λ stored. map stored_seen stored ≡ values.all_stored dir.now attr.0 sent.now) result }
{
    if dir.schema().is_link(attr) {
        return links_to(alloc, dir, attr, sent);
    }
    let stored = all_plain(alloc, read)?;
    Ok(stored)
}

// ---- stored values

// Whether the two are values of one key, or links to one object.
fn is_same(a: &Stored, b: &Stored) -> bool
    ensures { result ≡ values.same_stored (stored_seen a.now) (stored_seen b.now) }
{
    match (a, b) {
        (Stored::Plain(a), Stored::Plain(b)) => equal(a, b),
        (Stored::Link(a), Stored::Link(b)) => *a == *b,
        _ => false,
    }
}

fn any_same(stored: &[Stored], value: &Stored) -> bool
    ensures { result ≡ list_any (λ one. values.same_stored (stored_seen value.now)
        (stored_seen one)) stored.now }
{
    stored.iter().any(|one| is_same(value, one))
}

/// Whether a value is one of those that are stored.
pub(crate) fn is_among(stored: &[Stored], value: &Stored) -> bool
    ensures { result ≡ values.is_among (map stored_seen stored.now) (stored_seen value.now) }
{
    any_same(stored, value)
}
