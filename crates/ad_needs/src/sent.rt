//! The attributes of an addition, as they were sent.

ghost use Rattle.std.specs.Prelude.{◌≡◌, ◌<◌, ◌∷◌, ◌++◌, [], ◌||◌, ◌==◌, false, is_some, length, map, filter};
ghost use Rattle.std.specs.Prelude.{filter_map, find, not, option_map, if◌then◌else◌, None, Some, IfOk, IfSome, OnOk};
ghost use Rattle.std.specs.Option.{option_map_or, option_to_list};
ghost use Rattle.std.specs.List.{list_all, list_any, flat_map};
ghost use Rattle.std.specs.Str.{bytes_eq};
ghost use Rattle.ad_schema.specs.Attributes.{attrs_of};
ghost use Rattle.ad_schema.specs.Classes.{classes_of};
ghost use Rattle.ad_dir_model.specs.Attributes.{attr_place, is_named, object_sid};
ghost use Rattle.ad_dir_model.specs.Shown.{is_naming};
ghost use Rattle.ad_needs_rules.specs.Requests.{is_descriptor};
ghost use Rattle.ad_needs_rules.specs.Adding.{is_of, sent, naming_checks, all_naming_checks, ordinary, is_kept_back};
ghost use Rattle.ad_needs_rules.specs.Adding.{own_checks, is_value, by_id, new_values};
ghost use Rattle.ad_needs.specs.Additions.{checks_of, unplaced_checks};
ghost use Rattle.ad_needs.specs.ItemWords.{AreSent};
ghost use Rattle.ad_needs_rules.specs.declared.outcome.Verdict.TheVariants.{Refused};
ghost use Rattle.ad_needs_rules.specs.Judged.{refusal_of};
ghost use Rattle.ad_ldap.specs.ResultCodes.{attribute_or_value_exists};

use crate::first_named::{is_first_mark, none_named};
use ad_bytes::{Bytes, List};
use ad_dir::{is_named, is_naming};
use ad_ldap::{Add, result_code};
use ad_needs_rules::{Verdict, is_descriptor};
use ad_schema::{AttrId, ClassId, RuleAttr, Schema};
use ad_schema_classes::same_name;
use std::alloc::{AllocError, Global};

fn sent_in<'a>(attrs: &'a [(Bytes, List<Bytes>)], name: &[u8]) -> Option<&'a [Bytes]>
    ensures { option_map (λ values. values.now) result ≡ option_map (λ attr. attr.1)
        (find (is_of name.now) attrs.entry.now) }
{
    for attr in attrs {
        if same_name(attr.0.as_slice(), name) {
            return Some(attr.1.as_slice());
        }
    }
    None
}

/// The values that were sent of the attribute of a name.
#[tactic(auto, unfolding(ad_needs_rules::specs::Adding::sent))]
pub(crate) fn sent<'a>(add: &'a Add, name: &[u8]) -> Option<&'a [Bytes]>
    ensures { option_map (λ values. values.now) result ≡ sent add.entry.now name.now }
{
    sent_in(add.attrs.as_slice(), name)
}

// ---- names

fn is_among(earlier: &[(Bytes, List<Bytes>)], name: &[u8]) -> bool
    ensures { result ≡ list_any (is_of name.now) earlier.now }
{
    earlier
        .iter()
        .any(|other| same_name(other.0.as_slice(), name))
}

// The refusal unless an attribute is named for the first time.
fn unless_first(first: bool) -> Option<Verdict>
    ensures { result ≡ (if first then None else Some (Refused attribute_or_value_exists)) }
{
    if first {
        None
    } else {
        Some(Verdict::Refused(result_code::ATTRIBUTE_OR_VALUE_EXISTS))
    }
}

// The refusal where a name that the schema doesn't have isn't that of the descriptor, or was sent before.
fn unless_descriptor(earlier: &[(Bytes, List<Bytes>)], name: &[u8]) -> Option<Verdict>
    ensures { result ≡ refusal_of (unplaced_checks earlier.now name.now) }
{
    if !is_descriptor(name) {
        return Some(Verdict::Refused(result_code::UNDEFINED_ATTRIBUTE_TYPE));
    }
    if is_among(earlier, name) {
        return Some(Verdict::Refused(result_code::ATTRIBUTE_OR_VALUE_EXISTS));
    }
    None
}

// The refusal where an attribute isn't known, or was named before. `named` has the flags of the attributes that the
// earlier ones name, and then that of this one too.
fn unless_new(
    schema: &Schema,
    named: &mut [bool],
    earlier: &[(Bytes, List<Bytes>)],
    attr: &(Bytes, List<Bytes>),
) -> Option<Verdict>
    requires { AreSent schema.now named.old earlier.now }
    ensures refusal { result ≡ refusal_of (naming_checks schema.now earlier.now attr.now) }
    ensures named { AreSent schema.now named.new (earlier.now ++ attr.now ∷ []) }
{
    match schema.attr(attr.0.as_slice()) {
        Some(id) => unless_first(is_first_mark(named, id.0 as usize)),
        None => unless_descriptor(earlier, attr.0.as_slice()),
    }
}

/// The refusal where one of the attributes isn't known or is named twice. The time is linear in them and in the
/// schema.
///
/// # Errors
///
/// Memory ran out.
pub(crate) fn unless_named_once(
    alloc: Global,
    schema: &Schema,
    attrs: &[(Bytes, List<Bytes>)],
) -> Result<Option<Verdict>, AllocError>
    ensures { IfOk result (λ refusal. refusal
        ≡ refusal_of (all_naming_checks schema.now [] attrs.now)) }
{
    let mut named = none_named(alloc, schema)?;
    'each: for i in 0..attrs.len() {
        let refusal = unless_new(schema, named.as_mut_slice(), &attrs[..i], &attrs[i]);
        if refusal.is_some() {
            return Ok(refusal);
        }
    }
    Ok(None)
}

// ---- ordinary attributes

// The place of an ordinary attribute.
fn ordinary(schema: &Schema, attr: &(Bytes, List<Bytes>)) -> Option<AttrId>
    ensures place { option_map (λ id. (id.0, attr.now.1)) result ≡ ordinary schema.now attr.now }
    ensures in_range { IfSome result (λ id. id.0 < length (attrs_of schema.now)) }
{
    if is_descriptor(attr.0.as_slice()) {
        None
    } else {
        schema.attr(attr.0.as_slice())
    }
}

/// Whether the attribute is objectSid, where that counts.
#[tactic(auto, unfolding(ad_dir_model::specs::Attributes::rule_place))]
pub(crate) fn is_object_sid(schema: &Schema, attr: AttrId) -> bool
    ensures { result ≡ option_map_or (λ sid. sid == attr.0) (object_sid schema.now) false }
{
    match schema.attr_of_rule(RuleAttr::ObjectSid) {
        Some(sid) => sid.0 == attr.0,
        None => false,
    }
}

// Whether an attribute is nobody's to give.
fn is_kept_back(schema: &Schema, attr: AttrId) -> bool
    requires { attr.0 < length (attrs_of schema.now) }
    ensures { result ≡ is_kept_back schema.now attr.0 }
{
    is_object_sid(schema, attr)
        || is_named(schema, b"distinguishedName", attr)
        || schema.is_back_link(attr)
}

fn are_all(value: &[u8], values: &[Bytes]) -> bool
    ensures { result ≡ list_all (bytes_eq value.now) values.now }
{
    values.iter().all(|other| value == other.as_slice())
}

// Whether the values may be given of an attribute: of one that shows the naming value each of them has to be that
// value.
fn are_own(schema: &Schema, class: ClassId, value: &[u8], attr: AttrId, values: &[Bytes]) -> bool
    requires { class.0 < length (classes_of schema.now) }
    ensures { result ≡ (not (is_naming schema.now class.0 attr.0) || list_all (bytes_eq value.now)
        values.now) }
{
    !is_naming(schema, class, attr) || are_all(value, values)
}

// The refusal where an attribute of this place may not be given, or not with these values. The first part of the
// name has the value.
fn unless_own(
    schema: &Schema,
    class: ClassId,
    value: &[u8],
    attr: AttrId,
    values: &[Bytes],
) -> Option<Verdict>
    requires class { class.0 < length (classes_of schema.now) }
    requires attr { attr.0 < length (attrs_of schema.now) }
    ensures { result ≡ refusal_of (own_checks schema.now class.0 value.now (attr.0, values.now)) }
{
    if is_kept_back(schema, attr) {
        return Some(Verdict::Refused(result_code::UNWILLING_TO_PERFORM));
    }
    if !are_own(schema, class, value, attr, values) {
        return Some(Verdict::Refused(result_code::NAMING_VIOLATION));
    }
    None
}

// The same of an attribute that may be another than an ordinary one.
fn unless_lawful(
    schema: &Schema,
    class: ClassId,
    value: &[u8],
    attr: &(Bytes, List<Bytes>),
) -> Option<Verdict>
    requires { class.0 < length (classes_of schema.now) }
    ensures { result ≡ refusal_of (checks_of schema.now class.0 value.now attr.now) }
{
    match ordinary(schema, attr) {
        Some(id) => unless_own(schema, class, value, id, attr.1.as_slice()),
        None => None,
    }
}

/// The refusal where one of the attributes may not be given, or not with its values.
pub(crate) fn unless_all_lawful(
    schema: &Schema,
    class: ClassId,
    value: &[u8],
    attrs: &[(Bytes, List<Bytes>)],
) -> Option<Verdict>
    requires { class.0 < length (classes_of schema.now) }
    ensures { result ≡ refusal_of (flat_map (own_checks schema.now class.0 value.now)
        (filter_map (ordinary schema.now) attrs.now)) }
{
    for attr in attrs {
        let refusal = unless_lawful(schema, class, value, attr);
        if refusal.is_some() {
            return refusal;
        }
    }
    None
}

// ---- what the object gets

/// The same values in memory of their own.
///
/// # Errors
///
/// Memory ran out.
pub(crate) fn copies(alloc: Global, values: &[Bytes]) -> Result<List<Bytes>, AllocError>
    ensures { IfOk result (λ all. all ≡ values.now) }
{
    let mut all = List::new(alloc);
    'each: for value in values {
        all.push(value.copy(alloc)?)?;
    }
    Ok(all)
}

// Whether the object gets the values of an attribute.
fn is_value(schema: &Schema, class: ClassId, attr: AttrId) -> bool
    requires { class.0 < length (classes_of schema.now) }
    ensures { result ≡ is_value schema.now class.0 attr.0 }
{
    !(is_named(schema, b"objectClass", attr) || is_naming(schema, class, attr))
}

// The place of an attribute whose values the object gets.
fn value_place(schema: &Schema, class: ClassId, attr: &(Bytes, List<Bytes>)) -> Option<AttrId>
    requires { class.0 < length (classes_of schema.now) }
    ensures { option_to_list (option_map (λ id. (id, attr.now.1)) result)
        ≡ map by_id (filter (λ attr. is_value schema.now class.0 attr.0)
        (filter_map (ordinary schema.now) (attr.now ∷ []))) }
{
    match ordinary(schema, attr) {
        Some(id) => {
            if is_value(schema, class, id) {
                Some(id)
            } else {
                None
            }
        }
        None => None,
    }
}

// Puts the values of an attribute at the end, where the object gets them.
fn push_values(
    alloc: Global,
    schema: &Schema,
    class: ClassId,
    into: &mut List<(AttrId, List<Bytes>)>,
    attr: &(Bytes, List<Bytes>),
) -> Result<(), AllocError>
    requires { class.0 < length (classes_of schema.now) }
    ensures { OnOk result (into.new ≡ into.old
        ++ map by_id (filter (λ attr. is_value schema.now class.0 attr.0)
        (filter_map (ordinary schema.now) (attr.now ∷ [])))) }
{
    match value_place(schema, class, attr) {
        Some(id) => {
            let values = copies(alloc, attr.1.as_slice())?;
            into.push((id, values))
        }
        None => Ok(()),
    }
}

fn values_in(
    alloc: Global,
    schema: &Schema,
    class: ClassId,
    attrs: &[(Bytes, List<Bytes>)],
) -> Result<List<(AttrId, List<Bytes>)>, AllocError>
    requires { class.0 < length (classes_of schema.now) }
    ensures { IfOk result (λ values. values
        ≡ map by_id (filter (λ attr. is_value schema.now class.0 attr.0)
        (filter_map (ordinary schema.now) attrs.now))) }
{
    let mut values = List::new(alloc);
    for attr in attrs {
        push_values(alloc, schema, class, &mut values, attr)?;
    }
    Ok(values)
}

/// The attributes that the object gets, with their values.
///
/// # Errors
///
/// Memory ran out.
#[tactic(auto, unfolding(ad_needs_rules::specs::Adding::new_values, ad_needs_rules::specs::Adding::all_ordinary))]
pub(crate) fn new_values(
    alloc: Global,
    schema: &Schema,
    class: ClassId,
    add: &Add,
) -> Result<List<(AttrId, List<Bytes>)>, AllocError>
    requires { class.0 < length (classes_of schema.now) }
    ensures { IfOk result (λ values. values ≡ new_values schema.now class.0 add.now) }
{
    values_in(alloc, schema, class, add.attrs.as_slice())
}
