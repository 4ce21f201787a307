//! A value that an object has to show for the filter of a search to be true of it, and which objects may show it.

ghost use Rattle.std.specs.Prelude.{◌≡◌, ◌<◌, [], false, true, length, map, IfOk, IfSome, IsTrue, IsFalse};
ghost use Rattle.std.specs.List.{list_any};
ghost use Rattle.ad_schema.specs.Attributes.{attrs_of};
ghost use Rattle.ad_ldap.specs.FilterValue as value;
ghost use Rattle.ad_dir_objects.specs.Seen.{stored_seen};
ghost use Rattle.ad_dir.specs.Values.{may_have};
ghost use Rattle.ad_dir_model.specs.Objects.{is_live};
ghost use Rattle.ad_dir_model.specs.Shown.{shown};
ghost use Rattle.ad_search.specs.Needles.{has_key, IsPlain, IsPlainNamed, IsNeedle, IsAskedAs};

use ad_dir::{Dir, Stored, is_named, is_naming, live_object, stored_of};
use ad_filter::value_of;
use ad_needs_rules::is_descriptor;
use ad_schema::{AttrId, Schema};
use ad_value::{Value, equal};
use std::alloc::{AllocError, Global};

/// An attribute, and a value of it that an object has to show.
#[derive(Drop)]
pub(crate) struct Needle {
    pub attr: AttrId,
    pub value: Value,
}

// ---- of a filter

// Whether an object shows of the attribute what it stores, or its naming value.
fn is_plain(schema: &Schema, attr: AttrId) -> bool
    ensures { IsTrue result → IsPlain schema.now attr.0 }
{
    if is_named(schema, b"objectClass", attr) || is_named(schema, b"distinguishedName", attr) {
        return false;
    }
    true
}

// What an equality asks of an attribute.
fn needle_at(
    alloc: Global,
    schema: &Schema,
    attr: AttrId,
    sent: &[u8],
) -> Result<Option<Needle>, AllocError>
    requires { attr.0 < length (attrs_of schema.now) }
    ensures { IfOk result (λ needle. IfSome needle (IsAskedAs schema.now attr sent.now)) }
{
    if !is_plain(schema, attr) {
        return Ok(None);
    }
    match value_of(alloc, schema.attr_info(attr).syntax, sent)? {
        Some(value) => Ok(Some(Needle { attr, value })),
        None => Ok(None),
    }
}

// What an equality needs, where that can be told from what is stored.
pub(crate) fn needle_of(
    alloc: Global,
    schema: &Schema,
    name: &[u8],
    sent: &[u8],
) -> Result<Option<Needle>, AllocError>
    ensures { IfOk result (λ needle.
        IfSome needle (IsNeedle schema.now (value.Equal name.now sent.now))) }
{
    if is_descriptor(name) {
        return Ok(None);
    }
    match schema.attr(name) {
        Some(attr) => needle_at(alloc, schema, attr, sent),
        None => Ok(None),
    }
}

// The attribute of a name, where an object shows of it what it stores, or its naming value.
pub(crate) fn plain_named(schema: &Schema, name: &[u8]) -> Option<AttrId>
    ensures { IfSome result (IsPlainNamed schema.now name.now) }
{
    if is_descriptor(name) {
        return None;
    }
    match schema.attr(name) {
        Some(attr) => {
            if !is_plain(schema, attr) {
                return None;
            }
            Some(attr)
        }
        None => None,
    }
}

// ---- of an object

fn may_have(stored: &Stored, value: &Value) -> bool
    ensures { result ≡ may_have value.now.key (stored_seen stored.now) }
{
    match stored {
        Stored::Plain(own) => equal(own, value),
        Stored::Link(_) => true,
    }
}

fn any_may(stored: &[Stored], value: &Value) -> bool
    ensures { result ≡ list_any (λ own. may_have value.now.key (stored_seen own)) stored.now }
{
    stored.iter().any(|own| may_have(own, value))
}

// Takes the steps of a look along so many attributes and values.
fn take_steps(steps: &mut usize, attrs: usize, values: usize) {
    *steps = steps.saturating_sub(attrs.saturating_add(values));
}

// Whether an object may show what is needed: by what it stores, unless the attribute shows its naming value. It takes
// the steps of the look.
pub(crate) fn may_show(dir: &Dir, number: u32, needle: &Needle, steps: &mut usize) -> bool
    requires live { is_live dir.now.objects number ≡ true }
    ensures { IsFalse result → IsPlain dir.now.schema needle.now.attr.0
        → has_key needle.now.value.key (shown dir.now number needle.now.attr.0) ≡ false }
{
    dir.invariants();
    let object = live_object(dir, number);
    if is_naming(dir.schema(), object.class, needle.attr) {
        return true;
    }
    let values = object.values.as_slice();
    let stored = stored_of(values, needle.attr);
    take_steps(steps, values.len(), stored.len());
    any_may(stored, &needle.value)
}

fn is_some(stored: &[Stored]) -> bool
    ensures { IsFalse result → map stored_seen stored.now ≡ [] }
{
    !stored.is_empty()
}

// Whether an object may show a value of an attribute: by what it stores, unless the attribute shows its naming value.
// It takes the steps of the look.
pub(crate) fn may_show_some(dir: &Dir, number: u32, attr: AttrId, steps: &mut usize) -> bool
    requires live { is_live dir.now.objects number ≡ true }
    ensures { IsFalse result → IsPlain dir.now.schema attr.0 → shown dir.now number attr.0 ≡ [] }
{
    dir.invariants();
    let object = live_object(dir, number);
    if is_naming(dir.schema(), object.class, attr) {
        return true;
    }
    let values = object.values.as_slice();
    take_steps(steps, values.len(), 1);
    is_some(stored_of(values, attr))
}
