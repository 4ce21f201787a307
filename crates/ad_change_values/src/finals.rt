//! The checks of the attributes that the items of a Modify name, on what all of them made.

ghost use Rattle.std.specs.Prelude.{◌≡◌, ◌<◌, ◌&&◌, if◌then◌else◌, List, [], map, filter, length, nat_lt};
ghost use Rattle.std.specs.Prelude.{IfOk};
ghost use Rattle.std.specs.List.{flat_map, AllByRecursion};
ghost use Rattle.ad_schema.specs.Attributes.{attrs_of};
ghost use Rattle.ad_schema.specs.Classes.{classes_of};
ghost use Rattle.ad_dir_objects.specs.Seen.{held_seen};
ghost use Rattle.ad_dir_model.specs.Object.{stored_in, Held as HeldValue};
ghost use Rattle.ad_change_values.specs.ByAttr.{count_in};
ghost use Rattle.ad_change_values.specs.Values.{all_attrs};
ghost use Rattle.ad_dir_model.specs.Attributes as attributes;
ghost use Rattle.ad_change_values.specs.Items as modify;
ghost use Rattle.ad_change_values.specs.Judging.{Judges, AreNamed};

use crate::counts::{Counts, count_of, counts_of};
use crate::refusal::Refusal;
use crate::values::is_lacking;
use ad_bytes::OneOrMany;
use ad_dir::{ActItem, Stored, is_single};
use ad_ldap::result_code;
use ad_schema::{AttrId, ClassId, Schema, attr_count};
use std::alloc::{AllocError, Global};

// Whether the items name an attribute, for each of so many.
fn named_by(alloc: Global, count: u32, items: &[ActItem]) -> Result<Vec<bool>, AllocError>
    requires { AllByRecursion (λ item. item.attr.0 < count) items.now }
    ensures { IfOk result (λ named. AreNamed items.now count named.items) }
{
    let mut named = vec![in alloc; false; count as usize]?;
    for item in items {
        named[item.attr.0 as usize] = true;
    }
    Ok(named)
}

/// Whether so many values are too many.
pub fn are_too_many(schema: &Schema, attr: AttrId, count: usize) -> bool
    requires { attr.0 < length (attrs_of schema.now) }
    ensures { result ≡ (attributes.is_single schema.now attr.0 && nat_lt 1 count) }
{
    is_single(schema, attr) && 1 < count
}

// The checks of an attribute that has so many values.
fn judge_attr(schema: &Schema, class: ClassId, attr: AttrId, count: usize) -> Result<(), Refusal>
    requires class { class.0 < length (classes_of schema.now) }
    requires attr { attr.0 < length (attrs_of schema.now) }
    ensures { (held : List HeldValue) → count ≡ length (stored_in held attr.0)
        → Judges (modify.final_checks schema.now class.0 held attr.0) (λ _. Unit {0}) result }
{
    if are_too_many(schema, attr, count) {
        return Err(Refusal::Code(result_code::CONSTRAINT_VIOLATION));
    }
    if !schema.allowed(class, attr) {
        return Err(Refusal::Code(result_code::OBJECT_CLASS_VIOLATION));
    }
    if is_lacking(schema, class, attr, count != 0) {
        return Err(Refusal::Code(result_code::OBJECT_CLASS_VIOLATION));
    }
    Ok(())
}

/// The same of an attribute that is named, and none of any other.
fn judge_if(
    named: bool,
    schema: &Schema,
    class: ClassId,
    attr: AttrId,
    counts: &Counts,
) -> Result<(), Refusal>
    requires class { class.0 < length (classes_of schema.now) }
    requires attr { attr.0 < length (attrs_of schema.now) }
    ensures { (held : List HeldValue) → count_in counts.now attr.0 ≡ length (stored_in held attr.0)
        → Judges (if named then modify.final_checks schema.now class.0 held attr.0 else [])
        (λ _. Unit {0}) result }
{
    if named {
        return judge_attr(schema, class, attr, count_of(counts, attr));
    }
    Ok(())
}

/// The checks of the attributes that the items name, in the order of the schema.
pub fn judge_attrs(
    alloc: Global,
    schema: &Schema,
    class: ClassId,
    held: &[(AttrId, OneOrMany<Stored>)],
    items: &[ActItem],
) -> Result<(), Refusal>
    requires class { class.0 < length (classes_of schema.now) }
    requires attrs { AllByRecursion (λ item. item.attr.0 < length (attrs_of schema.now)) items.now }
    ensures { Judges (flat_map (modify.final_checks schema.now class.0 (map held_seen held.now))
        (filter (modify.is_item_named items.now) (all_attrs schema.now))) (λ _. Unit {0}) result }
{
    let count = attr_count(schema);
    let named = named_by(alloc, count, items)?;
    let counts = counts_of(alloc, held)?;
    'each: for attr in 0..count {
        judge_if(named[attr as usize], schema, class, AttrId(attr), &counts)?;
    }
    Ok(())
}
