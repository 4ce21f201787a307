//! Add: its checks after what it needs.

ghost use Rattle.std.specs.Prelude.{◌≡◌, ◌<◌, ◌&&◌, ◌||◌, nat_lt, not, is_none, is_some, true};
ghost use Rattle.std.specs.Prelude.{[], ◌∷◌, ◌++◌, map, length, IfOk, OnOk};
ghost use Rattle.std.specs.BTreeSet.{contains};
ghost use Rattle.std.specs.List.{list_all, flat_map, AllByRecursion};
ghost use Rattle.std.specs.Ordering.{nat_cmp};
ghost use Rattle.ad_bytes.specs.Reading.{IsBytes};
ghost use Rattle.ad_dn.specs.Value.{IsValue};
ghost use Rattle.ad_schema.specs.Attributes.{attrs_of};
ghost use Rattle.ad_schema.specs.Classes.{classes_of, is_allowed, is_under};
ghost use Rattle.ad_needs_rules.specs.Requests.{class_at};
ghost use Rattle.ad_dir_objects.specs.declared.act.Act.TheVariants as Act;
ghost use Rattle.ad_dir_objects.specs.Seen.{stored_seen, held_seen};
ghost use Rattle.ad_dir_model.specs.Object.{Object as ObjectValue};
ghost use Rattle.ad_dir_model.specs.Limits.{max_depth, max_objects, max_counter};
ghost use Rattle.ad_dir_model.specs.Objects.{is_live};
ghost use Rattle.ad_dir_model.specs.Directory.{parents};
ghost use Rattle.ad_dir_model.specs.Names.{child_named};
ghost use Rattle.ad_dir_model.specs.Changes.{new_sid};
ghost use Rattle.ad_dir_model.specs.Soundness.{IsSound};
ghost use Rattle.ad_needs_rules.specs.Verdicts.{Resolves};
ghost use Rattle.ad_change.specs.Adding as add;
ghost use Rattle.ad_change.specs.Creating.{IsNewObject, HasByteAttr, all_read, sent_checks};
ghost use Rattle.ad_change_values.specs.Judging.{Judges};
ghost use Rattle.ad_change.specs.Plans.{IsPlan};
ghost use Rattle.ad_change.specs.Tree.{depth_of};
ghost use Rattle.ad_change_values.specs.Values.{all_attrs, all_stored, is_lacking};
ghost use Rattle.ad_dir_model.specs.Attributes.{is_single};

use crate::by_attr::{all_held, given_of, is_in};
use crate::depth::depth;
use crate::light::fits_weight_limit;
use crate::new_object::{domain_is_sid, gets_sid, new_edits, new_object};
use crate::outcome::Plan;
use crate::owner::is_owner_allowed;
use ad_bytes::{Bytes, List, OneOrMany};
use ad_change_values::{
    Held, Refusal, are_too_many, code_of, has_no_empty_password, is_lacking, one_is_repeated,
    read_values, stored_values,
};
use ad_dir::{Dir, MAX_DEPTH, Object, Stored, live_object};
use ad_ids::Token;
use ad_ldap::result_code;
use ad_schema::{AttrId, ClassId, Schema, attr_count};
use ad_sd::SdParts;
use std::alloc::{AllocError, Global};
use std::collections::BTreeSet;

/// As many objects may be live.
const MAX_OBJECTS: usize = 65_536;

// ---- attributes

// Whether more values are sent than the attribute may have.
fn too_many(schema: &Schema, attr: AttrId, sent: &[Bytes]) -> bool
    requires { attr.0 < length (attrs_of schema.now) }
    ensures { result ≡ (is_single schema.now attr.0 && nat_lt 1 (length sent.now)) }
{
    are_too_many(schema, attr, sent.len())
}

// The checks of one attribute, and its values as they are stored.
fn judge_attr(
    alloc: Global,
    dir: &Dir,
    attr: AttrId,
    sent: &[Bytes],
) -> Result<OneOrMany<Stored>, Refusal>
    requires { attr.0 < length (attrs_of dir.now.schema) }
    ensures { Judges (add.attr_checks dir.now (attr, sent.now))
        (λ stored. (map stored_seen stored ≡ all_stored dir.now attr.0 sent.now)
        × AllByRecursion IsBytes sent.now) result }
{
    let schema = dir.schema();
    let read = read_values(alloc, schema, attr, sent)?;
    let repeated = one_is_repeated(alloc, read.as_slice())?;
    if repeated {
        return Err(Refusal::Code(result_code::ATTRIBUTE_OR_VALUE_EXISTS));
    }
    if too_many(schema, attr, sent) {
        return Err(Refusal::Code(result_code::CONSTRAINT_VIOLATION));
    }
    let stored = stored_values(alloc, dir, attr, sent, read)?;
    if !has_no_empty_password(schema, attr, sent) {
        return Err(Refusal::Code(result_code::CONSTRAINT_VIOLATION));
    }
    Ok(stored)
}

// Puts an attribute with its values at the end.
fn push_held(held: &mut Held, attr: AttrId, stored: OneOrMany<Stored>) -> Result<(), AllocError>
    ensures { OnOk result (held.new.items ≡ held.old.items ++ (attr, stored) ∷ []) }
{
    held.push((attr, stored))?;
    Ok(())
}

// The checks of all attributes in their order, and each with its values as they are stored.
fn judge_values(alloc: Global, dir: &Dir, values: &[(AttrId, List<Bytes>)]) -> Result<Held, Refusal>
    requires { AllByRecursion (λ attr. attr.0.0 < length (attrs_of dir.now.schema)) values.now }
    ensures { Judges (flat_map (add.attr_checks dir.now) values.now)
        (λ held. (map held_seen held.items ≡ all_read dir.now values.now)
        × AllByRecursion HasByteAttr values.now) result }
{
    let mut held = Vec::new(alloc);
    'each: for attr in values {
        let stored = judge_attr(alloc, dir, attr.0, attr.1.as_slice())?;
        push_held(&mut held, attr.0, stored)?;
    }
    Ok(held)
}

// Whether each attribute is allowed.
fn are_allowed(schema: &Schema, class: ClassId, values: &[(AttrId, List<Bytes>)]) -> bool
    requires class { class.0 < length (classes_of schema.now) }
    requires attrs { AllByRecursion (λ attr. attr.0.0 < length (attrs_of schema.now)) values.now }
    ensures { result ≡ list_all (λ attr. is_allowed schema.now class.0 attr.0.0) values.now }
{
    'each: for attr in values {
        if !schema.allowed(class, attr.0) {
            return false;
        }
    }
    true
}

// Whether none that the class must have is missing among those that are given.
fn lacks_none(schema: &Schema, class: ClassId, given: &BTreeSet<u32>) -> bool
    requires { class.0 < length (classes_of schema.now) }
    ensures { result ≡ list_all (λ attr.
        not (is_lacking schema.now class.0 attr (contains nat_cmp given.now attr)))
        (all_attrs schema.now) }
{
    'each: for attr in 0..attr_count(schema) {
        if is_lacking(schema, class, AttrId(attr), is_in(given, attr)) {
            return false;
        }
    }
    true
}

// Whether none that the class must have is missing.
fn has_musts(
    alloc: Global,
    schema: &Schema,
    class: ClassId,
    values: &[(AttrId, List<Bytes>)],
) -> Result<bool, AllocError>
    requires { class.0 < length (classes_of schema.now) }
    ensures { IfOk result (λ has. has
        ≡ list_all (λ attr. not (is_lacking schema.now class.0 attr (add.is_given values.now attr)))
        (all_attrs schema.now)) }
{
    let given = given_of(alloc, values)?;
    Ok(lacks_none(schema, class, &given))
}

// ---- names and limits

// Whether no child of the parent has the name.
fn is_free(alloc: Global, dir: &Dir, parent: u32, name: &[u8]) -> Result<bool, AllocError>
    requires { IsValue name.now }
    ensures { IfOk result (λ free. free ≡ is_none (child_named dir.now.objects parent name.now)) }
{
    Ok(dir.child(alloc, parent, name)?.is_none())
}

// Whether there is a number for one more object, and an identifier where it gets one.
#[tactic(auto, unfolding(ad_dir_model::specs::Limits::max_counter))]
fn has_counters(dir: &Dir, gets_sid: bool) -> bool
    ensures { result ≡ (nat_lt dir.now.meta.next_number max_counter
        && (not gets_sid || nat_lt dir.now.meta.next_rid max_counter)) }
{
    let meta = dir.meta();
    meta.next_number < u32::MAX && (!gets_sid || meta.next_rid < u32::MAX)
}

// Whether its parent isn't too deep.
#[tactic(auto, unfolding(ad_dir_model::specs::Limits::max_depth))]
fn may_have_children(dir: &Dir, parent: u32) -> bool
    ensures { result ≡ nat_lt (depth_of (parents dir.now) parent) max_depth }
{
    depth(dir, parent) < MAX_DEPTH
}

// Whether one more object may be live.
#[tactic(auto, unfolding(ad_dir_model::specs::Limits::max_objects))]
fn are_few(dir: &Dir) -> bool
    ensures { result ≡ nat_lt (length dir.now.objects) max_objects }
{
    dir.len() < MAX_OBJECTS
}

fn all_four(a: bool, b: bool, c: bool, d: bool) -> bool
    ensures { result ≡ (a && (b && (c && d))) }
{
    a && (b && (c && d))
}

// Whether the limits let the object in, of which it is said whether it gets an identifier.
fn fits_in(dir: &Dir, object: &Object, gets_sid: bool) -> bool
    requires { IsSound dir.now }
    ensures { (o : ObjectValue) → IsNewObject dir.now o object.now gets_sid → result
        ≡ add.fits_in dir.now o }
{
    let few = are_few(dir);
    let shallow = may_have_children(dir, object.parent);
    let light = fits_weight_limit(dir, object);
    let counted = has_counters(dir, gets_sid);
    all_four(few, shallow, light, counted)
}

// ---- all checks

// Whether the class may stand below that of the parent.
fn may_stand(dir: &Dir, class: ClassId, parent: u32) -> bool
    requires { is_live dir.now.objects parent ≡ true }
    ensures { result ≡ is_under dir.now.schema class.0 (class_at dir.now parent) }
{
    let above = live_object(dir, parent);
    dir.schema().under(class, above.class)
}

// Those of what is sent, and the attributes with their values as the object has them.
fn judge_sent(
    alloc: Global,
    dir: &Dir,
    token: &Token,
    parent: u32,
    class: ClassId,
    values: &[(AttrId, List<Bytes>)],
    sd: &Option<SdParts>,
) -> Result<Held, Refusal>
    requires parent { is_live dir.now.objects parent ≡ true }
    requires class { class.0 < length (classes_of dir.now.schema) }
    requires attrs { AllByRecursion (λ attr. attr.0.0 < length (attrs_of dir.now.schema))
        values.now }
    ensures { Judges (sent_checks dir.now token.now parent class.0 values.now sd.now)
        (λ held. (map held_seen held.items ≡ add.all_held dir.now values.now)
        × AllByRecursion HasByteAttr values.now) result }
{
    if !is_owner_allowed(token, sd) {
        return Err(Refusal::Code(result_code::CONSTRAINT_VIOLATION));
    }
    if !may_stand(dir, class, parent) {
        return Err(Refusal::Code(result_code::NAMING_VIOLATION));
    }
    let read = judge_values(alloc, dir, values)?;
    let schema = dir.schema();
    if !are_allowed(schema, class, values) {
        return Err(Refusal::Code(result_code::OBJECT_CLASS_VIOLATION));
    }
    let has = has_musts(alloc, schema, class, values)?;
    if !has {
        return Err(Refusal::Code(result_code::OBJECT_CLASS_VIOLATION));
    }
    let held = all_held(alloc, read)?;
    Ok(held)
}

/// What an Add asks for: an object of this class and this naming value below a parent, with its values and the parts
/// of its descriptor that were sent.
#[derive(Drop)]
pub(crate) struct Adding<'a> {
    pub parent: u32,
    pub class: ClassId,
    pub name: &'a Bytes,
    pub values: &'a [(AttrId, List<Bytes>)],
    pub sd: &'a Option<SdParts>,
}

// All of them, and the object with its number and its identifier.
fn judge_add(alloc: Global, dir: &Dir, token: &Token, added: &Adding<'_>) -> Result<Object, Refusal>
    requires sound { IsSound dir.now }
    requires parent { is_live dir.now.objects added.now.parent ≡ true }
    requires class { added.now.class.0 < length (classes_of dir.now.schema) }
    requires name { IsValue added.now.name.now }
    requires attrs { AllByRecursion (λ attr. attr.0.0 < length (attrs_of dir.now.schema))
        added.now.values.now }
    ensures { Judges (add.add_later dir.now token.now added.now.parent added.now.class.0
        added.now.name.now added.now.values.now added.now.sd.now)
        (λ object. IsNewObject dir.now
        (add.new_object dir.now token.now added.now.parent added.now.class.0
        added.now.name.now added.now.values.now added.now.sd.now) object
        (is_some (new_sid dir.now added.now.class.0))
        × AllByRecursion HasByteAttr added.now.values.now) result }
{
    let parent = added.parent;
    let class = added.class;
    let held = judge_sent(alloc, dir, token, parent, class, added.values, added.sd)?;
    let free = is_free(alloc, dir, parent, added.name.as_slice())?;
    if !free {
        return Err(Refusal::Code(result_code::ENTRY_ALREADY_EXISTS));
    }
    let object = new_object(alloc, dir, parent, class, added.name, held)?;
    let gets = gets_sid(dir, class);
    if !fits_in(dir, &object, gets) {
        return Err(Refusal::Code(result_code::ADMIN_LIMIT_EXCEEDED));
    }
    Ok(object)
}

// ---- the plan

/// What an Add answers or makes.
pub(crate) fn add_plan(
    alloc: Global,
    dir: &Dir,
    token: &Token,
    added: &Adding<'_>,
) -> Result<Plan, AllocError>
    requires sound { IsSound dir.now }
    requires resolved { Resolves dir.now token.now
        (Act.Add added.now.parent added.now.class added.now.name.now added.now.values.now
        added.now.sd.now) }
    ensures { IfOk result (IsPlan dir.now token.now
        (Act.Add added.now.parent added.now.class added.now.name.now added.now.values.now
        added.now.sd.now)) }
{
    domain_is_sid(dir);
    match judge_add(alloc, dir, token, added) {
        Ok(object) => {
            let edits = new_edits(alloc, dir, token, object, added.sd)?;
            Ok(Plan::Edits(edits))
        }
        Err(why) => {
            let code = code_of(why)?;
            Ok(Plan::Refused(code))
        }
    }
}
