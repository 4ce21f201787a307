//! The lines of one object: its values and its descriptor.

ghost use Rattle.std.specs.Prelude.{◌≡◌, ◌<◌, ◌==◌, map, length, codes, false, IfOk, OnOk};
ghost use Rattle.ad_schema_classes.specs.Names.{same_name};
ghost use Rattle.ad_bytes.specs.Reading.{GivesUnless, or_fault};
ghost use Rattle.ad_sd.specs.Reading.{sd_of};
ghost use Rattle.ad_schema.specs.Attributes.{attrs_of};
ghost use Rattle.ad_schema.specs.Classes.{classes_of, naming_of};
ghost use Rattle.ad_load_records.specs.declared.fault.LoadCause.TheVariants as cause;
ghost use Rattle.ad_load_records.specs.Faults.{at, is_memory};
ghost use Rattle.ad_load_records.specs.Seen.{bytes_of, held_field};
ghost use Rattle.ad_load_objects.specs.Had.{PutsUnless};
ghost use Rattle.ad_load_objects.specs.Objects.{nothing_kept, with_sd, is_dropped, value_of};
ghost use Rattle.ad_dir_model.specs.Attributes.{is_single};
ghost use Rattle.ad_load_objects.specs.Objects.{is_one_too_many, is_sid_taken, with_value, with_ordinary, with_line};
ghost use Rattle.ad_load_objects.specs.Objects.{with_lines};
ghost use Rattle.ad_load_objects.specs.Index.{drafts_seen, HasSids};
ghost use Rattle.ad_load_objects.specs.Found.{AreFound};
ghost use Rattle.ad_load_objects.specs.Seen.{given_seen};
ghost use Rattle.ad_load_objects.specs.KeptSeen.{kept_seen};

use crate::attributes::is_of_sids;
use crate::drafts::{Drafts, Given};
use crate::found::{Found, attr_of};
use crate::index::is_sid_used;
use crate::kept_values::Values;
use crate::repeated::{ReadSd, read_again};
use ad_bytes::Bytes;
use ad_dir_objects::{digest_value, is_password, is_single, sid_of};
use ad_load_records::{HeldLine, LoadCause, LoadFault, bad};
use ad_schema::{AttrId, ClassId, Schema};
use ad_schema_classes::same_name;
use ad_sd::{NormalSd, SdFault};
use ad_value::{Value, ValueFault, normal};
use std::alloc::{AllocError, Global};
use std::rc::Rc;

/// What the lines so far gave.
#[derive(Drop)]
pub(crate) struct DraftValues {
    pub(crate) given: Values,
    pub(crate) sd: Option<Rc<NormalSd>>,
}

// The fault of a value at a line of this name, or want of memory.
fn bad_value(alloc: Global, line: u32, name: &Bytes) -> LoadFault
    ensures { is_memory result ≡ false → result ≡ at line (cause.Value name.now) }
{
    match name.copy(alloc) {
        Ok(name) => bad(line, LoadCause::Value(name)),
        Err(_) => LoadFault::Memory,
    }
}

// The same where there is no attribute of the name.
fn bad_attribute(alloc: Global, field: &HeldLine) -> LoadFault
    ensures { is_memory result ≡ false → result
        ≡ at field.now.line (cause.Attribute field.now.name) }
{
    match field.name.copy(alloc) {
        Ok(name) => bad(field.line, LoadCause::Attribute(name)),
        Err(_) => LoadFault::Memory,
    }
}

// ---- the descriptor

fn read_descriptor(
    alloc: Global,
    last: &mut Option<ReadSd>,
    field: &HeldLine,
) -> Result<Rc<NormalSd>, LoadFault>
    ensures { GivesUnless is_memory (λ sd. sd.value) result
        (or_fault (at field.now.line cause.Descriptor) (sd_of (bytes_of field.now.held))) }
{
    match read_again(alloc, last, field.value()) {
        Ok(sd) => Ok(sd),
        Err(SdFault::Memory) => Err(LoadFault::Memory),
        Err(_) => Err(bad(field.line, LoadCause::Descriptor)),
    }
}

// Keeps the descriptor of a line, the first one.
#[tactic(auto, unfolding(crate::specs::Objects::with_sd))]
fn take_sd(
    alloc: Global,
    last: &mut Option<ReadSd>,
    kept: &mut DraftValues,
    field: &HeldLine,
) -> Result<(), LoadFault>
    ensures { GivesUnless is_memory (λ _. kept_seen kept.new) result
        (with_sd (kept_seen kept.old) (held_field field.now)) }
{
    if kept.sd.is_some() {
        return Err(bad(field.line, LoadCause::Descriptor));
    }
    let sd = read_descriptor(alloc, last, field)?;
    kept.sd = Some(sd);
    Ok(())
}

// ---- one value

// Whether the line of an attribute isn't looked at.
#[tactic(auto, unfolding(crate::specs::Objects::is_dropped))]
fn is_dropped(schema: &Schema, class: ClassId, attr: AttrId, name: &[u8]) -> bool
    requires class { class.0 < length (classes_of schema.now) }
    requires attr { attr.0 < length (attrs_of schema.now) }
    ensures { result ≡ is_dropped schema.now class.0 attr.0 name.now }
{
    same_name(name, b"objectClass")
        || same_name(name, b"distinguishedName")
        || same_name(name, b"name")
        || is_naming(schema, class, attr)
        || schema.is_back_link(attr)
}

fn is_naming(schema: &Schema, class: ClassId, attr: AttrId) -> bool
    requires class { class.0 < length (classes_of schema.now) }
    ensures { result ≡ (naming_of schema.now class.0 == attr.0) }
{
    schema.class_info(class).naming.0 == attr.0
}

#[tactic(auto, unfolding(crate::specs::Objects::value_of, ad_dir_model::specs::Attributes::syntax_at))]
fn value_of(
    alloc: Global,
    schema: &Schema,
    attr: AttrId,
    field: &HeldLine,
) -> Result<Value, LoadFault>
    requires { attr.0 < length (attrs_of schema.now) }
    ensures { GivesUnless is_memory (λ value. value) result
        (value_of schema.now attr.0 (held_field field.now)) }
{
    if is_password(schema, attr) {
        return Ok(digest_value(alloc, field.value())?);
    }
    match normal(alloc, schema.attr_info(attr).syntax, field.value()) {
        Ok(value) => Ok(value),
        Err(ValueFault::Memory) => Err(LoadFault::Memory),
        Err(_) => Err(bad_value(alloc, field.line, &field.name)),
    }
}

// PutsOnce a value after the others, or gives it back where it is one too many.
fn put_value(
    alloc: Global,
    schema: &Schema,
    given: &mut Values,
    one: Given,
) -> Result<Option<Given>, AllocError>
    requires { one.attr.0 < length (attrs_of schema.now) }
    ensures { IfOk result (PutsUnless (is_one_too_many schema.now given.old one.attr.0 one.value)
        (given_seen one) given.old given.new) }
{
    let single = is_single(schema, one.attr);
    given.push(alloc, single, one)
}

// Whether the value is the first of objectSid, and an object has that identifier already.
#[tactic(auto, unfolding(crate::specs::Objects::is_sid_taken))]
fn is_sid_taken(
    schema: &Schema,
    drafts: &Drafts,
    given: &Values,
    attr: AttrId,
    value: &Value,
) -> bool
    requires attr { attr.0 < length (attrs_of schema.now) }
    requires sids { HasSids schema.now drafts.now }
    ensures { result ≡ is_sid_taken schema.now (drafts_seen drafts.now) given.now attr.0 value.now }
{
    is_of_sids(schema, attr)
        && !given.is_given(attr)
        && is_sid_used(schema, drafts, sid_of(value.shown()).as_ref())
}

#[tactic(auto, unfolding(crate::specs::Objects::with_value))]
fn take_value(
    alloc: Global,
    schema: &Schema,
    drafts: &Drafts,
    kept: &mut DraftValues,
    attr: AttrId,
    field: HeldLine,
) -> Result<(), LoadFault>
    requires attr { attr.0 < length (attrs_of schema.now) }
    requires sids { HasSids schema.now drafts.now }
    ensures { GivesUnless is_memory (λ _. kept_seen kept.new) result
        (with_value schema.now (drafts_seen drafts.now) (kept_seen kept.old) attr.0
        (held_field field)) }
{
    let line = field.line;
    let value = value_of(alloc, schema, attr, &field)?;
    let taken = is_sid_taken(schema, drafts, &kept.given, attr, &value);
    let one = Given {
        line,
        spelled: field.name,
        attr,
        value,
    };
    if let Some(again) = put_value(alloc, schema, &mut kept.given, one)? {
        return Err(bad_value(alloc, again.line, &again.spelled));
    }
    if taken {
        return Err(bad(line, LoadCause::Sid));
    }
    Ok(())
}

// ---- one line

#[tactic(auto, unfolding(crate::specs::Objects::with_ordinary))]
fn take_ordinary(
    alloc: Global,
    schema: &Schema,
    drafts: &Drafts,
    found: &mut Vec<Found>,
    class: ClassId,
    kept: &mut DraftValues,
    field: HeldLine,
) -> Result<(), LoadFault>
    requires class { class.0 < length (classes_of schema.now) }
    requires sids { HasSids schema.now drafts.now }
    requires found { AreFound schema.now found.old.items }
    ensures made { GivesUnless is_memory (λ _. kept_seen kept.new) result
        (with_ordinary schema.now (drafts_seen drafts.now) class.0 (kept_seen kept.old)
        (held_field field)) }
    ensures found { OnOk result (AreFound schema.now found.new.items) }
{
    match attr_of(alloc, schema, found, field.name.as_slice())? {
        Some(attr) => {
            if is_dropped(schema, class, attr, field.name.as_slice()) {
                return Ok(());
            }
            take_value(alloc, schema, drafts, kept, attr, field)
        }
        None => Err(bad_attribute(alloc, &field)),
    }
}

// Whether a line is of the attribute of descriptors.
fn is_descriptor(field: &HeldLine) -> bool
    ensures { result ≡ same_name (held_field field.now).name (codes "nTSecurityDescriptor") }
{
    same_name(field.name.as_slice(), b"nTSecurityDescriptor")
}

#[tactic(auto, unfolding(crate::specs::Objects::with_line))]
fn take_line(
    alloc: Global,
    schema: &Schema,
    drafts: &Drafts,
    last: &mut Option<ReadSd>,
    found: &mut Vec<Found>,
    class: ClassId,
    kept: &mut DraftValues,
    field: HeldLine,
) -> Result<(), LoadFault>
    requires class { class.0 < length (classes_of schema.now) }
    requires sids { HasSids schema.now drafts.now }
    requires found { AreFound schema.now found.old.items }
    ensures made { GivesUnless is_memory (λ _. kept_seen kept.new) result
        (with_line schema.now (drafts_seen drafts.now) class.0 (kept_seen kept.old)
        (held_field field)) }
    ensures found { OnOk result (AreFound schema.now found.new.items) }
{
    if is_descriptor(&field) {
        return take_sd(alloc, last, kept, &field);
    }
    take_ordinary(alloc, schema, drafts, found, class, kept, field)
}

// Nothing yet, with room for so many values.
fn nothing_kept(alloc: Global, room: usize) -> Result<DraftValues, AllocError>
    ensures { IfOk result (λ kept. kept_seen kept ≡ nothing_kept) }
{
    Ok(DraftValues {
        given: Values::with_room(alloc, room)?,
        sd: None,
    })
}

/// The values and the descriptor of an object of the class, after these objects. `last` is the last descriptor that
/// was read, `found` what was found last by names of attributes.
#[tactic(auto, unfolding(crate::specs::Objects::with_lines))]
pub(crate) fn take_lines(
    alloc: Global,
    schema: &Schema,
    drafts: &Drafts,
    last: &mut Option<ReadSd>,
    found: &mut Vec<Found>,
    class: ClassId,
    fields: Vec<HeldLine>,
) -> Result<DraftValues, LoadFault>
    requires class { class.0 < length (classes_of schema.now) }
    requires sids { HasSids schema.now drafts.now }
    requires found { AreFound schema.now found.old.items }
    ensures made { GivesUnless is_memory kept_seen result
        (with_lines schema.now (drafts_seen drafts.now) class.0 (map held_field fields.items)) }
    ensures found { OnOk result (AreFound schema.now found.new.items) }
{
    let mut kept = nothing_kept(alloc, fields.len())?;
    for field in fields {
        take_line(alloc, schema, drafts, last, found, class, &mut kept, field)?;
    }
    Ok(kept)
}
