//! Modify: the checks of each item.

ghost use Rattle.std.specs.Prelude.{◌≡◌, ◌==◌, ◌<◌, ℕ, true, false, length, IfOk};
ghost use Rattle.std.specs.Option.{option_map_or};
ghost use Rattle.std.specs.List.{flat_map};
ghost use Rattle.ad_schema.specs.Attributes.{attrs_of};
ghost use Rattle.ad_schema.specs.Classes.{naming_of};
ghost use Rattle.ad_dir_model.specs.Objects.{is_live};
ghost use Rattle.ad_needs_rules.specs.Requests.{class_at, is_descriptor};
ghost use Rattle.ad_needs_rules.specs.Descriptors.{has_part, has_asked_part};
ghost use Rattle.ad_needs_rules.specs.Modifying.{items_of, ordinary_checks, descriptor_checks, item_checks};
ghost use Rattle.ad_needs.specs.Decoding.{AreDecoded, attr_of};
ghost use Rattle.ad_needs_rules.specs.Judged.{refusal_of};
ghost use Rattle.ad_needs.specs.ItemWords.{is_kept_from_all, placed_checks};

use crate::decoding::{Decoded, attr_at};
use crate::items::{has_its_form, replaces_alone};
use crate::sent::is_object_sid;
use ad_dir::{Dir, naming_of};
use ad_ldap::{Item, result_code};
use ad_needs_rules::{Verdict, has_owner_or_group, is_descriptor};
use ad_schema::{AttrId, Schema};
use ad_schema_classes::same_name;
use ad_sd::SdParts;
use std::alloc::{AllocError, Global};

// Whether the attribute is the naming attribute of a live object.
fn is_naming(dir: &Dir, number: u32, attr: AttrId) -> bool
    requires { is_live dir.now.objects number ≡ true }
    ensures { result ≡ (naming_of dir.now.schema (class_at dir.now number) == attr.0) }
{
    naming_of(dir, number).0 == attr.0
}

fn is_kept_from_all(schema: &Schema, name: &[u8], attr: AttrId) -> bool
    requires { attr.0 < length (attrs_of schema.now) }
    ensures { result ≡ is_kept_from_all schema.now name.now attr.0 }
{
    same_name(name, b"distinguishedName")
        || (same_name(name, b"name") || (is_object_sid(schema, attr) || schema.is_back_link(attr)))
}

// The refusal of an item of an attribute of the schema.
#[tactic(auto, unfolding(ad_needs_rules::specs::Judged::refusal_of, ad_needs_rules::specs::Checks::first_failing))]
fn placed_refusal(
    alloc: Global,
    dir: &Dir,
    number: u32,
    items: &[Item],
    name: &[u8],
    attr: AttrId,
) -> Result<Option<Verdict>, AllocError>
    requires live { is_live dir.now.objects number ≡ true }
    requires attr { attr.0 < length (attrs_of dir.now.schema) }
    ensures { IfOk result (λ refusal. refusal
        ≡ refusal_of (placed_checks dir.now number items.now name.now attr.0)) }
{
    if same_name(name, b"objectClass") {
        return Ok(Some(Verdict::Refused(result_code::OBJECT_CLASS_MODS_PROHIBITED)));
    }
    if is_naming(dir, number, attr) {
        return Ok(Some(Verdict::Refused(result_code::NOT_ALLOWED_ON_RDN)));
    }
    if is_kept_from_all(dir.schema(), name, attr) {
        return Ok(Some(Verdict::Refused(result_code::UNWILLING_TO_PERFORM)));
    }
    if has_its_form(alloc, items, name)? {
        return Ok(None);
    }
    Ok(Some(Verdict::Refused(result_code::UNWILLING_TO_PERFORM)))
}

// The refusal of an item of an attribute other than the descriptor.
fn ordinary_refusal(
    alloc: Global,
    dir: &Dir,
    number: u32,
    items: &[Item],
    item: &Item,
    attr: Option<AttrId>,
) -> Result<Option<Verdict>, AllocError>
    requires live { is_live dir.now.objects number ≡ true }
    requires attr { attr ≡ attr_of dir.now.schema item.now }
    ensures { IfOk result (λ refusal. refusal
        ≡ refusal_of (ordinary_checks dir.now number items.now item.now)) }
{
    let name = item.attr.as_slice();
    match attr {
        Some(attr) => placed_refusal(alloc, dir, number, items, name, attr),
        None => Ok(Some(Verdict::Refused(result_code::UNDEFINED_ATTRIBUTE_TYPE))),
    }
}

// Whether a part is written.
fn writes_part(sd: &Option<SdParts>) -> bool
    ensures { result ≡ option_map_or has_part sd.now false }
{
    match sd {
        Some(parts) => { has_owner_or_group(parts) || parts.dacl.is_some() || parts.sacl.is_some() }
        None => false,
    }
}

// The refusal of an item of the descriptor, of which it is said whether it has a part where no other is of it.
fn descriptor_refusal(
    alloc: Global,
    items: &[Item],
    item: &Item,
    has_part: bool,
) -> Result<Option<Verdict>, AllocError>
    ensures { (flags : ℕ)
        → (length (items_of items.now item.now.attr) ≡ 1 → has_part ≡ has_asked_part flags item.now.values)
        → IfOk result (λ refusal. refusal ≡ refusal_of (descriptor_checks flags items.now item.now)) }
{
    let alone = replaces_alone(alloc, items, item)?;
    if !alone {
        return Ok(Some(Verdict::Refused(result_code::UNWILLING_TO_PERFORM)));
    }
    if has_part {
        return Ok(None);
    }
    Ok(Some(Verdict::Refused(result_code::CONSTRAINT_VIOLATION)))
}

fn item_refusal(
    alloc: Global,
    dir: &Dir,
    number: u32,
    decoded: &Decoded<'_>,
    item: &Item,
    attr: Option<AttrId>,
) -> Result<Option<Verdict>, AllocError>
    requires live { is_live dir.now.objects number ≡ true }
    requires attr { attr ≡ attr_of dir.now.schema item.now }
    requires sole { is_descriptor item.now.attr ≡ true
        → length (items_of decoded.now.items.now item.now.attr) ≡ 1
        → option_map_or has_part decoded.now.sd false
        ≡ has_asked_part decoded.now.flags item.now.values }
    ensures { IfOk result (λ refusal. refusal
        ≡ refusal_of (item_checks dir.now number decoded.now.flags decoded.now.items.now item.now)) }
{
    if is_descriptor(item.attr.as_slice()) {
        return descriptor_refusal(alloc, decoded.items, item, writes_part(&decoded.sd));
    }
    ordinary_refusal(alloc, dir, number, decoded.items, item, attr)
}

/// The refusal of the first item that fails a check of its own.
///
/// # Errors
///
/// Memory ran out.
pub(crate) fn items_refusal(
    alloc: Global,
    dir: &Dir,
    number: u32,
    decoded: &Decoded<'_>,
) -> Result<Option<Verdict>, AllocError>
    requires live { is_live dir.now.objects number ≡ true }
    requires decoded { AreDecoded dir.now.schema decoded.now.items.now decoded.now.flags
        decoded.now.attrs.items decoded.now.sd }
    ensures { IfOk result (λ refusal. refusal
        ≡ refusal_of (flat_map
        (item_checks dir.now number decoded.now.flags decoded.now.items.now) decoded.now.items.now)) }
{
    let items = decoded.items;
    'each: for i in 0..items.len() {
        let item = &items[i];
        let attr = attr_at(decoded, i);
        if let Some(verdict) = item_refusal(alloc, dir, number, decoded, item, attr)? {
            return Ok(Some(verdict));
        }
    }
    Ok(None)
}
