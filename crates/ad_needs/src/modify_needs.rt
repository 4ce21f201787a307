//! Modify: what it needs.

ghost use Rattle.std.specs.Prelude.{◌≡◌, ◌<◌, ◌∷◌, [], true, map, length, IfOk};
ghost use Rattle.ad_schema.specs.Attributes.{attrs_of, attr_named};
ghost use Rattle.ad_dir_model.specs.Objects.{is_live};
ghost use Rattle.ad_dir_model.specs.Attributes.{attr_place};
ghost use Rattle.ad_needs_rules.specs.Checks.{all_met};
ghost use Rattle.ad_needs_rules.specs.Modifying.{written_sd, need_if, parts_needs, descriptor_needs, password_needs};
ghost use Rattle.ad_needs_rules.specs.Modifying.{attr_needs, ordinary_needs, items_of, modify_needs};
ghost use Rattle.ad_needs_rules.specs.Judged.{bit_of, asked, refusal_of};
ghost use Rattle.ad_needs.specs.Steps.{Steps};
ghost use Rattle.ad_needs.specs.ItemWords.{needs_if, named_needs};
ghost use Rattle.ad_needs.specs.Decoding.{AreDecoded};

use crate::decoding::{Decoded, attr_at};
use crate::first_named::{is_first, none_named};
use crate::items::{is_forced, items_of};
use crate::trying::{Trace, keep_success, require, require_either};
use ad_access_dir::{is_password, password_right};
use ad_dir::Dir;
use ad_ids::Token;
use ad_ldap::Item;
use ad_needs_rules::{
    Ask, Right, Verdict, asked_in, has_owner_or_group, is_descriptor, is_granted, on_object, to_do,
    to_write, validated_write,
};
use ad_schema::AttrId;
use ad_sd::SdParts;
use ad_types::Path;
use std::alloc::{AllocError, Global};

// ---- the descriptor

/// The parts of the descriptor that are written: those that are asked for, in the first item of it.
///
/// # Errors
///
/// Memory ran out.
pub(crate) fn written_sd(
    alloc: Global,
    items: &[Item],
    flags: u8,
) -> Result<Option<SdParts>, AllocError>
    ensures { IfOk result (λ sd. sd ≡ written_sd items.now flags) }
{
    'each: for item in items {
        if is_descriptor(item.attr.as_slice()) {
            return asked_in(alloc, item.values.as_slice(), flags);
        }
    }
    Ok(None)
}

// The refusal where a part is written and the right isn't granted.
#[tactic(auto, unfolding(ad_needs_rules::specs::Judged::refusal_of, ad_needs_rules::specs::Checks::first_failing))]
fn require_if_written(
    alloc: Global,
    dir: &Dir,
    token: &Token,
    number: u32,
    is_written: bool,
    right: Right,
    trace: &mut Trace,
) -> Result<Option<Verdict>, AllocError>
    requires { is_live dir.now.objects number ≡ true }
    ensures refusal { IfOk result (λ refusal. refusal
        ≡ refusal_of (all_met dir.now token.now (need_if is_written number (bit_of right)))) }
    ensures steps { IfOk result (λ refusal. Steps dir.now token.now trace.old
        (need_if is_written number (bit_of right)) trace.new refusal) }
{
    if !is_written {
        return Ok(None);
    }
    require(alloc, dir, token, &on_object(number, right), trace)
}

fn parts_refusal(
    alloc: Global,
    dir: &Dir,
    token: &Token,
    number: u32,
    parts: &SdParts,
    trace: &mut Trace,
) -> Result<Option<Verdict>, AllocError>
    requires { is_live dir.now.objects number ≡ true }
    ensures refusal { IfOk result (λ refusal. refusal
        ≡ refusal_of (all_met dir.now token.now (parts_needs number parts.now))) }
    ensures steps { IfOk result (λ refusal. Steps dir.now token.now trace.old
        (parts_needs number parts.now) trace.new refusal) }
{
    let is_owned = has_owner_or_group(parts);
    if let Some(owner) = require_if_written(
        alloc,
        dir,
        token,
        number,
        is_owned,
        Right::WriteOwner,
        trace,
    )? {
        return Ok(Some(owner));
    }
    let has_list = parts.dacl.is_some();
    if let Some(list) = require_if_written(
        alloc,
        dir,
        token,
        number,
        has_list,
        Right::WriteDac,
        trace,
    )? {
        return Ok(Some(list));
    }
    let is_audited = parts.sacl.is_some();
    require_if_written(
        alloc,
        dir,
        token,
        number,
        is_audited,
        Right::SystemSecurity,
        trace,
    )
}

#[tactic(auto, unfolding(ad_needs_rules::specs::Judged::refusal_of, ad_needs_rules::specs::Checks::first_failing))]
fn descriptor_refusal(
    alloc: Global,
    dir: &Dir,
    token: &Token,
    number: u32,
    sd: &Option<SdParts>,
    trace: &mut Trace,
) -> Result<Option<Verdict>, AllocError>
    requires { is_live dir.now.objects number ≡ true }
    ensures refusal { IfOk result (λ refusal. refusal
        ≡ refusal_of (all_met dir.now token.now (descriptor_needs number sd.now))) }
    ensures steps { IfOk result (λ refusal. Steps dir.now token.now trace.old
        (descriptor_needs number sd.now) trace.new refusal) }
{
    match sd {
        Some(parts) => parts_refusal(alloc, dir, token, number, parts, trace),
        None => Ok(None),
    }
}

// ---- passwords

// The right to write a password by the items of its name.
fn to_set_password(
    alloc: Global,
    number: u32,
    items: &[Item],
    name: &[u8],
) -> Result<Ask, AllocError>
    ensures object { IfOk result (λ ask. ask.object ≡ number) }
    ensures asked { IfOk result (λ ask. (asked ask ∷ []) ∷ []
        ≡ password_needs number (items_of items.now name.now)) }
{
    let own = items_of(alloc, items, name)?;
    Ok(Ask {
        object: number,
        right: Right::ControlAccess,
        path: Path::one(password_right(is_forced(own.as_slice()))),
    })
}

fn password_refusal(
    alloc: Global,
    dir: &Dir,
    token: &Token,
    number: u32,
    items: &[Item],
    name: &[u8],
    trace: &mut Trace,
) -> Result<Option<Verdict>, AllocError>
    requires { is_live dir.now.objects number ≡ true }
    ensures refusal { IfOk result (λ refusal. refusal
        ≡ refusal_of (all_met dir.now token.now
        (password_needs number (items_of items.now name.now)))) }
    ensures steps { IfOk result (λ refusal. Steps dir.now token.now trace.old
        (password_needs number (items_of items.now name.now)) trace.new refusal) }
{
    let ask = to_set_password(alloc, number, items, name)?;
    require(alloc, dir, token, &ask, trace)
}

// ---- attributes

// The refusal where neither the right to write the attribute is granted nor that of a validated write, by all of
// its items.
fn unless_validated(
    alloc: Global,
    dir: &Dir,
    token: &Token,
    number: u32,
    attr: AttrId,
    items: &[&Item],
    trace: &mut Trace,
) -> Result<Option<Verdict>, AllocError>
    requires live { is_live dir.now.objects number ≡ true }
    requires attr { attr.0 < length (attrs_of dir.now.schema) }
    ensures refusal { IfOk result (λ refusal. refusal
        ≡ refusal_of (all_met dir.now token.now
        (attr_needs dir.now token.now number attr.0 (map (λ item. item.now) items.now)))) }
    ensures steps { IfOk result (λ refusal. Steps dir.now token.now trace.old
        (attr_needs dir.now token.now number attr.0 (map (λ item. item.now) items.now)) trace.new
        refusal) }
{
    let write = to_write(dir, number, attr);
    match validated_write(alloc, dir, token, number, attr, items)? {
        Some(guid) => require_either(alloc, dir, token, &write, &to_do(number, guid), trace),
        None => require(alloc, dir, token, &write, trace),
    }
}

// Its items are looked for only where the right to write isn't granted.
fn attr_refusal(
    alloc: Global,
    dir: &Dir,
    token: &Token,
    number: u32,
    attr: AttrId,
    items: &[Item],
    name: &[u8],
    trace: &mut Trace,
) -> Result<Option<Verdict>, AllocError>
    requires live { is_live dir.now.objects number ≡ true }
    requires attr { attr.0 < length (attrs_of dir.now.schema) }
    ensures refusal { IfOk result (λ refusal. refusal
        ≡ refusal_of (all_met dir.now token.now
        (attr_needs dir.now token.now number attr.0 (items_of items.now name.now)))) }
    ensures steps { IfOk result (λ refusal. Steps dir.now token.now trace.old
        (attr_needs dir.now token.now number attr.0 (items_of items.now name.now)) trace.new
        refusal) }
{
    let write = to_write(dir, number, attr);
    if is_granted(dir, token, &write) {
        keep_success(trace, &write)?;
        return Ok(None);
    }
    let own = items_of(alloc, items, name)?;
    unless_validated(alloc, dir, token, number, attr, own.as_slice(), trace)
}

#[tactic(auto, unfolding(ad_needs_rules::specs::Judged::refusal_of, ad_needs_rules::specs::Checks::first_failing))]
fn ordinary_refusal(
    alloc: Global,
    dir: &Dir,
    token: &Token,
    number: u32,
    items: &[Item],
    name: &[u8],
    attr: Option<AttrId>,
    trace: &mut Trace,
) -> Result<Option<Verdict>, AllocError>
    requires live { is_live dir.now.objects number ≡ true }
    requires attr { attr ≡ attr_named dir.now.schema name.now }
    ensures refusal { IfOk result (λ refusal. refusal
        ≡ refusal_of (all_met dir.now token.now
        (ordinary_needs dir.now token.now number (items_of items.now name.now)
        (attr_place dir.now.schema name.now)))) }
    ensures steps { IfOk result (λ refusal. Steps dir.now token.now trace.old
        (ordinary_needs dir.now token.now number (items_of items.now name.now)
        (attr_place dir.now.schema name.now)) trace.new refusal) }
{
    match attr {
        Some(attr) => attr_refusal(alloc, dir, token, number, attr, items, name, trace),
        None => Ok(None),
    }
}

// ---- items

// What an item needs, where it is the first of its attribute.
#[tactic(auto, unfolding(ad_needs_rules::specs::Judged::refusal_of, ad_needs_rules::specs::Checks::first_failing))]
fn refusal_if(
    alloc: Global,
    dir: &Dir,
    token: &Token,
    number: u32,
    decoded: &Decoded<'_>,
    name: &[u8],
    attr: Option<AttrId>,
    is_first: bool,
    trace: &mut Trace,
) -> Result<Option<Verdict>, AllocError>
    requires live { is_live dir.now.objects number ≡ true }
    requires attr { attr ≡ attr_named dir.now.schema name.now }
    requires sd { decoded.now.sd ≡ written_sd decoded.now.items.now decoded.now.flags }
    ensures refusal { IfOk result (λ refusal. refusal
        ≡ refusal_of (all_met dir.now token.now
        (needs_if is_first (named_needs dir.now token.now number decoded.now.flags
        decoded.now.items.now name.now)))) }
    ensures steps { IfOk result (λ refusal. Steps dir.now token.now trace.old
        (needs_if is_first (named_needs dir.now token.now number decoded.now.flags
        decoded.now.items.now name.now)) trace.new refusal) }
{
    if !is_first {
        return Ok(None);
    }
    if is_descriptor(name) {
        return descriptor_refusal(alloc, dir, token, number, &decoded.sd, trace);
    }
    if is_password(name) {
        return password_refusal(alloc, dir, token, number, decoded.items, name, trace);
    }
    ordinary_refusal(alloc, dir, token, number, decoded.items, name, attr, trace)
}

/// The refusal for the first required right that is missing.
///
/// # Errors
///
/// Memory ran out.
pub(crate) fn needs_refusal(
    alloc: Global,
    dir: &Dir,
    token: &Token,
    number: u32,
    decoded: &Decoded<'_>,
    trace: &mut Trace,
) -> Result<Option<Verdict>, AllocError>
    requires live { is_live dir.now.objects number ≡ true }
    requires decoded { AreDecoded dir.now.schema decoded.now.items.now decoded.now.flags
        decoded.now.attrs.items decoded.now.sd }
    ensures refusal { IfOk result (λ refusal. refusal
        ≡ refusal_of (all_met dir.now token.now
        (modify_needs dir.now token.now number decoded.now.flags decoded.now.items.now))) }
    ensures steps { IfOk result (λ refusal. Steps dir.now token.now trace.old
        (modify_needs dir.now token.now number decoded.now.flags decoded.now.items.now) trace.new
        refusal) }
{
    let items = decoded.items;
    let mut named = none_named(alloc, dir.schema())?;
    'each: for i in 0..items.len() {
        let item = &items[i];
        let attr = attr_at(decoded, i);
        let first = is_first(dir.schema(), named.as_mut_slice(), &items[..i], item, attr);
        let name = item.attr.as_slice();
        if let Some(verdict) = refusal_if(
            alloc, dir, token, number, decoded, name, attr, first, trace,
        )? {
            return Ok(Some(verdict));
        }
    }
    Ok(None)
}
