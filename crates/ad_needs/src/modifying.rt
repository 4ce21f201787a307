//! Modify: its checks up to the required rights.

ghost use Rattle.std.specs.Prelude.{◌≡◌, ◌++◌, true, List, length, map, option_to_list, IfOk, OnOk};
ghost use Rattle.ad_ldap.specs.MessageValue.{ModifyOf};
ghost use Rattle.ad_schema.specs.declared.line.SchemaRecord.{SchemaRecord};
ghost use Rattle.ad_dir_model.specs.Directory.{Directory};
ghost use Rattle.ad_dir_model.specs.Objects.{is_live};
ghost use Rattle.ad_needs_rules.specs.Modifying.{act_item, act_items};
ghost use Rattle.ad_needs_rules.specs.Verdicts.{verdict_of};
ghost use Rattle.ad_needs.specs.ItemWords.{act_at, verdict_at, verdict_named};
ghost use Rattle.ad_needs.specs.Decoding.{AreDecoded, attr_of};

use crate::decoding::{Decoded, attr_at, decode};
use crate::item_checks::items_refusal;
use crate::modify_needs::needs_refusal;
use crate::sent::copies;
use crate::trying::no_trace;
use ad_bytes::List;
use ad_dir::{Act, ActItem, Dir};
use ad_dn::Dn;
use ad_ids::Token;
use ad_ldap::{Item, Modify, Settings, result_code};
use ad_needs_rules::{Verdict, is_descriptor, matched, read_name, visible};
use ad_schema::AttrId;
use std::alloc::{AllocError, Global};

// ---- what is asked for

fn act_item(alloc: Global, item: &Item, attr: Option<AttrId>) -> Result<Option<ActItem>, AllocError>
    ensures { (schema : List SchemaRecord) → attr ≡ attr_of schema item.now
        → IfOk result (λ act. act ≡ act_item schema item.now) }
{
    if is_descriptor(item.attr.as_slice()) {
        return Ok(None);
    }
    match attr {
        Some(attr) => Ok(Some(ActItem {
            op: item.op,
            attr,
            values: copies(alloc, item.values.as_slice())?,
        })),
        None => Ok(None),
    }
}

fn push_if(all: &mut List<ActItem>, item: Option<ActItem>) -> Result<(), AllocError>
    ensures { OnOk result (all.new ≡ all.old ++ option_to_list item) }
{
    match item {
        Some(item) => all.push(item),
        None => Ok(()),
    }
}

// The items by the places of their attributes, but for those of the descriptor.
fn act_items(alloc: Global, decoded: &Decoded<'_>) -> Result<List<ActItem>, AllocError>
    requires { length decoded.now.attrs.items ≡ length decoded.now.items.now }
    ensures { (schema : List SchemaRecord)
        → decoded.now.attrs.items ≡ map (attr_of schema) decoded.now.items.now
        → IfOk result (λ all. all ≡ act_items schema decoded.now.items.now) }
{
    let items = decoded.items;
    let mut all = List::new(alloc);
    'each: for i in 0..items.len() {
        let act = act_item(alloc, &items[i], attr_at(decoded, i))?;
        push_if(&mut all, act)?;
    }
    Ok(all)
}

fn act_of(alloc: Global, number: u32, decoded: Decoded<'_>) -> Result<Act, AllocError>
    requires { length decoded.attrs.items ≡ length decoded.items.now }
    ensures { (dir : Directory) → AreDecoded dir.schema decoded.entry.items.now decoded.entry.flags
        decoded.entry.attrs.items decoded.entry.sd
        → IfOk result (λ act. act ≡ act_at dir number decoded.entry.items.now decoded.entry.flags) }
{
    let items = act_items(alloc, &decoded)?;
    let Decoded {
        items: _,
        attrs: _,
        flags: _,
        sd,
    } = decoded;
    Ok(Act::Modify {
        target: number,
        items,
        sd,
    })
}

// ---- the verdict

// What is said of items on a live object.
fn verdict_at(
    alloc: Global,
    dir: &Dir,
    token: &Token,
    number: u32,
    items: &[Item],
    flags: u8,
) -> Result<Verdict, AllocError>
    requires { is_live dir.now.objects number ≡ true }
    ensures { IfOk result (λ verdict. verdict ≡ verdict_at dir.now token.now number items.now
        flags) }
{
    let decoded = decode(alloc, dir.schema(), items, flags)?;
    if let Some(refusal) = items_refusal(alloc, dir, number, &decoded)? {
        return Ok(refusal);
    }
    let mut trace = no_trace(alloc);
    if let Some(missing) = needs_refusal(alloc, dir, token, number, &decoded, &mut trace)? {
        return Ok(missing);
    }
    let act = act_of(alloc, number, decoded)?;
    Ok(Verdict::Granted(act))
}

// What is said of items on the object of a name.
fn verdict_named(
    alloc: Global,
    dir: &Dir,
    token: &Token,
    dn: &Dn,
    items: &[Item],
    flags: u8,
) -> Result<Verdict, AllocError>
    ensures { IfOk result (λ verdict. verdict ≡ verdict_named dir.now token.now dn.now.rdns
        items.now flags) }
{
    match visible(alloc, dir, token, dn)? {
        Some(number) => verdict_at(alloc, dir, token, number, items, flags),
        None => Ok(Verdict::Hidden(matched(alloc, dir, token, dn)?)),
    }
}

/// The first check that fails of a Modify, up to what it needs; or what it asks for.
///
/// # Errors
///
/// Memory ran out.
pub(crate) fn modify_verdict(
    alloc: Global,
    dir: &Dir,
    token: &Token,
    modify: &Modify,
    settings: &Settings,
) -> Result<Verdict, AllocError>
    ensures { IfOk result (λ verdict. verdict ≡ verdict_of dir.now token.now (ModifyOf modify.now)
        settings.now) }
{
    let items = modify.items.as_slice();
    match read_name(alloc, modify.dn.as_slice())? {
        Some(dn) => verdict_named(alloc, dir, token, &dn, items, settings.sd_flags),
        None => Ok(Verdict::Refused(result_code::INVALID_DN_SYNTAX)),
    }
}
