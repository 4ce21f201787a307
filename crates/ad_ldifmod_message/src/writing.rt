//! The bytes of a change's message, each element built from the inside out, so that its length is known when it is
//! put.

ghost use Rattle.std.specs.Prelude.{◌≡◌, ◌++◌, not, length, ◌<◌, ◌^◌, if◌then◌else◌, [], ◌∷◌, OnOk, IfOk};
ghost use Rattle.std.specs.List.{flat_map};
ghost use Rattle.ad_ber.specs.Writing.{element_bytes};
ghost use Rattle.ad_ldap.specs.Tags.{octet_string};
ghost use Rattle.ad_ldap.specs.Reply.{values_bytes, attr_bytes, attrs_bytes, entry_body};
ghost use Rattle.ad_ldap.specs.MessageValue.{op_seen, message_seen};
ghost use Rattle.ad_ldap.specs.Messages.{SpellsMessage};
ghost use Rattle.ad_ldifmod_message.specs.Written.{truth_bytes, option_bytes, item_bytes, modify_body, rename_body};
ghost use Rattle.ad_ldifmod_message.specs.Written.{op_bytes, control_bytes, controls_bytes, message_bytes};
ghost use Rattle.ad_ldifmod_message.specs.Written.{IsWritable};

use ad_ber::{put, put_number};
use ad_bytes::{Bytes, List};
use ad_ldap::tags::{
    ADD_REQUEST, BOOLEAN, DELETE_REQUEST, ENUMERATED, INTEGER, MODIFY_REQUEST, NEW_SUPERIOR,
    OCTET_STRING, RENAME_REQUEST, SEQUENCE, SET, TAG_OF_CONTROLS,
};
use ad_ldap::{Add, Control, Item, Message, Modify, Op, Rename};
use std::alloc::{AllocError, Global};

// The one byte of a truth value (RFC 4511 5.1).
const TRUE: u8 = 255;

const FALSE: u8 = 0;

fn put_octets(into: &mut Vec<u8>, octets: &[u8]) -> Result<(), AllocError>
    ensures { OnOk result (into.new.items
        ≡ into.old.items ++ element_bytes octet_string octets.now) }
{
    put(into, OCTET_STRING, octets)?;
    Ok(())
}

fn put_truth(into: &mut Vec<u8>, truth: bool) -> Result<(), AllocError>
    ensures { OnOk result (into.new.items ≡ into.old.items ++ truth_bytes truth) }
{
    let byte = if truth { TRUE } else { FALSE };
    put(into, BOOLEAN, &[byte])?;
    Ok(())
}

// An octet string with this tag, if there is one.
fn put_option(into: &mut Vec<u8>, tag: u8, octets: &Option<Bytes>) -> Result<(), AllocError>
    ensures { OnOk result (into.new.items ≡ into.old.items ++ option_bytes tag octets.now) }
{
    match octets {
        Some(octets) => {
            put(into, tag, octets.as_slice())?;
            Ok(())
        }
        None => Ok(()),
    }
}

fn put_values(into: &mut Vec<u8>, values: &[Bytes]) -> Result<(), AllocError>
    ensures { OnOk result (into.new.items ≡ into.old.items ++ values_bytes values.now) }
{
    'each: for value in values {
        put_octets(into, value.as_slice())?;
    }
    Ok(())
}

// An attribute's name, and its values.
fn put_attr(
    alloc: Global,
    into: &mut Vec<u8>,
    name: &[u8],
    values: &[Bytes],
) -> Result<(), AllocError>
    ensures { OnOk result (into.new.items ≡ into.old.items ++ attr_bytes (name.now, values.now)) }
{
    let mut set = Vec::new(alloc);
    put_values(&mut set, values)?;
    let mut body = Vec::new(alloc);
    put_octets(&mut body, name)?;
    put(&mut body, SET, &set)?;
    put(into, SEQUENCE, &body)?;
    Ok(())
}

fn put_attrs(
    alloc: Global,
    into: &mut Vec<u8>,
    attrs: &[(Bytes, List<Bytes>)],
) -> Result<(), AllocError>
    ensures { OnOk result (into.new.items ≡ into.old.items ++ attrs_bytes attrs.now) }
{
    'each: for attr in attrs {
        put_attr(alloc, into, attr.0.as_slice(), attr.1.as_slice())?;
    }
    Ok(())
}

#[tactic(auto, unfolding(crate::specs::Written::item_bytes))]
fn put_item(alloc: Global, into: &mut Vec<u8>, item: &Item) -> Result<(), AllocError>
    ensures { OnOk result (into.new.items ≡ into.old.items ++ item_bytes item.now) }
{
    let mut body = Vec::new(alloc);
    put_number(&mut body, ENUMERATED, u32::from(item.op))?;
    put_attr(
        alloc,
        &mut body,
        item.attr.as_slice(),
        item.values.as_slice(),
    )?;
    put(into, SEQUENCE, &body)?;
    Ok(())
}

fn put_items(alloc: Global, into: &mut Vec<u8>, items: &[Item]) -> Result<(), AllocError>
    ensures { OnOk result (into.new.items ≡ into.old.items ++ flat_map item_bytes items.now) }
{
    'each: for item in items {
        put_item(alloc, into, item)?;
    }
    Ok(())
}

fn modify_body(alloc: Global, modify: &Modify) -> Result<Vec<u8>, AllocError>
    ensures { IfOk result (λ body. body.items ≡ modify_body modify.now.dn modify.now.items) }
{
    let mut items = Vec::new(alloc);
    put_items(alloc, &mut items, modify.items.as_slice())?;
    let mut body = Vec::new(alloc);
    put_octets(&mut body, modify.dn.as_slice())?;
    put(&mut body, SEQUENCE, &items)?;
    Ok(body)
}

fn add_body(alloc: Global, add: &Add) -> Result<Vec<u8>, AllocError>
    ensures { IfOk result (λ body. body.items ≡ entry_body add.now.dn add.now.attrs) }
{
    let mut attrs = Vec::new(alloc);
    put_attrs(alloc, &mut attrs, add.attrs.as_slice())?;
    let mut body = Vec::new(alloc);
    put_octets(&mut body, add.dn.as_slice())?;
    put(&mut body, SEQUENCE, &attrs)?;
    Ok(body)
}

fn rename_body(alloc: Global, rename: &Rename) -> Result<Vec<u8>, AllocError>
    ensures { IfOk result (λ body. body.items ≡ rename_body rename.now) }
{
    let mut body = Vec::new(alloc);
    put_octets(&mut body, rename.dn.as_slice())?;
    put_octets(&mut body, rename.rdn.as_slice())?;
    put_truth(&mut body, !rename.keep)?;
    put_option(&mut body, NEW_SUPERIOR, &rename.superior)?;
    Ok(body)
}

#[tactic(auto, unfolding(crate::specs::Written::op_bytes))]
fn put_op(alloc: Global, into: &mut Vec<u8>, op: &Op) -> Result<(), AllocError>
    ensures { OnOk result (into.new.items ≡ into.old.items ++ op_bytes (op_seen op.now)) }
{
    match op {
        Op::Modify(modify) => put(into, MODIFY_REQUEST, &modify_body(alloc, modify)?)?,
        Op::Add(add) => put(into, ADD_REQUEST, &add_body(alloc, add)?)?,
        Op::Delete(dn) => put(into, DELETE_REQUEST, dn.as_slice())?,
        Op::Rename(rename) => put(into, RENAME_REQUEST, &rename_body(alloc, rename)?)?,
        Op::Bind | Op::Unbind | Op::Search(_) | Op::Compare(_) | Op::Abandon | Op::Extended => {}
    }
    Ok(())
}

// Whether a control is critical, which is left out where it isn't.
fn put_critical(into: &mut Vec<u8>, critical: bool) -> Result<(), AllocError>
    ensures { OnOk result (into.new.items ≡ into.old.items
        ++ (if critical then truth_bytes critical else [])) }
{
    if critical {
        return put_truth(into, true);
    }
    Ok(())
}

#[tactic(auto, unfolding(crate::specs::Written::control_bytes))]
fn put_control(alloc: Global, into: &mut Vec<u8>, control: &Control) -> Result<(), AllocError>
    ensures { OnOk result (into.new.items ≡ into.old.items ++ control_bytes control.now) }
{
    let mut body = Vec::new(alloc);
    put_octets(&mut body, control.oid.as_slice())?;
    put_critical(&mut body, control.critical)?;
    put_option(&mut body, OCTET_STRING, &control.value)?;
    put(into, SEQUENCE, &body)?;
    Ok(())
}

fn put_each_control(
    alloc: Global,
    into: &mut Vec<u8>,
    controls: &[Control],
) -> Result<(), AllocError>
    ensures { OnOk result (into.new.items ≡ into.old.items ++ flat_map control_bytes controls.now) }
{
    'each: for control in controls {
        put_control(alloc, into, control)?;
    }
    Ok(())
}

// The controls, which are left out where there is none.
#[tactic(auto, unfolding(crate::specs::Written::controls_bytes))]
fn put_controls(alloc: Global, into: &mut Vec<u8>, controls: &[Control]) -> Result<(), AllocError>
    ensures { OnOk result (into.new.items ≡ into.old.items ++ controls_bytes controls.now) }
{
    if controls.is_empty() {
        return Ok(());
    }
    let mut body = Vec::new(alloc);
    put_each_control(alloc, &mut body, controls)?;
    put(into, TAG_OF_CONTROLS, &body)?;
    Ok(())
}

#[tactic(auto, unfolding(crate::specs::Written::message_bytes))]
fn whole(alloc: Global, message: &Message) -> Result<Vec<u8>, AllocError>
    ensures { IfOk result (λ bytes. bytes.items ≡ message_bytes (message_seen message.now)) }
{
    let mut body = Vec::new(alloc);
    put_number(&mut body, INTEGER, message.id)?;
    put_op(alloc, &mut body, &message.op)?;
    put_controls(alloc, &mut body, message.controls.as_slice())?;
    let mut bytes = Vec::new(alloc);
    put(&mut bytes, SEQUENCE, &body)?;
    Ok(bytes)
}

/// The bytes of a change's message, whose lengths and numbers have no byte more than they need. The number is from
/// 1 to 2^31 - 1; the operation is Add, Delete, Rename or Modify; each attribute of an Add has a value, and each op
/// of an item is at most 2.
///
/// # Errors
///
/// Memory ran out.
pub fn write_message(alloc: Global, message: &Message) -> Result<Vec<u8>, AllocError>
    requires { IsWritable (message_seen message.now) }
    ensures bytes { IfOk result (λ bytes. bytes.items ≡ message_bytes (message_seen message.now)) }
    // They encode the message, so `ad_ldap::read_message` reads it from them.
    ensures spelled { IfOk result (λ bytes. length bytes.items < 2 ^ 32
        → SpellsMessage (message_seen message.now) bytes.items) }
{
    let bytes = whole(alloc, message)?;
    Ok(bytes)
}
