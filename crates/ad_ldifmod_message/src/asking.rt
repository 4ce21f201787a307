//! The message that a change record represents.

ghost use Rattle.std.specs.Prelude.{◌≡◌, ◌<◌, not, map, IfOk};
ghost use Rattle.ad_ldif.specs.Change.{op_seen, change_seen};
ghost use Rattle.ad_ldap.specs.MessageValue.{op_seen as request_seen, message_seen};
ghost use Rattle.ad_ldifmod_message.specs.Asked.{item_asked, control_asked, op_asked, message_asked, ids_end};

use crate::grouping::grouped;
use ad_bytes::{Bytes, List};
use ad_ldap::{Add, Control, Controls, Item, Message, Modify, Op, Rename};
use ad_ldif::{LdifChange, LdifControl, LdifItem, LdifOp};
use std::alloc::{AllocError, Global};

fn values(alloc: Global, values: &[Bytes]) -> Result<List<Bytes>, AllocError>
    ensures { IfOk result (λ copies. copies ≡ values.now) }
{
    let mut copies = List::new(alloc);
    'each: for value in values {
        copies.push(value.copy(alloc)?)?;
    }
    Ok(copies)
}

fn item(alloc: Global, item: &LdifItem) -> Result<Item, AllocError>
    ensures { IfOk result (λ asked. asked ≡ item_asked item.now) }
{
    let values = values(alloc, item.values.as_slice())?;
    Ok(Item {
        op: item.op,
        attr: item.name.copy(alloc)?,
        values,
    })
}

fn items(alloc: Global, items: &[LdifItem]) -> Result<List<Item>, AllocError>
    ensures { IfOk result (λ asked. asked ≡ map item_asked items.now) }
{
    let mut asked = List::new(alloc);
    'each: for one in items {
        asked.push(item(alloc, one)?)?;
    }
    Ok(asked)
}

fn controls(alloc: Global, controls: &[LdifControl]) -> Result<Controls, AllocError>
    ensures { IfOk result (λ asked. asked ≡ map control_asked controls.now) }
{
    let mut asked = List::new(alloc);
    'each: for control in controls {
        asked.push(Control {
            oid: control.oid.copy(alloc)?,
            critical: control.critical,
            value: None,
        })?;
    }
    Controls::of(alloc, asked)
}

fn superior(alloc: Global, superior: &Option<Bytes>) -> Result<Option<Bytes>, AllocError>
    ensures { IfOk result (λ copy. copy ≡ superior.now) }
{
    match superior {
        Some(superior) => Ok(Some(superior.copy(alloc)?)),
        None => Ok(None),
    }
}

fn rename(
    alloc: Global,
    dn: Bytes,
    rdn: &Bytes,
    delete_old: bool,
    above: &Option<Bytes>,
) -> Result<Rename, AllocError>
    ensures { IfOk result (λ r. r ≡ record {
      dn = dn;
      rdn = rdn.now;
      keep = not delete_old;
      superior
          = above.now;
    }) }
{
    let superior = superior(alloc, above)?;
    Ok(Rename {
        dn,
        rdn: rdn.copy(alloc)?,
        keep: !delete_old,
        superior,
    })
}

// The operation on the object of this name.
fn op(alloc: Global, dn: &Bytes, kind: &LdifOp) -> Result<Op, AllocError>
    ensures { IfOk result (λ op. request_seen op ≡ op_asked dn.now (op_seen kind.now)) }
{
    let dn = dn.copy(alloc)?;
    match kind {
        LdifOp::Add(lines) => Ok(Op::Add(Add {
            dn,
            attrs: grouped(alloc, lines.as_slice())?,
        })),
        LdifOp::Delete => Ok(Op::Delete(dn)),
        LdifOp::Rename {
            rdn,
            delete_old,
            superior,
        } => Ok(Op::Rename(rename(alloc, dn, rdn, *delete_old, superior)?)),
        LdifOp::Modify(list) => Ok(Op::Modify(Modify {
            dn,
            items: items(alloc, list.as_slice())?,
        })),
    }
}

/// The message of a change record, with this number: its operation with the record's names and values in order, and
/// its controls in order, without values. The lines of a new object are grouped by name, without regard to ASCII
/// case, in the order in which the names come first.
///
/// # Errors
///
/// Memory ran out.
#[tactic(auto, unfolding(crate::specs::Asked::message_asked))]
pub fn message(alloc: Global, change: &LdifChange, id: u32) -> Result<Message, AllocError>
    requires some { 0 < id }
    requires most { id < ids_end }
    ensures { IfOk result (λ m. message_seen m ≡ message_asked (change_seen change.now) id) }
{
    let op = op(alloc, &change.dn, &change.kind)?;
    let controls = controls(alloc, change.controls.as_slice())?;
    Ok(Message { id, op, controls })
}
