//! The message that gives an object a list.

ghost use Rattle.std.specs.Prelude.{◌≡◌, ◌≤◌, ◌^◌, ◌<◌, ◌++◌, [], ◌∷◌, List, ℕ, nat_le, length, IfOk, OnOk};
ghost use Rattle.ad_bytes.specs.Reading.{GivesUnless};
ghost use Rattle.ad_acl.specs.Entry.{Entry};
ghost use Rattle.ad_acl.specs.Writing.{is_memory};
ghost use Rattle.ad_sd.specs.Writing.{laid_out, written};
ghost use Rattle.ad_ldap.specs.MessageValue.{message_seen};
ghost use Rattle.ad_ldifmod_message.specs.Written.{IsWritable, message_bytes};
ghost use Rattle.ad_ldifmod.specs.Messages.{max_message, list_alone, flags_control, sd_item, modify, message_of};
ghost use Rattle.ad_ldifmod.specs.Steps.{is_memory_refusal, of_list};

use crate::fault::{GrantKind, Refusal};
use ad_acl::{AclWriteFault, write_acl};
use ad_bytes::{Bytes, List};
use ad_ldap::{Control, Controls, DACL_PART, Item, Message, Modify, Op, REPLACE_VALUES, tags};
use ad_ldifmod_message::write_message;
use ad_sd::AceList;
use std::alloc::{AllocError, Global};

/// The most bytes of a message.
const MAX_MESSAGE: usize = 1_048_576;

/// The control that says which parts of a descriptor are meant.
const SD_FLAGS: &[u8] = b"1.2.840.113556.1.4.801";

/// Its value, that the DACL alone is: a sequence of three bytes, which are an integer of one byte.
const LIST_ALONE: &[u8] = &[tags::SEQUENCE, 3, tags::INTEGER, 1, DACL_PART];

// What stands before the list in a descriptor that has nothing else: revision 1, its control bits, and that the
// list stands right after these 20 bytes.
#[tactic(auto, unfolding(ad_sd::specs::Writing::laid_out, ad_bytes::specs::Numbers::le_bytes))]
fn header(protected: bool) -> &'static [u8]
    ensures { (entries : List Entry) (acl : List ℕ) → result.now ++ acl
        ≡ laid_out (list_alone (record { protected = protected; entries = entries })) [] acl }
{
    if protected {
        &[
            1, 0, 4, 0x94, 0, 0, 0, 0, 0, 0, 0, 0, 0, 0, 0, 0, 20, 0, 0, 0,
        ]
    } else {
        &[
            1, 0, 4, 0x84, 0, 0, 0, 0, 0, 0, 0, 0, 0, 0, 0, 0, 20, 0, 0, 0,
        ]
    }
}

fn joined(alloc: Global, front: &[u8], behind: &[u8]) -> Result<Bytes, AllocError>
    ensures { IfOk result (λ both. both ≡ front.now ++ behind.now) }
{
    Bytes::from_both(alloc, front, behind)
}

// The descriptor that has the list and nothing else.
#[tactic(auto, unfolding(ad_sd::specs::Writing::written))]
fn sd_of(alloc: Global, list: &AceList) -> Result<Bytes, AclWriteFault>
    ensures { GivesUnless is_memory (λ sd. sd) result (written (list_alone list.now)) }
{
    let acl = write_acl(alloc, list.entries.as_slice())?;
    let sd = joined(alloc, header(list.protected), &acl)?;
    Ok(sd)
}

fn flags_control(alloc: Global) -> Result<Control, AllocError>
    ensures { IfOk result (λ control. control ≡ flags_control) }
{
    Ok(Control {
        oid: Bytes::from_slice(alloc, SD_FLAGS)?,
        critical: true,
        value: Some(Bytes::from_slice(alloc, LIST_ALONE)?),
    })
}

fn controls(alloc: Global) -> Result<Controls, AllocError>
    ensures { IfOk result (λ controls. controls ≡ flags_control ∷ []) }
{
    let mut list = List::new(alloc);
    list.push(flags_control(alloc)?)?;
    Controls::of(alloc, list)
}

fn sd_item(alloc: Global, sd: Bytes) -> Result<Item, AllocError>
    ensures { IfOk result (λ item. item ≡ sd_item sd) }
{
    let mut values = List::new(alloc);
    values.push(sd)?;
    Ok(Item {
        op: REPLACE_VALUES,
        attr: Bytes::from_slice(alloc, b"nTSecurityDescriptor")?,
        values,
    })
}

fn modify_op(alloc: Global, name: &[u8], sd: Bytes) -> Result<Modify, AllocError>
    ensures { IfOk result (λ m. m ≡ record { dn = name.now; items = sd_item sd ∷ [] }) }
{
    let mut items = List::new(alloc);
    items.push(sd_item(alloc, sd)?)?;
    Ok(Modify {
        dn: Bytes::from_slice(alloc, name)?,
        items,
    })
}

fn modify(alloc: Global, id: u32, name: &[u8], sd: Bytes) -> Result<Message, AllocError>
    ensures { IfOk result (λ message. message ≡ modify id name.now sd) }
{
    let op = modify_op(alloc, name, sd)?;
    let controls = controls(alloc)?;
    Ok(Message {
        id,
        op: Op::Modify(op),
        controls,
    })
}

// Whether the message is no longer than a frame has room for.
#[tactic(auto, unfolding(crate::specs::Messages::max_message))]
fn fits(alloc: Global, message: &Message) -> Result<bool, AllocError>
    requires { IsWritable (message_seen message.now) }
    ensures { IfOk result (λ fits. fits ≡ nat_le (length (message_bytes (message_seen message.now)))
        max_message) }
{
    let bytes = write_message(alloc, message)?;
    Ok(bytes.len() <= MAX_MESSAGE)
}

fn of_list(fault: AclWriteFault) -> Refusal
    ensures { result ≡ of_list fault }
{
    match fault {
        AclWriteFault::TooLong => Refusal::Bad(GrantKind::TooLong),
        AclWriteFault::Memory => Refusal::Memory,
    }
}

/// The message that gives the object of the name the list, with a number from 1 to 2^31 - 1.
#[tactic(auto, unfolding(crate::specs::Messages::message_of))]
pub(crate) fn message_of(
    alloc: Global,
    id: u32,
    name: &[u8],
    list: &AceList,
) -> Result<Message, Refusal>
    requires from { 1 ≤ id }
    requires to { id < 2 ^ 31 }
    ensures { GivesUnless is_memory_refusal (λ message. message) result
        (message_of id name.now list.now) }
{
    let sd = match sd_of(alloc, list) {
        Ok(sd) => sd,
        Err(fault) => return Err(of_list(fault)),
    };
    let message = modify(alloc, id, name, sd)?;
    if fits(alloc, &message)? {
        return Ok(message);
    }
    Err(Refusal::Bad(GrantKind::TooLong))
}
