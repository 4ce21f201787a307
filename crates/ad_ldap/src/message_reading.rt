//! Messages are read: the number, the operation, the controls.

ghost use Rattle.std.specs.Prelude.{◌≡◌, ◌<◌, List, ℕ, length, IfOk, OnOk, Ok};
ghost use Rattle.ad_bytes.specs.Reading.{Reads, ReadsUnless, GivesUnless};
ghost use Rattle.ad_ldap.specs.MessageValue.{MessageValue, message_seen};
ghost use Rattle.ad_ldap.specs.Messages.{SpellsMessage};
ghost use Rattle.ad_ldap.specs.Reading.{is_memory, inside_at, each_of};
ghost use Rattle.ad_ldap.specs.MessageReading.{control_of, controls_at, id_at, body_of, message_of};
ghost use Rattle.ad_ldap.specs.Tags.{sequence};

use crate::control_list::Controls;
use crate::controls::Control;
use crate::elements::{begins, body, default, end_of, ended, form, number, octets, option};
use crate::fault::LdapFault;
use crate::request_reading::{max_int, op};
use crate::requests::Message;
use crate::tags;
use ad_bytes::{Input, List};
use std::alloc::Global;

#[tactic(auto, unfolding(crate::specs::MessageReading::control_of))]
fn control(alloc: Global, input: &mut Input<'_>, end: usize) -> Result<Control, LdapFault>
    ensures { GivesUnless is_memory (λ control. control) result (control_of end input.old) }
{
    let oid = octets(alloc, input, end, tags::OCTET_STRING)?;
    let critical = default(input, end, tags::BOOLEAN)?;
    let value = option(alloc, input, end, tags::OCTET_STRING)?;
    ended(input, end)?;
    Ok(Control {
        oid,
        critical,
        value,
    })
}

#[tactic(auto, unfolding(crate::specs::Reading::inside_at))]
fn control_inside(alloc: Global, input: &mut Input<'_>, end: usize) -> Result<Control, LdapFault>
    ensures read { ReadsUnless is_memory (λ control. control) result input.new
        (inside_at sequence control_of end input.old) }
    ensures left { OnOk result (length input.new < length input.old) }
{
    let mut body = body(input, end, tags::SEQUENCE)?;
    let inner_end = end_of(input, end);
    control(alloc, &mut body, inner_end)
}

// The controls up to the end.
fn controls(alloc: Global, input: &mut Input<'_>, end: usize) -> Result<List<Control>, LdapFault>
    ensures { GivesUnless is_memory (λ controls. controls) result
        (each_of (inside_at sequence control_of) end input.old) }
{
    let mut controls = List::new(alloc);
    'each: while !input.is_empty() {
        let control = control_inside(alloc, input, end)?;
        controls.push(control)?;
    }
    Ok(controls)
}

// The same, with where an identifier stands again.
fn all_controls(alloc: Global, input: &mut Input<'_>, end: usize) -> Result<Controls, LdapFault>
    ensures { GivesUnless is_memory (λ controls. controls) result
        (each_of (inside_at sequence control_of) end input.old) }
{
    let list = controls(alloc, input, end)?;
    let controls = Controls::of(alloc, list)?;
    Ok(controls)
}

// The controls, where they begin here.
#[tactic(auto, unfolding(crate::specs::MessageReading::controls_at, crate::specs::Reading::inside_at))]
fn option_controls(alloc: Global, input: &mut Input<'_>, end: usize) -> Result<Controls, LdapFault>
    ensures { ReadsUnless is_memory (λ controls. controls) result input.new
        (controls_at end input.old) }
{
    if !begins(input, tags::TAG_OF_CONTROLS) {
        return Ok(Controls::new(alloc));
    }
    let mut body = body(input, end, tags::TAG_OF_CONTROLS)?;
    let inner_end = end_of(input, end);
    all_controls(alloc, &mut body, inner_end)
}

// The number of a message.
#[tactic(auto, unfolding(crate::specs::MessageReading::id_at))]
fn message_id(input: &mut Input<'_>, end: usize) -> Result<u32, LdapFault>
    ensures { Reads result input.new (id_at end input.old) }
{
    let fault = form(input, end);
    let id = number(input, end, tags::INTEGER, max_int())?;
    if id == 0 {
        return Err(fault);
    }
    Ok(id)
}

#[tactic(auto, unfolding(crate::specs::MessageReading::body_of))]
fn message_body(alloc: Global, input: &mut Input<'_>, end: usize) -> Result<Message, LdapFault>
    ensures { GivesUnless is_memory message_seen result (body_of end input.old) }
{
    let id = message_id(input, end)?;
    let op = op(alloc, input, end)?;
    let controls = option_controls(alloc, input, end)?;
    ended(input, end)?;
    Ok(Message { id, op, controls })
}

#[tactic(auto, unfolding(crate::specs::MessageReading::message_of, crate::specs::Reading::inside_at))]
fn whole(alloc: Global, bytes: &[u8]) -> Result<Message, LdapFault>
    ensures { GivesUnless is_memory message_seen result (message_of bytes.now) }
{
    let mut input = Input::new(bytes);
    let end = bytes.len();
    let mut body = body(&mut input, end, tags::SEQUENCE)?;
    let inner_end = end_of(&input, end);
    let message = message_body(alloc, &mut body, inner_end)?;
    ended(&input, end)?;
    Ok(message)
}

/// The message that all of the bytes encode (RFC 4511 4.1.1), in BER with the restrictions of RFC 4511 5.1: lengths
/// are definite and octet strings primitive. A length and a number may have more bytes than they need, and any byte
/// but 0 is true. A filter has at most 64 levels. What RFC 4511 says of the contents of octet strings isn't looked
/// at, and neither are the bodies of a bind, an unbind, an abandon and an extended request.
///
/// # Errors
///
/// The fault that stands first, byte by byte. `Form` where no message goes on as the bytes do: its offset is that
/// of the element that departs, or where a missing one would begin. So is an element with another tag than may
/// stand there or after the last one that may, a number out of its range, a message ID of 0, and bytes after the
/// message. `Ber` where what begins with the right tag isn't an element that ends within the one that it stands in,
/// or an integer has no bytes or more than eight. `Deep` where a filter begins within 64 others. `Memory` where
/// memory ran out.
pub fn read_message(alloc: Global, bytes: &[u8]) -> Result<Message, LdapFault>
    // What is read is encoded so.
    ensures found { IfOk result (λ m. SpellsMessage (message_seen m) bytes.now) }
    // Whatever is encoded so is read, unless memory ran out.
    ensures only { (m : MessageValue) → SpellsMessage m bytes.now
        → GivesUnless is_memory message_seen result (Ok m) }
    // Which fault it is.
    ensures fault { GivesUnless is_memory message_seen result (message_of bytes.now) }
{
    whole(alloc, bytes)
}
