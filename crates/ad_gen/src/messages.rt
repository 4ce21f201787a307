//! The two messages of the sample (RFC 4511), each built from the inside out.

ghost use Rattle.std.specs.Prelude.{◌≡◌, ◌++◌, IfOk, OnOk};
ghost use Rattle.ad_ber.specs.Writing.{element_bytes};
ghost use Rattle.ad_gen.specs.Messages.{octets, attribute_of_change, changes, modify_request, list_flag};
ghost use Rattle.ad_gen.specs.Messages.{critical_flag, list_alone, modify_message, filter, bounds};
ghost use Rattle.ad_gen.specs.Messages.{search_request, search_message};

use crate::descriptor::descriptor_bytes;
use ad_ber::{put, put_number};
use ad_ldap::{DACL_PART, REPLACE_VALUES, WHOLE_SUBTREE, tags};
use std::alloc::{AllocError, Global};

// The byte of a boolean that is true.
const TRUE: u8 = 255;

// Puts an octet string at the end.
fn put_octets(into: &mut Vec<u8>, bytes: &[u8]) -> Result<(), AllocError>
    ensures { OnOk result (into.new.items ≡ into.old.items ++ octets bytes.now) }
{
    put(into, tags::OCTET_STRING, bytes)?;
    Ok(())
}

// The element with this tag and body.
fn element(alloc: Global, tag: u8, body: &[u8]) -> Result<Vec<u8>, AllocError>
    ensures { IfOk result (λ bytes. bytes.items ≡ element_bytes tag body.now) }
{
    let mut bytes = Vec::new(alloc);
    put(&mut bytes, tag, body)?;
    Ok(bytes)
}

#[tactic(auto, unfolding(crate::specs::Messages::attribute_of_change))]
fn attribute_of_change(alloc: Global) -> Result<Vec<u8>, AllocError>
    ensures { IfOk result (λ bytes. bytes.items ≡ attribute_of_change) }
{
    let sd = descriptor_bytes(
        alloc,
        b"D:(A;CI;GA;;;BA)(A;CI;RPLCLORC;;;AU)(A;CI;RPWP;;;S-1-5-12)",
    )?;
    let value = element(alloc, tags::OCTET_STRING, &sd)?;
    let mut body = Vec::new(alloc);
    put_octets(&mut body, b"nTSecurityDescriptor")?;
    put(&mut body, tags::SET, &value)?;
    element(alloc, tags::SEQUENCE, &body)
}

#[tactic(auto, unfolding(crate::specs::Messages::changes))]
fn changes(alloc: Global) -> Result<Vec<u8>, AllocError>
    ensures { IfOk result (λ bytes. bytes.items ≡ changes) }
{
    let attribute = attribute_of_change(alloc)?;
    let mut body = Vec::new(alloc);
    put_number(&mut body, tags::ENUMERATED, REPLACE_VALUES as u32)?;
    body.extend_from_slice(&attribute)?;
    let change = element(alloc, tags::SEQUENCE, &body)?;
    element(alloc, tags::SEQUENCE, &change)
}

#[tactic(auto, unfolding(crate::specs::Messages::modify_request))]
fn modify_request(alloc: Global) -> Result<Vec<u8>, AllocError>
    ensures { IfOk result (λ bytes. bytes.items ≡ modify_request) }
{
    let changes = changes(alloc)?;
    let mut body = Vec::new(alloc);
    put_octets(&mut body, b"DC=sample")?;
    body.extend_from_slice(&changes)?;
    element(alloc, tags::MODIFY_REQUEST, &body)
}

#[tactic(auto, unfolding(crate::specs::Messages::list_flag))]
fn list_flag(alloc: Global) -> Result<Vec<u8>, AllocError>
    ensures { IfOk result (λ bytes. bytes.items ≡ list_flag) }
{
    let mut flag = Vec::new(alloc);
    put_number(&mut flag, tags::INTEGER, DACL_PART as u32)?;
    element(alloc, tags::SEQUENCE, &flag)
}

#[tactic(auto, unfolding(crate::specs::Messages::critical_flag))]
fn critical_flag(alloc: Global) -> Result<Vec<u8>, AllocError>
    ensures { IfOk result (λ bytes. bytes.items ≡ critical_flag) }
{
    let value = list_flag(alloc)?;
    let mut bytes = Vec::new(alloc);
    put(&mut bytes, tags::BOOLEAN, &[TRUE])?;
    put_octets(&mut bytes, &value)?;
    Ok(bytes)
}

#[tactic(auto, unfolding(crate::specs::Messages::list_alone))]
fn list_alone(alloc: Global) -> Result<Vec<u8>, AllocError>
    ensures { IfOk result (λ bytes. bytes.items ≡ list_alone) }
{
    let flag = critical_flag(alloc)?;
    let mut body = Vec::new(alloc);
    put_octets(&mut body, b"1.2.840.113556.1.4.801")?;
    body.extend_from_slice(&flag)?;
    element(alloc, tags::SEQUENCE, &body)
}

/// Message 1: a change of the domain's DACL.
#[tactic(auto, unfolding(crate::specs::Messages::modify_message))]
pub(crate) fn modify_message(alloc: Global) -> Result<Vec<u8>, AllocError>
    ensures { IfOk result (λ bytes. bytes.items ≡ modify_message) }
{
    let request = modify_request(alloc)?;
    let control = list_alone(alloc)?;
    let mut body = Vec::new(alloc);
    put_number(&mut body, tags::INTEGER, 1)?;
    body.extend_from_slice(&request)?;
    put(&mut body, tags::TAG_OF_CONTROLS, &control)?;
    element(alloc, tags::SEQUENCE, &body)
}

#[tactic(auto, unfolding(crate::specs::Messages::filter))]
fn filter(alloc: Global) -> Result<Vec<u8>, AllocError>
    ensures { IfOk result (λ bytes. bytes.items ≡ filter) }
{
    let mut body = Vec::new(alloc);
    put_octets(&mut body, b"objectClass")?;
    put_octets(&mut body, b"user")?;
    element(alloc, tags::EQUALITY_MATCH, &body)
}

#[tactic(auto, unfolding(crate::specs::Messages::bounds))]
fn put_bounds(into: &mut Vec<u8>) -> Result<(), AllocError>
    ensures { OnOk result (into.new.items ≡ into.old.items ++ bounds) }
{
    put_number(into, tags::ENUMERATED, WHOLE_SUBTREE as u32)?;
    put_number(into, tags::ENUMERATED, 0)?;
    put_number(into, tags::INTEGER, 0)?;
    put_number(into, tags::INTEGER, 0)?;
    put(into, tags::BOOLEAN, &[0])?;
    Ok(())
}

#[tactic(auto, unfolding(crate::specs::Messages::search_request))]
fn search_request(alloc: Global) -> Result<Vec<u8>, AllocError>
    ensures { IfOk result (λ bytes. bytes.items ≡ search_request) }
{
    let filter = filter(alloc)?;
    let asked = element(alloc, tags::OCTET_STRING, b"cn")?;
    let mut body = Vec::new(alloc);
    put_octets(&mut body, b"DC=sample")?;
    put_bounds(&mut body)?;
    body.extend_from_slice(&filter)?;
    put(&mut body, tags::SEQUENCE, &asked)?;
    element(alloc, tags::SEARCH_REQUEST, &body)
}

/// Message 2: a search for all users, of which their names are asked.
#[tactic(auto, unfolding(crate::specs::Messages::search_message))]
pub(crate) fn search_message(alloc: Global) -> Result<Vec<u8>, AllocError>
    ensures { IfOk result (λ bytes. bytes.items ≡ search_message) }
{
    let request = search_request(alloc)?;
    let mut body = Vec::new(alloc);
    put_number(&mut body, tags::INTEGER, 2)?;
    body.extend_from_slice(&request)?;
    element(alloc, tags::SEQUENCE, &body)
}
