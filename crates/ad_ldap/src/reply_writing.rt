//! Replies are written, of which the lengths are known before.

ghost use Rattle.std.specs.Prelude.{◌≡◌, ◌+◌, ◌++◌, List, ℕ, length, IfOk, OnOk};
ghost use Rattle.ad_ber.specs.Writing.{element_bytes, number_element};
ghost use Rattle.ad_ldap.specs.Reply.{values_bytes, attr_body, attr_bytes, attrs_bytes, entry_body, result_body};
ghost use Rattle.ad_ldap.specs.Reply.{notice_body, message_bytes, reply_bytes};
ghost use Rattle.ad_ldap.specs.Tags.{search_entry, extended_response};
ghost use Rattle.ad_ldap.specs.Choices.{unsolicited};

use crate::choices::UNSOLICITED;
use crate::reply::Reply;
use crate::result_code::PROTOCOL_ERROR;
use crate::tags;
use ad_ber::{header_len, number_len, put, put_header, put_number};
use ad_bytes::{Bytes, List};
use std::alloc::{AllocError, Global};

const NOTICE_OID: &[u8] = b"1.3.6.1.4.1.1466.20036";

// The sum, where memory could hold so many bytes.
fn plus(a: usize, b: usize) -> Result<usize, AllocError>
    ensures { IfOk result (λ n. n ≡ a + b) }
{
    match a.checked_add(b) {
        Some(sum) => Ok(sum),
        None => Err(AllocError),
    }
}

// The number of bytes of an element with a body of so many.
fn element_len(len: usize) -> Result<usize, AllocError>
    ensures { IfOk result (λ n. (tag : ℕ) (body : List ℕ) → length body ≡ len → n
        ≡ length (element_bytes tag body)) }
{
    plus(header_len(len), len)
}

fn values_len(values: &[Bytes]) -> Result<usize, AllocError>
    ensures { IfOk result (λ n. n ≡ length (values_bytes values.now)) }
{
    let mut sum = 0;
    'each: for value in values {
        let len = element_len(value.len())?;
        sum = plus(sum, len)?;
    }
    Ok(sum)
}

// The number of bytes of an attribute with its values, without the tag and the length before.
fn attr_len(attr: &(Bytes, List<Bytes>)) -> Result<usize, AllocError>
    ensures { IfOk result (λ n. n ≡ length (attr_body attr.now)) }
{
    let name = element_len(attr.0.len())?;
    let values = values_len(attr.1.as_slice())?;
    let set = element_len(values)?;
    plus(name, set)
}

fn attrs_len(attrs: &[(Bytes, List<Bytes>)]) -> Result<usize, AllocError>
    ensures { IfOk result (λ n. n ≡ length (attrs_bytes attrs.now)) }
{
    let mut sum = 0;
    'each: for attr in attrs {
        let body = attr_len(attr)?;
        let len = element_len(body)?;
        sum = plus(sum, len)?;
    }
    Ok(sum)
}

// Puts octet strings at the end.
fn put_values(into: &mut Vec<u8>, values: &[Bytes]) -> Result<(), AllocError>
    ensures { OnOk result (into.new.items ≡ into.old.items ++ values_bytes values.now) }
{
    'each: for value in values {
        put(into, tags::OCTET_STRING, value.as_slice())?;
    }
    Ok(())
}

// Puts an attribute with its values at the end.
fn put_attr(into: &mut Vec<u8>, attr: &(Bytes, List<Bytes>)) -> Result<(), AllocError>
    ensures { OnOk result (into.new.items ≡ into.old.items ++ attr_bytes attr.now) }
{
    let body = attr_len(attr)?;
    let values = values_len(attr.1.as_slice())?;
    put_header(into, tags::SEQUENCE, body)?;
    put(into, tags::OCTET_STRING, attr.0.as_slice())?;
    put_header(into, tags::SET, values)?;
    put_values(into, attr.1.as_slice())?;
    Ok(())
}

fn put_attrs(into: &mut Vec<u8>, attrs: &[(Bytes, List<Bytes>)]) -> Result<(), AllocError>
    ensures { OnOk result (into.new.items ≡ into.old.items ++ attrs_bytes attrs.now) }
{
    'each: for attr in attrs {
        put_attr(into, attr)?;
    }
    Ok(())
}

// A buffer with room for a message, and what stands before its response's body: of so many bytes, with this tag.
fn message_front(alloc: Global, id: u32, tag: u8, len: usize) -> Result<Vec<u8>, AllocError>
    ensures { IfOk result (λ front. (body : List ℕ) → length body ≡ len → front.items ++ body
        ≡ message_bytes id tag body) }
{
    let response = element_len(len)?;
    let inner = plus(number_len(id), response)?;
    let total = element_len(inner)?;
    let mut bytes = Vec::with_capacity(alloc, total)?;
    put_header(&mut bytes, tags::SEQUENCE, inner)?;
    put_number(&mut bytes, tags::INTEGER, id)?;
    put_header(&mut bytes, tag, len)?;
    Ok(bytes)
}

fn entry(
    alloc: Global,
    id: u32,
    dn: &[u8],
    attrs: &[(Bytes, List<Bytes>)],
) -> Result<Vec<u8>, AllocError>
    ensures { IfOk result (λ bytes. bytes.items
        ≡ message_bytes id search_entry (entry_body dn.now attrs.now)) }
{
    let list = attrs_len(attrs)?;
    let name = element_len(dn.len())?;
    let len = plus(name, element_len(list)?)?;
    let mut bytes = message_front(alloc, id, tags::SEARCH_ENTRY, len)?;
    put(&mut bytes, tags::OCTET_STRING, dn)?;
    put_header(&mut bytes, tags::SEQUENCE, list)?;
    put_attrs(&mut bytes, attrs)?;
    Ok(bytes)
}

fn result_len(code: u8, matched: &[u8], text: &[u8]) -> Result<usize, AllocError>
    ensures { IfOk result (λ n. n ≡ length (result_body code matched.now text.now)) }
{
    let name = element_len(matched.len())?;
    let front = plus(number_len(u32::from(code)), name)?;
    let last = element_len(text.len())?;
    plus(front, last)
}

// Puts what every result has at the end.
fn put_result(into: &mut Vec<u8>, code: u8, matched: &[u8], text: &[u8]) -> Result<(), AllocError>
    ensures { OnOk result (into.new.items ≡ into.old.items ++ result_body code matched.now
        text.now) }
{
    put_number(into, tags::ENUMERATED, u32::from(code))?;
    put(into, tags::OCTET_STRING, matched)?;
    put(into, tags::OCTET_STRING, text)?;
    Ok(())
}

fn done(
    alloc: Global,
    id: u32,
    tag: u8,
    code: u8,
    matched: &[u8],
    text: &[u8],
) -> Result<Vec<u8>, AllocError>
    ensures { IfOk result (λ bytes. bytes.items
        ≡ message_bytes id tag (result_body code matched.now text.now)) }
{
    let len = result_len(code, matched, text)?;
    let mut bytes = message_front(alloc, id, tag, len)?;
    put_result(&mut bytes, code, matched, text)?;
    Ok(bytes)
}

fn notice(alloc: Global) -> Result<Vec<u8>, AllocError>
    ensures { IfOk result (λ bytes. bytes.items ≡ message_bytes unsolicited extended_response notice_body) }
{
    let front = result_len(PROTOCOL_ERROR, b"", b"")?;
    let len = plus(front, element_len(NOTICE_OID.len())?)?;
    let mut bytes = message_front(alloc, UNSOLICITED, tags::EXTENDED_RESPONSE, len)?;
    put_result(&mut bytes, PROTOCOL_ERROR, b"", b"")?;
    put(&mut bytes, tags::RESPONSE_NAME, NOTICE_OID)?;
    Ok(bytes)
}

/// The bytes of a reply, whose lengths and numbers have no byte more than they need. They are written once: the
/// lengths are found first. An id is at most 2^31 - 1.
pub fn write_reply(alloc: Global, reply: &Reply) -> Result<Vec<u8>, AllocError>
    ensures { IfOk result (λ bytes. bytes.items ≡ reply_bytes reply.now) }
{
    match reply {
        Reply::Entry { id, dn, attrs } => entry(alloc, *id, dn.as_slice(), attrs.as_slice()),
        Reply::Done {
            id,
            tag,
            code,
            matched,
            text,
        } => done(alloc, *id, *tag, *code, matched.as_slice(), text.as_slice()),
        Reply::Notice => notice(alloc),
    }
}
