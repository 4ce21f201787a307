//! The elements of a message. Each function reads up to the end of the element that its input stands in; `end` is
//! the offset of this end in the message.
ghost use Rattle.std.specs.Prelude.{◌≡◌, ◌-◌, ◌<◌, ◌≤◌, length, IfOk, IfSome, OnOk};
ghost use Rattle.ad_bytes.specs.Reading.{Reads, ReadsUnless, GivesUnless};
ghost use Rattle.ad_ldap.specs.Reading as spec;
ghost use Rattle.ad_ldap.specs.Reading.{is_memory, IsWithin, body_at, number_at, boolean_at, option_at, default_at};
ghost use Rattle.ad_ldap.specs.Reading.{values_of};

use crate::fault::LdapFault;
use crate::tags::OCTET_STRING;
use ad_ber::{Tagged, integer};
use ad_bytes::{Bytes, Input, List};
use std::alloc::Global;

/// What is at fault where no message goes on as these bytes do.
pub(crate) fn form(input: &Input<'_>, end: usize) -> LdapFault
    ensures { result ≡ spec.form end input.now }
{
    LdapFault::Form(end.saturating_sub(input.len()))
}

/// The offset of the end of the element that was read last.
pub(crate) fn end_of(input: &Input<'_>, end: usize) -> usize
    ensures { result ≡ end - length input.now }
{
    end.saturating_sub(input.len())
}

/// Whether an element with this tag begins here.
pub(crate) fn begins(input: &Input<'_>, tag: u8) -> bool
    ensures { result ≡ spec.begins tag input.now }
{
    match input.rest() {
        [] => false,
        [first, ..] => *first == tag,
    }
}

/// The body of an element with this tag.
#[tactic(auto, unfolding(crate::specs::Reading::body_at))]
pub(crate) fn body<'a>(input: &mut Input<'a>, end: usize, tag: u8) -> Result<Input<'a>, LdapFault>
    ensures read { Reads result input.new (body_at tag end input.old) }
    ensures left { OnOk result (length input.new < length input.old) }
{
    if !begins(input, tag) {
        return Err(form(input, end));
    }
    let Tagged { tag: _, body } = Tagged::read(input)?;
    Ok(body)
}

/// An octet string with this tag.
pub(crate) fn octets(
    alloc: Global,
    input: &mut Input<'_>,
    end: usize,
    tag: u8,
) -> Result<Bytes, LdapFault>
    ensures read { ReadsUnless is_memory (λ octets. octets) result input.new
        (body_at tag end input.old) }
    ensures left { OnOk result (length input.new < length input.old) }
{
    let body = body(input, end, tag)?;
    let octets = Bytes::from_slice(alloc, body.rest())?;
    Ok(octets)
}

// The integer, where it isn't negative nor above this number.
fn within(integer: i64, most: u32) -> Option<u32>
    ensures within { IsWithin most integer result }
    ensures below { IfSome result (λ n. n ≤ most) }
{
    if integer < 0 || integer > i64::from(most) {
        return None;
    }
    Some(integer as u32)
}

/// A number with this tag, from 0 up to this one.
#[tactic(auto, unfolding(crate::specs::Reading::number_at))]
pub(crate) fn number(
    input: &mut Input<'_>,
    end: usize,
    tag: u8,
    most: u32,
) -> Result<u32, LdapFault>
    ensures read { Reads result input.new (number_at tag most end input.old) }
    ensures left { OnOk result (length input.new < length input.old) }
    ensures below { IfOk result (λ n. n ≤ most) }
{
    let fault = form(input, end);
    let body = body(input, end, tag)?;
    let integer = integer(body.rest())?;
    match within(integer, most) {
        Some(number) => Ok(number),
        None => Err(fault),
    }
}

/// A number with this tag, from 0 up to 2 or 3.
pub(crate) fn small(input: &mut Input<'_>, end: usize, tag: u8, most: u8) -> Result<u8, LdapFault>
    ensures read { Reads result input.new (number_at tag most end input.old) }
    ensures left { OnOk result (length input.new < length input.old) }
{
    let number = number(input, end, tag, u32::from(most))?;
    Ok(number as u8)
}

/// A truth value with this tag.
#[tactic(auto, unfolding(crate::specs::Reading::boolean_at))]
pub(crate) fn boolean(input: &mut Input<'_>, end: usize, tag: u8) -> Result<bool, LdapFault>
    ensures read { Reads result input.new (boolean_at tag end input.old) }
    ensures left { OnOk result (length input.new < length input.old) }
{
    let fault = form(input, end);
    let body = body(input, end, tag)?;
    let bytes = body.rest();
    if bytes.len() != 1 {
        return Err(fault);
    }
    Ok(bytes[0] != 0)
}

/// That nothing more stands here.
pub(crate) fn ended(input: &Input<'_>, end: usize) -> Result<(), LdapFault>
    ensures { result ≡ spec.ended end input.now }
{
    if input.is_empty() {
        return Ok(());
    }
    Err(form(input, end))
}

/// That something stands here.
pub(crate) fn some(input: &Input<'_>, end: usize) -> Result<(), LdapFault>
    ensures { result ≡ spec.some end input.now }
{
    if input.is_empty() {
        return Err(form(input, end));
    }
    Ok(())
}

/// An octet string with this tag, where one begins here.
#[tactic(auto, unfolding(crate::specs::Reading::option_at))]
pub(crate) fn option(
    alloc: Global,
    input: &mut Input<'_>,
    end: usize,
    tag: u8,
) -> Result<Option<Bytes>, LdapFault>
    ensures read { ReadsUnless is_memory (λ octets. octets) result input.new
        (option_at tag end input.old) }
    ensures left { OnOk result (length input.new ≤ length input.old) }
{
    if !begins(input, tag) {
        return Ok(None);
    }
    let octets = octets(alloc, input, end, tag)?;
    Ok(Some(octets))
}

/// A truth value with this tag, where one begins here, else false.
#[tactic(auto, unfolding(crate::specs::Reading::default_at))]
pub(crate) fn default(input: &mut Input<'_>, end: usize, tag: u8) -> Result<bool, LdapFault>
    ensures read { Reads result input.new (default_at tag end input.old) }
    ensures left { OnOk result (length input.new ≤ length input.old) }
{
    if !begins(input, tag) {
        return Ok(false);
    }
    boolean(input, end, tag)
}

/// Octet strings up to the end.
pub(crate) fn values(
    alloc: Global,
    input: &mut Input<'_>,
    end: usize,
) -> Result<List<Bytes>, LdapFault>
    ensures { GivesUnless is_memory (λ values. values) result (values_of end input.old) }
{
    let mut values = List::new(alloc);
    'each: while !input.is_empty() {
        let value = octets(alloc, input, end, OCTET_STRING)?;
        values.push(value)?;
    }
    Ok(values)
}
