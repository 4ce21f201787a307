//! The forms of values, a reader for each syntax.

ghost use Rattle.std.specs.Prelude.{◌≡◌, ◌↔◌, ◌<◌, ◌≤◌, ℕ, codes, length, take, IsTrue, IfOk, Err, MatchOption};
ghost use Rattle.std.specs.Str.{IsUtf8};
ghost use Rattle.ad_ids.specs.SidValue.{SidValue};
ghost use Rattle.ad_ids.specs.Sid.{SpellsSid, sid_bytes};
ghost use Rattle.ad_value.specs.Normal.{IsNameText, IsAsciiText, IsText, IsSpelled, IsIdentifier, IsNormal};
ghost use Rattle.ad_value.specs.Value.{Value, as_shown};
ghost use Rattle.ad_bytes.specs.Reading.{GivesUnless};
ghost use Rattle.ad_value.specs.ValueOf.{normal_or_fault, is_memory};
ghost use Rattle.ad_value.specs.Reading.{Reads, IsReadAs};

use crate::fault::ValueFault;
use crate::number::{integer, large};
use crate::syntax::Syntax;
use crate::value::Value;
use ad_bytes::Bytes;
use ad_dn::{DnFault, fold_bytes, what_a_text_spells};
use ad_ids::{Sid, a_sid_is_read_as_spelled, what_a_sid_s_text_spells};
use std::alloc::Global;

/// The largest number of bytes of a value.
const LONGEST: usize = 1_048_576;

// A value that is compared by the bytes that it shows.
fn as_shown(alloc: Global, bytes: &[u8]) -> Result<Value, ValueFault>
    ensures { Reads (λ v. v ≡ as_shown bytes.now) result }
{
    Ok(Value::as_shown(alloc, bytes)?)
}

fn name(alloc: Global, bytes: &[u8]) -> Result<Value, ValueFault>
    ensures { Reads (IsNameText bytes.now) result }
{
    let dn = match ad_dn::read(alloc, bytes) {
        Ok(dn) => dn,
        Err(DnFault::Bad { .. }) => return Err(ValueFault::Syntax),
        Err(DnFault::Memory) => return Err(ValueFault::Memory),
    };
    let key = ad_dn::key(alloc, &dn)?;
    Ok(Value::with_key(alloc, bytes, key.as_slice())?)
}

fn ascii(alloc: Global, bytes: &[u8]) -> Result<Value, ValueFault>
    ensures { Reads (IsAsciiText bytes.now) result }
{
    if !bytes.is_ascii() {
        return Err(ValueFault::Syntax);
    }
    let mut key = Bytes::from_slice(alloc, bytes)?;
    key.make_ascii_lowercase();
    Ok(Value::with_key(alloc, bytes, key.as_slice())?)
}

fn boolean(alloc: Global, bytes: &[u8]) -> Result<Value, ValueFault>
    ensures { Reads (IsNormal Syntax.Boolean bytes.now) result }
{
    if bytes.eq_ignore_ascii_case(b"TRUE") {
        return as_shown(alloc, b"TRUE");
    }
    if bytes.eq_ignore_ascii_case(b"FALSE") {
        return as_shown(alloc, b"FALSE");
    }
    Err(ValueFault::Syntax)
}

fn is_utf8(bytes: &[u8]) -> bool
    ensures { IsTrue result ↔ IsUtf8 bytes.now }
{
    str::from_utf8(bytes).is_ok()
}

fn unicode(alloc: Global, bytes: &[u8]) -> Result<Value, ValueFault>
    ensures { Reads (IsText bytes.now) result }
{
    if !is_utf8(bytes) {
        return Err(ValueFault::Syntax);
    }
    let key = fold_bytes(alloc, bytes)?;
    Ok(Value::with_key(alloc, bytes, key.as_slice())?)
}

// The identifier that the bytes are.
fn sid_in_bytes(bytes: &[u8]) -> Option<Sid>
    ensures { MatchOption result
        ((sid : SidValue) → SpellsSid sid bytes.now → ⊥)
        (λ sid. SpellsSid sid bytes.now
        × ((other : SidValue) → SpellsSid other bytes.now → other ≡ sid)) }
{
    match Sid::from_bytes(bytes) {
        Ok(found) => {
            if found.1 == bytes.len() {
                Some(found.0)
            } else {
                None
            }
        }
        Err(_) => None,
    }
}

// The identifier that the bytes are, or that they are the text of.
fn sid_of(bytes: &[u8]) -> Option<Sid>
    ensures { MatchOption result
        ((sid : SidValue) → IsSpelled sid bytes.now → ⊥)
        (λ sid. IsSpelled sid bytes.now
        × ((other : SidValue) → IsSpelled other bytes.now → other ≡ sid)) }
{
    match sid_in_bytes(bytes) {
        Some(sid) => Some(sid),
        None => match Sid::from_text(bytes) {
            Ok(sid) => Some(sid),
            Err(_) => None,
        },
    }
}

fn identifier(alloc: Global, bytes: &[u8]) -> Result<Value, ValueFault>
    ensures { Reads (IsIdentifier bytes.now) result }
{
    let sid = match sid_of(bytes) {
        Some(sid) => sid,
        None => return Err(ValueFault::Syntax),
    };
    let mut shown = Vec::new(alloc);
    sid.append(&mut shown)?;
    as_shown(alloc, &shown)
}

/// The normal form of a value in a syntax.
///
/// # Errors
///
/// `TooLong` above 1,048,576 bytes, whatever they are; else `Syntax` where they haven't the form of the
/// syntax; or `Memory`.
pub fn normal(alloc: Global, syntax: Syntax, bytes: &[u8]) -> Result<Value, ValueFault>
    // The value is the function's, and so is each fault.
    ensures value { GivesUnless is_memory (λ v. v) result (normal_or_fault syntax bytes.now) }
    // The value that is read is that of the bytes.
    ensures found { IfOk result (λ v. IsNormal syntax bytes.now v) }
    // Whatever is a value, and not too long, is read.
    ensures only { (v : Value) → IsNormal syntax bytes.now v → length bytes.now ≤ 1048576
        → IsReadAs v result }
    // Each fault exactly where it is due.
    ensures long { (result ≡ Err ValueFault.TooLong) ↔ (1048576 < length bytes.now) }
    ensures fault { result ≡ Err ValueFault.Syntax → (v : Value) → IsNormal syntax bytes.now v → ⊥ }
{
    if bytes.len() > LONGEST {
        return Err(ValueFault::TooLong);
    }
    what_a_text_spells();
    what_a_sid_s_text_spells();
    a_sid_is_read_as_spelled();
    form(alloc, syntax, bytes)
}

fn form(alloc: Global, syntax: Syntax, bytes: &[u8]) -> Result<Value, ValueFault>
    ensures { Reads (IsNormal syntax bytes.now) result }
{
    match syntax {
        Syntax::Name => name(alloc, bytes),
        Syntax::Ascii => ascii(alloc, bytes),
        Syntax::Boolean => boolean(alloc, bytes),
        Syntax::Integer => integer(alloc, bytes),
        Syntax::Large => large(alloc, bytes),
        Syntax::Octets | Syntax::Other => as_shown(alloc, bytes),
        Syntax::Unicode => unicode(alloc, bytes),
        Syntax::Sid => identifier(alloc, bytes),
    }
}
