//! One line: its name, and its value as text or in base64.

ghost use Rattle.std.specs.Prelude.{◌≡◌, ◌≢◌, ◌↔◌, ◌+◌, ◌<◌, ◌==◌, ◌&&◌, not, ℕ, List, take, drop, length};
ghost use Rattle.std.specs.Prelude.{true, false, None, IsSome, IfSome, IfOk, MatchOption};
ghost use Rattle.std.specs.List.{list_any, position, position_or_len};
ghost use Rattle.std.specs.Str.{str_eq_ignore_ascii_case};
ghost use Rattle.base64.specs.Engines.{standard};
ghost use Rattle.base64.specs.GeneralPurpose.{encode_of, IsBytes};
ghost use Rattle.ad_bytes.specs.Reading.{fault_as};
ghost use Rattle.ad_ldif.specs.Fields.{is_name_byte, is_nul, is_line, name_of, behind_colon};
ghost use Rattle.ad_ldif.specs.Fields.{is_blank, without_blanks, decoded};
ghost use Rattle.ad_ldif.specs.Records.{bytes_of, fault, field_of, name_at, value_at, short_value_at};
ghost use Rattle.ad_ldif.specs.Records.{value_is, is_fixed, dn_at, field_at};
ghost use Rattle.ad_ldif.specs.Story.{Gives};

use crate::fault::{LdifFault, LdifKind};
use crate::held::Held;
use crate::record::LdifLine;
use crate::repeated::{Decoded, decoded_again};
use ad_bytes::Bytes;
use base64::DecodeAllocError;
use base64::engine::general_purpose::STANDARD;
use memchr::memchr;
use std::alloc::Global;

pub(crate) const LONGEST: usize = 1_048_576;

/// Whether a byte may stand in a name.
fn is_name_byte(byte: u8) -> bool
    ensures { result ≡ is_name_byte byte }
{
    // Most are small letters.
    if matches!(byte, b'a'..=b'z') {
        return true;
    }
    matches!(byte, b'A'..=b'Z' | b'0'..=b'9' | b'-' | b';')
}

/// The place of the first byte that stands in no name.
pub(crate) fn name_end(text: &[u8]) -> Option<usize>
    ensures { result ≡ position (λ b. not (is_name_byte b)) text.now }
{
    text.iter().position(|byte| !is_name_byte(*byte))
}

/// Whether a name is this one, in whatever case.
pub(crate) fn is_word(found: &[u8], name: &[u8]) -> bool
    ensures { result ≡ str_eq_ignore_ascii_case found.now name.now }
{
    found.eq_ignore_ascii_case(name)
}

/// The first place of a byte.
fn place_of(byte: u8, text: &[u8]) -> Option<usize>
    ensures { MatchOption result (list_any (λ b. b == byte) text.now ≡ false)
        (λ n. (list_any (λ b. b == byte) text.now ≡ true)
        × (position_or_len (λ b. b == byte) text.now ≡ n) × (n < length text.now)) }
{
    memchr(byte, text)
}

/// Whether there is a NUL.
fn has_nul(bytes: &[u8]) -> bool
    ensures { result ≡ list_any is_nul bytes.now }
{
    place_of(0, bytes).is_some()
}

fn both(a: bool, b: bool) -> bool
    ensures { result ≡ (a && b) }
{
    a && b
}

/// The length of the name at the start, where a colon is the first byte after it.
fn named(text: &[u8]) -> Option<usize>
    ensures none { result ≡ None → is_line text.now ≡ false }
    ensures line { IfSome result (λ n. is_line text.now
        ≡ not (list_any is_nul (drop (n + 1) text.now))) }
    ensures name { IfSome result (λ n. name_of text.now ≡ take n text.now) }
    ensures behind { IfSome result (λ n. behind_colon text.now ≡ drop (n + 1) text.now) }
    ensures within { IfSome result (λ n. n < length text.now) }
{
    let Some(end) = name_end(text) else {
        return None;
    };
    if both(end != 0, text[end] == b':') {
        return Some(end);
    }
    None
}

/// The length of a line's name, where it is a line. A name has no NUL, so that one is looked for after it alone.
fn name_len(text: &[u8]) -> Option<usize>
    ensures line { IsSome result ↔ (is_line text.now ≡ true) }
    ensures name { IfSome result (λ n. name_of text.now ≡ take n text.now) }
    ensures behind { IfSome result (λ n. behind_colon text.now ≡ drop (n + 1) text.now) }
    ensures within { IfSome result (λ n. n < length text.now) }
{
    let Some(colon) = named(text) else {
        return None;
    };
    if has_nul(&text[colon + 1..]) {
        return None;
    }
    Some(colon)
}

fn is_blank(byte: u8) -> bool
    ensures { result ≡ is_blank byte }
{
    byte == b' ' || byte == b'\t'
}

/// The bytes without the blanks at the start.
#[tactic(auto, unfolding(crate::specs::Fields::without_blanks))]
fn without_blanks(bytes: &[u8]) -> &[u8]
    ensures { result.now ≡ without_blanks bytes.now }
{
    let mut rest = bytes;
    while let Some((first, others)) = rest.split_first() {
        if !is_blank(*first) {
            return rest;
        }
        rest = others;
    }
    rest
}

/// The bytes that a text in base64 encodes.
#[tactic(auto, unfolding(crate::specs::Fields::decoded))]
pub(crate) fn decoded(alloc: Global, number: u32, text: &[u8]) -> Result<Vec<u8>, LdifFault>
    ensures value { Gives (λ v. v.items) result (fault_as (fault number) (decoded text.now)) }
    // What is decoded is what the bytes encode to, and nothing that is such an encoding is refused.
    ensures strict { IfOk result (λ v. text.now ≡ encode_of standard v.items) }
    ensures refused { result ≡ Err (LdifFault.Bad number LdifKind.Base64)
        → (b : List ℕ) → IsBytes b → text.now ≢ encode_of standard b }
{
    match STANDARD.decode(alloc, text) {
        Ok(bytes) => Ok(bytes),
        Err(DecodeAllocError::OutOfMemory) => Err(LdifFault::Memory),
        Err(DecodeAllocError::DecodeError(_)) => Err(LdifFault::Bad {
            line: number,
            kind: LdifKind::Base64,
        }),
    }
}

/// The value after a name's colon.
#[tactic(auto, unfolding(crate::specs::Records::value_at, crate::specs::Fields::value_of))]
pub(crate) fn value_of(alloc: Global, number: u32, behind: &[u8]) -> Result<Bytes, LdifFault>
    ensures { Gives (λ v. v) result (value_at number behind.now) }
{
    match behind.first() {
        Some(b':') => {
            let text = without_blanks(&behind[1..]);
            Ok(Bytes::from_vec(decoded(alloc, number, text)?))
        }
        Some(b'<') => Err(LdifFault::Bad {
            line: number,
            kind: LdifKind::Url,
        }),
        _ => Ok(Bytes::from_slice(alloc, without_blanks(behind))?),
    }
}

/// The same, which others may share. `last` is the last long value that was decoded.
#[tactic(auto, unfolding(crate::specs::Records::value_at, crate::specs::Fields::value_of))]
fn held_value_of(
    alloc: Global,
    last: &mut Option<Decoded>,
    number: u32,
    behind: &[u8],
) -> Result<Held, LdifFault>
    ensures { Gives bytes_of result (value_at number behind.now) }
{
    match behind.first() {
        Some(b':') => decoded_again(alloc, last, number, without_blanks(&behind[1..])),
        _ => Ok(Held::Own(value_of(alloc, number, behind)?)),
    }
}

/// A value of at most 1,048,576 bytes.
#[tactic(auto, unfolding(crate::specs::Records::short_value_at))]
pub(crate) fn short_value_of(alloc: Global, number: u32, behind: &[u8]) -> Result<Bytes, LdifFault>
    ensures { Gives (λ v. v) result (short_value_at number behind.now) }
{
    let value = value_of(alloc, number, behind)?;
    if value.len() > LONGEST {
        return Err(LdifFault::Bad {
            line: number,
            kind: LdifKind::TooLong,
        });
    }
    Ok(value)
}

/// The same, which others may share.
#[tactic(auto, unfolding(crate::specs::Records::short_value_at))]
fn short_held_value_of(
    alloc: Global,
    last: &mut Option<Decoded>,
    number: u32,
    behind: &[u8],
) -> Result<Held, LdifFault>
    ensures { Gives bytes_of result (short_value_at number behind.now) }
{
    let value = held_value_of(alloc, last, number, behind)?;
    if value.as_slice().len() > LONGEST {
        return Err(LdifFault::Bad {
            line: number,
            kind: LdifKind::TooLong,
        });
    }
    Ok(value)
}

/// The colon's place in a line.
#[tactic(auto, unfolding(crate::specs::Records::name_at))]
pub(crate) fn colon_of(number: u32, text: &[u8]) -> Result<usize, LdifFault>
    ensures name { Gives (λ n. take n text.now) result
        (name_at (record { number = number; text = text.now })) }
    ensures behind { IfOk result (λ n.
        (behind_colon text.now ≡ drop (n + 1) text.now) × (n < length text.now)) }
{
    match name_len(text) {
        Some(colon) => Ok(colon),
        None => Err(LdifFault::Bad {
            line: number,
            kind: LdifKind::Line,
        }),
    }
}

/// Whether a value is this one; else it is the fault `other`.
#[tactic(auto, unfolding(crate::specs::Records::value_is))]
fn has_value(
    alloc: Global,
    number: u32,
    behind: &[u8],
    value: &[u8],
    other: LdifKind,
) -> Result<bool, LdifFault>
    ensures { Gives (λ b. b) result (value_is value.now other number behind.now) }
{
    let given = value_of(alloc, number, behind)?;
    if given.as_slice() != value {
        return Err(LdifFault::Bad {
            line: number,
            kind: other,
        });
    }
    Ok(true)
}

/// Whether a line has this name; then its value has to be this one, or it is the fault `other`.
#[tactic(auto, unfolding(crate::specs::Records::is_fixed))]
pub fn is_fixed(
    alloc: Global,
    number: u32,
    text: &[u8],
    name: &[u8],
    value: &[u8],
    other: LdifKind,
) -> Result<bool, LdifFault>
    ensures { Gives (λ b. b) result
        (is_fixed name.now value.now other (record { number = number; text = text.now })) }
{
    let colon = colon_of(number, text)?;
    if !is_word(&text[..colon], name) {
        return Ok(false);
    }
    has_value(alloc, number, &text[colon + 1..], value, other)
}

/// The value of the line `dn`.
#[tactic(auto, unfolding(crate::specs::Records::dn_at))]
pub fn read_dn(alloc: Global, number: u32, text: &[u8]) -> Result<Bytes, LdifFault>
    ensures { Gives (λ v. v) result (dn_at (record { number = number; text = text.now })) }
{
    let colon = colon_of(number, text)?;
    if !is_word(&text[..colon], b"dn") {
        return Err(LdifFault::Bad {
            line: number,
            kind: LdifKind::NoDn,
        });
    }
    short_value_of(alloc, number, &text[colon + 1..])
}

/// An attribute's line. `last` is the last long value that was decoded.
#[tactic(auto, unfolding(crate::specs::Records::field_at))]
pub(crate) fn read_field(
    alloc: Global,
    last: &mut Option<Decoded>,
    number: u32,
    text: &[u8],
) -> Result<LdifLine, LdifFault>
    ensures { Gives field_of result (field_at (record { number = number; text = text.now })) }
{
    let colon = colon_of(number, text)?;
    let held = short_held_value_of(alloc, last, number, &text[colon + 1..])?;
    let name = Bytes::from_slice(alloc, &text[..colon])?;
    Ok(LdifLine {
        line: number,
        name,
        held,
    })
}
