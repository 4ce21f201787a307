//! The fields of an entry between its type and its identifier.

ghost use Rattle.std.specs.Prelude.{◌≡◌, ◌≤◌, ◌<◌, ◌^◌, ◌+◌, ◌==◌, ◌++◌, List, ℕ, length, drop, take, bit_and};
ghost use Rattle.std.specs.Prelude.{if◌then◌else◌, OnOk, OnSome, IfOk, IfSome, Some, None, Option, IsTrue};
ghost use Rattle.ad_bytes.specs.Reading.{Reads};
ghost use Rattle.ad_ids.specs.GuidText.{guid_of_text};
ghost use Rattle.ad_sddl.specs.Words.{begins, find};
ghost use Rattle.ad_acl.specs.Codes.{flag_codes, right_codes};
ghost use Rattle.ad_sddl.specs.declared.fault.SddlKind.TheVariants as kind;
ghost use Rattle.ad_sddl.specs.Reading.{end_at, code_at, field_at, digits_at, digit_here, hex_at, rights_at};
ghost use Rattle.ad_sddl.specs.Reading.{present_guid_at, guid_at};
ghost use Rattle.ad_sddl.specs.Calls.{with_rest};

use crate::fault::{ParseError, SddlKind};
use crate::numeric::skip;
use crate::words::find;
use ad_acl::{Code, flag_codes, right_codes};
use ad_bytes::{Input, hex_value};
use ad_ids::Guid;

/// The number of characters of a GUID.
const GUID_LENGTH: usize = 36;

/// Whether the input begins with the word.
#[tactic(auto, unfolding(crate::specs::Words::begins))]
pub(crate) fn begins(input: &Input<'_>, word: &[u8]) -> bool
    ensures is { result ≡ begins word.now input.now }
    ensures within { IsTrue result → length word.now ≤ length input.now }
{
    input.rest().starts_with(word)
}

/// Takes the word at the beginning of the input, if it stands there, and says whether it did.
pub(crate) fn takes(input: &mut Input<'_>, word: &[u8]) -> bool
    ensures took { result ≡ begins word.now input.old }
    ensures left { input.new ≡ (if result then drop (length word.now) input.old else input.old) }
    ensures shorter { IsTrue result → length input.new + length word.now ≡ length input.old }
{
    if !begins(input, word) {
        return false;
    }
    skip(input, word.len());
    true
}

/// Reads the character that ends a field.
#[tactic(auto, unfolding(crate::specs::Reading::end_at))]
pub(crate) fn read_end(input: &mut Input<'_>, end: u8) -> Result<(), ParseError>
    ensures read { Reads result input.new (end_at end input.old) }
    ensures left { OnOk result (length input.new < length input.old) }
{
    let left = input.len();
    match input.byte() {
        Ok(byte) => {
            if byte == end {
                Ok(())
            } else {
                Err(ParseError::Bad(SddlKind::Shape, left))
            }
        }
        Err(_) => Err(ParseError::Bad(SddlKind::Shape, left)),
    }
}

// The bits of the code at the beginning.
#[tactic(auto, unfolding(crate::specs::Reading::code_at))]
fn read_code(input: &mut Input<'_>, table: &[Code], kind: SddlKind) -> Result<u32, ParseError>
    ensures read { Reads result input.new (code_at table.now kind input.old) }
    ensures left { OnOk result (length input.new < length input.old) }
{
    let left = input.len();
    let Ok(first) = input.byte() else {
        return Err(ParseError::Bad(kind, left));
    };
    let Ok(second) = input.byte() else {
        return Err(ParseError::Bad(kind, left));
    };
    match find(table, first, second) {
        Some(code) => Ok(code.bits),
        None => Err(ParseError::Bad(kind, left)),
    }
}

// Reads codes up to the semicolon after them.
fn read_codes(input: &mut Input<'_>, table: &[Code], kind: SddlKind) -> Result<u32, ParseError>
    ensures read { Reads result input.new (field_at table.now kind input.old) }
    ensures left { OnOk result (length input.new ≤ length input.old) }
{
    let mut mask = 0;
    while !begins(input, b";") {
        mask |= read_code(input, table, kind)?;
    }
    skip(input, 1);
    Ok(mask)
}

/// Reads the flags of an entry, and the semicolon after them.
pub(crate) fn read_flags(input: &mut Input<'_>) -> Result<u8, ParseError>
    ensures read { Reads result input.new (field_at flag_codes kind.Flag input.old) }
    ensures clear { IfOk result (λ flags. bit_and flags 32 ≡ 0) }
    ensures left { OnOk result (length input.new ≤ length input.old) }
{
    let flags = read_codes(input, flag_codes(), SddlKind::Flag)?;
    Ok(flags as u8)
}

// The value of the hexadecimal digit at the beginning, if one stands there.
fn digit_here(text: &[u8]) -> Option<u8>
    ensures value { result ≡ digit_here text.now }
    ensures below { IfSome result (λ value. value < 16) }
{
    match text.first() {
        Some(byte) => hex_value(*byte),
        None => None,
    }
}

// The number of up to eight digits, as many as there are.
fn read_digits(input: &mut Input<'_>) -> u32
    ensures read { (result, input.new) ≡ digits_at 8 0 input.old }
    ensures left { length input.new ≤ length input.old }
{
    let mut number = 0;
    for _ in 0..8_u32 {
        let Some(value) = digit_here(input.rest()) else {
            return number;
        };
        skip(input, 1);
        number = number * 16 + u32::from(value);
    }
    number
}

// Reads 0x, which stands there, the digits after it, and the semicolon after them.
#[tactic(auto, unfolding(crate::specs::Reading::hex_at))]
fn read_hex(input: &mut Input<'_>) -> Result<u32, ParseError>
    requires { 2 ≤ length input.old }
    ensures read { Reads result input.new (hex_at input.old) }
    ensures left { OnOk result (length input.new ≤ length input.old) }
{
    let left = input.len();
    skip(input, 2);
    if digit_here(input.rest()).is_none() {
        return Err(ParseError::Bad(SddlKind::Rights, left));
    }
    let mask = read_digits(input);
    read_end(input, b';')?;
    Ok(mask)
}

/// Reads the rights of an entry, and the semicolon after them.
pub(crate) fn read_rights(input: &mut Input<'_>) -> Result<u32, ParseError>
    ensures read { Reads result input.new (rights_at input.old) }
    ensures left { OnOk result (length input.new ≤ length input.old) }
{
    if begins(input, b"0x") {
        read_hex(input)
    } else {
        read_codes(input, right_codes(), SddlKind::Rights)
    }
}

fn first_guid(text: &[u8]) -> Option<Guid>
    ensures guid { result ≡ guid_of_text (take 36 text.now) }
    ensures long { OnSome result (36 ≤ length text.now) }
{
    if text.len() < GUID_LENGTH {
        return None;
    }
    Guid::from_text(&text[..GUID_LENGTH])
}

#[tactic(auto, unfolding(crate::specs::Reading::present_guid_at))]
fn read_present_guid(input: &mut Input<'_>) -> Result<Option<Guid>, ParseError>
    ensures read { Reads result input.new (present_guid_at input.old) }
    ensures left { OnOk result (length input.new ≤ length input.old) }
{
    let Some(guid) = first_guid(input.rest()) else {
        return Err(ParseError::Bad(SddlKind::Guid, input.len()));
    };
    skip(input, GUID_LENGTH);
    read_end(input, b';')?;
    Ok(Some(guid))
}

/// Reads the field of a GUID, and the semicolon after it. It is empty, unless the type of the entry may have GUIDs.
#[tactic(auto, unfolding(crate::specs::Reading::guid_at))]
pub(crate) fn read_guid(input: &mut Input<'_>, is_object: bool) -> Result<Option<Guid>, ParseError>
    ensures read { Reads result input.new (guid_at is_object input.old) }
    ensures left { OnOk result (length input.new ≤ length input.old) }
{
    if begins(input, b";") {
        skip(input, 1);
        return Ok(None);
    }
    if !is_object {
        return Err(ParseError::Bad(SddlKind::Guid, input.len()));
    }
    read_present_guid(input)
}
