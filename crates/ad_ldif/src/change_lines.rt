//! One line of a change record.

ghost use Rattle.std.specs.Prelude.{◌≡◌, ◌≤◌, not, length, IfOk};
ghost use Rattle.std.specs.List.{position};
ghost use Rattle.std.specs.Str.{bytes_eq};
ghost use Rattle.ad_ldif.specs.Fields.{is_name};
ghost use Rattle.ad_ldif.specs.Logical.{line_of};
ghost use Rattle.ad_ldif.specs.ChangeLines.{is_oid_byte, oid_len, critical_of, control_of, control_at, type_of};
ghost use Rattle.ad_ldif.specs.ChangeLines.{type_at};
ghost use Rattle.ad_ldif.specs.ChangeLines.{opening_at, behind_name, value_in, flag_of, flag_in};
ghost use Rattle.ad_ldif.specs.ChangeLines.{op_of, attribute_at, item_at, ends_item};
ghost use Rattle.ad_ldif.specs.Story.{Gives};

use crate::change::{LdifControl, LdifItem};
use crate::fault::{LdifFault, LdifKind};
use crate::field::{LONGEST, colon_of, is_word, name_end, short_value_of, value_of};
use crate::logical::Logical;
use ad_bytes::{Bytes, List};
use std::alloc::{AllocError, Global};

/// The kind of a change.
#[derive(Clone, Copy, Debug, PartialEq, Eq)]
pub(crate) enum ChangeType {
    Add,
    Delete,
    Rename,
    Modify,
}

/// What a line after `dn` is.
#[derive(Drop)]
pub(crate) enum Opening {
    Control(LdifControl),
    Type(ChangeType),
}

fn is_text(value: &[u8], text: &[u8]) -> bool
    ensures { result ≡ bytes_eq value.now text.now }
{
    value == text
}

fn is_oid_byte(byte: u8) -> bool
    ensures { result ≡ is_oid_byte byte }
{
    matches!(byte, b'0'..=b'9' | b'.')
}

// The place of the first byte that is no digit and no dot.
fn oid_end(value: &[u8]) -> Option<usize>
    ensures { result ≡ position (λ b. not (is_oid_byte b)) value.now }
{
    value.iter().position(|byte| !is_oid_byte(*byte))
}

// How many bytes at the start are digits and dots.
fn oid_len(value: &[u8]) -> usize
    ensures len { result ≡ oid_len value.now }
    ensures within { result ≤ length value.now }
{
    match oid_end(value) {
        Some(end) => end,
        None => value.len(),
    }
}

#[tactic(auto, unfolding(crate::specs::ChangeLines::critical_of))]
fn critical_of(behind: &[u8]) -> Option<bool>
    ensures { result ≡ critical_of behind.now }
{
    if behind.is_empty() {
        return Some(false);
    }
    if is_text(behind, b" false") {
        return Some(false);
    }
    if is_text(behind, b" true") {
        return Some(true);
    }
    None
}

// What is at fault in a line that stands out of place, or has another value than may stand there.
fn misplaced(number: u32) -> LdifFault
    ensures { result ≡ LdifFault.Bad number LdifKind.Line }
{
    LdifFault::Bad {
        line: number,
        kind: LdifKind::Line,
    }
}

fn too_long(number: u32) -> LdifFault
    ensures { result ≡ LdifFault.Bad number LdifKind.TooLong }
{
    LdifFault::Bad {
        line: number,
        kind: LdifKind::TooLong,
    }
}

fn no_type(number: u32) -> LdifFault
    ensures { result ≡ LdifFault.Bad number LdifKind.ChangeType }
{
    LdifFault::Bad {
        line: number,
        kind: LdifKind::ChangeType,
    }
}

// The control that a value encodes.
#[tactic(auto, unfolding(crate::specs::ChangeLines::control_of))]
fn control_of(alloc: Global, value: &[u8]) -> Result<Option<LdifControl>, AllocError>
    ensures { IfOk result (λ control. control ≡ control_of value.now) }
{
    let end = oid_len(value);
    if end == 0 {
        return Ok(None);
    }
    match critical_of(&value[end..]) {
        Some(critical) => Ok(Some(LdifControl {
            oid: Bytes::from_slice(alloc, &value[..end])?,
            critical,
        })),
        None => Ok(None),
    }
}

#[tactic(auto, unfolding(crate::specs::ChangeLines::control_at))]
fn read_control(alloc: Global, number: u32, behind: &[u8]) -> Result<LdifControl, LdifFault>
    ensures { Gives (λ c. c) result (control_at number behind.now) }
{
    let value = value_of(alloc, number, behind)?;
    match control_of(alloc, value.as_slice())? {
        Some(control) => {
            if value.len() > LONGEST {
                return Err(too_long(number));
            }
            Ok(control)
        }
        None => Err(misplaced(number)),
    }
}

#[tactic(auto, unfolding(crate::specs::ChangeLines::type_of))]
fn type_of(value: &[u8]) -> Option<ChangeType>
    ensures { result ≡ type_of value.now }
{
    if is_text(value, b"add") {
        return Some(ChangeType::Add);
    }
    if is_text(value, b"delete") {
        return Some(ChangeType::Delete);
    }
    if is_text(value, b"modify") {
        return Some(ChangeType::Modify);
    }
    if is_text(value, b"modrdn") {
        return Some(ChangeType::Rename);
    }
    if is_text(value, b"moddn") {
        return Some(ChangeType::Rename);
    }
    None
}

#[tactic(auto, unfolding(crate::specs::ChangeLines::type_at))]
fn read_type(alloc: Global, number: u32, behind: &[u8]) -> Result<ChangeType, LdifFault>
    ensures { Gives (λ t. t) result (type_at number behind.now) }
{
    let value = value_of(alloc, number, behind)?;
    match type_of(value.as_slice()) {
        Some(kind) => Ok(kind),
        None => Err(no_type(number)),
    }
}

/// A line after `dn`: a control, or the kind of change.
#[tactic(auto, unfolding(crate::specs::ChangeLines::opening_at))]
pub(crate) fn read_opening(alloc: Global, line: &Logical<'_>) -> Result<Opening, LdifFault>
    ensures { Gives (λ o. o) result (opening_at (line_of line.now)) }
{
    let text = line.bytes();
    let colon = colon_of(line.number, text)?;
    if is_word(&text[..colon], b"control") {
        let control = read_control(alloc, line.number, &text[colon + 1..])?;
        return Ok(Opening::Control(control));
    }
    if is_word(&text[..colon], b"changetype") {
        let kind = read_type(alloc, line.number, &text[colon + 1..])?;
        return Ok(Opening::Type(kind));
    }
    Err(no_type(line.number))
}

// What stands after the colon of a line that has this name.
#[tactic(auto, unfolding(crate::specs::ChangeLines::behind_name))]
fn behind_name<'l>(name: &[u8], line: &'l Logical<'_>) -> Result<&'l [u8], LdifFault>
    ensures { Gives (λ b. b.now) result (behind_name name.now (line_of line.now)) }
{
    let text = line.bytes();
    let colon = colon_of(line.number, text)?;
    if !is_word(&text[..colon], name) {
        return Err(misplaced(line.number));
    }
    Ok(&text[colon + 1..])
}

/// The value of a line that has this name.
#[tactic(auto, unfolding(crate::specs::ChangeLines::value_in))]
pub(crate) fn value_in(alloc: Global, name: &[u8], line: &Logical<'_>) -> Result<Bytes, LdifFault>
    ensures { Gives (λ v. v) result (value_in name.now (line_of line.now)) }
{
    let behind = behind_name(name, line)?;
    short_value_of(alloc, line.number, behind)
}

#[tactic(auto, unfolding(crate::specs::ChangeLines::flag_of))]
fn flag_of(value: &[u8]) -> Option<bool>
    ensures { result ≡ flag_of value.now }
{
    if is_text(value, b"0") {
        return Some(false);
    }
    if is_text(value, b"1") {
        return Some(true);
    }
    None
}

/// The flag in a line that has this name: 0 or 1.
#[tactic(auto, unfolding(crate::specs::ChangeLines::flag_in))]
pub(crate) fn flag_in(alloc: Global, name: &[u8], line: &Logical<'_>) -> Result<bool, LdifFault>
    ensures { Gives (λ f. f) result (flag_in name.now (line_of line.now)) }
{
    let behind = behind_name(name, line)?;
    let value = value_of(alloc, line.number, behind)?;
    match flag_of(value.as_slice()) {
        Some(flag) => Ok(flag),
        None => Err(misplaced(line.number)),
    }
}

#[tactic(auto, unfolding(crate::specs::ChangeLines::op_of))]
fn op_of(name: &[u8]) -> Option<u8>
    ensures { result ≡ op_of name.now }
{
    if is_word(name, b"add") {
        return Some(0);
    }
    if is_word(name, b"delete") {
        return Some(1);
    }
    if is_word(name, b"replace") {
        return Some(2);
    }
    None
}

// Whether bytes are the name of an attribute.
fn is_name(value: &[u8]) -> bool
    ensures { result ≡ is_name value.now }
{
    if value.is_empty() {
        return false;
    }
    name_end(value).is_none()
}

// An attribute's name as a value.
#[tactic(auto, unfolding(crate::specs::ChangeLines::attribute_at))]
fn read_attribute(alloc: Global, number: u32, behind: &[u8]) -> Result<Bytes, LdifFault>
    ensures { Gives (λ v. v) result (attribute_at number behind.now) }
{
    let value = value_of(alloc, number, behind)?;
    if !is_name(value.as_slice()) {
        return Err(misplaced(number));
    }
    if value.len() > LONGEST {
        return Err(too_long(number));
    }
    Ok(value)
}

/// The line that begins an item, which has no values yet.
#[tactic(auto, unfolding(crate::specs::ChangeLines::item_at))]
pub(crate) fn read_item(alloc: Global, line: &Logical<'_>) -> Result<LdifItem, LdifFault>
    ensures { Gives (λ i. i) result (item_at (line_of line.now)) }
{
    let text = line.bytes();
    let colon = colon_of(line.number, text)?;
    let Some(op) = op_of(&text[..colon]) else {
        return Err(misplaced(line.number));
    };
    let name = read_attribute(alloc, line.number, &text[colon + 1..])?;
    Ok(LdifItem {
        op,
        name,
        values: List::new(alloc),
    })
}

/// Whether a line ends an item.
pub(crate) fn ends_item(line: &Logical<'_>) -> bool
    ensures { result ≡ ends_item (line_of line.now) }
{
    is_text(line.bytes(), b"-")
}
