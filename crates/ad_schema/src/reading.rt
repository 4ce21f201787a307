//! What the records of attributes, rights and classes say by themselves.

ghost use Rattle.std.specs.Prelude.{◌≡◌, ◌<◌, ◌≤◌, ◌^◌, false, IfOk, IfSome, unwrap_or, filter_map};
ghost use Rattle.std.specs.Option.{option_and_then};
ghost use Rattle.ad_ids.specs.GuidText.{guid_of};
ghost use Rattle.ad_schema.specs.Numbers.{number_below, signed_bits, truth_of};
ghost use Rattle.ad_ids.specs.GuidText.{guid_of_text};
ghost use Rattle.ad_schema.specs.Fields.{value_of, text_of, values_of, value_if};
ghost use Rattle.ad_schema.specs.Attributes.{no_guid, is_confidential, attr_info, right_guid, right_info};
ghost use Rattle.ad_schema.specs.Classes.{class_guid, class_info};

use crate::field::Field;
use crate::guids::Guids;
use crate::info::{AttrId, AttrInfo, ClassId, ClassInfo, RightInfo};
use crate::line::Line;
use crate::number::{number_below, signed_bits, truth_of};
use crate::record::{is_line_of, text_of, value_of};
use ad_bytes::Bytes;
use ad_ids::Guid;
use ad_value::Syntax;
use std::alloc::{AllocError, Global};

/// Stands where a GUID that is required isn't there.
const NO_GUID: Guid = Guid { bytes: [0; 16] };

fn or_no_guid(guid: Option<Guid>) -> Guid
    ensures { result ≡ unwrap_or guid no_guid }
{
    match guid {
        Some(guid) => guid,
        None => NO_GUID,
    }
}

fn guid_in(field: Field, lines: &[Line]) -> Option<Guid>
    ensures { result ≡ option_and_then guid_of (value_of field lines.now) }
{
    match value_of(field, lines) {
        Some(value) => Guid::from_bytes(value),
        None => None,
    }
}

fn number_in(limit: u64, field: Field, lines: &[Line]) -> Option<u64>
    requires some { 0 < limit }
    requires small { limit ≤ 2 ^ 32 }
    ensures value { result ≡ option_and_then (number_below limit) (value_of field lines.now) }
    ensures below { IfSome result (λ n. n < limit) }
{
    match value_of(field, lines) {
        Some(value) => number_below(limit, value),
        None => None,
    }
}

#[tactic(auto, unfolding(crate::specs::Attributes::is_confidential))]
fn has_confidential_bit(bits: u64) -> bool
    ensures { result ≡ is_confidential bits }
{
    bits >> 7 & 1 == 1
}

fn is_confidential(lines: &[Line]) -> bool
    ensures { result ≡ is_confidential (unwrap_or
        (option_and_then signed_bits (value_of Field.SearchFlags lines.now)) 0) }
{
    let Some(value) = value_of(Field::SearchFlags, lines) else {
        return has_confidential_bit(0);
    };
    match signed_bits(value) {
        Some(bits) => has_confidential_bit(bits),
        None => has_confidential_bit(0),
    }
}

fn is_single(lines: &[Line]) -> bool
    ensures { result ≡ unwrap_or (option_and_then truth_of (value_of Field.SingleValued lines.now))
        false }
{
    let Some(value) = value_of(Field::SingleValued, lines) else {
        return false;
    };
    match truth_of(value) {
        Some(single) => single,
        None => false,
    }
}

fn link_of(lines: &[Line]) -> Option<u32>
    ensures { result ≡ option_and_then (number_below (2 ^ 32)) (value_of Field.LinkId lines.now) }
{
    match number_in(1 << 32, Field::LinkId, lines) {
        Some(link) => Some(link as u32),
        None => None,
    }
}

/// What the record of an attribute says.
#[tactic(auto, unfolding(crate::specs::Attributes::attr_info))]
pub fn read_attr(alloc: Global, lines: &[Line]) -> Result<AttrInfo, AllocError>
    ensures { IfOk result (λ info. info ≡ attr_info lines.now) }
{
    Ok(AttrInfo {
        name: Bytes::from_slice(alloc, text_of(Field::DisplayName, lines))?,
        syntax: Syntax::from_oid(text_of(Field::AttributeSyntax, lines)),
        guid: or_no_guid(Guid::from_bytes(text_of(Field::SchemaGuid, lines))),
        set: guid_in(Field::SecurityGuid, lines),
        confidential: is_confidential(lines),
        single: is_single(lines),
        link: link_of(lines),
    })
}

/// The GUID of a right.
#[tactic(auto, unfolding(crate::specs::Attributes::right_guid))]
pub fn right_guid(lines: &[Line]) -> Guid
    ensures { result ≡ right_guid lines.now }
{
    or_no_guid(Guid::from_text(text_of(Field::RightsGuid, lines)))
}

fn accesses_of(lines: &[Line]) -> u32
    ensures { result ≡ unwrap_or (number_below (2 ^ 32) (text_of Field.ValidAccesses lines.now)) 0 }
{
    match number_below(1 << 32, text_of(Field::ValidAccesses, lines)) {
        Some(accesses) => accesses as u32,
        None => 0,
    }
}

/// The GUID of a line of appliesTo.
#[tactic(auto, unfolding(crate::specs::Fields::value_if))]
fn applied(line: &Line) -> Option<Guid>
    ensures { result ≡ value_if guid_of_text Field.AppliesTo Field.AppliesTo line.now }
{
    if is_line_of(Field::AppliesTo, line) {
        return Guid::from_text(line.value.as_slice());
    }
    None
}

fn applies_to(alloc: Global, lines: &[Line]) -> Result<Guids, AllocError>
    ensures { IfOk result (λ guids.
        guids ≡ filter_map guid_of_text (values_of Field.AppliesTo Field.AppliesTo lines.now)) }
{
    let mut guids = Guids::new(alloc);
    for line in lines {
        let Some(guid) = applied(line) else {
            continue;
        };
        guids.push(guid)?;
    }
    Ok(guids)
}

/// What the record of a right says.
#[tactic(auto, unfolding(crate::specs::Attributes::right_info))]
pub fn read_right(alloc: Global, lines: &[Line]) -> Result<RightInfo, AllocError>
    ensures { IfOk result (λ info. info ≡ right_info lines.now) }
{
    Ok(RightInfo {
        name: Bytes::from_slice(alloc, text_of(Field::CommonName, lines))?,
        guid: right_guid(lines),
        accesses: accesses_of(lines),
        applies: applies_to(alloc, lines)?,
    })
}

fn category_of(lines: &[Line]) -> u8
    ensures { result
        ≡ unwrap_or (option_and_then (number_below (2 ^ 8)) (value_of Field.Category lines.now)) 1 }
{
    match number_in(1 << 8, Field::Category, lines) {
        Some(category) => category as u8,
        None => 1,
    }
}

fn default_of(alloc: Global, lines: &[Line]) -> Result<Option<Bytes>, AllocError>
    ensures { IfOk result (λ text. text ≡ value_of Field.DefaultDescriptor lines.now) }
{
    match value_of(Field::DefaultDescriptor, lines) {
        Some(text) => Ok(Some(Bytes::from_slice(alloc, text)?)),
        None => Ok(None),
    }
}

#[tactic(auto, unfolding(crate::specs::Classes::class_guid))]
pub fn class_guid(lines: &[Line]) -> Guid
    ensures { result ≡ class_guid lines.now }
{
    or_no_guid(Guid::from_bytes(text_of(Field::SchemaGuid, lines)))
}

/// What the record of a class says, with its superclass and its naming attribute.
#[tactic(auto, unfolding(crate::specs::Classes::class_info))]
pub fn read_class(
    alloc: Global,
    above: Option<u32>,
    naming: u32,
    lines: &[Line],
) -> Result<ClassInfo, AllocError>
    ensures { IfOk result (λ info. info ≡ class_info above naming lines.now) }
{
    Ok(ClassInfo {
        name: Bytes::from_slice(alloc, text_of(Field::DisplayName, lines))?,
        guid: class_guid(lines),
        category: category_of(lines),
        above: above.map(ClassId),
        naming: AttrId(naming),
        default_sd: default_of(alloc, lines)?,
    })
}
