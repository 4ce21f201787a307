//! Reading the bodies of rows, and whether what was read is of the schema.

ghost use Rattle.std.specs.Prelude.{◌≡◌, ◌↔◌, ◌<◌, length, Some, IsTrue, IfOk, IfSome};
ghost use Rattle.std.specs.Option.{option_copied};
ghost use Rattle.std.specs.Str.{bytes_eq};
ghost use Rattle.ad_bytes.specs.Reading.{GivesUnless, ReadsUnless, many_at};
ghost use Rattle.ad_schema.specs.Classes.{classes_of};
ghost use Rattle.ad_dir_model.specs.Soundness.{IsContent};
ghost use Rattle.ad_dir_objects.specs.Seen.{meta_seen, object_seen};
ghost use Rattle.ad_rows.specs.declared.parsing.BodyFault.TheVariants.{Bad as BadBody, Memory as NoMemory};
ghost use Rattle.ad_rows.specs.Parsing.{canonical_of, is_memory, kind_of, line_at, meta_in, object_in};
ghost use Rattle.ad_rows.specs.Parsing.{pending_at, queue_in, record_in, suffix_of, text_at};

use crate::attributes::attributes;
use crate::descriptors::read_again;
use ad_bytes::{Bytes, Input, Short};
use ad_dir::{Meta, Object};
use ad_dn::{Dn, DnFault, is_value, read};
use ad_schema::{ClassId, Line, Lines, Schema, SchemaKind, SchemaRecord};
use ad_sd::NormalSd;
use prop_queue::Pending;
use std::alloc::{AllocError, AllocFailed, Global};

/// Why a body isn't read.
#[derive(Clone, Copy, Debug, PartialEq, Eq)]
pub(crate) enum BodyFault {
    /// It isn't of its form.
    Bad,
    /// There is no memory.
    Memory,
}

impl From<Short> for BodyFault {
    ghost from_gives = { λ _ e. e ≡ BadBody };

    fn from(_: Short) -> Self {
        BodyFault::Bad
    }
}

impl From<AllocError> for BodyFault {
    ghost from_gives = { λ _ e. e ≡ NoMemory };

    fn from(_: AllocError) -> Self {
        BodyFault::Memory
    }
}

impl<T: Drop> From<AllocFailed<T>> for BodyFault {
    ghost from_gives = { λ _ e. e ≡ NoMemory };

    fn from(_: AllocFailed<T>) -> Self {
        BodyFault::Memory
    }
}

/// Whether both hold.
pub(crate) fn both(a: bool, b: bool) -> bool
    ensures { IsTrue result ↔ (IsTrue a × IsTrue b) }
{
    a && b
}

/// A text or a value, after its length.
#[tactic(auto, unfolding(crate::specs::Parsing::text_at))]
pub(crate) fn text<'a>(input: &mut Input<'a>) -> Result<&'a [u8], BodyFault>
    ensures { ReadsUnless is_memory (λ text. text.now) result input.new (text_at input.old) }
{
    let size = input.be64()?;
    let part = input.part(size as usize)?;
    Ok(part.rest())
}

fn is_class(schema: Option<&Schema>, class: ClassId) -> bool
    ensures { IfSome (option_copied schema.entry)
        (λ s. IsTrue result ↔ (class.0 < length (classes_of s))) }
{
    match schema {
        Some(schema) => (class.0 as usize) < schema.classes().len(),
        None => false,
    }
}

/// The object of a row with its descriptor, which may be the last one that was read, and whether its content is of
/// the schema.
#[tactic(auto, unfolding(crate::specs::Parsing::object_in))]
pub(crate) fn object(
    alloc: Global,
    schema: Option<&Schema>,
    last: &mut Option<NormalSd>,
    number: u32,
    body: &[u8],
) -> Result<(Object, NormalSd, bool), BodyFault>
    ensures number { IfOk result (λ read. read.0.number ≡ number) }
    ensures content { IfOk result (λ read. IfSome (option_copied schema.entry)
        (λ s. IsTrue read.2 ↔ IsContent s (object_seen read.0 read.1))) }
    ensures read { GivesUnless is_memory (λ read. object_seen read.0 read.1) result
        (object_in (option_copied schema.entry) number body.now) }
{
    let mut input = Input::new(body);
    let parent = input.be32()?;
    let class = ClassId(input.be32()?);
    let name = Bytes::from_slice(alloc, text(&mut input)?)?;
    let (values, good) = attributes(alloc, schema, &mut input)?;
    let sd = read_again(alloc, last, input.rest())?;
    let named = both(is_value(name.as_slice()), is_class(schema, class));
    let object = Object {
        number,
        parent,
        class,
        name,
        values,
    };
    Ok((object, sd, both(good, named)))
}

#[tactic(auto, unfolding(crate::specs::Parsing::pending_at))]
fn pending_entry(input: &mut Input<'_>) -> Result<Pending, BodyFault>
    ensures { ReadsUnless is_memory (λ entry. entry) result input.new (pending_at input.old) }
{
    let parent = input.be32()?;
    let cursor = input.be32()?;
    Ok(Pending { parent, cursor })
}

// So many entries.
fn pending_entries(
    alloc: Global,
    input: &mut Input<'_>,
    count: u64,
) -> Result<Vec<Pending>, BodyFault>
    ensures { ReadsUnless is_memory (λ entries. entries.items) result input.new
        (many_at pending_at count input.old) }
{
    let mut entries = Vec::new(alloc);
    for _ in 0..count {
        let entry = pending_entry(input)?;
        entries.push(entry)?;
    }
    Ok(entries)
}

/// The pending list of a row.
#[tactic(auto, unfolding(crate::specs::Parsing::queue_in))]
pub(crate) fn pending(alloc: Global, body: &[u8]) -> Result<Vec<Pending>, BodyFault>
    ensures { GivesUnless is_memory (λ entries. entries.items) result (queue_in body.now) }
{
    let mut input = Input::new(body);
    let count = input.be64()?;
    let entries = pending_entries(alloc, &mut input, count)?;
    if !input.is_empty() {
        return Err(BodyFault::Bad);
    }
    Ok(entries)
}

fn is_same(a: &[u8], b: &[u8]) -> bool
    ensures { result ≡ bytes_eq a.now b.now }
{
    a == b
}

// The name, where this is its canonical text.
fn canonical(alloc: Global, dn: Dn, text: &[u8]) -> Result<Dn, BodyFault>
    ensures { GivesUnless is_memory (λ dn. dn.rdns) result (canonical_of text.now (Some dn)) }
{
    let canonical = dn.text(alloc)?;
    if !is_same(canonical.as_slice(), text) {
        return Err(BodyFault::Bad);
    }
    Ok(dn)
}

#[tactic(auto, unfolding(crate::specs::Parsing::suffix_of))]
fn suffix(alloc: Global, text: &[u8]) -> Result<Dn, BodyFault>
    ensures { GivesUnless is_memory (λ dn. dn.rdns) result (suffix_of text.now) }
{
    match read(alloc, text) {
        Ok(dn) => canonical(alloc, dn, text),
        Err(DnFault::Memory) => Err(BodyFault::Memory),
        Err(_) => Err(BodyFault::Bad),
    }
}

/// The counters of a row, and the name above the root in its canonical text.
#[tactic(auto, unfolding(crate::specs::Parsing::meta_in))]
pub(crate) fn meta(alloc: Global, body: &[u8]) -> Result<Meta, BodyFault>
    ensures { GivesUnless is_memory meta_seen result (meta_in body.now) }
{
    let mut input = Input::new(body);
    let next_number = input.be32()?;
    let next_rid = input.be32()?;
    let text = text(&mut input)?;
    if !input.is_empty() {
        return Err(BodyFault::Bad);
    }
    let suffix = suffix(alloc, text)?;
    Ok(Meta {
        next_number,
        next_rid,
        suffix,
    })
}

fn kind(byte: u8) -> Result<SchemaKind, BodyFault>
    ensures { GivesUnless is_memory (λ kind. kind) result (kind_of byte) }
{
    match byte {
        0 => Ok(SchemaKind::Attribute),
        1 => Ok(SchemaKind::Class),
        2 => Ok(SchemaKind::Right),
        _ => Err(BodyFault::Bad),
    }
}

#[tactic(auto, unfolding(crate::specs::Parsing::line_at))]
fn line(alloc: Global, input: &mut Input<'_>) -> Result<Line, BodyFault>
    ensures { ReadsUnless is_memory (λ line. line) result input.new (line_at input.old) }
{
    let name = Bytes::from_slice(alloc, text(input)?)?;
    let value = Bytes::from_slice(alloc, text(input)?)?;
    Ok(Line { name, value })
}

// So many lines.
fn lines(alloc: Global, input: &mut Input<'_>, count: u64) -> Result<Vec<Line>, BodyFault>
    ensures { ReadsUnless is_memory (λ lines. lines.items) result input.new
        (many_at line_at count input.old) }
{
    let mut lines = Vec::new(alloc);
    for _ in 0..count {
        let line = line(alloc, input)?;
        lines.push(line)?;
    }
    Ok(lines)
}

/// The record of the schema of a row.
#[tactic(auto, unfolding(crate::specs::Parsing::record_in))]
pub(crate) fn record(alloc: Global, body: &[u8]) -> Result<SchemaRecord, BodyFault>
    ensures { GivesUnless is_memory (λ read. read) result (record_in body.now) }
{
    let mut input = Input::new(body);
    let kind = kind(input.byte()?)?;
    let count = input.be64()?;
    let lines = lines(alloc, &mut input, count)?;
    if !input.is_empty() {
        return Err(BodyFault::Bad);
    }
    Ok(SchemaRecord {
        kind,
        lines: Lines::from_vec(lines),
    })
}
