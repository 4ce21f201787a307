//! The lines of one record: what is wrong with them, and their values.

ghost use Rattle.std.specs.Prelude.{◌≡◌, [], IfOk};
ghost use Rattle.std.specs.Option.{option_map};
ghost use Rattle.ad_bytes.specs.Reading.{GivesUnless};
ghost use Rattle.ad_schema.specs.Fields.{is_line_of, field_of, has, value_of, text_of, name_of};
ghost use Rattle.ad_schema.specs.Faults.{missing, is_bad, bad_line, bad_value};
ghost use Rattle.ad_schema.specs.Records.{is_memory, none_of, checked};

use crate::fault::SchemaFault;
use crate::field::{Field, fields, is_list, name_of, reads, required};
use crate::line::{Line, SchemaKind};
use crate::lines::Lines;
use ad_bytes::Bytes;
use ad_schema_classes::same_name;
use std::alloc::{AllocError, Global};

pub fn is_line_of(field: Field, line: &Line) -> bool
    ensures { result ≡ is_line_of field line.now }
{
    same_name(line.name.as_slice(), name_of(field))
}

/// What a line says in a record of this kind.
#[tactic(auto, unfolding(crate::specs::Fields::field_of))]
pub fn field_of(kind: SchemaKind, line: &Line) -> Option<Field>
    ensures { result ≡ field_of kind line.now }
{
    fields(kind)
        .iter()
        .copied()
        .find(|field| is_line_of(*field, line))
}

/// Whether there is such a line.
#[tactic(auto, unfolding(crate::specs::Fields::has))]
fn has(field: Field, lines: &[Line]) -> bool
    ensures { result ≡ has field lines.now }
{
    lines.iter().any(|line| is_line_of(field, line))
}

/// The value of the first such line.
#[tactic(auto, unfolding(crate::specs::Fields::value_of))]
pub fn value_of(field: Field, lines: &[Line]) -> Option<&[u8]>
    ensures { option_map (λ value. value.now) result ≡ value_of field lines.now }
{
    let line = lines.iter().find(|line| is_line_of(field, line))?;
    Some(line.value.as_slice())
}

/// The same of a required line, which is there.
pub fn text_of(field: Field, lines: &[Line]) -> &[u8]
    ensures { result.now ≡ text_of field lines.now }
{
    match value_of(field, lines) {
        Some(value) => value,
        None => b"",
    }
}

/// The first required line that isn't there.
#[tactic(auto, unfolding(crate::specs::Faults::missing))]
fn missing(kind: SchemaKind, lines: &[Line]) -> Option<Field>
    ensures { result ≡ missing kind lines.now }
{
    required(kind)
        .iter()
        .copied()
        .find(|field| !has(*field, lines))
}

/// Whether a value after the lines before it can't be read or is one too many.
#[tactic(auto, unfolding(crate::specs::Faults::is_bad))]
fn is_bad(before: &[Line], value: &[u8], field: Field) -> bool
    ensures { result ≡ is_bad before.now value.now field }
{
    !reads(field, value) || !is_list(field) && has(field, before)
}

#[tactic(auto, unfolding(crate::specs::Faults::bad_line))]
fn bad_line(kind: SchemaKind, before: &[Line], line: &Line) -> Option<Field>
    ensures { result ≡ bad_line kind before.now line.now }
{
    let field = field_of(kind, line)?;
    if is_bad(before, line.value.as_slice(), field) {
        return Some(field);
    }
    None
}

/// What the first line says whose value can't be read or is one too many.
fn bad_value(kind: SchemaKind, lines: &[Line]) -> Option<Field>
    ensures { result ≡ bad_value kind lines.now }
{
    for i in 0..lines.len() {
        if let Some(field) = bad_line(kind, &lines[..i], &lines[i]) {
            return Some(field);
        }
    }
    None
}

/// The first fault of a record by itself.
#[tactic(auto, unfolding(crate::specs::Records::checked))]
pub fn check(alloc: Global, kind: SchemaKind, lines: &[Line]) -> Result<(), SchemaFault>
    ensures { GivesUnless is_memory (λ _. tt) result (checked kind lines.now) }
{
    if let Some(field) = missing(kind, lines) {
        let name = Bytes::from_slice(alloc, name_of(field))?;
        return Err(SchemaFault::Missing(name));
    }
    if let Some(field) = bad_value(kind, lines) {
        let name = Bytes::from_slice(alloc, name_of(field))?;
        return Err(SchemaFault::Value(name));
    }
    Ok(())
}

fn copy_line(alloc: Global, line: &Line) -> Result<Line, AllocError>
    ensures { IfOk result (λ copy. copy ≡ line.now) }
{
    Ok(Line {
        name: Bytes::from_slice(alloc, line.name.as_slice())?,
        value: Bytes::from_slice(alloc, line.value.as_slice())?,
    })
}

/// A copy of lines.
pub fn copy_lines(alloc: Global, lines: &[Line]) -> Result<Lines, AllocError>
    ensures { IfOk result (λ copy. copy ≡ lines.now) }
{
    let mut copies = Vec::with_capacity(alloc, lines.len())?;
    for line in lines {
        let copy = copy_line(alloc, line)?;
        copies.push(copy)?;
    }
    Ok(Lines::from_vec(copies))
}
