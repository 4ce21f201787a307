//! One record, line by line.

ghost use Rattle.std.specs.Prelude.{◌≡◌, [], true, false, map, OnOk, IfOk, Ok, None};
ghost use Rattle.ad_ldif.specs.Lines.{Block};
ghost use Rattle.ad_ldif.specs.Left.{record_left, others_left, records_left};
ghost use Rattle.ad_ldif.specs.Logical.{line_of};
ghost use Rattle.ad_ldif.specs.Records.{field_of, entry_of, is_version, is_changetype};
ghost use Rattle.ad_ldif.specs.Records.{fields_behind, opening_of, body_of, from_dn, record_of};
ghost use Rattle.ad_ldif.specs.Story.{Gives, Tells, story_of};

use crate::cursor::Cursor;
use crate::fault::{LdifFault, LdifKind};
use crate::field::{is_fixed, read_dn, read_field};
use crate::logical::Logical;
use crate::record::{LdifLine, LdifRecord};
use crate::repeated::{Decoded, LineCache};
use std::alloc::{AllocError, Global};

/// Whether a line is `version: 1`.
fn is_version(alloc: Global, line: &Logical<'_>) -> Result<bool, LdifFault>
    ensures { Gives (λ b. b) result (is_version (line_of line.now)) }
{
    is_fixed(
        alloc,
        line.number,
        line.bytes(),
        b"version",
        b"1",
        LdifKind::Version,
    )
}

/// Whether a line is `changetype: add`.
fn is_changetype(alloc: Global, line: &Logical<'_>) -> Result<bool, LdifFault>
    ensures { Gives (λ b. b) result (is_changetype (line_of line.now)) }
{
    is_fixed(
        alloc,
        line.number,
        line.bytes(),
        b"changetype",
        b"add",
        LdifKind::ChangeType,
    )
}

/// The attributes' lines up to the record's end.
pub(crate) fn read_fields<'a>(
    alloc: Global,
    at: &mut Cursor<'a>,
    last: &mut LineCache,
    fields: &mut Vec<LdifLine>,
) -> Result<(), LdifFault>
    ensures fields { Gives (λ _. map field_of fields.new.items) result
        (fields_behind (map field_of fields.old.items) (record_left at.old)) }
    ensures others { OnOk result (others_left at.old ≡ records_left at.new) }
{
    while let Some(line) = at.next_in_record(alloc, last)? {
        fields.push(read_field(alloc, &mut last.decoded, line.number, line.bytes())?)?;
        last.take_back(line);
    }
    Ok(())
}

// Room for so many lines is taken at once, and given back where there are fewer.
const ROOM: usize = 40;

/// What the line after `dn` gives: nothing if it is `changetype: add`, else an attribute's line.
#[tactic(auto, unfolding(crate::specs::Records::opening_of))]
fn read_opening(
    alloc: Global,
    last: &mut Option<Decoded>,
    line: &Logical<'_>,
) -> Result<Vec<LdifLine>, LdifFault>
    ensures { Gives (λ v. map field_of v.items) result (opening_of (line_of line.now)) }
{
    let mut fields = Vec::with_capacity(alloc, ROOM)?;
    if is_changetype(alloc, line)? {
        return Ok(fields);
    }
    fields.push(read_field(alloc, last, line.number, line.bytes())?)?;
    Ok(fields)
}

// The same lines in as much memory as they take, which they keep until their object is made: what is cut off a
// larger piece would be too small for the next one.
pub(crate) fn exact(alloc: Global, lines: Vec<LdifLine>) -> Result<Vec<LdifLine>, AllocError>
    ensures { IfOk result (λ exact. exact.items ≡ lines.items) }
{
    let mut lines = lines;
    let mut exact = Vec::with_capacity(alloc, lines.len())?;
    exact.append(&mut lines)?;
    Ok(exact)
}

/// What stands after `dn`.
fn read_body<'a>(
    alloc: Global,
    at: &mut Cursor<'a>,
    last: &mut LineCache,
) -> Result<Vec<LdifLine>, LdifFault>
    ensures fields { Gives (λ v. map field_of v.items) result (body_of (record_left at.old)) }
    ensures others { OnOk result (others_left at.old ≡ records_left at.new) }
{
    let Some(line) = at.next_in_record(alloc, last)? else {
        return Ok(Vec::new(alloc));
    };
    let mut fields = read_opening(alloc, &mut last.decoded, &line)?;
    read_fields(alloc, at, last, &mut fields)?;
    Ok(exact(alloc, fields)?)
}

/// The line of `dn`, after `version: 1`.
#[tactic(auto, unfolding(crate::specs::Records::from_dn))]
pub(crate) fn dn_line<'a>(
    alloc: Global,
    at: &mut Cursor<'a>,
    last: &mut LineCache,
    first: Logical<'a>,
) -> Result<Logical<'a>, LdifFault>
    ensures line { Gives (λ l. record { first = line_of l; others = record_left at.new }) result
        (from_dn (line_of first.entry) (record_left at.old)) }
    ensures others { OnOk result (others_left at.old ≡ others_left at.new) }
{
    if !is_version(alloc, &first)? {
        return Ok(first);
    }
    match at.next_in_record(alloc, last)? {
        Some(line) => Ok(line),
        None => Err(LdifFault::Bad {
            line: first.number,
            kind: LdifKind::NoDn,
        }),
    }
}

/// The record whose first line this is.
#[tactic(auto, unfolding(crate::specs::Records::record_of))]
fn read_record<'a>(
    alloc: Global,
    at: &mut Cursor<'a>,
    last: &mut LineCache,
    first: Logical<'a>,
) -> Result<LdifRecord, LdifFault>
    ensures entry { Gives entry_of result
        (record_of (record { first = line_of first.entry; others = record_left at.old })) }
    ensures others { OnOk result (others_left at.old ≡ records_left at.new) }
{
    let head = dn_line(alloc, at, last, first)?;
    let dn = read_dn(alloc, head.number, head.bytes())?;
    let lines = read_body(alloc, at, last)?;
    Ok(LdifRecord {
        line: head.number,
        dn,
        lines,
    })
}

/// The next record; None at the end of the text. `last` is what was read last.
pub(crate) fn read_next<'a>(
    alloc: Global,
    at: &mut Cursor<'a>,
    last: &mut LineCache,
) -> Result<Option<LdifRecord>, LdifFault>
    ensures told { Tells (story_of (records_left at.old)) result (story_of (records_left at.new)) }
    ensures end { records_left at.old ≡ [] → result ≡ Ok None }
{
    let Some(first) = at.next_record(alloc, last)? else {
        return Ok(None);
    };
    Ok(Some(read_record(alloc, at, last, first)?))
}
