//! The rows of a directory, taken in one after the other.

ghost use Rattle.std.specs.Prelude.{◌≡◌, ◌-◌, ◌^◌, ◌<◌, [], true, false, None, Some, length, if◌then◌else◌, IfErr};
ghost use Rattle.std.specs.Prelude.{IfOk, OnOk};
ghost use Rattle.std.specs.List.{AllByRecursion};
ghost use Rattle.std.specs.Option.{option_copied};
ghost use Rattle.ad_bytes.specs.Reading.{GivesUnless};
ghost use Rattle.ad_schema.specs.Records.{added, finished};
ghost use Rattle.ad_rows.specs.Reading.{IsStillTaken, first_bad};
ghost use Rattle.ad_rows.specs.Taking.{HasBytes, bad_row, body_of, fault_of, in_place, is_behind, is_memory};
ghost use Rattle.ad_rows.specs.Taking.{number_of, parts_of, past};
ghost use Rattle.ad_rows.specs.Taking.{if_added, records_among, schema_among, with_any, with_meta, with_next};
ghost use Rattle.ad_rows.specs.Taking.{with_object, with_pending, with_record, with_row};

use crate::fault::RowFault;
use crate::parsing::{self, BodyFault};
use ad_bytes::is_bytes;
use ad_dir::Meta;
use ad_rows_sound::Entry;
use ad_schema::{Builder, Schema, SchemaFault, SchemaRecord};
use ad_sd::NormalSd;
use prop_queue::Pending;
use row_store::RowIn;
use std::alloc::Global;

// Records of a schema are numbered from 0 to 2^32 - 2.
const MOST_RECORDS: u64 = 4_294_967_295;

/// What was taken in of the rows so far.
#[derive(Drop)]
pub(crate) struct Taken {
    pub objects: Vec<Entry>,
    /// The last descriptor that was read.
    pub sd: Option<NormalSd>,
    /// The number of the last object, 0 where there is none.
    pub last: u32,
    /// The least number of an object whose content isn't of the schema.
    pub bad: Option<u32>,
    pub pending: Option<Vec<Pending>>,
    pub meta: Option<Meta>,
}

fn has_bytes(row: &RowIn<'_>)
    ensures { HasBytes row.now }
{
    if let Some(body) = row.body() {
        is_bytes(body);
    }
}

/// What the bodies of rows hold are bytes.
pub(crate) fn rows_are_bytes(rows: &[RowIn<'_>])
    ensures { AllByRecursion HasBytes rows.now }
{
    for row in rows {
        has_bytes(row);
    }
}

fn bad_row(row: &RowIn<'_>) -> RowFault
    ensures { result ≡ bad_row row.now }
{
    RowFault::Row(row.kind(), row.number())
}

fn body_of<'a>(row: &RowIn<'a>) -> Result<&'a [u8], RowFault>
    ensures { GivesUnless is_memory (λ body. body.now) result (body_of row.now) }
{
    match row.body() {
        Some(body) => Ok(body),
        None => Err(bad_row(row)),
    }
}

fn fault_of(row: &RowIn<'_>, fault: BodyFault) -> RowFault
    ensures { result ≡ fault_of row.now fault }
{
    match fault {
        BodyFault::Bad => bad_row(row),
        BodyFault::Memory => RowFault::Memory,
    }
}

// The number of an object, above that of the last one.
fn object_number(row: &RowIn<'_>, last: u32) -> Result<u32, RowFault>
    ensures number { GivesUnless is_memory (λ number. number) result (number_of row.now last) }
    ensures above { IfOk result (λ number. (last < number) × (number < 2 ^ 32 - 1)) }
{
    if row.number() <= u64::from(last) || row.number() >= u64::from(u32::MAX) {
        return Err(bad_row(row));
    }
    Ok(row.number() as u32)
}

// The first object whose content isn't of the schema.
fn first_bad(bad: Option<u32>, good: bool, number: u32) -> Option<u32>
    ensures { result ≡ first_bad bad good number }
{
    match bad {
        Some(first) => Some(first),
        None => { if good { None } else { Some(number) } }
    }
}

#[tactic(auto, unfolding(crate::specs::Taking::with_object))]
fn take_object(
    alloc: Global,
    schema: Option<&Schema>,
    taken: &mut Taken,
    row: &RowIn<'_>,
) -> Result<(), RowFault>
    ensures parts { GivesUnless is_memory (λ _. parts_of taken.new) result
        (with_object (option_copied schema.entry) (parts_of taken.old) row.now) }
    ensures taken { OnOk result (IsStillTaken (option_copied schema.entry) taken.old taken.new) }
{
    let number = object_number(row, taken.last)?;
    let body = body_of(row)?;
    match parsing::object(alloc, schema, &mut taken.sd, number, body) {
        Ok((object, sd, good)) => {
            taken.objects.push((object, sd))?;
            taken.bad = first_bad(taken.bad, good, number);
            taken.last = number;
            Ok(())
        }
        Err(fault) => Err(fault_of(row, fault)),
    }
}

#[tactic(auto, unfolding(crate::specs::Taking::with_pending))]
fn take_pending(alloc: Global, taken: &mut Taken, row: &RowIn<'_>) -> Result<(), RowFault>
    ensures parts { GivesUnless is_memory (λ _. parts_of taken.new) result
        (with_pending (parts_of taken.old) row.now) }
    ensures objects { taken.new.objects ≡ taken.old.objects }
    ensures last { taken.new.last ≡ taken.old.last }
    ensures bad { taken.new.bad ≡ taken.old.bad }
{
    let body = body_of(row)?;
    match parsing::pending(alloc, body) {
        Ok(pending) => {
            taken.pending = Some(pending);
            Ok(())
        }
        Err(fault) => Err(fault_of(row, fault)),
    }
}

#[tactic(auto, unfolding(crate::specs::Taking::with_meta))]
fn take_meta(alloc: Global, taken: &mut Taken, row: &RowIn<'_>) -> Result<(), RowFault>
    ensures parts { GivesUnless is_memory (λ _. parts_of taken.new) result
        (with_meta (parts_of taken.old) row.now) }
    ensures objects { taken.new.objects ≡ taken.old.objects }
    ensures last { taken.new.last ≡ taken.old.last }
    ensures bad { taken.new.bad ≡ taken.old.bad }
{
    let body = body_of(row)?;
    match parsing::meta(alloc, body) {
        Ok(meta) => {
            taken.meta = Some(meta);
            Ok(())
        }
        Err(fault) => Err(fault_of(row, fault)),
    }
}

#[tactic(auto, unfolding(crate::specs::Taking::with_record))]
fn take_record(alloc: Global, taken: &Taken, row: &RowIn<'_>) -> Result<(), RowFault>
    ensures { GivesUnless is_memory (λ _. parts_of taken.now) result
        (with_record (parts_of taken.now) row.now) }
{
    let _ = &taken.last;
    if row.number() >= MOST_RECORDS {
        return Err(bad_row(row));
    }
    let body = body_of(row)?;
    match parsing::record(alloc, body) {
        Ok(_) => Ok(()),
        Err(fault) => Err(fault_of(row, fault)),
    }
}

// Whether a row stands after the one of this kind and number 0.
fn is_behind(kind: u8, row: &RowIn<'_>) -> bool
    ensures { result ≡ is_behind kind row.now }
{
    row.kind() > kind || (row.kind() == kind && row.number() > 0)
}

// The pending list and the counters come before what comes after them.
#[tactic(auto, unfolding(crate::specs::Taking::in_place))]
fn is_in_place(taken: &Taken, row: &RowIn<'_>) -> Result<(), RowFault>
    ensures { GivesUnless is_memory (λ _. tt) result (in_place (parts_of taken.now) row.now) }
{
    if taken.pending.is_none() && is_behind(2, row) {
        return Err(RowFault::Row(2, 0));
    }
    if taken.meta.is_none() && is_behind(3, row) {
        return Err(RowFault::Row(3, 0));
    }
    Ok(())
}

#[tactic(auto, unfolding(crate::specs::Taking::with_any))]
fn take_any(
    alloc: Global,
    schema: Option<&Schema>,
    taken: &mut Taken,
    row: &RowIn<'_>,
) -> Result<(), RowFault>
    ensures parts { GivesUnless is_memory (λ _. parts_of taken.new) result
        (with_any (option_copied schema.entry) (parts_of taken.old) row.now) }
    ensures taken { OnOk result (IsStillTaken (option_copied schema.entry) taken.old taken.new) }
{
    if row.kind() == 1 {
        return take_object(alloc, schema, taken, row);
    }
    if row.kind() == 2 && row.number() == 0 {
        return take_pending(alloc, taken, row);
    }
    if row.kind() == 3 && row.number() == 0 {
        return take_meta(alloc, taken, row);
    }
    if row.kind() == 4 {
        return take_record(alloc, taken, row);
    }
    Err(bad_row(row))
}

/// Takes a row in.
#[tactic(auto, unfolding(crate::specs::Taking::with_row))]
pub(crate) fn take_row(
    alloc: Global,
    schema: Option<&Schema>,
    taken: &mut Taken,
    row: &RowIn<'_>,
) -> Result<(), RowFault>
    ensures parts { GivesUnless is_memory (λ _. parts_of taken.new) result
        (with_row (option_copied schema.entry) (parts_of taken.old) row.now) }
    ensures taken { OnOk result (IsStillTaken (option_copied schema.entry) taken.old taken.new) }
{
    is_in_place(taken, row)?;
    take_any(alloc, schema, taken, row)
}

// Adds a record, where it may stand after those before it.
fn add(builder: &mut Builder, read: &SchemaRecord) -> Result<bool, RowFault>
    requires { length builder.old < 2 ^ 32 - 1 }
    ensures records { IfOk result (λ is. if_added (added builder.old read.now.kind read.now.lines)
        ≡ (if is then Some builder.new else None)) }
    ensures fault { IfErr result (λ fault. fault ≡ RowFault.Memory) }
{
    match builder.add(read.kind, read.lines.as_slice()) {
        Ok(()) => Ok(true),
        Err(SchemaFault::Memory) => Err(RowFault::Memory),
        Err(_) => Ok(false),
    }
}

// Whether a row is that of the next record, and the record may stand after those before it.
#[tactic(auto, unfolding(crate::specs::Taking::with_next))]
fn add_record(alloc: Global, builder: &mut Builder, row: &RowIn<'_>) -> Result<bool, RowFault>
    ensures records { IfOk result (λ is. with_next builder.old row.now
        ≡ (if is then Some builder.new else None)) }
    ensures fault { IfErr result (λ fault. fault ≡ RowFault.Memory) }
{
    let next = builder.len() as u64;
    if row.number() != next || next >= MOST_RECORDS {
        return Ok(false);
    }
    let Some(body) = row.body() else {
        return Ok(false);
    };
    match parsing::record(alloc, body) {
        Ok(read) => add(builder, &read),
        Err(BodyFault::Bad) => Ok(false),
        Err(BodyFault::Memory) => Err(RowFault::Memory),
    }
}

// The same of any row, which has a record or not.
#[tactic(auto, unfolding(crate::specs::Taking::past))]
fn pass(alloc: Global, builder: &mut Builder, row: &RowIn<'_>) -> Result<bool, RowFault>
    ensures records { IfOk result (λ is. past builder.old row.now
        ≡ (if is then Some builder.new else None)) }
    ensures fault { IfErr result (λ fault. fault ≡ RowFault.Memory) }
{
    if row.kind() != 4 {
        return Ok(true);
    }
    add_record(alloc, builder, row)
}

// Passes the rows. Whether their records are numbered without a gap and each may stand after those before it.
fn pass_all(alloc: Global, builder: &mut Builder, rows: &[RowIn<'_>]) -> Result<bool, RowFault>
    ensures records { IfOk result (λ are. records_among builder.old rows.now
        ≡ (if are then Some builder.new else None)) }
    ensures fault { IfErr result (λ fault. fault ≡ RowFault.Memory) }
{
    for row in rows {
        if !pass(alloc, builder, row)? {
            return Ok(false);
        }
    }
    Ok(true)
}

// The records among the rows, where they are numbered from 0 without a gap and each may stand after those before it.
fn records_of(alloc: Global, rows: &[RowIn<'_>]) -> Result<Option<Builder>, RowFault>
    ensures records { IfOk result (λ records. records ≡ records_among [] rows.now) }
    ensures fault { IfErr result (λ fault. fault ≡ RowFault.Memory) }
{
    let mut builder = match Builder::new(alloc) {
        Ok(builder) => builder,
        Err(_) => return Err(RowFault::Memory),
    };
    let are = pass_all(alloc, &mut builder, rows)?;
    if are {
        return Ok(Some(builder));
    }
    Ok(None)
}

fn finished(builder: Builder) -> Result<Option<Schema>, RowFault>
    ensures schema { IfOk result (λ schema. schema ≡ if_added (finished builder)) }
    ensures fault { IfErr result (λ fault. fault ≡ RowFault.Memory) }
{
    match builder.finish() {
        Ok(schema) => Ok(Some(schema)),
        Err(SchemaFault::Memory) => Err(RowFault::Memory),
        Err(_) => Ok(None),
    }
}

/// The schema of the records among the rows, where they are numbered from 0 without a gap and make one.
#[tactic(auto, unfolding(crate::specs::Taking::schema_among))]
pub(crate) fn schema_of(alloc: Global, rows: &[RowIn<'_>]) -> Result<Option<Schema>, RowFault>
    ensures schema { IfOk result (λ schema. schema ≡ schema_among rows.now) }
    ensures fault { IfErr result (λ fault. fault ≡ RowFault.Memory) }
{
    match records_of(alloc, rows)? {
        Some(builder) => finished(builder),
        None => Ok(None),
    }
}
