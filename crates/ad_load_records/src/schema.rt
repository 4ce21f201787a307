//! Phase 2: the records of the schema, added in the order of the file, and then the whole.

ghost use Rattle.std.specs.Prelude.{[], Ok, ◌≡◌, ◌≤◌, ◌<◌, ◌+◌, ◌-◌, ◌^◌, map, length, IfOk, OnOk};
ghost use Rattle.ad_bytes.specs.Reading.{GivesUnless, fault_as};
ghost use Rattle.ad_schema.specs.Records.{finished};
ghost use Rattle.ad_load_records.specs.Faults.{is_memory, of_schema};
ghost use Rattle.ad_load_records.specs.Schema.{line_of, added_if, all_added, schema_of, schema_in};
ghost use Rattle.ad_load_records.specs.Seen.{held_field, seen};
ghost use Rattle.ad_load_records.specs.Records.{most_lines};

use crate::fault::{LoadCause, LoadFault};
use crate::records::{Record, records_in};
use ad_bytes::Bytes;
use ad_ldif::LdifLine as HeldLine;
use ad_schema::{Builder, Line, Schema, SchemaFault};
use std::alloc::{AllocError, Global};

fn of_schema(line: u32, fault: SchemaFault) -> LoadFault
    ensures { result ≡ of_schema line fault }
{
    let cause = match fault {
        SchemaFault::Missing(name) => LoadCause::SchemaMissing(name),
        SchemaFault::Value(name) => LoadCause::SchemaValue(name),
        SchemaFault::Repeated(name) => LoadCause::SchemaRepeated(name),
        SchemaFault::Unknown(name) => LoadCause::SchemaUnknown(name),
        SchemaFault::Loop(name) => LoadCause::SchemaLoop(name),
        SchemaFault::Memory => return LoadFault::Memory,
    };
    LoadFault::Bad { line, cause }
}

fn lines_of(alloc: Global, fields: &[HeldLine]) -> Result<Vec<Line>, AllocError>
    ensures { IfOk result (λ lines. lines.items ≡ map line_of (map held_field fields.now)) }
{
    let mut lines = Vec::new(alloc);
    for field in fields {
        lines.push(Line {
            name: field.name.copy(alloc)?,
            value: Bytes::from_slice(alloc, field.value())?,
        })?;
    }
    Ok(lines)
}

// Adds a record, where it is one of the schema.
fn add_if(alloc: Global, builder: &mut Builder, held: &Record) -> Result<(), LoadFault>
    requires { length builder.old < 2 ^ 32 - 1 }
    ensures added { GivesUnless is_memory (λ _. builder.new) result
        (added_if builder.old held.now.line held.now.kind (map held_field held.now.lines.items)) }
{
    let Some(kind) = held.kind else {
        return Ok(());
    };
    let lines = lines_of(alloc, held.lines.as_slice())?;
    match builder.add(kind, &lines) {
        Ok(()) => Ok(()),
        Err(fault) => Err(of_schema(held.line, fault)),
    }
}

fn builder(alloc: Global) -> Result<Builder, LoadFault>
    ensures { GivesUnless is_memory (λ builder. builder) result (Ok []) }
{
    match Builder::new(alloc) {
        Ok(builder) => Ok(builder),
        Err(fault) => Err(of_schema(0, fault)),
    }
}

fn finish(builder: Builder) -> Result<Schema, LoadFault>
    ensures { GivesUnless is_memory (λ schema. schema) result
        (fault_as (of_schema 0) (finished builder)) }
{
    match builder.finish() {
        Ok(schema) => Ok(schema),
        Err(fault) => Err(of_schema(0, fault)),
    }
}

// The schema of the records, of which there are at most 67,108,864.
pub fn schema_of(alloc: Global, records: &[Record]) -> Result<Schema, LoadFault>
    requires { length records.now ≤ most_lines }
    ensures { GivesUnless is_memory (λ schema. schema) result (schema_of (map seen records.now)) }
{
    let mut builder = builder(alloc)?;
    for one in records {
        add_if(alloc, &mut builder, one)?;
    }
    finish(builder)
}

/// The schema that the records of a text of LDIF make: the records whose objectClass names `attributeSchema`,
/// `classSchema` or `controlAccessRight`, in the order of the file.
///
/// # Errors
///
/// The first fault of the whole text as LDIF, and of the names of its records; and then the first of its schema,
/// with the line of the record's `dn`, or 0 for a fault of the whole. `Memory` may come instead of any answer.
#[tactic(auto, unfolding(crate::specs::Schema::schema_in))]
pub fn schema_in(alloc: Global, text: &[u8]) -> Result<Schema, LoadFault>
    ensures { GivesUnless is_memory (λ schema. schema) result (schema_in text.now) }
{
    let records = records_in(alloc, text)?;
    schema_of(alloc, records.as_slice())
}
