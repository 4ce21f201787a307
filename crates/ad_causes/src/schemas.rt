//! What differs between two schemas.

ghost use Rattle.std.specs.Prelude.{◌≡◌, ◌++◌, map, OnOk};
ghost use Rattle.std.specs.List.{flat_map};
ghost use Rattle.ad_causes.specs.Extra.{texts};
ghost use Rattle.ad_causes.specs.Counts.{AreCounts};
ghost use Rattle.ad_causes.specs.Cause.{causes_text};
ghost use Rattle.ad_causes.specs.Schema.{record_text, record_key, schema_causes};
ghost use Rattle.ad_causes.specs.Steps.{record_line, new_line, gone_line};

use crate::counting::{counts_of, is_counted};
use crate::pieces::put_line;
use crate::records::{record_key, record_keys, record_text, record_texts, record_title};
use ad_schema::SchemaRecord;
use indexmap::IndexMap;
use std::alloc::{AllocError, Global};

// The line of a record, where a text isn't among these, of which there is a table.
fn put_record(
    alloc: Global,
    into: &mut Vec<u8>,
    all: &[Vec<u8>],
    table: &IndexMap<&[u8], usize>,
    text: &[u8],
    record: &SchemaRecord,
) -> Result<(), AllocError>
    requires { AreCounts (texts all.now) table.now }
    ensures { OnOk result (into.new.items ≡ into.old.items
        ++ record_line (texts all.now) text.now record.now) }
{
    if is_counted(all, table, text) {
        return Ok(());
    }
    let title = record_title(alloc, record)?;
    put_line(into, b"schema ", title.as_slice())
}

// Those of records of which nothing says the same.
fn put_new(
    alloc: Global,
    into: &mut Vec<u8>,
    all: &[Vec<u8>],
    table: &IndexMap<&[u8], usize>,
    records: &[SchemaRecord],
) -> Result<(), AllocError>
    requires { AreCounts (texts all.now) table.now }
    ensures { OnOk result (into.new.items ≡ into.old.items
        ++ flat_map (new_line (texts all.now)) records.now) }
{
    for record in records {
        let text = record_text(alloc, record)?;
        put_record(alloc, into, all, table, text.as_slice(), record)?;
    }
    Ok(())
}

// Those of records of whose kind and name there is none.
fn put_gone(
    alloc: Global,
    into: &mut Vec<u8>,
    all: &[Vec<u8>],
    table: &IndexMap<&[u8], usize>,
    records: &[SchemaRecord],
) -> Result<(), AllocError>
    requires { AreCounts (texts all.now) table.now }
    ensures { OnOk result (into.new.items ≡ into.old.items
        ++ flat_map (gone_line (texts all.now)) records.now) }
{
    for record in records {
        let text = record_key(alloc, record)?;
        put_record(alloc, into, all, table, text.as_slice(), record)?;
    }
    Ok(())
}

fn put_all_new(
    alloc: Global,
    into: &mut Vec<u8>,
    was: &[SchemaRecord],
    is: &[SchemaRecord],
) -> Result<(), AllocError>
    ensures { OnOk result (into.new.items ≡ into.old.items
        ++ flat_map (new_line (map record_text was.now)) is.now) }
{
    let owned = record_texts(alloc, was)?;
    let all = owned.as_slice();
    let table = counts_of(alloc, all)?;
    put_new(alloc, into, all, &table, is)
}

fn put_all_gone(
    alloc: Global,
    into: &mut Vec<u8>,
    was: &[SchemaRecord],
    is: &[SchemaRecord],
) -> Result<(), AllocError>
    ensures { OnOk result (into.new.items ≡ into.old.items
        ++ flat_map (gone_line (map record_key is.now)) was.now) }
{
    let owned = record_keys(alloc, is)?;
    let all = owned.as_slice();
    let table = counts_of(alloc, all)?;
    put_gone(alloc, into, all, &table, was)
}

/// What differs between the records of two schemas.
///
/// # Errors
///
/// Out of memory.
pub(crate) fn put_schemas(
    alloc: Global,
    into: &mut Vec<u8>,
    was: &[SchemaRecord],
    is: &[SchemaRecord],
) -> Result<(), AllocError>
    ensures { OnOk result (into.new.items ≡ into.old.items
        ++ causes_text (schema_causes was.now is.now)) }
{
    put_all_new(alloc, into, was, is)?;
    put_all_gone(alloc, into, was, is)
}
