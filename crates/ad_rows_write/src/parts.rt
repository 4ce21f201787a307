//! The rows of a directory that is never put together: of its parts, as they were loaded.

ghost use Rattle.std.specs.Prelude.{[], map, IfOk};
ghost use Rattle.ad_dir_model.specs.Objects.{Rise};
ghost use Rattle.ad_dir_objects.specs.Seen.{meta_seen, object_seen, objects_of};
ghost use Rattle.ad_rows_sound.specs.Parts.{dir_of};
ghost use Rattle.ad_rows_write.specs.Body.{SpellsObject};
ghost use Rattle.ad_rows_write.specs.Rows.{AreRowsOf};
ghost use Rattle.ad_rows_write.specs.Listing.{Adds, AreRowsAt, IsRowAt, numbered};
ghost use Rattle.row_store.specs.Table.{AreListed, table_of};

use crate::listing::put_rest;
use crate::rows::{OBJECTS, object_body, row};
use ad_dir::{Meta, Object};
use ad_schema::Schema;
use ad_sd::NormalSd;
use row_store::{Row, WrittenRows};
use std::alloc::{AllocError, Global};

// The row of an object with its descriptor.
fn entry_row(alloc: Global, object: &Object, sd: &NormalSd) -> Result<Row, AllocError>
    ensures { IfOk result (IsRowAt 1 SpellsObject (numbered (object_seen object.now sd.now))) }
{
    let body = object_body(alloc, object, sd.as_bytes())?;
    Ok(row(OBJECTS, u64::from(object.number), body))
}

// The rows of objects, each given back once its row is written.
fn write_entries(
    alloc: Global,
    into: WrittenRows,
    objects: Vec<(Object, NormalSd)>,
) -> Result<WrittenRows, AllocError>
    ensures { IfOk result (Adds (AreRowsAt 1 SpellsObject (map numbered (objects_of objects.items)))
        into) }
{
    let mut written = into;
    for (object, sd) in objects {
        let row = entry_row(alloc, &object, &sd)?;
        written = written.push(&row)?;
    }
    Ok(written)
}

/// The rows of the directory of this schema, these objects by rising number, each with its descriptor, and these
/// counters, in which nothing is pending. They are those that `write_rows` writes of that directory. Each object is
/// given back once its row is written, so that its values don't stand in memory twice.
///
/// # Errors
///
/// Out of memory.
pub fn write_parts(
    alloc: Global,
    schema: &Schema,
    objects: Vec<(Object, NormalSd)>,
    meta: &Meta,
) -> Result<WrittenRows, AllocError>
    requires { Rise (objects_of objects.items) }
    ensures rows { IfOk result (λ rows.
        AreRowsOf (dir_of schema.now (objects_of objects.items) [] (meta_seen meta.now))
        (table_of rows)) }
    ensures listed { IfOk result (λ rows. AreListed rows) }
{
    let none = WrittenRows::new(alloc, 0)?;
    let with_objects = write_entries(alloc, none, objects)?;
    put_rest(alloc, with_objects, &[], meta, schema.records())
}
