//! The rows of a whole directory.

ghost use Rattle.std.specs.Prelude.{◌≡◌, [], true, List, Some, IfOk};
ghost use Rattle.ad_dir_model.specs.Object.{Object as ObjectOf};
ghost use Rattle.ad_dir_model.specs.Objects.{Rise, is_live, numbers, object_at, object_of, sd_at};
ghost use Rattle.ad_dir_objects.specs.Seen.{meta_seen, object_seen};
ghost use Rattle.ad_rows_sound.specs.Parts.{dir_of};
ghost use Rattle.ad_rows_write.specs.Body.{SpellsObject, SpellsRecord};
ghost use Rattle.ad_rows_write.specs.Rows.{AreRowsOf};
ghost use Rattle.ad_rows_write.specs.Listing.{Adds, AreAllOf, IsRowAt, AreRowsAt, objects_at, counted};
ghost use Rattle.row_store.specs.Table.{AreListed, table_of};

use crate::room::room_for_all;
use crate::row_list::RowList;
use crate::rows::{META, OBJECTS, QUEUE, meta_body, object_body, queue_body, row};
use crate::writing::put_record;
use ad_dir::{Dir, Meta, Object};
use ad_schema::SchemaRecord;
use prop_queue::{Pending, Queue};
use row_store::{Row, WrittenRows};
use std::alloc::{AllocError, Global};

const RECORDS: u8 = 4;

// The row of an object that was found.
fn described_row(alloc: Global, dir: &Dir, number: u32, object: &Object) -> Result<Row, AllocError>
    requires { object_of dir.now.objects number
        ≡ Some (object_seen object.now (sd_at dir.now.objects number)) }
    ensures { IfOk result (IsRowAt 1 SpellsObject (number, object_at dir.now.objects number)) }
{
    match dir.sd(number) {
        Some(sd) => {
            let body = object_body(alloc, object, sd.as_bytes())?;
            Ok(row(OBJECTS, u64::from(number), body))
        }
        None => unreachable!(),
    }
}

fn object_row(alloc: Global, dir: &Dir, number: u32) -> Result<Row, AllocError>
    requires { is_live dir.now.objects number ≡ true }
    ensures { IfOk result (IsRowAt 1 SpellsObject (number, object_at dir.now.objects number)) }
{
    match dir.object(number) {
        Some(object) => described_row(alloc, dir, number, object),
        None => unreachable!(),
    }
}

// The rows of the objects of these numbers.
fn put_each<R: RowList>(alloc: Global, into: R, dir: &Dir, live: &[u32]) -> Result<R, AllocError>
    requires { live.now ≡ numbers dir.now.objects }
    ensures { IfOk result (λ rows. Adds
        (AreRowsAt 1 SpellsObject (objects_at dir.now.objects live.now)) (R.rows into)
        (R.rows rows)) }
{
    let mut rows = into;
    for number in live {
        let row = object_row(alloc, dir, *number)?;
        rows = rows.with(row)?;
    }
    Ok(rows)
}

// The rows of all objects.
fn put_objects<R: RowList>(alloc: Global, into: R, dir: &Dir) -> Result<R, AllocError>
    ensures { IfOk result (λ rows. Adds
        (AreRowsAt 1 SpellsObject (objects_at dir.now.objects (numbers dir.now.objects)))
        (R.rows into) (R.rows rows)) }
{
    let live = dir.numbers(alloc)?;
    put_each(alloc, into, dir, live.as_slice())
}

// The entries of a queue.
fn entries_of(alloc: Global, queue: &Queue) -> Result<Vec<Pending>, AllocError>
    ensures { IfOk result (λ entries. entries.items ≡ queue.now) }
{
    let mut entries = Vec::with_capacity(alloc, queue.len())?;
    let mut i = 0;
    while let Some(entry) = queue.at(i) {
        entries.push(entry)?;
        i += 1;
    }
    Ok(entries)
}

fn record_body(alloc: Global, record: &SchemaRecord) -> Result<Vec<u8>, AllocError>
    ensures { IfOk result (λ body. SpellsRecord «record».now body.items) }
{
    let mut body = Vec::new(alloc);
    put_record(&mut body, record)?;
    Ok(body)
}

// The rows of the records of a schema.
fn put_records<R: RowList>(
    alloc: Global,
    into: R,
    records: &[SchemaRecord],
) -> Result<R, AllocError>
    ensures { IfOk result (λ rows. Adds (AreRowsAt 4 SpellsRecord (counted 0 records.now))
        (R.rows into) (R.rows rows)) }
{
    let mut rows = into;
    for i in 0..records.len() {
        let body = record_body(alloc, &records[i])?;
        rows = rows.with(row(RECORDS, i as u64, body))?;
    }
    Ok(rows)
}

/// The rows of a pending list, of counters and of the records of a schema, after those of objects: all rows of
/// their directory.
pub(crate) fn put_rest<R: RowList>(
    alloc: Global,
    into: R,
    pending: &[Pending],
    meta: &Meta,
    records: &[SchemaRecord],
) -> Result<R, AllocError>
    ensures { IfOk result (λ rows. (objects : List ObjectOf) → Rise objects
        → AreRowsAt 1 SpellsObject (objects_at objects (numbers objects)) (R.rows into)
        → AreAllOf (dir_of records.now objects pending.now (meta_seen meta.now)) (R.rows rows)) }
{
    let queue = row(QUEUE, 0, queue_body(alloc, pending)?);
    let with_queue = into.with(queue)?;
    let counters = row(META, 0, meta_body(alloc, meta)?);
    let with_counters = with_queue.with(counters)?;
    put_records(alloc, with_counters, records)
}

// All rows of a directory, after none.
fn put_all<R: RowList>(alloc: Global, none: R, dir: &Dir) -> Result<R, AllocError>
    requires { R.rows none ≡ [] }
    ensures rows { IfOk result (λ rows. AreRowsOf dir.now (table_of (R.rows rows))) }
    ensures listed { IfOk result (λ rows. AreListed (R.rows rows)) }
{
    dir.invariants();
    let objects = put_objects(alloc, none, dir)?;
    let pending = entries_of(alloc, dir.queue())?;
    put_rest(
        alloc,
        objects,
        pending.as_slice(),
        dir.meta(),
        dir.schema().records(),
    )
}

/// All rows of a directory, by rising kind and number, each with a body.
///
/// # Errors
///
/// Out of memory.
pub fn rows_of(alloc: Global, dir: &Dir) -> Result<Vec<Row>, AllocError>
    ensures rows { IfOk result (λ rows. AreRowsOf dir.now (table_of rows.items)) }
    ensures listed { IfOk result (λ rows. AreListed rows.items) }
{
    put_all(alloc, Vec::new(alloc), dir)
}

/// The same rows, each written as soon as it is made, so that no two stand side by side, into memory that has room
/// for all.
///
/// # Errors
///
/// Out of memory.
pub fn write_rows(alloc: Global, dir: &Dir) -> Result<WrittenRows, AllocError>
    ensures rows { IfOk result (λ rows. AreRowsOf dir.now (table_of rows)) }
    ensures listed { IfOk result (λ rows. AreListed rows) }
{
    let room = room_for_all(alloc, dir)?;
    let none = WrittenRows::new(alloc, room)?;
    put_all(alloc, none, dir)
}
