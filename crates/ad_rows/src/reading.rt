//! A directory from its rows.

ghost use Rattle.std.specs.Prelude.{◌≡◌, ℕ, IfErr, IfOk, IfSome, OnOk};
ghost use Rattle.row_store.specs.Table.{AreListed, table_of};
ghost use Rattle.ad_bytes.specs.Reading.{GivesUnless};
ghost use Rattle.ad_dir_model.specs.Directory.{Directory};
ghost use Rattle.ad_dir_model.specs.Soundness.{IsSound};
ghost use Rattle.ad_dir_objects.specs.Seen.{meta_seen, objects_of};
ghost use Rattle.ad_rows_sound.specs.Parts.{dir_of};
ghost use Rattle.ad_rows.specs.Form.{AreRight, IsLeastBad};
ghost use Rattle.ad_rows.specs.Reading.{HasTaken, IsAnswerOf, IsFaultOf, IsReading};
ghost use Rattle.ad_rows.specs.Refusal.{IsRefusal, IsUnsound, StandsForNone, is_memory};
ghost use Rattle.ad_rows_write.specs.Rows.{AreRowsOf, IsOnlyOf};
ghost use Rattle.ad_rows.specs.Taking.{parts_of};

use crate::all_rows::{take_all, views_of};
use crate::fault::{RowsFault, of_soundness};
use crate::taking::{Taken, rows_are_bytes, schema_of};
use ad_dir::{Dir, Meta};
use ad_rows_sound::{Entry, judge};
use ad_schema::Schema;
use prop_queue::Pending;
use row_store::{Row, RowIn};
use std::alloc::{AllocError, Global};
use std::mem;

// The directory of parts that are sound.
fn built(
    alloc: Global,
    schema: Schema,
    objects: Vec<Entry>,
    pending: Vec<Pending>,
    meta: Meta,
) -> Result<Dir, AllocError>
    requires { IsSound (dir_of schema (objects_of objects.items) pending.items (meta_seen meta)) }
    ensures { IfOk result (λ dir. dir ≡ dir_of schema (objects_of objects.items) pending.items
        (meta_seen meta)) }
{
    Dir::of(alloc, schema, objects, pending, meta)
}

// Whether the parts are those of a sound directory.
fn check_parts(
    alloc: Global,
    schema: &Schema,
    taken: &Taken,
    pending: &[Pending],
    meta: &Meta,
) -> Result<(), RowsFault>
    requires { HasTaken schema.now taken.now }
    ensures sound { OnOk result (IsSound
        (dir_of schema.now (objects_of taken.now.objects.items) pending.now (meta_seen meta.now))) }
    ensures told { IfErr result (IsFaultOf
        (dir_of schema.now (objects_of taken.now.objects.items) pending.now (meta_seen meta.now))) }
{
    match judge(
        alloc,
        schema,
        taken.objects.as_slice(),
        taken.bad,
        pending,
        meta,
    ) {
        Ok(()) => Ok(()),
        Err(fault) => Err(of_soundness(fault)),
    }
}

// The directory of parts, where it is sound. The objects are given up for it.
fn of_parts(
    alloc: Global,
    schema: Schema,
    taken: &mut Taken,
    pending: Vec<Pending>,
    meta: Meta,
) -> Result<Dir, RowsFault>
    requires { HasTaken schema taken.old }
    ensures made { IfOk result (λ dir. dir ≡ dir_of schema (objects_of taken.old.objects.items)
        pending.items (meta_seen meta)) }
    ensures sound { IfOk result IsSound }
    ensures told { IfErr result (IsFaultOf
        (dir_of schema (objects_of taken.old.objects.items) pending.items (meta_seen meta))) }
{
    check_parts(alloc, &schema, taken, pending.as_slice(), &meta)?;
    let objects = mem::replace(&mut taken.objects, Vec::new(alloc));
    let dir = built(alloc, schema, objects, pending, meta)?;
    Ok(dir)
}

// The directory of what was taken in, where the pending list, the counters and a schema are there.
fn of_taken(alloc: Global, schema: Option<Schema>, taken: &mut Taken) -> Result<Dir, RowsFault>
    requires { IfSome schema (λ s. HasTaken s taken.old) }
    ensures { IsAnswerOf schema (parts_of taken.old) result }
{
    let Some(pending) = taken.pending.take() else {
        return Err(RowsFault::Row(2, 0));
    };
    let Some(meta) = taken.meta.take() else {
        return Err(RowsFault::Row(3, 0));
    };
    match schema {
        Some(schema) => of_parts(alloc, schema, taken, pending, meta),
        None => Err(RowsFault::Unsound(0)),
    }
}

// The directory that the rows make, where all are of their forms.
fn read_rows(alloc: Global, rows: &[RowIn<'_>]) -> Result<Dir, RowsFault>
    requires { AreListed rows.now }
    ensures { IsReading (table_of rows.now) result }
{
    rows_are_bytes(rows);
    let schema = schema_of(alloc, rows)?;
    let mut taken = take_all(alloc, schema.as_ref(), rows)?;
    of_taken(alloc, schema, &mut taken)
}

// The same of rows that have bodies of their own.
fn read_owned(alloc: Global, rows: &[Row]) -> Result<Dir, RowsFault>
    requires { AreListed rows.now }
    ensures { IsReading (table_of rows.now) result }
{
    let views = views_of(alloc, rows)?;
    read_rows(alloc, views.as_slice())
}

/// The directory of which these are the rows, by rising kind and number, none twice, each with a body: as `rows_of`
/// and `Store::resume` give them. The rows of a sound directory are read as that directory, unless memory runs out.
///
/// # Errors
///
/// `Row` with the least kind and number at which what stands isn't of its form, exactly where there is one; the
/// pending list and the counters, kinds 2 and 3 with number 0, count as such where they aren't there. `Unsound`
/// exactly where all rows are of their forms and make no sound directory: 0 where they make no schema, else the
/// number that is told of the directory that they make. `Memory`.
pub fn read_dir(alloc: Global, rows: &[Row]) -> Result<Dir, RowsFault>
    requires { AreListed rows.now }
    ensures rows { IfOk result (λ dir. AreRowsOf dir (table_of rows.now)) }
    ensures sound { IfOk result (λ dir. IsSound dir) }
    ensures only { IfOk result (IsOnlyOf (table_of rows.now)) }
    ensures told { IfErr result (IsRefusal (table_of rows.now)) }
    ensures complete { (dir : Directory) → AreRowsOf dir (table_of rows.now) → IsSound dir
        → GivesUnless is_memory (λ read. read) result (Ok dir) }
    ensures row { (kind number : ℕ) → IsLeastBad (table_of rows.now) kind number
        → GivesUnless is_memory (λ read. read) result (Err (RowsFault.Row kind number)) }
    ensures unsound { AreRight (table_of rows.now) → StandsForNone (table_of rows.now)
        → IsUnsound result }
{
    read_owned(alloc, rows)
}

/// The same, of rows with their bodies where these lie, as `Store::resume_in` gives them: they aren't copied.
///
/// # Errors
///
/// Those of [`read_dir`].
pub fn read_dir_in(alloc: Global, rows: &[RowIn<'_>]) -> Result<Dir, RowsFault>
    requires { AreListed rows.now }
    ensures rows { IfOk result (λ dir. AreRowsOf dir (table_of rows.now)) }
    ensures sound { IfOk result (λ dir. IsSound dir) }
    ensures only { IfOk result (IsOnlyOf (table_of rows.now)) }
    ensures told { IfErr result (IsRefusal (table_of rows.now)) }
    ensures complete { (dir : Directory) → AreRowsOf dir (table_of rows.now) → IsSound dir
        → GivesUnless is_memory (λ read. read) result (Ok dir) }
    ensures row { (kind number : ℕ) → IsLeastBad (table_of rows.now) kind number
        → GivesUnless is_memory (λ read. read) result (Err (RowsFault.Row kind number)) }
    ensures unsound { AreRight (table_of rows.now) → StandsForNone (table_of rows.now)
        → IsUnsound result }
{
    read_rows(alloc, rows)
}
