//! The rows that the edits of one commit change.

ghost use Rattle.std.specs.Prelude.{◌≡◌, ◌++◌, ◌∷◌, [], ℕ, List, Some, if◌then◌else◌, IfOk, OnOk, OnErr};
ghost use Rattle.row_store.specs.Table.{is_of};
ghost use Rattle.ad_dir_model.specs.Directory.{Edit as EditOf, put_object};
ghost use Rattle.ad_dir.specs.Conditions.{HasNormal};
ghost use Rattle.ad_dir_objects.specs.Seen.{edit_seen, object_seen};
ghost use Rattle.ad_rows_write.specs.Batch.{AreRowsOfEdits, RowsRise, row_at};
ghost use Rattle.ad_rows_write.specs.Noted.{rows_noted};

use crate::rows::{row_of, row_with};
use ad_bytes::Bytes;
use ad_dir::{Edit, Object};
use ad_sd::NormalSd;
use row_store::Row;
use std::alloc::{AllocError, Global};
use std::collections::BTreeMap;
use std::marker::Model;

/// The rows of the edits of one commit, gathered one edit after the other without keeping the edits. A contract
/// sees the rows, by rising kind and number.
#[derive(Debug, Drop)]
pub struct Batch {
    alloc: Global,
    noted: BTreeMap<(u8, u64), Option<Bytes>>,
}

impl Model for Batch {
    ghost use Rattle.std.specs.Prelude.{List};
    ghost use Rattle.row_store.specs.declared.row.Row.{Row};
    ghost use Rattle.ad_rows_write.specs.Noted.{rows_noted};

    ghost Value = { List Row };

    ghost view = { λ batch. rows_noted batch.noted.entries };
}

impl Batch {
    /// No rows.
    pub fn new(alloc: Global) -> Batch
        ensures { AreRowsOfEdits [] result }
    {
        Batch {
            alloc,
            noted: BTreeMap::new(alloc),
        }
    }

    /// Notes the row of an edit that comes after those noted before, in the place of an earlier one of its kind and
    /// number.
    ///
    /// # Errors
    ///
    /// Out of memory. What was noted stays.
    pub fn note(&mut self, edit: &Edit) -> Result<(), AllocError>
        requires { HasNormal edit.now }
        ensures noted { OnOk result ((edits : List EditOf) → AreRowsOfEdits edits self.old
            → AreRowsOfEdits (edits ++ edit_seen edit.now ∷ []) self.new) }
        ensures err { OnErr result (self.new ≡ self.old) }
    {
        let row = row_of(self.alloc, edit)?;
        put(&mut self.noted, row)
    }

    /// Notes the row of the edit that puts an object with this descriptor, as [`note`](Batch::note) does.
    ///
    /// # Errors
    ///
    /// Out of memory. What was noted stays.
    pub fn note_object(&mut self, object: &Object, sd: &NormalSd) -> Result<(), AllocError>
        ensures noted { OnOk result ((edits : List EditOf) → AreRowsOfEdits edits self.old
            → AreRowsOfEdits (edits ++ put_object (object_seen object.now sd.now) ∷ []) self.new) }
        ensures err { OnErr result (self.new ≡ self.old) }
    {
        let row = row_with(self.alloc, object, sd)?;
        put(&mut self.noted, row)
    }

    /// The rows: what [`batch`](crate::batch) gives for the edits noted.
    ///
    /// # Errors
    ///
    /// Out of memory.
    pub fn rows(self) -> Result<Vec<Row>, AllocError>
        ensures { IfOk result (λ rows. rows.items ≡ self) }
    {
        rows_in_order(self.alloc, self.noted)
    }
}

/// The bodies that were noted, and None for an object that goes, by kind and number.
type Noted = BTreeMap<(u8, u64), Option<Bytes>>;

// One row more, in the place of the one of its kind and number.
fn put(noted: &mut Noted, row: Row) -> Result<(), AllocError>
    ensures rows { OnOk result ((kind number : ℕ)
        → row_at kind number (rows_noted noted.new.entries)
        ≡ (if is_of kind number row then Some row
        else row_at kind number (rows_noted noted.old.entries))) }
    ensures rise { OnOk result (RowsRise (rows_noted noted.new.entries)) }
    ensures err { OnErr result (noted.new.entries ≡ noted.old.entries) }
{
    match noted.insert((row.kind, row.number), row.body) {
        Ok(_) => Ok(()),
        Err(_) => Err(AllocError),
    }
}

// The rows in their order.
fn rows_in_order(alloc: Global, noted: Noted) -> Result<Vec<Row>, AllocError>
    ensures { IfOk result (λ rows. rows.items ≡ rows_noted noted.entries) }
{
    let mut noted = noted;
    let mut rows = Vec::with_capacity(alloc, noted.len())?;
    while let Some(((kind, number), body)) = noted.pop_first() {
        rows.push(Row { kind, number, body })?;
    }
    Ok(rows)
}
