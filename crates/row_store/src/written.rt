//! Rows that are written as they are made.

ghost use Rattle.std.specs.Prelude.{◌≡◌, ◌≤◌, ◌++◌, ◌∷◌, [], length, take, drop, IfOk};
ghost use Rattle.ad_bytes.specs.Numbers.{be_bytes};
ghost use Rattle.row_store.specs.Row.{SpellsBatch};

use crate::row::Row;
use crate::writing::{number_bytes, put_row, room_for};
use gate_log::ROOM;
use std::alloc::{AllocError, Global};
use std::marker::Model;

// How many bytes stand before the rows: the room, and how many rows there are.
const BEFORE: usize = 30;

/// Rows that are written as they are made, in the memory that is then a store's body. A contract sees the rows, in
/// their order.
#[derive(Debug, Drop)]
pub struct WrittenRows {
    bytes: Vec<u8>,
    count: u64,
}

impl Model for WrittenRows {
    ghost use Rattle.std.specs.Prelude.{List, drop};
    ghost use Rattle.row_store.specs.declared.row.Row.{Row};

    ghost Value = { List Row };

    ghost use Rattle.row_store.specs.Written.{rows_in, IsWritten};

    ghost view = { λ rows. rows_in rows.count (drop 30 rows.bytes.items) };

    ghost invariant = { λ rows. IsWritten rows.count rows.bytes.items };
}

impl WrittenRows {
    /// No rows, and memory for rows of so many bytes.
    ///
    /// # Errors
    ///
    /// Out of memory.
    pub fn new(alloc: Global, room: usize) -> Result<WrittenRows, AllocError>
        ensures { IfOk result (λ rows. rows ≡ []) }
    {
        let mut bytes = Vec::with_capacity(alloc, room.saturating_add(BEFORE + 1))?;
        bytes.extend_from_slice(&[0; BEFORE])?;
        Ok(WrittenRows { bytes, count: 0 })
    }

    /// One row more.
    ///
    /// # Errors
    ///
    /// Out of memory.
    pub fn push(self, row: &Row) -> Result<WrittenRows, AllocError>
        ensures { IfOk result (λ rows. rows ≡ self ++ row.now ∷ []) }
    {
        let mut bytes = self.bytes;
        put_row(&mut bytes, row)?;
        Ok(WrittenRows {
            bytes,
            count: self.count + 1,
        })
    }

    /// The batch of the rows, after room for what a slot has before it.
    pub(crate) fn into_body(self) -> Vec<u8>
        ensures room { 22 ≤ length result.items }
        ensures spelled { SpellsBatch self (drop 22 result.items) }
    {
        let count = self.count;
        let mut bytes = self.bytes;
        put_count(&mut bytes, count);
        bytes
    }
}

// Writes how many rows there are, after the room.
fn put_count(into: &mut [u8], count: u64)
    requires { 30 ≤ length into.old }
    ensures { into.new ≡ take 22 into.old ++ (be_bytes 8 count ++ drop 30 into.old) }
{
    into[ROOM..BEFORE].copy_from_slice(&number_bytes(count));
}

/// These rows, written.
pub(crate) fn written(alloc: Global, rows: &[Row]) -> Result<WrittenRows, AllocError>
    ensures { IfOk result (λ written. written ≡ rows.now) }
{
    let mut written = WrittenRows::new(alloc, room_for(rows))?;
    for row in rows {
        written = written.push(row)?;
    }
    Ok(written)
}

/// The batch of these rows, after room for what a slot has before it.
pub(crate) fn batch_with_room(alloc: Global, rows: &[Row]) -> Result<Vec<u8>, AllocError>
    ensures room { IfOk result (λ bytes. 22 ≤ length bytes.items) }
    ensures spelled { IfOk result (λ bytes. SpellsBatch rows.now (drop 22 bytes.items)) }
{
    let written = written(alloc, rows)?;
    Ok(written.into_body())
}
