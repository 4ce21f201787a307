//! The rows that are left after batches.

ghost use Rattle.std.specs.Prelude.{◌≡◌, ◌⊎◌, ◌==◌, ◌&&◌, ℕ, List, IfOk, OnOk, IsErr, IsErrOf, if◌then◌else◌};
ghost use Rattle.row_store.specs.declared.row.Row.{Row as RowValue};
ghost use Rattle.row_store.specs.Left.{rows_of, table_in};
ghost use Rattle.row_store.specs.Row.{SpellBatches};
ghost use Rattle.row_store.specs.Table.{Table, SameTable, after_rows, all_rows, empty_table, is_of, table_of};
ghost use Rattle.row_store.specs.Table.{with_rows, AreListed};

use crate::fault::StoreFault;
use crate::reading::read_batch;
use crate::row::{Row, RowIn};
use gate_log::Part;
use std::alloc::{AllocError, Global};
use std::collections::BTreeMap;

/// What stands at each kind and number.
type Left<'a> = BTreeMap<(u8, u64), Part<'a>>;

// A body at a kind and a number.
fn put<'a>(left: &mut Left<'a>, kind: u8, number: u64, body: Part<'a>) -> Result<(), StoreFault>
    ensures left { OnOk result ((k n : ℕ) → table_in left.new k n
        ≡ (if (kind == k) && (number == n) then Some body.entry else table_in left.old k n)) }
    ensures fault { IsErr result → IsErrOf result StoreFault.Memory }
{
    left.insert((kind, number), body)?;
    Ok(())
}

// Nothing there any more.
fn remove(left: &mut Left<'_>, kind: u8, number: u64)
    ensures left { (k n : ℕ) → table_in left.new k n
        ≡ (if (kind == k) && (number == n) then None else table_in left.old k n) }
{
    left.remove(&(kind, number));
}

// One row more.
fn take_row<'a>(left: &mut Left<'a>, row: RowIn<'a>) -> Result<(), StoreFault>
    ensures left { OnOk result ((kind number : ℕ) → table_in left.new kind number
        ≡ (if is_of kind number row.entry then row.entry.body else table_in left.old kind number)) }
    ensures fault { IsErr result → IsErrOf result StoreFault.Memory }
{
    let (kind, number) = (row.kind(), row.number());
    match row.into_body() {
        Some(body) => put(left, kind, number, body),
        None => {
            remove(left, kind, number);
            Ok(())
        }
    }
}

// The rows of a batch more, in order.
fn take_rows<'a>(left: &mut Left<'a>, rows: Vec<RowIn<'a>>) -> Result<(), StoreFault>
    ensures left { OnOk result (SameTable (with_rows (table_in left.old) rows.entry.items)
        (table_in left.new)) }
    ensures fault { IsErr result → IsErrOf result StoreFault.Memory }
{
    for row in rows {
        take_row(left, row)?;
    }
    Ok(())
}

/// What is left after bodies that are batches.
pub(crate) fn left_by<'a>(alloc: Global, bodies: &[Part<'a>]) -> Result<Left<'a>, StoreFault>
    ensures left { IfOk result (λ left. (batches : List (List RowValue))
        × SpellBatches batches bodies.now × SameTable (table_of (all_rows batches))
        (table_in left)) }
    ensures broken { IsErrOf result StoreFault.Broken → (batches : List (List RowValue))
        → ¬ SpellBatches batches bodies.now }
    ensures faults { IsErr result → IsErrOf result StoreFault.Broken
        ⊎ IsErrOf result StoreFault.Memory }
{
    let mut left = BTreeMap::new(alloc);
    for body in bodies {
        let rows = read_batch(alloc, body.bytes())?;
        take_rows(&mut left, rows)?;
    }
    Ok(left)
}

/// The rows that are left, by rising kind and number.
pub(crate) fn rows_in_order<'a>(alloc: Global, left: Left<'a>) -> Result<Vec<RowIn<'a>>, AllocError>
    ensures rows { IfOk result (λ rows. rows.items ≡ rows_of left.entry.entries) }
    ensures listed { IfOk result (λ rows. AreListed rows.items) }
    ensures table { IfOk result (λ rows. SameTable (table_in left.entry) (table_of rows.items)) }
{
    let mut left = left;
    let mut rows = Vec::with_capacity(alloc, left.len())?;
    while let Some(((kind, number), body)) = left.pop_first() {
        rows.push(RowIn::with_body(kind, number, body))?;
    }
    Ok(rows)
}

/// The rows with bodies of their own.
pub(crate) fn owned(alloc: Global, rows: &[RowIn<'_>]) -> Result<Vec<Row>, AllocError>
    ensures { IfOk result (λ copies. copies.items ≡ rows.now) }
{
    let mut copies = Vec::with_capacity(alloc, rows.len())?;
    for row in rows {
        let copy = row.copy(alloc)?;
        copies.push(copy)?;
    }
    Ok(copies)
}
