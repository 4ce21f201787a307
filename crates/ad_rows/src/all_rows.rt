//! The rows of a directory, all of them.

ghost use Rattle.std.specs.Prelude.{◌≡◌, IfErr, IfOk, IfSome, OnOk};
ghost use Rattle.std.specs.Option.{option_copied};
ghost use Rattle.ad_bytes.specs.Reading.{GivesUnless};
ghost use Rattle.ad_rows.specs.Reading.{HasTaken, IsStillTaken};
ghost use Rattle.ad_rows.specs.Taking.{is_memory, no_parts, parts_of, with_rows};

use crate::fault::RowFault;
use crate::taking::{Taken, take_row};
use ad_schema::Schema;
use row_store::{Row, RowIn};
use std::alloc::Global;

// Takes rows in, up to the first that isn't of its form.
fn take_in(
    alloc: Global,
    schema: Option<&Schema>,
    taken: &mut Taken,
    rows: &[RowIn<'_>],
) -> Result<(), RowFault>
    ensures parts { GivesUnless is_memory (λ _. parts_of taken.new) result
        (with_rows (option_copied schema.entry) (parts_of taken.old) rows.now) }
    ensures taken { OnOk result (IsStillTaken (option_copied schema.entry) taken.old taken.new) }
{
    for row in rows {
        take_row(alloc, schema, taken, row)?;
    }
    Ok(())
}

/// What was taken in of all rows.
pub(crate) fn take_all(
    alloc: Global,
    schema: Option<&Schema>,
    rows: &[RowIn<'_>],
) -> Result<Taken, RowFault>
    ensures parts { GivesUnless is_memory parts_of result
        (with_rows (option_copied schema.entry) no_parts rows.now) }
    ensures taken { IfOk result (λ taken. IfSome (option_copied schema.entry)
        (λ s. HasTaken s taken)) }
{
    let mut taken = Taken {
        objects: Vec::new(alloc),
        sd: None,
        last: 0,
        bad: None,
        pending: None,
        meta: None,
    };
    take_in(alloc, schema, &mut taken, rows)?;
    Ok(taken)
}

/// Rows with their bodies where these lie.
pub(crate) fn views_of(alloc: Global, rows: &[Row]) -> Result<Vec<RowIn<'_>>, RowFault>
    ensures views { IfOk result (λ views. views.items ≡ rows.now) }
    ensures fault { IfErr result (λ fault. fault ≡ RowFault.Memory) }
{
    let mut views = Vec::with_capacity(alloc, rows.len())?;
    for row in rows {
        views.push(row.seen())?;
    }
    Ok(views)
}
