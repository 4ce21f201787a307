//! The text of the table: what the principals of each group gain and lose on the objects of each group.

ghost use Rattle.std.specs.Prelude.{◌≡◌, ◌++◌, [], map, get_or, OnOk};
ghost use Rattle.ad_diff.specs.Text.{cell_text, row_text, table_text};
ghost use Rattle.ad_diff.specs.Frames.{lines_at};
ghost use Rattle.ad_diff.specs.Table.{row_of};

use crate::bases::Frame;
use crate::columns::{Column, lines_at};
use crate::numbering::number_of;
use crate::pieces::{put_number, put_number_line};
use ad_principals::put;
use std::alloc::AllocError;

// The lines of a group of each, after the line that names both.
fn put_cell(
    into: &mut Vec<u8>,
    objects: u32,
    principals: u32,
    lines: &[u8],
) -> Result<(), AllocError>
    ensures { OnOk result (into.new.items ≡ into.old.items
        ++ cell_text objects principals lines.now) }
{
    match lines {
        [] => Ok(()),
        lines => {
            put(into, b"principals ")?;
            put_number(into, principals)?;
            put_number_line(into, b"objects ", objects)?;
            put(into, lines)
        }
    }
}

// Those of a column, for each group of principals from 1 on.
fn put_row(
    into: &mut Vec<u8>,
    frame: &Frame,
    objects: u32,
    column: &Column,
    leaders: &[usize],
) -> Result<(), AllocError>
    ensures { OnOk result (into.new.items ≡ into.old.items
        ++ row_text objects 1 (map (λ leader. lines_at frame.now column.now leader) leaders.now)) }
{
    'each: for k in 0..leaders.len() {
        let principals = number_of(k + 1)?;
        put_cell(
            into,
            objects,
            principals,
            lines_at(frame, column, leaders[k]),
        )?;
    }
    Ok(())
}

/// Those of all columns.
///
/// # Errors
///
/// Out of memory, also where there are more groups than numbers for them.
pub(crate) fn put_table(
    into: &mut Vec<u8>,
    frame: &Frame,
    columns: &[Column],
    leaders: &[usize],
) -> Result<(), AllocError>
    ensures { OnOk result (into.new.items ≡ into.old.items
        ++ table_text 1 (map (λ column. row_of leaders.now (lines_at frame.now column))
        columns.now)) }
{
    'each: for i in 0..columns.len() {
        let objects = number_of(i + 1)?;
        put_row(into, frame, objects, &columns[i], leaders)?;
    }
    Ok(())
}
