//! The principals in groups: those of a group have the same lines in each column, and those of group 0 have none.

ghost use Rattle.std.specs.Prelude.{◌≡◌, ◌++◌, ◌∷◌, [], true, List, All, length, IfOk, OnOk};
ghost use Rattle.ad_diff.specs.declared.bases.Frame.{Frame as FrameValue};
ghost use Rattle.ad_diff.specs.declared.columns.Column.{Column as ColumnValue};
ghost use Rattle.ad_diff.specs.Text.{members};
ghost use Rattle.ad_diff.specs.Frames.{lines_at};
ghost use Rattle.ad_diff.specs.Table.{IsRow, IsLed, AreRows, AreNumbered};

use crate::alike::{NOTHING, mixed, mixed_bytes};
use crate::bases::Frame;
use crate::columns::{Column, lines_at};
use crate::numbering::{Grouped, group_fits, number_of};
use ad_both::Both;
use indexmap::IndexMap;
use std::alloc::{AllocError, Global};

/// The principals in their groups, and the place of a member of each group from 1 on.
#[derive(Drop)]
pub struct Rows {
    pub groups: Vec<Grouped>,
    pub leaders: Vec<usize>,
}

// Whether the principal at the place has no lines in a column.
fn has_none(frame: &Frame, column: &Column, place: usize) -> bool
    ensures { result ≡ true → lines_at frame.now column.now place ≡ [] }
{
    match lines_at(frame, column, place) {
        [] => true,
        _ => false,
    }
}

// Whether the principal at the place has no lines in any column.
fn is_quiet_row(frame: &Frame, columns: &[Column], place: usize) -> bool
    ensures { result ≡ true → All (λ column. lines_at frame.now column place ≡ []) columns.now }
{
    for column in columns {
        if !has_none(frame, column, place) {
            return false;
        }
    }
    true
}

// Whether both have the same lines in a column.
fn same_lines(frame: &Frame, column: &Column, place: usize, other: usize) -> bool
    ensures { result ≡ true → lines_at frame.now column.now place ≡ lines_at frame.now column.now
        other }
{
    lines_at(frame, column, place) == lines_at(frame, column, other)
}

// Whether both have the same lines in each column.
fn same_row(frame: &Frame, columns: &[Column], place: usize, other: usize) -> bool
    ensures { result ≡ true → All (λ column. lines_at frame.now column place
        ≡ lines_at frame.now column other) columns.now }
{
    for column in columns {
        if !same_lines(frame, column, place, other) {
            return false;
        }
    }
    true
}

// Whether the principal at the place has the lines of this group.
fn is_of(frame: &Frame, columns: &[Column], leaders: &[usize], place: usize, group: u32) -> bool
    ensures { result ≡ true → IsRow frame.now columns.now leaders.now place group }
{
    if group == 0 {
        return is_quiet_row(frame, columns, place);
    }
    match leaders.get(group as usize - 1) {
        Some(leader) => same_row(frame, columns, place, *leader),
        None => false,
    }
}

// A new group of the principal at the place.
fn lead(leaders: &mut Vec<usize>, place: usize) -> Result<u32, AllocError>
    ensures { IfOk result (λ group. (frame : FrameValue) (columns : List ColumnValue)
        → IsLed frame columns leaders.old.items leaders.new.items place group) }
{
    leaders.push(place)?;
    number_of(leaders.as_slice().len())
}

// The group of the principal at the place: 0, this one, or a new one.
fn group_of(
    frame: &Frame,
    columns: &[Column],
    leaders: &mut Vec<usize>,
    place: usize,
    hint: Option<u32>,
) -> Result<u32, AllocError>
    ensures { IfOk result (IsLed frame.now columns.now leaders.old.items leaders.new.items place) }
{
    if is_of(frame, columns, leaders.as_slice(), place, 0) {
        return Ok(0);
    }
    if let Some(group) = hint {
        if is_of(frame, columns, leaders.as_slice(), place, group) {
            return Ok(group);
        }
    }
    lead(leaders, place)
}

// ---- where to look for one

// A hash of the kind of each principal.
fn kind_hashes(alloc: Global, frame: &Frame) -> Result<Vec<u64>, AllocError> {
    let mut hashes = Vec::new(alloc);
    for kind in frame.kinds.as_slice() {
        hashes.push(mixed(NOTHING, u64::from(*kind)))?;
    }
    Ok(hashes)
}

// The hash at the place, with the lines in a column.
fn mix_at(hashes: &mut [u64], place: usize, column: usize, lines: &[u8]) {
    if place < hashes.len() {
        hashes[place] = mixed_bytes(mixed(hashes[place], column as u64), lines);
    }
}

fn mix_column(hashes: &mut [u64], number: usize, column: &Column) {
    for (place, lines) in column.others.iter() {
        mix_at(hashes, *place, number, lines.as_slice());
    }
}

// Of each principal a hash that those have in common which have the same lines: of one kind, and of others than its
// own the same.
fn hashes_of(alloc: Global, frame: &Frame, columns: &[Column]) -> Result<Vec<u64>, AllocError> {
    let mut hashes = kind_hashes(alloc, frame)?;
    'each: for number in 0..columns.len() {
        mix_column(hashes.as_mut_slice(), number, &columns[number]);
    }
    Ok(hashes)
}

fn hash_at(hashes: &[u64], place: usize) -> u64 {
    match hashes.get(place) {
        Some(hash) => *hash,
        None => NOTHING,
    }
}

// ---- groups

// Puts one more principal into a group.
fn join(
    frame: &Frame,
    columns: &[Column],
    rows: &mut Rows,
    hint: Option<u32>,
    principal: Both,
) -> Result<u32, AllocError>
    requires rows { AreRows frame.now columns.now rows.now.leaders.items rows.now.groups.items }
    requires numbered { AreNumbered (length rows.now.leaders.items) rows.now.groups.items }
    ensures members { OnOk result (members rows.new.groups.items
        ≡ members rows.old.groups.items ++ (principal ∷ [])) }
    ensures rows { OnOk result (AreRows frame.now columns.now rows.new.leaders.items
        rows.new.groups.items) }
    ensures numbered { OnOk result (AreNumbered (length rows.new.leaders.items) rows.new.groups.items) }
{
    let place = rows.groups.as_slice().len();
    let group = group_of(frame, columns, &mut rows.leaders, place, hint)?;
    group_fits(group);
    rows.groups.push(Grouped {
        both: principal,
        group,
    })?;
    Ok(group)
}

/// The principals in groups by their lines in the columns, which have them at their places.
///
/// # Errors
///
/// Out of memory.
pub(crate) fn grouped(
    alloc: Global,
    frame: &Frame,
    columns: &[Column],
    principals: &[Both],
) -> Result<Rows, AllocError>
    ensures members { IfOk result (λ rows. members rows.groups.items ≡ principals.now) }
    ensures rows { IfOk result (λ rows. AreRows frame.now columns.now rows.leaders.items
        rows.groups.items) }
    ensures numbered { IfOk result (λ rows. AreNumbered (length rows.leaders.items) rows.groups.items) }
{
    let hashes = hashes_of(alloc, frame, columns)?;
    let mut hints: IndexMap<u64, u32> = IndexMap::new(alloc);
    let mut rows = Rows {
        groups: Vec::new(alloc),
        leaders: Vec::new(alloc),
    };
    for principal in principals {
        let hash = hash_at(hashes.as_slice(), rows.groups.len());
        let hint = hints.get(&hash).copied();
        let group = join(frame, columns, &mut rows, hint, *principal)?;
        hints.insert(hash, group)?;
    }
    Ok(rows)
}
