//! The objects in groups: those of a group have one column of lines, and those of group 0 have none.

ghost use Rattle.std.specs.Prelude.{◌≡◌, ◌++◌, ◌∷◌, [], ℕ, true, All, length, slice_get, OnOk, IfOk};
ghost use Rattle.std.specs.Option.{option_copied};
ghost use Rattle.ad_both.specs.Both.{IsLiveBoth};
ghost use Rattle.ad_diff_rights.specs.Parties.{IsParty};
ghost use Rattle.ad_diff_rights.specs.Sides.{AreFlagged};
ghost use Rattle.ad_diff.specs.declared.bases.Frame.{Frame as FrameValue};
ghost use Rattle.ad_diff.specs.Text.{members};
ghost use Rattle.ad_diff.specs.Frames.{lines_at, HasBase, IsContext, IsAdded};
ghost use Rattle.ad_diff.specs.Table.{ArePlaced, AreNumbered};

use crate::bases::{Frame, is_quiet_family};
use crate::columns::{Column, column_of, is_plain};
use crate::context::Context;
use crate::numbering::{Grouped, group_fits, number_of};
use ad_diff_rights::Sides;
use indexmap::IndexMap;
use std::alloc::{AllocError, Global};

/// The objects in their groups, and the columns of the groups from 1 on.
#[derive(Drop)]
pub struct Placing {
    pub objects: Vec<Grouped>,
    pub columns: Vec<Column>,
}

// Whether both are those of one family.
fn are_of_one(a: &Column, b: &Column) -> bool
    ensures { result ≡ true → (frame : FrameValue) (place : ℕ) → lines_at frame a.now place
        ≡ lines_at frame b.now place }
{
    a.family == b.family && is_plain(a) && is_plain(b)
}

fn column_at(columns: &[Column], place: usize) -> Option<&Column>
    ensures { option_copied result ≡ slice_get columns.entry.now place }
{
    columns.get(place)
}

// Whether the column of a group, which has one, has the lines of this one: both are those of their family.
fn is_same(columns: &[Column], group: u32, column: &Column) -> bool
    ensures { result ≡ true → (frame : FrameValue) → IsAdded frame columns.now columns.now
        column.now group }
{
    if group == 0 {
        return false;
    }
    match column_at(columns, group as usize - 1) {
        Some(other) => are_of_one(other, column),
        None => false,
    }
}

// The group of the lines of a column that has some, which is added.
fn add(columns: &mut Vec<Column>, column: Column) -> Result<u32, AllocError>
    ensures { IfOk result (λ group. (frame : FrameValue) → IsAdded frame columns.old.items
        columns.new.items column group) }
{
    columns.push(column)?;
    number_of(columns.as_slice().len())
}

// Whether the column has no lines.
fn is_quiet(frame: &Frame, column: &Column) -> bool
    ensures { result ≡ true → (place : ℕ) → lines_at frame.now column.now place ≡ [] }
{
    is_plain(column) && is_quiet_family(frame, column.family)
}

// The group of the lines of a column: none, that of the hint, or a new one.
fn group_of(
    frame: &Frame,
    columns: &mut Vec<Column>,
    hint: Option<u32>,
    column: Column,
) -> Result<u32, AllocError>
    ensures { IfOk result (IsAdded frame.now columns.old.items columns.new.items column) }
{
    if is_quiet(frame, &column) {
        return Ok(0);
    }
    if let Some(group) = hint {
        if is_same(columns.as_slice(), group, &column) {
            return Ok(group);
        }
    }
    add(columns, column)
}

// Places one more object.
fn place(
    alloc: Global,
    sides: &Sides<'_>,
    context: &Context,
    placing: &mut Placing,
    hint: Option<u32>,
    g: Grouped,
) -> Result<u32, AllocError>
    requires live { IsLiveBoth sides.now.before.now sides.now.after.now g.both }
    requires flagged { AreFlagged sides.now }
    requires parties { All (IsParty sides.now.before.now sides.now.after.now)
        sides.now.parties.now }
    requires context { IsContext sides.now.parties.now context.now }
    requires base { HasBase sides.now context.now.frame g.group g.both }
    requires placed { ArePlaced sides.now context.now.frame placing.now.columns.items
        placing.now.objects.items }
    requires numbered { AreNumbered (length placing.now.columns.items) placing.now.objects.items }
    ensures members { OnOk result (members placing.new.objects.items
        ≡ members placing.old.objects.items ++ (g.both ∷ [])) }
    ensures placed { OnOk result (ArePlaced sides.now context.now.frame placing.new.columns.items
        placing.new.objects.items) }
    ensures numbered { OnOk result (AreNumbered (length placing.new.columns.items)
        placing.new.objects.items) }
{
    let column = column_of(alloc, sides, context, g)?;
    let group = group_of(&context.frame, &mut placing.columns, hint, column)?;
    group_fits(group);
    placing.objects.push(Grouped {
        both: g.both,
        group,
    })?;
    Ok(group)
}

/// The objects, which are live in both and given with their families, in groups by what the principals gain and lose on
/// them.
///
/// # Errors
///
/// Out of memory.
pub(crate) fn placed(
    alloc: Global,
    sides: &Sides<'_>,
    context: &Context,
    objects: &[Grouped],
) -> Result<Placing, AllocError>
    requires live { All (λ g. IsLiveBoth sides.now.before.now sides.now.after.now g.both)
        objects.now }
    requires flagged { AreFlagged sides.now }
    requires parties { All (IsParty sides.now.before.now sides.now.after.now)
        sides.now.parties.now }
    requires context { IsContext sides.now.parties.now context.now }
    requires bases { All (λ g. HasBase sides.now context.now.frame g.group g.both) objects.now }
    ensures members { IfOk result (λ placing. members placing.objects.items
        ≡ members objects.now) }
    ensures placed { IfOk result (λ placing. ArePlaced sides.now context.now.frame
        placing.columns.items placing.objects.items) }
    ensures numbered { IfOk result (λ placing. AreNumbered (length placing.columns.items)
        placing.objects.items) }
{
    let mut hints: IndexMap<u32, u32> = IndexMap::new(alloc);
    let mut placing = Placing {
        objects: Vec::new(alloc),
        columns: Vec::new(alloc),
    };
    for g in objects {
        let hint = hints.get(&g.group).copied();
        let group = place(alloc, sides, context, &mut placing, hint, *g)?;
        hints.insert(g.group, group)?;
    }
    Ok(placing)
}
