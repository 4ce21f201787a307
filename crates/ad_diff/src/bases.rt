//! What the principals of each kind gain and lose on the objects of each family where own identifiers don't count.

ghost use Rattle.std.specs.Prelude.{◌≡◌, [], ℕ, true, All, get_or, IfOk};
ghost use Rattle.ad_both.specs.Both.{IsLiveBoth};
ghost use Rattle.ad_diff_rights.specs.Sides.{AreFlagged};
ghost use Rattle.ad_diff_rights.specs.Steps.{texts};
ghost use Rattle.ad_diff.specs.Frames.{bares_on, all_bares, row_texts, base_at};

use ad_both::Both;
use ad_diff_rights::{Sides, changes_at, is_unchanged};
use std::alloc::{AllocError, Global};

/// The lines of each kind on each family, and the kind of each principal.
#[derive(Drop)]
pub struct Frame {
    pub rows: Vec<Vec<Vec<u8>>>,
    pub kinds: Vec<u32>,
}

// The lines of the principals at these places on an object that is live in both, as if it had no own identifiers.
fn row_of(
    alloc: Global,
    sides: &Sides<'_>,
    places: &[usize],
    o: Both,
) -> Result<Vec<Vec<u8>>, AllocError>
    requires live { IsLiveBoth sides.now.before.now sides.now.after.now o }
    requires flagged { AreFlagged sides.now }
    ensures { IfOk result (λ row. texts row.items ≡ bares_on sides.now places.now o) }
{
    let mut row = Vec::new(alloc);
    let unchanged = is_unchanged(sides.before, sides.after, o);
    for place in places {
        let lines = changes_at(alloc, sides, *place, false, o, unchanged)?;
        row.push(lines)?;
    }
    Ok(row)
}

/// Those of the principals at these places on each of these objects, which are live in both.
///
/// # Errors
///
/// Out of memory.
pub(crate) fn rows_of(
    alloc: Global,
    sides: &Sides<'_>,
    places: &[usize],
    objects: &[Both],
) -> Result<Vec<Vec<Vec<u8>>>, AllocError>
    requires live { All (IsLiveBoth sides.now.before.now sides.now.after.now) objects.now }
    requires flagged { AreFlagged sides.now }
    ensures { IfOk result (λ rows. row_texts rows.items
        ≡ all_bares sides.now places.now objects.now) }
{
    let mut rows = Vec::new(alloc);
    for o in objects {
        let row = row_of(alloc, sides, places, *o)?;
        rows.push(row)?;
    }
    Ok(rows)
}

// The lines of a kind in a row.
fn line_in(row: &[Vec<u8>], kind: u32) -> &[u8]
    ensures { result.now ≡ get_or (texts row.entry.now) kind [] }
{
    match row.get(kind as usize) {
        Some(lines) => lines.as_slice(),
        None => b"",
    }
}

// The row of a family.
fn row_in(rows: &[Vec<Vec<u8>>], family: u32) -> &[Vec<u8>]
    ensures { texts result.now ≡ get_or (row_texts rows.entry.now) family [] }
{
    match rows.get(family as usize) {
        Some(row) => row.as_slice(),
        None => &[],
    }
}

fn kind_at(kinds: &[u32], place: usize) -> u32
    ensures { result ≡ get_or kinds.now place 0 }
{
    match kinds.get(place) {
        Some(kind) => *kind,
        None => 0,
    }
}

/// The lines of the principal at a place on the objects of a family.
pub(crate) fn base_at(frame: &Frame, family: u32, place: usize) -> &[u8]
    ensures { result.now ≡ base_at frame.entry.now family place }
{
    let kind = kind_at(frame.kinds.as_slice(), place);
    line_in(row_in(frame.rows.as_slice(), family), kind)
}

// Whether no kind has lines.
fn is_quiet_row(row: &[Vec<u8>]) -> bool
    ensures { result ≡ true → (kind : ℕ) → get_or (texts row.now) kind [] ≡ [] }
{
    for lines in row {
        if !lines.is_empty() {
            return false;
        }
    }
    true
}

/// Whether no principal has lines on the objects of a family.
pub(crate) fn is_quiet_family(frame: &Frame, family: u32) -> bool
    ensures { result ≡ true → (place : ℕ) → base_at frame.now family place ≡ [] }
{
    is_quiet_row(row_in(frame.rows.as_slice(), family))
}
