//! The differences of two directories.

ghost use Rattle.std.specs.Prelude.{◌≡◌, ◌++◌, All, map, IfOk, IfErr};
ghost use Rattle.ad_both.specs.Both.{objects_of_both, IsLiveBoth};
ghost use Rattle.ad_diff_rights.specs.Both.{principals_of_both};
ghost use Rattle.ad_diff_rights.specs.Parties.{IsParty, AreNoParties, IsOfLive};
ghost use Rattle.ad_diff_rights.specs.Sides.{AreFlagged};
ghost use Rattle.ad_causes.specs.Cause.{causes_text};
ghost use Rattle.ad_causes.specs.Causes.{causes};
ghost use Rattle.ad_diff.specs.Text.{table_text, blocks_text, IsDiffText};
ghost use Rattle.ad_diff.specs.Answers.{DiffTold};
ghost use Rattle.ad_diff.specs.Frames.{lines_at};
ghost use Rattle.ad_diff.specs.Table.{row_of};

use crate::bases::Frame;
use crate::context::comparison_context;
use crate::families::families_of;
use crate::grouping::{Placing, placed};
use crate::listing::put_blocks;
use crate::refusing::line_of;
use crate::rows::{Rows, grouped};
use crate::table::put_table;
use ad_both::{Both, objects_of_both};
use ad_diff_rights::{DiffFault, Sides, parties, principals_among, unchanged_flags};
use ad_dir::Dir;
use std::alloc::{AllocError, Global};

/// A text, and whether it is an answer; else it is the line that says why there is none.
#[derive(Drop)]
pub struct Answer {
    pub answered: bool,
    pub text: Vec<u8>,
}

// The text of groups and columns, after the causes.
fn text_of(
    alloc: Global,
    before: &Dir,
    after: &Dir,
    frame: &Frame,
    placing: &Placing,
    rows: &Rows,
) -> Result<Vec<u8>, AllocError>
    requires principals { All (λ g. IsLiveBoth before.now after.now g.both)
        rows.now.groups.items }
    requires objects { All (λ g. IsLiveBoth before.now after.now g.both)
        placing.now.objects.items }
    ensures { IfOk result (λ text. text.items ≡ causes_text (causes before.now after.now)
        ++ blocks_text after.now rows.now.groups.items placing.now.objects.items
        (table_text 1 (map (λ column. row_of rows.now.leaders.items
        (lines_at frame.now column)) placing.now.columns.items))) }
{
    let mut text = ad_causes::causes(alloc, before, after)?;
    let mut table = Vec::new(alloc);
    put_table(
        &mut table,
        frame,
        placing.columns.as_slice(),
        rows.leaders.as_slice(),
    )?;
    put_blocks(
        alloc,
        &mut text,
        after,
        rows.groups.as_slice(),
        placing.objects.as_slice(),
        table.as_slice(),
    )?;
    Ok(text)
}

// The text of the differences of these principals, which have their tokens, on these objects.
fn text_by(
    alloc: Global,
    sides: &Sides<'_>,
    objects: &[Both],
    principals: &[Both],
) -> Result<Vec<u8>, AllocError>
    requires objects { objects.now
        ≡ objects_of_both sides.now.before.now sides.now.after.now }
    requires live { All (IsLiveBoth sides.now.before.now sides.now.after.now) objects.now }
    requires principals { principals.now
        ≡ principals_of_both sides.now.before.now sides.now.after.now }
    requires both { map (λ party. party.both) sides.now.parties.now ≡ principals.now }
    requires parties { All (IsParty sides.now.before.now sides.now.after.now)
        sides.now.parties.now }
    requires flagged { AreFlagged sides.now }
    ensures { IfOk result (λ text. IsDiffText sides.now.before.now sides.now.after.now
        text.items) }
{
    let families = families_of(alloc, sides.before, sides.after, objects)?;
    let context = comparison_context(alloc, sides, families.firsts.as_slice())?;
    let placing = placed(alloc, sides, &context, families.objects.as_slice())?;
    let rows = grouped(
        alloc,
        &context.frame,
        placing.columns.as_slice(),
        principals,
    )?;
    text_of(
        alloc,
        sides.before,
        sides.after,
        &context.frame,
        &placing,
        &rows,
    )
}

// The text of the differences of these principals on these objects.
fn differences(
    alloc: Global,
    before: &Dir,
    after: &Dir,
    objects: &[Both],
    principals: &[Both],
) -> Result<Vec<u8>, DiffFault>
    requires objects { objects.now ≡ objects_of_both before.now after.now }
    requires live { All (IsLiveBoth before.now after.now) objects.now }
    requires principals { principals.now ≡ principals_of_both before.now after.now }
    ensures text { IfOk result (λ text. IsDiffText before.now after.now text.items) }
    ensures fault { IfErr result (AreNoParties before.now after.now principals.now) }
    ensures live { IfErr result (IsOfLive before.now after.now) }
{
    let parties = parties(alloc, before, after, principals)?;
    let flags = unchanged_flags(alloc, before, after, parties.as_slice())?;
    let sides = Sides {
        before,
        after,
        parties: parties.as_slice(),
        flags: flags.as_slice(),
    };
    Ok(text_by(alloc, &sides, objects, principals)?)
}

// The text of the differences, or the fault.
fn differing(alloc: Global, before: &Dir, after: &Dir) -> Result<Vec<u8>, DiffFault>
    ensures text { IfOk result (λ text. IsDiffText before.now after.now text.items) }
    ensures fault { IfErr result (AreNoParties before.now after.now
        (principals_of_both before.now after.now)) }
    ensures live { IfErr result (IsOfLive before.now after.now) }
{
    let objects = objects_of_both(alloc, before, after)?;
    let principals = principals_among(alloc, before, after, objects.as_slice())?;
    differences(
        alloc,
        before,
        after,
        objects.as_slice(),
        principals.as_slice(),
    )
}

// The line of a fault, but for want of memory.
fn refusal(alloc: Global, before: &Dir, after: &Dir, fault: DiffFault) -> Result<Answer, AllocError>
    requires live { IsOfLive before.now after.now fault }
    requires fault { AreNoParties before.now after.now
        (principals_of_both before.now after.now) fault }
    ensures { IfOk result (λ told. DiffTold before.now after.now told.answered told.text.items) }
{
    if fault == DiffFault::Memory {
        return Err(AllocError);
    }
    let text = line_of(alloc, before, after, fault)?;
    Ok(Answer {
        answered: false,
        text,
    })
}

/// The causes from one directory to the other; then what each principal of both gains and loses on each object of both,
/// by the tokens and the descriptors of each: lines of principals and of objects in numbered groups, and for a group of
/// each the lines of what is gained (`+`) and lost (`-`). Or the line that names
/// the first principal of both with more than 1,024 groups, of which directory.
///
/// # Errors
///
/// Memory ran out, or there are more groups than numbers of 32 bits.
pub fn diff(alloc: Global, before: &Dir, after: &Dir) -> Result<Answer, AllocError>
    ensures { IfOk result (λ told. DiffTold before.now after.now told.answered told.text.items) }
{
    match differing(alloc, before, after) {
        Ok(text) => Ok(Answer {
            answered: true,
            text,
        }),
        Err(fault) => refusal(alloc, before, after, fault),
    }
}
