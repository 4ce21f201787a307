//! What is known before objects are looked at one by one: which identities are granted alike, what those of a kind gain
//! and lose where own identifiers don't count, and who holds an identifier.

ghost use Rattle.std.specs.Prelude.{◌≡◌, true, All, IfOk};
ghost use Rattle.ad_both.specs.Both.{IsLiveBoth};
ghost use Rattle.ad_diff_rights.specs.Parties.{IsParty};
ghost use Rattle.ad_diff_rights.specs.Sides.{AreFlagged};
ghost use Rattle.ad_diff.specs.Frames.{AreBases, IsContext};

use crate::bases::{Frame, rows_of};
use crate::holders::{Holders, holders_in};
use crate::kinds::kinds_of;
use ad_both::Both;
use ad_diff_rights::{Sides, named_by};
use std::alloc::{AllocError, Global};

/// What the columns are made of.
#[derive(Drop)]
pub struct Context {
    pub frame: Frame,
    pub holders: Holders,
    pub holders_after: Holders,
}

/// What the columns are made of, of objects whose families begin with these.
///
/// # Errors
///
/// Out of memory.
pub(crate) fn comparison_context(
    alloc: Global,
    sides: &Sides<'_>,
    firsts: &[Both],
) -> Result<Context, AllocError>
    requires live { All (IsLiveBoth sides.now.before.now sides.now.after.now) firsts.now }
    requires flagged { AreFlagged sides.now }
    requires parties { All (IsParty sides.now.before.now sides.now.after.now)
        sides.now.parties.now }
    ensures context { IfOk result (IsContext sides.now.parties.now) }
    ensures bases { IfOk result (λ context. AreBases sides.now context.frame firsts.now) }
{
    let named = named_by(alloc, sides.before, sides.after, firsts)?;
    let kinds = kinds_of(alloc, &named, sides.parties)?;
    let rows = rows_of(alloc, sides, kinds.firsts.as_slice(), firsts)?;
    let holders = holders_in(alloc, sides.parties, true)?;
    let holders_after = holders_in(alloc, sides.parties, false)?;
    Ok(Context {
        frame: Frame {
            rows,
            kinds: kinds.of,
        },
        holders,
        holders_after,
    })
}
