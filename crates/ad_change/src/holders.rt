//! The objects that may lose links in a deletion: those that hold links to the one that goes, where it goes alone.

ghost use Rattle.std.specs.Prelude.{◌≡◌, true, IfOk};
ghost use Rattle.std.specs.List.{AllByRecursion};
ghost use Rattle.ad_dir_model.specs.Objects.{is_live, Rise};
ghost use Rattle.ad_change.specs.Removing.{IsLeaving, losing_among, losing_of};

use ad_dir::Dir;
use std::alloc::{AllocError, Global};

/// Objects among which are all that lose links.
///
/// # Errors
///
/// Out of memory.
pub(crate) fn may_lose(
    alloc: Global,
    dir: &Dir,
    target: u32,
    alone: bool,
) -> Result<Vec<u32>, AllocError>
    requires leaving { IsLeaving dir.now target alone }
    requires rise { Rise dir.now.objects }
    ensures live { IfOk result (λ numbers.
        AllByRecursion (λ number. is_live dir.now.objects number ≡ true) numbers.items) }
    ensures all { IfOk result (λ numbers. losing_among dir.now target numbers.items
        ≡ losing_of dir.now target) }
{
    if alone {
        let holders = dir.holders(alloc, target)?;
        return Ok(holders);
    }
    let all = dir.numbers(alloc)?;
    Ok(all)
}
