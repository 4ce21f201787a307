//! The pending list of a run.

ghost use Rattle.std.specs.Prelude.{◌≡◌, true, IfOk};
ghost use Rattle.std.specs.List.{AllByRecursion};
ghost use Rattle.ad_dir_model.specs.Objects.{is_live};
ghost use Rattle.ad_dir_model.specs.Edits.{all_marked};
ghost use Rattle.ad_protect.specs.Putting.{sd_given, IsGiven};

use crate::given::{Given, changes_sd};
use ad_dir::Dir;
use ad_dir_write::{copied, mark_if};
use prop_queue::Pending;
use std::alloc::{AllocError, Global};

/// The pending list, with those of these live objects marked whose descriptor changes, in their order.
pub(crate) fn marked_all(
    alloc: Global,
    dir: &Dir,
    given: &Given,
    numbers: &[u32],
) -> Result<Vec<Pending>, AllocError>
    requires live { AllByRecursion (λ number. is_live dir.now.objects number ≡ true) numbers.now }
    requires given { IsGiven dir.now given.now }
    ensures { IfOk result (λ entries. entries.items
        ≡ all_marked dir.now (sd_given given.now) numbers.now dir.now.pending) }
{
    let mut queue = copied(alloc, dir.queue())?;
    for number in numbers {
        mark_if(changes_sd(dir, given, *number), &mut queue, *number)?;
    }
    Ok(queue.into_entries())
}
