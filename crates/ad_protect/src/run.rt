//! The edits of a whole protection run, and its two numbers.

ghost use Rattle.std.specs.Prelude.{◌≡◌, ◌++◌, ◌∷◌, [], true, Some, IfOk};
ghost use Rattle.std.specs.List.{AllByRecursion};
ghost use Rattle.ad_dir_model.specs.Objects.{is_live};
ghost use Rattle.ad_dir_model.specs.Directory.{put_queue};
ghost use Rattle.ad_dir_model.specs.Names.{admin_sd_holder};
ghost use Rattle.ad_dir_model.specs.Edits.{all_marked, protect_edits};
ghost use Rattle.ad_dir_model.specs.Soundness.{IsSound};
ghost use Rattle.ad_protect.specs.Putting.{sd_given, IsGiven, AreRunEdits};
ghost use Rattle.ad_protect.specs.Run.{MakeRun};

use crate::given::{Given, given_by};
use crate::listing::protected;
use crate::marks::marked_all;
use crate::puts::puts_of;
use ad_dir::{Dir, Edit};
use std::alloc::{AllocError, Global};

// The edits that put those of these objects that change, and after them the pending list; with how many change. Where
// none changes, there is none.
fn edits_of(
    alloc: Global,
    dir: &Dir,
    given: &Given,
    numbers: &[u32],
) -> Result<(Vec<Edit>, usize), AllocError>
    requires live { AllByRecursion (λ number. is_live dir.now.objects number ≡ true) numbers.now }
    requires given { IsGiven dir.now given.now }
    ensures { IfOk result (λ made. AreRunEdits dir.now (sd_given given.now) numbers.now made.0.items
        made.1) }
{
    let mut edits = puts_of(alloc, dir, given, numbers)?;
    let changed = edits.as_slice().len();
    if changed == 0 {
        return Ok((edits, 0));
    }
    edits.push(Edit::PutQueue(marked_all(alloc, dir, given, numbers)?))?;
    Ok((edits, changed))
}

// The edits of a run with this holder of its descriptor, with how many objects change and how many are protected.
fn held_by(alloc: Global, dir: &Dir, holder: u32) -> Result<(Vec<Edit>, u32, u32), AllocError>
    requires sound { IsSound dir.now }
    requires holder { admin_sd_holder dir.now ≡ Some holder }
    ensures { IfOk result (λ made. MakeRun dir.now made.0.items made.1 made.2) }
{
    let numbers = protected(alloc, dir)?;
    let given = given_by(alloc, dir, holder)?;
    let (edits, changed) = edits_of(alloc, dir, &given, numbers.as_slice())?;
    Ok((edits, changed as u32, numbers.as_slice().len() as u32))
}

/// The edits of a protection run of a sound directory, in their order, with the number of objects that change and the
/// number of those that are protected ([MS-ADTS] 3.1.1.6.1). Where the directory is to be as it was there is no edit.
///
/// Each protected object gets the frozen descriptor of AdminSDHolder, and `adminCount` with the one value 1 where the
/// schema has such an attribute. Those whose descriptor changed are marked by rising number. Without AdminSDHolder
/// nothing changes, and none is protected.
///
/// The time is about linear in the objects with their values, and in the edits.
///
/// # Errors
///
/// Out of memory.
pub fn run_edits(alloc: Global, dir: &Dir) -> Result<(Vec<Edit>, u32, u32), AllocError>
    requires { IsSound dir.now }
    ensures { IfOk result (λ made. MakeRun dir.now made.0.items made.1 made.2) }
{
    match dir.admin_sd_holder() {
        Some(holder) => held_by(alloc, dir, holder),
        None => Ok((Vec::new(alloc), 0, 0)),
    }
}
