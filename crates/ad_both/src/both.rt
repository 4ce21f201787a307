//! Objects of two directories that have one name.

ghost use Rattle.std.specs.Prelude.{◌≡◌, ◌++◌, true, All, IfSome, IfOk, OnOk};
ghost use Rattle.ad_dir_model.specs.Objects.{is_live, numbers};
ghost use Rattle.ad_both.specs.Both.{counterpart, with_other, both_among, objects_of_both};
ghost use Rattle.ad_both.specs.Both.{IsLiveBoth};

use ad_dir::Dir;
use std::alloc::{AllocError, Global};

/// An object that stands in both directories, by its number in each.
#[derive(Clone, Copy, Debug, PartialEq, Eq)]
pub struct Both {
    pub before: u32,
    pub after: u32,
}

/// The object of the other directory that has the name of a live object. It is live there.
///
/// # Errors
///
/// Out of memory.
#[tactic(auto, unfolding(crate::specs::Both::counterpart))]
pub fn counterpart(
    alloc: Global,
    dir: &Dir,
    other: &Dir,
    number: u32,
) -> Result<Option<u32>, AllocError>
    requires { is_live dir.now.objects number ≡ true }
    ensures counterpart { IfOk result (λ found. found ≡ counterpart dir.now other.now number) }
    ensures live { IfOk result (λ found.
        IfSome found (λ there. is_live other.now.objects there ≡ true)) }
{
    let dn = dir.dn(alloc, number)?;
    other.find(alloc, &dn)
}

fn push_with(into: &mut Vec<Both>, number: u32, other: Option<u32>) -> Result<(), AllocError>
    ensures { OnOk result (into.new.items ≡ into.old.items ++ with_other number other) }
{
    match other {
        Some(other) => {
            into.push(Both {
                before: number,
                after: other,
            })?;
            Ok(())
        }
        None => Ok(()),
    }
}

// Those of these live objects that the other directory has.
fn both_among(
    alloc: Global,
    before: &Dir,
    after: &Dir,
    numbers: &[u32],
) -> Result<Vec<Both>, AllocError>
    requires { All (λ number. is_live before.now.objects number ≡ true) numbers.now }
    ensures { IfOk result (λ all. all.items ≡ both_among before.now after.now numbers.now) }
{
    let mut all = Vec::new(alloc);
    for number in numbers {
        let other = counterpart(alloc, before, after, *number)?;
        push_with(&mut all, *number, other)?;
    }
    Ok(all)
}

/// The objects that stand in both by their name, by rising number in the first.
///
/// # Errors
///
/// Out of memory.
pub fn objects_of_both(alloc: Global, before: &Dir, after: &Dir) -> Result<Vec<Both>, AllocError>
    ensures are { IfOk result (λ all. all.items ≡ objects_of_both before.now after.now) }
    ensures live { IfOk result (λ all. All (IsLiveBoth before.now after.now) all.items) }
{
    after.invariants();
    let numbers = before.numbers(alloc)?;
    both_among(alloc, before, after, numbers.as_slice())
}
