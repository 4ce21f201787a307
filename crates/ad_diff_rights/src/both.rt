//! Principals that stand in two directories, by their name.

ghost use Rattle.std.specs.Prelude.{◌≡◌, ◌++◌, filter, if◌then◌else◌, ◌∷◌, [], IfOk, OnOk};
ghost use Rattle.ad_diff_rights.specs.Both.{are_principals};

use ad_both::Both;
use ad_dir::Dir;
use ad_principals::is_principal;
use std::alloc::{AllocError, Global};

fn are_principals(before: &Dir, after: &Dir, o: Both) -> bool
    ensures { result ≡ are_principals before.now after.now o }
{
    is_principal(before, o.before) && is_principal(after, o.after)
}

/// Those of these objects that are principals in both.
///
/// # Errors
///
/// Out of memory.
pub fn principals_among(
    alloc: Global,
    before: &Dir,
    after: &Dir,
    objects: &[Both],
) -> Result<Vec<Both>, AllocError>
    ensures { IfOk result (λ all. all.items ≡ filter (are_principals before.now after.now)
        objects.now) }
{
    let mut all = Vec::new(alloc);
    for o in objects {
        if are_principals(before, after, *o) {
            all.push(*o)?;
        }
    }
    Ok(all)
}
