//! The protected objects.

ghost use Rattle.std.specs.Prelude.{◌≡◌, IfOk, filter};
ghost use Rattle.ad_dir_model.specs.Protection.{protected};
ghost use Rattle.ad_dir_model.specs.Soundness.{IsSound};
ghost use Rattle.ad_protect.specs.Spreading.{is_protected};

use crate::seeds::is_alone;
use crate::spread::spread;
use ad_dir::Dir;
use indexmap::IndexSet;
use std::alloc::{AllocError, Global};

fn is_protected(dir: &Dir, taken: &IndexSet<u32>, number: u32) -> bool
    ensures { result ≡ is_protected dir.now taken.now.keys number }
{
    taken.contains(&number) || is_alone(dir, number)
}

fn those_protected(
    alloc: Global,
    dir: &Dir,
    taken: &IndexSet<u32>,
    numbers: &[u32],
) -> Result<Vec<u32>, AllocError>
    ensures { IfOk result (λ those. those.items ≡ filter (is_protected dir.now taken.now.keys)
        numbers.now) }
{
    let mut those = Vec::new(alloc);
    for number in numbers {
        if is_protected(dir, taken, *number) {
            those.push(*number)?;
        }
    }
    Ok(those)
}

/// The protected objects by rising number.
///
/// # Errors
///
/// Out of memory.
pub fn protected(alloc: Global, dir: &Dir) -> Result<Vec<u32>, AllocError>
    requires { IsSound dir.now }
    ensures { IfOk result (λ all. all.items ≡ protected dir.now) }
{
    let numbers = dir.numbers(alloc)?;
    let taken = spread(alloc, dir, numbers.as_slice())?;
    those_protected(alloc, dir, &taken, numbers.as_slice())
}
