//! The objects of a subtree: one, and all that are below it.

ghost use Rattle.std.specs.Prelude.{◌≡◌, ◌∷◌, ◌++◌, [], true, filter, IfOk, OnOk};
ghost use Rattle.ad_dir_model.specs.Objects.{is_live};
ghost use Rattle.ad_search.specs.Subtree.{is_other, below_each, levels_from, subtree};

use ad_dir::{Dir, ROOT};
use ad_entries::rise;
use std::alloc::{AllocError, Global};

// An object and the levels below it, of which there may be 64.
const LEVELS: u32 = 65;

// Puts a number at the end that isn't the root's, which stands below none.
fn push_other(number: u32, below: &mut Vec<u32>) -> Result<(), AllocError>
    ensures { OnOk result (below.new.items ≡ below.old.items ++ filter is_other (number ∷ [])) }
{
    if number != ROOT {
        below.push(number)?;
    }
    Ok(())
}

fn push_others(numbers: &[u32], below: &mut Vec<u32>) -> Result<(), AllocError>
    ensures { OnOk result (below.new.items ≡ below.old.items ++ filter is_other numbers.now) }
{
    'each: for number in numbers {
        push_other(*number, below)?;
    }
    Ok(())
}

// The objects right below each of these.
#[tactic(auto, unfolding(crate::specs::Subtree::below_each))]
fn below_each(alloc: Global, dir: &Dir, level: &[u32]) -> Result<Vec<u32>, AllocError>
    ensures { IfOk result (λ below. below.items ≡ below_each dir.now.objects level.now) }
{
    let mut below = Vec::new(alloc);
    'each: for number in level {
        push_others(dir.children(*number), &mut below)?;
    }
    Ok(below)
}

// An object and all below it, level by level.
fn by_levels(alloc: Global, dir: &Dir, base: u32) -> Result<Vec<u32>, AllocError>
    ensures { IfOk result (λ found. found.items ≡ levels_from dir.now.objects 65 (base ∷ [])) }
{
    let mut level = Vec::new(alloc);
    level.push(base)?;
    let mut found = Vec::new(alloc);
    let mut left = LEVELS;
    'down: while left > 0 {
        left -= 1;
        let below = below_each(alloc, dir, level.as_slice())?;
        found.extend_from_slice(level.as_slice())?;
        level = below;
    }
    Ok(found)
}

/// The numbers of an object and of all below it, rising. It takes n log n steps where there are n of them.
pub(crate) fn subtree(alloc: Global, dir: &Dir, base: u32) -> Result<Vec<u32>, AllocError>
    requires { is_live dir.now.objects base ≡ true }
    ensures { IfOk result (λ numbers. numbers.items ≡ subtree dir.now base) }
{
    dir.invariants();
    let mut numbers = by_levels(alloc, dir, base)?;
    rise(&mut numbers);
    Ok(numbers)
}
