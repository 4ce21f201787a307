//! The order in which a subtree goes: the deepest objects first.

ghost use Rattle.std.specs.Prelude.{◌≡◌, ◌++◌, ◌==◌, [], ◌∷◌, map, IfOk, OnOk};
ghost use Rattle.std.specs.List.{filter};
ghost use Rattle.ad_dir_model.specs.Objects.{numbers};
ghost use Rattle.ad_dir_model.specs.Directory.{parents};
ghost use Rattle.ad_dir_model.specs.Changes.{goes_with};
ghost use Rattle.ad_change.specs.Removing.{IsLeaving, at_depth, from_depth};
ghost use Rattle.ad_change.specs.Tree.{depth_of};

use crate::depth::depth;
use crate::subtree::goes_with;
use ad_dir::{Dir, MAX_DEPTH};
use std::alloc::{AllocError, Global};

// Puts an object with its depth at the end, if it goes.
fn push_going(
    dir: &Dir,
    target: u32,
    alone: bool,
    number: u32,
    found: &mut Vec<(u32, u32)>,
) -> Result<(), AllocError>
    requires { IsLeaving dir.now target alone }
    ensures { OnOk result (found.new.items
        ≡ found.old.items ++ map (λ one. (depth_of (parents dir.now) one, one))
        (filter (goes_with dir.now target) (number ∷ []))) }
{
    if goes_with(dir, target, alone, number) {
        found.push((depth(dir, number), number))?;
    }
    Ok(())
}

// The objects that go, each with its depth.
fn all_going(
    alloc: Global,
    dir: &Dir,
    target: u32,
    alone: bool,
    numbers: &[u32],
) -> Result<Vec<(u32, u32)>, AllocError>
    requires { IsLeaving dir.now target alone }
    ensures { IfOk result (λ found. found.items ≡ map (λ one. (depth_of (parents dir.now) one, one))
        (filter (goes_with dir.now target) numbers.now)) }
{
    let mut found = Vec::new(alloc);
    'each: for number in numbers {
        push_going(dir, target, alone, *number, &mut found)?;
    }
    Ok(found)
}

// Puts an object at the end, if its depth is this one.
fn push_if_at(one: (u32, u32), depth: u32, going: &mut Vec<u32>) -> Result<(), AllocError>
    ensures { OnOk result (going.new.items ≡ going.old.items ++ at_depth depth (one ∷ [])) }
{
    if one.0 == depth {
        going.push(one.1)?;
    }
    Ok(())
}

// Puts the objects of one depth at the end.
fn push_at(found: &[(u32, u32)], depth: u32, going: &mut Vec<u32>) -> Result<(), AllocError>
    ensures { OnOk result (going.new.items ≡ going.old.items ++ at_depth depth found.now) }
{
    'each: for one in found {
        push_if_at(*one, depth, going)?;
    }
    Ok(())
}

// Objects with their depths, the deepest first.
fn deepest_first(alloc: Global, found: &[(u32, u32)]) -> Result<Vec<u32>, AllocError>
    ensures { IfOk result (λ going. going.items ≡ from_depth 65 found.now) }
{
    let mut going = Vec::new(alloc);
    let mut left = MAX_DEPTH + 1;
    'each: while left > 0 {
        left -= 1;
        push_at(found, left, &mut going)?;
    }
    Ok(going)
}

/// The objects that go with one that is deleted, the deepest first.
pub(crate) fn going_leaves_first(
    alloc: Global,
    dir: &Dir,
    target: u32,
    alone: bool,
) -> Result<Vec<u32>, AllocError>
    requires { IsLeaving dir.now target alone }
    ensures { IfOk result (λ going. going.items
        ≡ from_depth 65 (map (λ one. (depth_of (parents dir.now) one, one))
        (filter (goes_with dir.now target) (numbers dir.now.objects)))) }
{
    let numbers = dir.numbers(alloc)?;
    let found = all_going(alloc, dir, target, alone, numbers.as_slice())?;
    deepest_first(alloc, found.as_slice())
}
