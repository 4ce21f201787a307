//! How deep objects stand, where one of them has another parent.

ghost use Rattle.std.specs.Prelude.{◌≡◌, nat_le, true, List, ℕ, IfOk};
ghost use Rattle.std.specs.List.{list_all};
ghost use Rattle.ad_dir_model.specs.Limits.{max_depth};
ghost use Rattle.ad_dir_model.specs.Objects.{is_live, object_at};
ghost use Rattle.ad_dir_model.specs.Directory.{parents};
ghost use Rattle.ad_dir_model.specs.Changes.{renamed_object};
ghost use Rattle.ad_dir_model.specs.Soundness.{IsSound};
ghost use Rattle.ad_change.specs.Tree.{depth_of, is_shallow_with};
ghost use Rattle.ad_change.specs.Depths.{parent_then};

use ad_dir::{Dir, MAX_DEPTH, ROOT, parent_number};
use std::alloc::{AllocError, Global};

// The number of the parent of an object, where one that is moved has this one.
fn parent_then(dir: &Dir, moved: u32, parent: u32, number: u32) -> u32
    ensures { result ≡ parent_then dir.now moved parent number }
{
    if number == moved {
        return parent;
    }
    parent_number(dir, number)
}

/// How many parents stand above an object, where one that is moved has this one; 65 where there are more than 64.
pub(crate) fn depth_then(dir: &Dir, moved: u32, parent: u32, number: u32) -> u32
    ensures { result ≡ depth_of (parent_then dir.now moved parent) number }
{
    let mut at = number;
    let mut depth = 0;
    'up: while depth <= MAX_DEPTH {
        if at == ROOT {
            return depth;
        }
        at = parent_then(dir, moved, parent, at);
        depth += 1;
    }
    depth
}

/// How many parents stand above an object; 65 where there are more than 64.
pub(crate) fn depth(dir: &Dir, number: u32) -> u32
    ensures { result ≡ depth_of (parents dir.now) number }
{
    depth_then(dir, number, parent_number(dir, number), number)
}

// Whether none of the objects is too deep then.
fn are_shallow(dir: &Dir, moved: u32, parent: u32, numbers: &[u32]) -> bool
    ensures { result ≡ list_all (λ number.
        nat_le (depth_of (parent_then dir.now moved parent) number) max_depth) numbers.now }
{
    'each: for number in numbers {
        if depth_then(dir, moved, parent, *number) > MAX_DEPTH {
            return false;
        }
    }
    true
}

/// Whether no object is too deep where a live one has another parent. With the parent that it has none is.
pub(crate) fn is_shallow_with(
    alloc: Global,
    dir: &Dir,
    target: u32,
    parent: u32,
) -> Result<bool, AllocError>
    requires sound { IsSound dir.now }
    requires live { is_live dir.now.objects target ≡ true }
    ensures { (name : List ℕ) → IfOk result (λ shallow. shallow
        ≡ is_shallow_with dir.now (renamed_object (object_at dir.now.objects target) parent name)) }
{
    if parent_number(dir, target) == parent {
        return Ok(true);
    }
    let numbers = dir.numbers(alloc)?;
    Ok(are_shallow(dir, target, parent, numbers.as_slice()))
}
