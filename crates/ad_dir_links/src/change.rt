//! What the edit of an object changes of what is counted: what is there before and after it in the same order is
//! passed over.

ghost use Rattle.std.specs.Prelude.{◌≡◌, ◌+◌, ◌≤◌, ℕ, Some, [], map, length, drop, IfOk, slice_get};
ghost use Rattle.std.specs.Option.{option_map_or};
ghost use Rattle.ad_dir_objects.specs.Seen.{held_seen};
ghost use Rattle.ad_dir_links.specs.Marks.{all_ties};
ghost use Rattle.ad_dir_links.specs.Changing.{IsBalanced, is_next};

use crate::gather::ties_of;
use ad_dir_objects::Object;
use std::alloc::{AllocError, Global};

/// The targets of links and the marks of values that an object has more than before, and those that it doesn't have
/// any more.
#[derive(Drop)]
pub struct LinkChange {
    pub more: Vec<u32>,
    pub less: Vec<u32>,
}

// Whether a number stands at a place.
fn is_next(numbers: &[u32], place: usize, number: u32) -> bool
    ensures { result ≡ is_next numbers.now place number }
{
    match numbers.get(place) {
        Some(other) => *other == number,
        None => false,
    }
}

// Up to which place the new numbers are old ones, and the old ones that are none of these.
fn matched(alloc: Global, old: &[u32], new: &[u32]) -> Result<(usize, Vec<u32>), AllocError>
    ensures within { IfOk result (λ found. found.0 ≤ length new.now) }
    ensures balanced { IfOk result (λ found. IsBalanced old.now new.now (drop found.0 new.now)
        found.1.items) }
{
    let mut place = 0usize;
    let mut less = Vec::new(alloc);
    'each: for target in old {
        if is_next(new, place, *target) {
            place += 1;
        } else {
            less.push(*target)?;
        }
    }
    Ok((place, less))
}

// How the numbers of one list differ from those of the other.
fn change_of(alloc: Global, old: &[u32], new: &[u32]) -> Result<LinkChange, AllocError>
    ensures { IfOk result (λ change. IsBalanced old.now new.now change.more.items
        change.less.items) }
{
    let (place, less) = matched(alloc, old, new)?;
    Ok(LinkChange {
        more: Vec::from_slice(alloc, &new[place..])?,
        less,
    })
}

// What is counted of an object that is there, or nothing.
fn ties_before(
    alloc: Global,
    indexed: &[bool],
    old: Option<&Object>,
) -> Result<Vec<u32>, AllocError>
    ensures { IfOk result (λ all. all.items
        ≡ option_map_or (λ object. all_ties indexed.now object.now.name
        (map held_seen object.now.values)) old.entry []) }
{
    match old {
        Some(object) => ties_of(alloc, indexed, object),
        None => Ok(Vec::new(alloc)),
    }
}

/// How what is counted of an object differs from that of the one before it, if there is one.
///
/// # Errors
///
/// Out of memory.
pub fn link_change(
    alloc: Global,
    indexed: &[bool],
    old: Option<&Object>,
    new: &Object,
) -> Result<LinkChange, AllocError>
    ensures { IfOk result (λ change.
        IsBalanced (option_map_or (λ object. all_ties indexed.now object.now.name
        (map held_seen object.now.values)) old.entry [])
        (all_ties indexed.now new.now.name (map held_seen new.now.values)) change.more.items
        change.less.items) }
{
    let before = ties_before(alloc, indexed, old)?;
    let after = ties_of(alloc, indexed, new)?;
    change_of(alloc, before.as_slice(), after.as_slice())
}
