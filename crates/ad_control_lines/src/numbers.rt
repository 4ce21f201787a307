//! The numbers of the nodes that are told.

ghost use Rattle.std.specs.Prelude.{◌≡◌, is_some, if◌then◌else◌, IfOk};
ghost use Rattle.ad_chains.specs.Ways.{way_at};
ghost use Rattle.ad_control_lines.specs.Tables.{AreNumbers};

use ad_chains::Way;
use std::alloc::{AllocError, Global};

/// What is told of the node at a place.
pub(crate) fn way_at(ways: &[Option<Way>], x: usize) -> Option<Way>
    ensures { result ≡ way_at ways.now x }
{
    match ways.get(x) {
        Some(way) => *way,
        None => None,
    }
}

// How many nodes are told at a place.
fn told_at(ways: &[Option<Way>], x: usize) -> usize
    ensures { result ≡ (if is_some (way_at ways.now x) then 1 else 0) }
{
    match way_at(ways, x) {
        Some(_) => 1,
        None => 0,
    }
}

/// Of each of so many nodes its number.
///
/// # Errors
///
/// Out of memory.
pub(crate) fn numbers_of(
    alloc: Global,
    count: usize,
    ways: &[Option<Way>],
) -> Result<Vec<usize>, AllocError>
    ensures { IfOk result (λ numbers. AreNumbers ways.now count numbers.items) }
{
    let mut numbers = Vec::with_capacity(alloc, count)?;
    let mut told = 0;
    for x in 0..count {
        numbers.push(told + 1)?;
        told += told_at(ways, x);
    }
    Ok(numbers)
}
