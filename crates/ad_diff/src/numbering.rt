//! Principals and objects with the numbers of their groups.

ghost use Rattle.std.specs.Prelude.{◌≡◌, ◌<◌, ◌^◌, IfOk};

use ad_both::Both;
use std::alloc::AllocError;

/// What stands in both directories, with the number of its group, which is 0 where nothing differs.
#[derive(Clone, Copy, Debug, PartialEq, Eq)]
pub struct Grouped {
    pub both: Both,
    pub group: u32,
}

/// The number of a place that a table may have.
///
/// # Errors
///
/// There are more than numbers for.
pub(crate) fn number_of(place: usize) -> Result<u32, AllocError>
    ensures { IfOk result (λ number. number ≡ place) }
{
    match u32::try_from(place) {
        Ok(number) => Ok(number),
        Err(_) => Err(AllocError),
    }
}

/// The number of a group is one of 32 bits. It does nothing.
pub(crate) fn group_fits(group: u32)
    ensures { group < 2 ^ 32 }
{}
