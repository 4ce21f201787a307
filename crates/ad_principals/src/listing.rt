//! All principals.

ghost use Rattle.std.specs.Prelude.{◌≡◌, Some, filter, IfOk};
ghost use Rattle.ad_dir_model.specs.Identity.{is_sid};
ghost use Rattle.ad_principals.specs.Groups.{builtin_domain, is_deleted, is_principal, principals};

use crate::values::first_value;
use ad_dir::{Dir, ROOT};
use ad_ids::Sid;
use std::alloc::{AllocError, Global};

// Whether the first value of isDeleted is TRUE.
#[tactic(auto, unfolding(crate::specs::Groups::is_deleted))]
fn is_deleted(dir: &Dir, number: u32) -> bool
    ensures { result ≡ is_deleted dir.now number }
{
    match first_value(dir, number, dir.schema().attr(b"isDeleted")) {
        Some(value) => value.shown() == b"TRUE".as_slice(),
        None => false,
    }
}

// Whether it is the identifier of the container of the groups that every domain has.
fn is_builtin_domain(sid: &Sid) -> bool
    ensures { result ≡ is_sid builtin_domain (Some sid.now) }
{
    sid.is_well_known(5, 32)
}

/// Whether an object is a principal: live with an objectSid, and neither the root nor the object of S-1-5-32 nor
/// deleted.
pub fn is_principal(dir: &Dir, number: u32) -> bool
    ensures { result ≡ is_principal dir.now number }
{
    match dir.self_sid(number) {
        Some(sid) => number != ROOT && !is_builtin_domain(sid) && !is_deleted(dir, number),
        None => false,
    }
}

// Those of these objects that are principals.
fn those_of(alloc: Global, dir: &Dir, numbers: &[u32]) -> Result<Vec<u32>, AllocError>
    ensures { IfOk result (λ those. those.items ≡ filter (is_principal dir.now) numbers.now) }
{
    let mut those = Vec::new(alloc);
    for number in numbers {
        if is_principal(dir, *number) {
            those.push(*number)?;
        }
    }
    Ok(those)
}

/// The numbers of all principals, rising.
///
/// # Errors
///
/// Out of memory.
pub fn principals(alloc: Global, dir: &Dir) -> Result<Vec<u32>, AllocError>
    ensures { IfOk result (λ numbers. numbers.items ≡ principals dir.now) }
{
    let numbers = dir.numbers(alloc)?;
    those_of(alloc, dir, numbers.as_slice())
}
