//! The first groups of a principal.

ghost use Rattle.std.specs.Prelude.{◌≡◌, ◌∷◌, Some, IfOk};
ghost use Rattle.ad_dir_model.specs.Protection.{is_of_domain};
ghost use Rattle.ad_principals.specs.Groups.{is_unauthenticated, first_with};

use crate::primary::domain_child;
use ad_dir::Dir;
use ad_ids::Sid;
use std::alloc::{AllocError, Global};

// Whether the identifier is the domain's with this number.
fn is_of_domain(dir: &Dir, sid: &Sid, rid: u32) -> bool
    ensures { result ≡ is_of_domain dir.now (Some sid.now) rid }
{
    match domain_child(dir, rid) {
        Some(own) => *sid == own,
        None => false,
    }
}

/// Whether who has the identifier isn't in Authenticated Users: the domain's Guest, and the objects of S-1-5-7 and
/// S-1-1-0.
#[tactic(auto, unfolding(crate::specs::Groups::is_unauthenticated))]
pub(crate) fn is_unauthenticated(dir: &Dir, sid: &Sid) -> bool
    ensures { result ≡ is_unauthenticated dir.now (Some sid.now) }
{
    is_of_domain(dir, sid, 501) || sid.is_well_known(5, 7) || sid.is_well_known(1, 0)
}

/// Everyone, Authenticated Users unless it is left out, the primary group, and the identifiers that were given.
///
/// # Errors
///
/// Out of memory.
pub(crate) fn first_with(
    alloc: Global,
    unauthenticated: bool,
    primary: &Sid,
    extra: &[Sid],
) -> Result<Vec<Sid>, AllocError>
    ensures { IfOk result (λ first. first.items
        ≡ first_with unauthenticated (primary.now ∷ extra.now)) }
{
    let mut first = Vec::new(alloc);
    first.push(Sid::well_known(1, 0))?;
    if !unauthenticated {
        first.push(Sid::well_known(5, 11))?;
    }
    first.push(*primary)?;
    first.extend_from_slice(extra)?;
    Ok(first)
}
