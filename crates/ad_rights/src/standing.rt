//! What is decided of each token so far: that it is granted the right or not, or nothing yet.

ghost use Rattle.std.specs.Prelude.{◌≡◌, ◌==◌, ◌<◌, ℕ, length, unwrap_or, map, false, IfOk};
ghost use Rattle.ad_rights.specs.Holding.{has};
ghost use Rattle.ad_rights.specs.Standing.{stand_at, decided, by_privilege};

use std::alloc::{AllocError, Global};

// Decides for the token at a place, where it is open.
#[tactic(auto, using(crate::proofs::Deciding::not_there, crate::proofs::Deciding::not_open, crate::proofs::Deciding::is_set))]
fn decide_one(stands: &mut [Option<bool>], place: usize, allow: bool)
    ensures len { length stands.new ≡ length stands.old }
    ensures each { (q : ℕ) → q < length stands.old → stand_at stands.new q
        ≡ decided (place == q) allow (stand_at stands.old q) }
{
    if place >= stands.len() {
        return;
    }
    if stands[place].is_some() {
        return;
    }
    stands[place] = Some(allow);
}

/// Decides for the tokens at these places that are open.
pub(crate) fn decide(stands: &mut [Option<bool>], places: &[usize], allow: bool)
    ensures len { length stands.new ≡ length stands.old }
    ensures each { (q : ℕ) → q < length stands.old → stand_at stands.new q
        ≡ decided (has places.now q) allow (stand_at stands.old q) }
{
    for place in places {
        decide_one(stands, *place, allow);
    }
}

/// Of each token: granted where it has the privilege and this counts, else open.
pub(crate) fn by_privilege(
    alloc: Global,
    takers: &[bool],
    counts: bool,
) -> Result<Vec<Option<bool>>, AllocError>
    ensures { IfOk result (λ stands. stands.items ≡ map (by_privilege counts) takers.now) }
{
    let mut stands = Vec::with_capacity(alloc, takers.len())?;
    for takes in takers {
        stands.push(if *takes && counts { Some(true) } else { None })?;
    }
    Ok(stands)
}

/// Of each token whether it is granted the right, where none is that is still open.
pub(crate) fn granted_of(alloc: Global, stands: &[Option<bool>]) -> Result<Vec<bool>, AllocError>
    ensures { IfOk result (λ set. set.items ≡ map (λ stand. unwrap_or stand false) stands.now) }
{
    let mut set = Vec::with_capacity(alloc, stands.len())?;
    for stand in stands {
        set.push(stand.unwrap_or(false))?;
    }
    Ok(set)
}
