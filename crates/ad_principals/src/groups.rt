//! The groups of a token, as they stand in it.

ghost use Rattle.std.specs.Prelude.{◌≡◌, not, filter, length, IfOk};
ghost use Rattle.std.specs.List.{AllByRecursion, IsDistinct};
ghost use Rattle.std.specs.Ordering.{nat_cmp};
ghost use Rattle.std.specs.Cmp.Lexicographic.{slice_cmp};
ghost use Rattle.ad_ids.specs.Sid.{IsSid, sid_bytes};
ghost use Rattle.ad_ids.specs.SidValue.{SidValue, same_sid, contains_sid};
ghost use Rattle.ad_principals.specs.Tokens.{SidsRise};

use ad_ids::{MAX_SID_BYTES, Sid};
use std::alloc::{AllocError, Global};
use std::cmp::Ordering;

/// The identifiers but for the user's.
pub(crate) fn others(alloc: Global, sids: &[Sid], user: &Sid) -> Result<Vec<Sid>, AllocError>
    ensures are { IfOk result (λ others. others.items ≡ filter (λ sid. not (same_sid sid user.now))
        sids.now) }
    ensures ranges { IfOk result (λ others. AllByRecursion IsSid others.items) }
{
    let mut others = Vec::new(alloc);
    for sid in sids {
        if *sid != *user {
            sid.has_its_ranges();
            others.push(*sid)?;
        }
    }
    Ok(others)
}

// The order of two identifiers by their bytes.
fn order(a: &Sid, b: &Sid) -> Ordering
    ensures { result ≡ slice_cmp nat_cmp (sid_bytes a.now) (sid_bytes b.now) }
{
    let mut first = [0; MAX_SID_BYTES];
    let end = a.write(&mut first);
    let mut second = [0; MAX_SID_BYTES];
    let other_end = b.write(&mut second);
    first[..end].cmp(&second[..other_end])
}

/// The identifiers in rising order of their bytes.
pub fn in_order(mut sids: Vec<Sid>) -> Vec<Sid>
    requires { AllByRecursion IsSid sids.items }
    ensures rise { IsDistinct same_sid sids.items → SidsRise result.items }
    ensures same { (sid : SidValue) → contains_sid result.items sid ≡ contains_sid sids.items sid }
    ensures len { length result.items ≡ length sids.items }
{
    sids.sort_unstable_by(|a, b| order(a, b));
    sids
}
