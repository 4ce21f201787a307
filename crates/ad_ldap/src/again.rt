//! Where the identifier of a control stands again.
//!
//! A few controls are compared with one another. Of many the digests are kept: two numbers of 64 bits by SipHash,
//! of which nobody makes two equal ones of different identifiers without some 2^64 attempts. Where a digest stands
//! already, the controls before it are gone over.

ghost use Rattle.std.specs.Prelude.{◌≡◌, true, false, IfOk};
ghost use Rattle.ad_ldap.specs.Again.{stands, IsFirstAgain, digest};

use crate::controls::Control;
use crate::judging::has;
use ad_bytes::Bytes;
use std::alloc::{AllocError, Global};
use std::collections::BTreeSet;
use std::hash::{DefaultHasher, Hasher};

/// So many are compared with one another.
const FEW: usize = 16;

fn digest(oid: &[u8]) -> u128
    ensures { result ≡ digest oid.now }
{
    let mut hasher = DefaultHasher::new();
    hasher.write(oid);
    let high = hasher.finish();
    hasher.write_u8(1);
    u128::from(high) * 18_446_744_073_709_551_616 + u128::from(hasher.finish())
}

fn among_few(controls: &[Control]) -> Option<usize>
    ensures { IsFirstAgain result controls.now }
{
    'each: for i in 0..controls.len() {
        if has(&controls[..i], &controls[i].oid) {
            return Some(i);
        }
    }
    None
}

// Whether one of the earlier controls has the identifier: none has where its digest is new.
fn stands(is_new: bool, earlier: &[Control], oid: &Bytes) -> bool
    ensures { (is_new ≡ true → stands earlier.now oid.now ≡ false) → result
        ≡ stands earlier.now oid.now }
{
    if is_new {
        return false;
    }
    has(earlier, oid)
}

fn among_many(alloc: Global, controls: &[Control]) -> Result<Option<usize>, AllocError>
    ensures { IfOk result (λ again. IsFirstAgain again controls.now) }
{
    let mut seen = BTreeSet::new(alloc);
    'each: for i in 0..controls.len() {
        let control = &controls[i];
        let is_new = seen.insert(digest(control.oid.as_slice()))?;
        if stands(is_new, &controls[..i], &control.oid) {
            return Ok(Some(i));
        }
    }
    Ok(None)
}

/// The place of the first control whose identifier is that of one before it. The error is that memory ran out.
pub(crate) fn first_again(alloc: Global, controls: &[Control]) -> Result<Option<usize>, AllocError>
    ensures { IfOk result (λ again. IsFirstAgain again controls.now) }
{
    if controls.len() <= FEW {
        return Ok(among_few(controls));
    }
    among_many(alloc, controls)
}
