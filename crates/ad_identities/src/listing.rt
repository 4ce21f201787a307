//! All identities.

ghost use Rattle.std.specs.Prelude.{◌≡◌, ◌++◌, ◌∷◌, [], map, filter_map, All, IfOk, OnOk};
ghost use Rattle.ad_identities.specs.Identities.{identity_at, lone, IsIdentity, AreIdentities};

use crate::alone::without_principal;
use crate::identity::Identity;
use ad_dir::Dir;
use ad_ids::Sid;
use ad_principals::principals;
use std::alloc::{AllocError, Global};

/// The identity of an object, if it has an identifier.
pub(crate) fn identity_at(dir: &Dir, number: u32) -> Option<Identity>
    ensures { result ≡ identity_at dir.now number }
{
    match dir.self_sid(number) {
        Some(sid) => Some(Identity {
            sid: *sid,
            number: Some(number),
        }),
        None => None,
    }
}

// Puts that of an object, if it has one.
fn put_at(into: &mut Vec<Identity>, dir: &Dir, number: u32) -> Result<(), AllocError>
    ensures { OnOk result (into.new.items
        ≡ into.old.items ++ filter_map (identity_at dir.now) (number ∷ [])) }
{
    match identity_at(dir, number) {
        Some(identity) => {
            into.push(identity)?;
            Ok(())
        }
        None => Ok(()),
    }
}

// Puts those of objects that have one.
fn put_of(into: &mut Vec<Identity>, dir: &Dir, numbers: &[u32]) -> Result<(), AllocError>
    ensures { OnOk result (into.new.items
        ≡ into.old.items ++ filter_map (identity_at dir.now) numbers.now) }
{
    for number in numbers {
        put_at(into, dir, *number)?;
    }
    Ok(())
}

// Puts those of identifiers without a principal.
fn put_lone(into: &mut Vec<Identity>, sids: &[Sid]) -> Result<(), AllocError>
    ensures { OnOk result (into.new.items ≡ into.old.items ++ map lone sids.now) }
{
    for sid in sids {
        into.push(Identity {
            sid: *sid,
            number: None,
        })?;
    }
    Ok(())
}

/// All identities: first the principals by rising number, then the identifiers without one in rising order of their
/// bytes.
///
/// The time is about linear in the objects with the entries of their descriptors.
///
/// # Errors
///
/// Out of memory.
pub fn identities(alloc: Global, dir: &Dir) -> Result<Vec<Identity>, AllocError>
    ensures are { IfOk result (λ found. AreIdentities dir.now found.items) }
    // Each is one of which a token can be asked for.
    ensures each { IfOk result (λ found. All (IsIdentity dir.now) found.items) }
{
    let numbers = principals(alloc, dir)?;
    let sids = without_principal(alloc, dir)?;
    let mut all = Vec::new(alloc);
    put_of(&mut all, dir, numbers.as_slice())?;
    put_lone(&mut all, sids.as_slice())?;
    Ok(all)
}
