//! The identity that a text names.

ghost use Rattle.std.specs.Prelude.{◌≡◌, None, if◌then◌else◌};
ghost use Rattle.ad_bytes.specs.Reading.{GivesUnless};
ghost use Rattle.ad_dir_model.specs.Identity.{with_sid};
ghost use Rattle.ad_principals.specs.Named.{or_no_object, is_memory, named};
ghost use Rattle.ad_principals.specs.Groups.{is_principal};
ghost use Rattle.ad_identities.specs.Identities.{identity_at};
ghost use Rattle.ad_identities.specs.Named.{object_identity, sid_identity, identity_named};

use crate::alone::is_without_principal;
use crate::identity::Identity;
use crate::listing::identity_at;
use ad_dir::Dir;
use ad_ids::Sid;
use ad_principals::{NameFault, is_principal, principal_named, sid_of_text};
use std::alloc::Global;

// The identity of an object, if it is a principal.
fn of_principal(dir: &Dir, number: u32) -> Option<Identity>
    ensures { result ≡ (if is_principal dir.now number then identity_at dir.now number else None) }
{
    if is_principal(dir, number) {
        return identity_at(dir, number);
    }
    None
}

// That of the object of an identifier.
fn with_sid(dir: &Dir, sid: &Sid) -> Result<Option<Identity>, NameFault>
    ensures { result ≡ object_identity dir.now (or_no_object (with_sid dir.now sid.now)) }
{
    match dir.with_sid(sid) {
        Some(number) => Ok(of_principal(dir, number)),
        None => Err(NameFault::NoObject),
    }
}

// That of an identifier.
fn sid_identity(alloc: Global, dir: &Dir, sid: &Sid) -> Result<Option<Identity>, NameFault>
    ensures { GivesUnless is_memory (λ found. found) result (sid_identity dir.now sid.now) }
{
    if is_without_principal(alloc, dir, sid)? {
        return Ok(Some(Identity {
            sid: *sid,
            number: None,
        }));
    }
    with_sid(dir, sid)
}

// That of the object that a text names.
fn object_identity(alloc: Global, dir: &Dir, text: &[u8]) -> Result<Option<Identity>, NameFault>
    ensures { GivesUnless is_memory (λ found. found) result
        (object_identity dir.now (named dir.now text.now)) }
{
    match principal_named(alloc, dir, text) {
        Ok(number) => Ok(of_principal(dir, number)),
        Err(NameFault::NoObject) => Err(NameFault::NoObject),
        Err(NameFault::Several) => Err(NameFault::Several),
        Err(NameFault::Memory) => Err(NameFault::Memory),
    }
}

/// The identity that a text names: an identifier that counts without a principal by its text, and any other by the text
/// that [names its object](ad_principals::principal_named). None where that object is no principal.
///
/// # Errors
///
/// Those of [`principal_named`](ad_principals::principal_named).
#[tactic(auto, unfolding(crate::specs::Named::identity_named))]
pub fn identity_named(alloc: Global, dir: &Dir, text: &[u8]) -> Result<Option<Identity>, NameFault>
    ensures { GivesUnless is_memory (λ found. found) result (identity_named dir.now text.now) }
{
    match sid_of_text(text) {
        Some(sid) => sid_identity(alloc, dir, &sid),
        None => object_identity(alloc, dir, text),
    }
}
