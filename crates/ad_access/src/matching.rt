//! Which entries speak of a principal and of a path, judged in their bytes.

ghost use Rattle.std.specs.Prelude.{◌≡◌, ℕ, true, ◌<◌, ◌^◌, [], ◌∷◌, ◌&&◌, not};
ghost use Rattle.ad_ids.specs.SidValue.{same_sid};
ghost use Rattle.std.specs.Option.{option_copied};
ghost use Rattle.ad_acl.specs.EntrySeen.{entry_seen};
ghost use Rattle.ad_access.specs.Matching.{matches, answers_to_self, is_about, decides_access, is_inherit_only};
ghost use Rattle.ad_access.specs.Holder.{answers_to};
ghost use Rattle.ad_access.specs.Grant.{is_allow, sets_owner_rights};
ghost use Rattle.ad_access.specs.Rank.{holder_of};

use crate::holder::{Rank, answers_to, answers_to_begun};
use crate::well_known::{CREATOR_AUTHORITY, NT_AUTHORITY, OWNER_RIGHTS, PRINCIPAL_SELF};
use ad_acl::{AceIn, AceKind, INHERIT_ONLY};
use ad_ids::{Guid, Sid, Token};

/// Whether the entry says nothing of the object itself.
#[inline]
pub fn is_inherit_only(ace: &AceIn<'_>) -> bool
    ensures { result ≡ is_inherit_only (entry_seen ace.now) }
{
    ace.flags() & INHERIT_ONLY != 0
}

/// Whether the entry allows or denies something of the object itself.
#[inline]
pub fn is_spoken(ace: &AceIn<'_>) -> bool
    ensures { result ≡ (decides_access (entry_seen ace.now).kind
        && not (is_inherit_only (entry_seen ace.now))) }
{
    ace.kind() != AceKind::Audit && !is_inherit_only(ace)
}

/// Whether the entry allows.
#[inline]
pub fn allows(ace: &AceIn<'_>) -> bool
    ensures { result ≡ is_allow (entry_seen ace.now).kind }
{
    ace.kind() == AceKind::Allow
}

/// Whether an entry with this object type is about the path.
#[inline]
pub fn is_about(object: Option<Guid>, path: &[Guid]) -> bool
    ensures { result ≡ is_about object path.now }
{
    match object {
        Some(object) => path.contains(&object),
        None => true,
    }
}

/// Whether the entry is for owner rights (S-1-3-4) and speaks of the object itself.
pub fn sets_owner_rights(ace: &AceIn<'_>) -> bool
    ensures { result ≡ sets_owner_rights (entry_seen ace.now) }
{
    !is_inherit_only(ace) && is_for(ace, CREATOR_AUTHORITY, OWNER_RIGHTS)
}

// Whether the entry is for the identifier that has the one sub-authority below the authority.
#[inline]
fn is_for(ace: &AceIn<'_>, authority: u64, sub_authority: u32) -> bool
    requires { authority < 2 ^ 48 }
    ensures { result ≡ same_sid (entry_seen ace.now).sid
        (record { authority = authority; sub_authorities = sub_authority ∷ [] }) }
{
    Sid::well_known_begins(authority, sub_authority, ace.from_sid())
}

// Whether the entry may be for an identifier of one sub-authority. Where it may not, it is for none.
#[inline]
fn may_be_for_known(ace: &AceIn<'_>) -> bool
    ensures { (authority sub_authority : ℕ) → same_sid (entry_seen ace.now).sid
        (record { authority = authority; sub_authorities = sub_authority ∷ [] }) ≡ true → result
        ≡ true }
{
    Sid::may_be_well_known(ace.from_sid())
}

// Whether the principal answers to the identifier that the entry is for.
#[inline]
fn answers_to_entry(ace: &AceIn<'_>, token: &Token, rank: Rank) -> bool
    ensures { result ≡ answers_to (entry_seen ace.now).kind (holder_of token.now rank)
        (entry_seen ace.now).sid }
{
    answers_to_begun(ace.kind(), token, rank, ace.from_sid())
}

// Whether the object has an identifier and the principal answers to it.
fn answers_to_self(kind: AceKind, token: &Token, rank: Rank, self_sid: Option<&Sid>) -> bool
    ensures { result ≡ answers_to_self kind (holder_of token.now rank)
        (option_copied self_sid.entry) }
{
    match self_sid {
        Some(sid) => answers_to(kind, token, rank, sid),
        None => false,
    }
}

/// Whether the entry matches the principal: by the object's own identifier, if it has one, where the entry is for
/// the object itself (S-1-5-10), by the owner where it is for owner rights (S-1-3-4), else by the entry's
/// identifier.
#[tactic(auto, unfolding(crate::specs::Matching::matches))]
pub fn matches(
    ace: &AceIn<'_>,
    owner: &Sid,
    self_sid: Option<&Sid>,
    token: &Token,
    rank: Rank,
) -> bool
    ensures { result ≡ matches (entry_seen ace.now) (holder_of token.now rank)
        (option_copied self_sid.entry) owner.now }
{
    // Most entries are for longer identifiers.
    if !may_be_for_known(ace) {
        return answers_to_entry(ace, token, rank);
    }
    if is_for(ace, NT_AUTHORITY, PRINCIPAL_SELF) {
        return answers_to_self(ace.kind(), token, rank, self_sid);
    }
    if is_for(ace, CREATOR_AUTHORITY, OWNER_RIGHTS) {
        return answers_to(ace.kind(), token, rank, owner);
    }
    answers_to_entry(ace, token, rank)
}
