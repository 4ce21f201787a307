//! What an entry decides of the rights that are still open, and the sweep over all entries on one path.

ghost use Rattle.std.specs.Prelude.{◌≡◌, ℕ, ◌&&◌, ◌<◌, not};
ghost use Rattle.std.specs.Option.{option_copied};
ghost use Rattle.ad_acl.specs.EntrySeen.{entry_seen};
ghost use Rattle.ad_acl.specs.Mask.{has_bit, mapped_has};
ghost use Rattle.ad_sd.specs.Seen.{seen};
ghost use Rattle.ad_access.specs.Grant.{decides, is_allow, sets_owner_rights, granted_to};
ghost use Rattle.ad_access.specs.Matching.{matches, decides_access, is_inherit_only};
ghost use Rattle.ad_access.specs.Rank.{holder_of};

use crate::holder::Rank;
use crate::matching::{allows, is_about, is_spoken, matches, sets_owner_rights};
use crate::rights::{rights_as_owner, rights_if};
use ad_acl::{AceIn, map_generic};
use ad_ids::{Guid, Sid, Token};
use ad_sd::SdView;

// The undecided rights that the entry has, where it speaks of some path.
#[inline]
fn spoken(ace: &AceIn<'_>, undecided: u32) -> u32
    ensures { (bit : ℕ) → bit < 32 → has_bit result bit
        ≡ (has_bit undecided bit
        && (mapped_has (entry_seen ace.now).mask bit
        && (decides_access (entry_seen ace.now).kind
        && not (is_inherit_only (entry_seen ace.now))))) }
{
    let rights = undecided & map_generic(ace.mask());
    if rights == 0 {
        return 0;
    }
    rights_if(is_spoken(ace), rights)
}

/// The undecided rights that the entry decides for the principal, on the paths that it is about.
#[inline]
pub fn decided_for(
    ace: &AceIn<'_>,
    owner: &Sid,
    self_sid: Option<&Sid>,
    token: &Token,
    rank: Rank,
    undecided: u32,
) -> u32
    ensures { (bit : ℕ) → bit < 32 → has_bit result bit
        ≡ (has_bit undecided bit
        && (((decides_access (entry_seen ace.now).kind
        && not (is_inherit_only (entry_seen ace.now)))
        && matches (entry_seen ace.now) (holder_of token.now rank) (option_copied self_sid.entry)
        owner.now)
        && mapped_has (entry_seen ace.now).mask bit)) }
{
    let rights = spoken(ace, undecided);
    if rights == 0 {
        return 0;
    }
    rights_if(matches(ace, owner, self_sid, token, rank), rights)
}

// The undecided rights that the entry decides for the principal on the path. What it costs to ask comes last.
#[inline]
fn decided_by(
    ace: &AceIn<'_>,
    owner: &Sid,
    self_sid: Option<&Sid>,
    token: &Token,
    rank: Rank,
    path: &[Guid],
    undecided: u32,
) -> u32
    ensures { (bit : ℕ) → bit < 32 → has_bit result bit
        ≡ (has_bit undecided bit
        && decides (entry_seen ace.now) (holder_of token.now rank) (option_copied self_sid.entry)
        owner.now path.now bit) }
{
    let rights = spoken(ace, undecided);
    if rights == 0 {
        return 0;
    }
    let rights = rights_if(is_about(ace.object(), path), rights);
    if rights == 0 {
        return 0;
    }
    rights_if(matches(ace, owner, self_sid, token, rank), rights)
}

// The rights, where the entry allows, else none.
#[inline]
fn allowed_by(ace: &AceIn<'_>, rights: u32) -> u32
    ensures { (bit : ℕ) → has_bit result bit
        ≡ (has_bit rights bit && is_allow (entry_seen ace.now).kind) }
{
    rights_if(allows(ace), rights)
}

/// The rights, unless the entry sets the owner's rights.
#[inline]
pub fn left_by(ace: &AceIn<'_>, rights: u32) -> u32
    ensures { (bit : ℕ) → has_bit result bit
        ≡ (has_bit rights bit && not (sets_owner_rights (entry_seen ace.now))) }
{
    if rights == 0 {
        return 0;
    }
    rights_if(!sets_owner_rights(ace), rights)
}

/// The wanted rights that are granted to the principal on the path.
pub fn granted_to(
    view: &SdView<'_>,
    token: &Token,
    rank: Rank,
    self_sid: Option<&Sid>,
    path: &[Guid],
    want: u32,
) -> u32
    ensures { (bit : ℕ) → bit < 32 → has_bit result bit
        ≡ (has_bit want bit
        && granted_to (seen view.now).owner (seen view.now).dacl.entries (holder_of token.now rank)
        (option_copied self_sid.entry) path.now bit) }
{
    let owner = view.owner();
    let mut undecided = want;
    let mut allowed = 0;
    let mut owned = rights_as_owner(&owner, token, rank, want);
    for ace in view.dacl_in() {
        // What the owner has without the entries is open only where they do not allow it.
        if undecided | owned & !allowed == 0 {
            return allowed;
        }
        owned = left_by(&ace, owned);
        let decided = decided_by(&ace, &owner, self_sid, token, rank, path, undecided);
        let given = allowed_by(&ace, decided);
        undecided &= !decided;
        allowed |= given;
    }
    allowed | owned
}
