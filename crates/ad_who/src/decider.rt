//! What decides a right for a token.

ghost use Rattle.std.specs.Prelude.{◌≡◌, ◌<◌, ◌&&◌, [], true};
ghost use Rattle.std.specs.List.{list_any};
ghost use Rattle.std.specs.Option.{option_copied};
ghost use Rattle.ad_acl.specs.EntrySeen.{entry_seen};
ghost use Rattle.ad_acl.specs.Mask.{has_bit, mapped_has};
ghost use Rattle.ad_sd.specs.Seen.{seen};
ghost use Rattle.ad_types.specs.Path.{guids_of};
ghost use Rattle.ad_access.specs.Holder.{first_holder};
ghost use Rattle.ad_access.specs.Matching.{is_inherit_only};
ghost use Rattle.ad_access.specs.Grant.{decides, sets_owner_rights, is_implicit_owner_right, granted_as_owner};
ghost use Rattle.ad_dir_model.specs.Objects.{is_live};
ghost use Rattle.ad_access_dir.specs.Sight.{is_granted};
ghost use Rattle.ad_who.specs.Decider.{by_kind, deciding_from, decider_for, by_security};
ghost use Rattle.ad_who.specs.Decider.{decider, grants, decider_at};

use ad_access::{Rank, is_about, is_inherit_only, is_spoken, matches};
use ad_acl::{AceIn, AceKind, map_generic};
use ad_dir::{Dir, live_sd};
use ad_ids::{Guid, SECURITY, Sid, TAKE_OWNERSHIP, Token};
use ad_sd::SdView;
use ad_types::Path;

/// What decides a right.
#[derive(Clone, Copy, Debug, PartialEq, Eq)]
pub enum Decider {
    /// A privilege, which grants it.
    Privilege,
    /// That the token holds the owner, which grants it.
    Owner,
    /// An entry that allows, by its place from 1.
    Allowed(u64),
    /// An entry that denies, by its place from 1.
    Refused(u64),
    /// Nothing does: the right isn't granted.
    Nothing,
}

impl Decider {
    /// Whether the right is granted by what decides it.
    pub fn grants(self) -> bool
        ensures { result ≡ grants self }
    {
        match self {
            Decider::Privilege | Decider::Owner | Decider::Allowed(_) => true,
            Decider::Refused(_) | Decider::Nothing => false,
        }
    }
}

// ---- one entry

// Whether the mask has the right after generic mapping.
#[tactic(auto, unfolding(ad_acl::specs::Mask::has_bit))]
fn has_right(mask: u32, bit: u32) -> bool
    requires { bit < 32 }
    ensures { result ≡ mapped_has mask bit }
{
    (map_generic(mask) >> bit) % 2 == 1
}

// Whether the entry decides the right for the first principal of the token.
#[tactic(auto, unfolding(ad_access::specs::Matching::speaks))]
fn decides(
    ace: &AceIn<'_>,
    owner: &Sid,
    self_sid: Option<&Sid>,
    token: &Token,
    path: &[Guid],
    bit: u32,
) -> bool
    requires { bit < 32 }
    ensures { result ≡ decides (entry_seen ace.now) (first_holder token.now)
        (option_copied self_sid.entry) owner.now path.now bit }
{
    if !has_right(ace.mask(), bit) {
        return false;
    }
    if !is_spoken(ace) {
        return false;
    }
    if !is_about(ace.object(), path) {
        return false;
    }
    matches(ace, owner, self_sid, token, Rank::First)
}

// An entry of this kind at a place decides.
fn by_kind(kind: AceKind, place: u64) -> Decider
    ensures { result ≡ by_kind kind place }
{
    match kind {
        AceKind::Allow => Decider::Allowed(place),
        AceKind::Deny | AceKind::Audit => Decider::Refused(place),
    }
}

// ---- the list

// The first entry of the DACL that decides the right.
fn deciding(
    view: &SdView<'_>,
    owner: &Sid,
    self_sid: Option<&Sid>,
    token: &Token,
    path: &[Guid],
    bit: u32,
) -> Decider
    requires { bit < 32 }
    ensures { result ≡ deciding_from 1 (seen view.now).dacl.entries (first_holder token.now)
        (option_copied self_sid.entry) owner.now path.now bit }
{
    let _normal = view.as_bytes();
    let mut place: u64 = 0;
    for ace in view.dacl_in() {
        place += 1;
        if decides(&ace, owner, self_sid, token, path, bit) {
            return by_kind(ace.kind(), place);
        }
    }
    Decider::Nothing
}

// ---- the owner

// Whether the entry is for owner rights (S-1-3-4) and speaks of the object itself.
fn sets_owner_rights(ace: &AceIn<'_>) -> bool
    ensures { result ≡ sets_owner_rights (entry_seen ace.now) }
{
    ace.sid().is_well_known(3, 4) && !is_inherit_only(ace)
}

// Whether an entry of the DACL sets the owner's rights.
fn has_owner_rights(view: &SdView<'_>) -> bool
    ensures { result ≡ list_any sets_owner_rights (seen view.now).dacl.entries }
{
    for ace in view.dacl_in() {
        if sets_owner_rights(&ace) {
            return true;
        }
    }
    false
}

// Whether the right is one that owners have.
fn is_implicit_owner_right(bit: u32) -> bool
    ensures { result ≡ is_implicit_owner_right bit }
{
    bit == 17 || bit == 18
}

// Whether the right is granted as to an owner.
#[tactic(auto, unfolding(ad_access::specs::Grant::granted_as_owner))]
fn granted_as_owner(view: &SdView<'_>, owner: &Sid, token: &Token, bit: u32) -> bool
    ensures { result ≡ granted_as_owner owner.now (seen view.now).dacl.entries
        (first_holder token.now) bit }
{
    is_implicit_owner_right(bit) && token.holds(owner) && !has_owner_rights(view)
}

// ---- all

// What decides for the first principal.
#[tactic(auto, unfolding(crate::specs::Decider::decider_for))]
fn decider_for(
    view: &SdView<'_>,
    self_sid: Option<&Sid>,
    token: &Token,
    path: &[Guid],
    bit: u32,
) -> Decider
    requires { bit < 32 }
    ensures { result ≡ decider_for (seen view.now).owner (seen view.now).dacl.entries
        (first_holder token.now) (option_copied self_sid.entry) path.now bit }
{
    let owner = view.owner();
    if granted_as_owner(view, &owner, token, bit) {
        return Decider::Owner;
    }
    deciding(view, &owner, self_sid, token, path, bit)
}

// Whether the token has the privilege to take ownership.
fn may_take(token: &Token) -> bool
    ensures { result ≡ has_bit token.now.privileges 1 }
{
    token.privileges & TAKE_OWNERSHIP != 0
}

// Whether the token has the privilege of security.
fn may_audit(token: &Token) -> bool
    ensures { result ≡ has_bit token.now.privileges 0 }
{
    token.privileges & SECURITY != 0
}

// The right to the SACL is that privilege alone.
fn by_security(token: &Token) -> Decider
    ensures { result ≡ by_security token.now }
{
    if may_audit(token) {
        return Decider::Privilege;
    }
    Decider::Nothing
}

// What decides, by a view of the descriptor.
#[tactic(auto, unfolding(crate::specs::Decider::decider))]
fn decider_in(
    view: &SdView<'_>,
    self_sid: Option<&Sid>,
    token: &Token,
    path: &[Guid],
    bit: u32,
) -> Decider
    requires { bit < 28 }
    ensures { result ≡ decider (seen view.now).owner (seen view.now).dacl.entries token.now
        (option_copied self_sid.entry) path.now bit }
{
    if bit == 24 {
        return by_security(token);
    }
    if bit == 19 && may_take(token) {
        return Decider::Privilege;
    }
    decider_for(view, self_sid, token, path, bit)
}

// What decides on a live object.
#[tactic(auto, unfolding(crate::specs::Decider::decider_at))]
fn decider_at(dir: &Dir, token: &Token, number: u32, path: &Path, bit: u32) -> Decider
    requires live { is_live dir.now.objects number ≡ true }
    requires bit { bit < 28 }
    ensures { result ≡ decider_at dir.now token.now number (guids_of path.now) bit }
{
    decider_in(
        &live_sd(dir, number),
        dir.self_sid(number),
        token,
        path.guids(),
        bit,
    )
}

/// What decides a right, by its place in a mask, for a token without restricting identifiers, on a live object and a
/// path: the privilege to take ownership, that the token holds the object's owner, or the first entry of the DACL
/// that decides ([MS-DTYP] 2.5.3.2). It grants exactly where the access check does. The right is no generic
/// one. It takes no memory.
pub fn decider_on(dir: &Dir, token: &Token, number: u32, path: &Path, bit: u32) -> Decider
    requires live { is_live dir.now.objects number ≡ true }
    requires bit { bit < 28 }
    ensures decider { result ≡ decider_at dir.now token.now number (guids_of path.now) bit }
    ensures granted { token.now.restricting ≡ [] → grants result ≡ is_granted dir.now token.now
        number (guids_of path.now) bit }
{
    decider_at(dir, token, number, path, bit)
}
