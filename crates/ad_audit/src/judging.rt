//! Whether an access is audited: the first entry of the SACL that asks for its event.

ghost use Rattle.std.specs.Prelude.{◌≡◌, true, IfNone};
ghost use Rattle.std.specs.Option.{option_copied};
ghost use Rattle.ad_acl.specs.EntrySeen.{entry_seen};
ghost use Rattle.ad_sd.specs.Seen.{seen};
ghost use Rattle.ad_audit.specs.Audited.{has_right, is_audit, wants, asks, audited};

use ad_access::{Rank, is_about, is_inherit_only, matches};
use ad_acl::{AceIn, AceKind, FAILED_ACCESS, SUCCESSFUL_ACCESS, map_generic};
use ad_ids::{Guid, Sid, Token};
use ad_sd::SdView;

// Whether the entry asks for events of accesses that are granted, or of those that are refused.
#[inline]
fn wants(ace: &AceIn<'_>, success: bool) -> bool
    ensures { result ≡ wants (entry_seen ace.now) success }
{
    if success {
        return ace.flags() & SUCCESSFUL_ACCESS != 0;
    }
    ace.flags() & FAILED_ACCESS != 0
}

// Whether the mask, after generic mapping, has one of the rights.
#[inline]
fn has_right(mask: u32, right: u32) -> bool
    ensures { result ≡ has_right mask right }
{
    map_generic(mask) & right != 0
}

// Whether the entry is an audit entry of the object itself.
#[inline]
fn is_audit(ace: &AceIn<'_>) -> bool
    ensures { result ≡ is_audit (entry_seen ace.now) }
{
    ace.kind() == AceKind::Audit && !is_inherit_only(ace)
}

// Whether the entry asks for the event. What it costs to ask comes last.
#[inline]
#[tactic(auto, unfolding(crate::specs::Audited::asks))]
fn asks(
    ace: &AceIn<'_>,
    owner: &Sid,
    self_sid: Option<&Sid>,
    token: &Token,
    path: &[Guid],
    right: u32,
    success: bool,
) -> bool
    ensures { result ≡ asks (entry_seen ace.now) owner.now token.now (option_copied self_sid.entry)
        path.now right success }
{
    if !is_audit(ace) {
        return false;
    }
    if !wants(ace, success) {
        return false;
    }
    if !has_right(ace.mask(), right) {
        return false;
    }
    if !is_about(ace.object(), path) {
        return false;
    }
    matches(ace, owner, self_sid, token, Rank::First)
}

/// The place, from 0, of the first entry of the SACL that asks for the event of an access: of a right, as a mask,
/// that was tried on a path of GUIDs, and was granted or not. None exactly where no entry does. An entry does that
/// is an audit entry and not there only to be inherited; that has the flag of granted accesses, or that of refused
/// ones; whose mask, after generic mapping, has the right; whose object type is absent or stands on the path; and
/// which is for somebody by whom the first principal of the token denies ([MS-DTYP] 2.5.3.2). `self_sid` is the
/// identifier that the object has of its own, if it has one.
///
/// It takes no memory. A place that a `u32` doesn't hold is told as the greatest one.
pub fn audited(
    view: SdView<'_>,
    token: &Token,
    self_sid: Option<&Sid>,
    path: &[Guid],
    right: u32,
    success: bool,
) -> Option<u32>
    ensures { result ≡ audited (seen view.entry) token.now (option_copied self_sid.entry) path.now
        right success }
{
    let owner = view.owner();
    let mut place: u32 = 0;
    for ace in view.sacl_in() {
        if asks(&ace, &owner, self_sid, token, path, right, success) {
            return Some(place);
        }
        place = place.saturating_add(1);
    }
    None
}
