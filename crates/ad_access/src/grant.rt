//! The rights that a descriptor grants on one path, by one sweep for each pass.

ghost use Rattle.std.specs.Prelude.{◌≡◌, ℕ, ◌&&◌, ◌<◌};
ghost use Rattle.std.specs.Option.{option_copied};
ghost use Rattle.ad_acl.specs.Mask.{has_bit, mapped_has};
ghost use Rattle.ad_sd.specs.Seen.{seen};
ghost use Rattle.ad_types.specs.Path.{guids_of};
ghost use Rattle.ad_access.specs.Grant.{granted, granted_to_holders};

use crate::holder::Rank;
use crate::rights::split_wanted;
use crate::sweep::granted_to;
use ad_ids::{Guid, Sid, Token};
use ad_sd::SdView;
use ad_types::Path;

// The wanted rights that are granted to each principal of the token.
fn granted_to_holders(
    view: &SdView<'_>,
    token: &Token,
    self_sid: Option<&Sid>,
    path: &[Guid],
    want: u32,
) -> u32
    ensures { (bit : ℕ) → bit < 32 → has_bit result bit
        ≡ (has_bit want bit
        && granted_to_holders (seen view.now).owner (seen view.now).dacl.entries token.now
        (option_copied self_sid.entry) path.now bit) }
{
    let first = granted_to(view, token, Rank::First, self_sid, path, want);
    if token.restricting.is_empty() {
        return first;
    }
    granted_to(view, token, Rank::Second, self_sid, path, first)
}

/// What [`granted`] answers, of a view after a reference and a path given by its GUIDs.
pub fn granted_on(
    view: &SdView<'_>,
    token: &Token,
    self_sid: Option<&Sid>,
    path: &[Guid],
    want: u32,
) -> u32
    ensures { (bit : ℕ) → bit < 32 → has_bit result bit
        ≡ (mapped_has want bit
        && granted (seen view.now).owner (seen view.now).dacl.entries token.now
        (option_copied self_sid.entry) path.now bit) }
{
    let asked = split_wanted(token.privileges, want);
    asked.by_privilege | granted_to_holders(view, token, self_sid, path, asked.others)
}

/// The rights of the wanted mask, after generic mapping, that the descriptor grants to the token on the path
/// ([MS-DTYP]
/// 2.5.3.2, [MS-ADTS] 5.1.3.3). `self_sid` is the identifier that the object has of its own, if it has one: entries
///   for
/// S-1-5-10 are for whoever that is.
///
/// It takes no memory. Each entry is looked at at most once for each principal of the token.
pub fn granted(
    view: SdView<'_>,
    token: &Token,
    self_sid: Option<&Sid>,
    path: &Path,
    want: u32,
) -> u32
    ensures { (bit : ℕ) → bit < 32 → has_bit result bit
        ≡ (mapped_has want bit
        && granted (seen view.entry).owner (seen view.entry).dacl.entries token.now
        (option_copied self_sid.entry) (guids_of path.now) bit) }
{
    granted_on(&view, token, self_sid, path.guids(), want)
}
