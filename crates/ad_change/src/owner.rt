//! The owner that a written descriptor names.

ghost use Rattle.std.specs.Prelude.{◌≡◌};
ghost use Rattle.ad_acl.specs.Mask.{has_bit};
ghost use Rattle.ad_needs_rules.specs.Privileges.{restore};
ghost use Rattle.ad_needs_rules.specs.Descriptors.{may_give, is_owner_allowed};

use ad_ids::{RESTORE, Sid, Token};
use ad_sd::SdParts;

fn may_restore(privileges: u8) -> bool
    ensures { result ≡ has_bit privileges restore }
{
    privileges & RESTORE != 0
}

// Whether a token may give the owner: its user, an enabled group, or anyone with the privilege to restore.
fn may_give(token: &Token, sid: &Sid) -> bool
    ensures { result ≡ may_give token.now sid.now }
{
    token.holds(sid) || may_restore(token.privileges)
}

/// Whether the owner that the parts name, if they name one, may be given by a token.
pub(crate) fn is_owner_allowed(token: &Token, sd: &Option<SdParts>) -> bool
    ensures { result ≡ is_owner_allowed token.now sd.now }
{
    match sd {
        Some(parts) => match &parts.owner {
            Some(owner) => may_give(token, owner),
            None => true,
        },
        None => true,
    }
}
