//! Rights that no entry decides: those of privileges and those of an owner.

ghost use Rattle.std.specs.Prelude.{◌≡◌, ℕ, Bool, true, ◌&&◌, ◌||◌, ◌==◌, ◌<◌, if◌then◌else◌};
ghost use Rattle.ad_acl.specs.Mask.{has_bit, mapped_has, write_owner, access_system_security};
ghost use Rattle.ad_access.specs.Privileges.{security, take_ownership};
ghost use Rattle.ad_access.specs.Holder.{holds};
ghost use Rattle.ad_access.specs.Grant.{is_implicit_owner_right};
ghost use Rattle.ad_access.specs.Rank.{holder_of};

use crate::holder::{Rank, holds};
use ad_acl::{ACCESS_SYSTEM_SECURITY, READ_CONTROL, WRITE_DAC, WRITE_OWNER, map_generic};
use ad_ids::{SECURITY, Sid, TAKE_OWNERSHIP, Token};

/// The rights, where this is so, else none.
#[inline]
pub fn rights_if(so: bool, rights: u32) -> u32
    ensures { (bit : ℕ) → has_bit result bit ≡ (has_bit rights bit && so) }
{
    if so { rights } else { 0 }
}

// The wanted rights that a token has by its privileges: to the SACL by [`SECURITY`], and to write
// the owner by [`TAKE_OWNERSHIP`].
fn rights_by_privilege(privileges: u8, want: u32) -> u32
    ensures { (bit : ℕ) → bit < 32 → has_bit result bit
        ≡ (has_bit want bit
        && (((bit == access_system_security) && has_bit privileges security)
        || ((bit == write_owner) && has_bit privileges take_ownership))) }
{
    let system = rights_if(privileges & SECURITY != 0, ACCESS_SYSTEM_SECURITY);
    let owner = rights_if(privileges & TAKE_OWNERSHIP != 0, WRITE_OWNER);
    want & (system | owner)
}

/// A mask of wanted rights, after generic mapping, by who decides of them.
#[derive(Clone, Copy)]
pub struct Asked {
    /// What the token has by its privileges.
    pub by_privilege: u32,
    /// What each of its principals has to be granted.
    pub others: u32,
}

/// Parts the wanted rights: to the SACL only the privilege counts, and to write the owner it is enough.
pub fn split_wanted(privileges: u8, want: u32) -> Asked
    ensures { (bit : ℕ) (holders : Bool) → bit < 32
        → (has_bit result.by_privilege bit || (has_bit result.others bit && holders))
        ≡ (mapped_has want bit
        && (if bit == access_system_security then has_bit privileges security
        else (if (bit == write_owner) && has_bit privileges take_ownership then true else holders))) }
{
    let want = map_generic(want);
    let by_privilege = rights_by_privilege(privileges, want);
    Asked {
        by_privilege,
        others: want & !ACCESS_SYSTEM_SECURITY & !by_privilege,
    }
}

/// The wanted rights that the principal has where it holds the owner, as long as no entry sets the owner's
/// rights.
pub fn rights_as_owner(owner: &Sid, token: &Token, rank: Rank, want: u32) -> u32
    ensures { (bit : ℕ) → bit < 32 → has_bit result bit
        ≡ (has_bit want bit && (is_implicit_owner_right bit && holds (holder_of token.now rank) owner.now)) }
{
    let rights = want & (READ_CONTROL | WRITE_DAC);
    if rights == 0 {
        return 0;
    }
    rights_if(holds(token, rank, owner), rights)
}
