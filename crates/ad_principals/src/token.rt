//! The token of a principal.

ghost use Rattle.std.specs.Prelude.{◌≡◌, ◌≢◌, Some, if◌then◌else◌, IfOk, IfErr};
ghost use Rattle.ad_ids.specs.SidValue.{contains_sid};
ghost use Rattle.ad_ids.specs.WellKnown.{administrators};
ghost use Rattle.ad_principals.specs.Tokens.{IsTokenFrom, IsFaultFrom, IsTokenOf, IsTokenFault};
ghost use Rattle.ad_principals.specs.Tokens.{privileges_of_administrators};
ghost use Rattle.ad_principals.specs.declared.fault.TokenFault.TheVariants as token_fault;
ghost use Rattle.ad_principals.specs.Membership.{AreMembersOf};

use crate::fault::TokenFault;
use crate::first::{first_with, is_unauthenticated};
use crate::groups::{in_order, others};
use crate::members::Members;
use crate::primary::primary_of;
use crate::reaching::reached;
use ad_dir::Dir;
use ad_ids::{SECURITY, Sid, Sids, TAKE_OWNERSHIP, Token};
use indexmap::IndexSet;
use std::alloc::Global;

// The privileges of who has these groups.
fn privileges(set: &IndexSet<Sid>) -> u8
    ensures { result ≡ (if contains_sid set.now.keys administrators
        then privileges_of_administrators else 0) }
{
    if set.contains(&Sid::administrators()) {
        SECURITY + TAKE_OWNERSHIP
    } else {
        0
    }
}

// The version of a token that may have marks and restricting identifiers.
const VERSION: u8 = 2;

/// The most groups of a token.
pub(crate) const MAX_GROUPS: usize = 1024;

impl Members {
    /// The token of a user with this identifier, this primary group and these first groups, where these are the
    /// directory's members.
    ///
    /// The time is about linear in the groups with their memberships: no other object is looked at.
    ///
    /// # Errors
    ///
    /// `TooMany` above 1,024 groups. `Memory` where memory ran out.
    pub fn token_from(
        &self,
        alloc: Global,
        dir: &Dir,
        user: &Sid,
        primary: &Sid,
        first: &[Sid],
    ) -> Result<Token, TokenFault>
        requires { AreMembersOf dir.now self.now }
        ensures token { IfOk result (IsTokenFrom dir.now (Some user.now) primary.now first.now) }
        ensures fault { IfErr result (IsFaultFrom dir.now (Some user.now) first.now) }
        ensures some { IfErr result (λ fault. fault ≢ token_fault.NoSid) }
    {
        let set = reached(alloc, dir, self, user, first)?;
        let groups = in_order(others(alloc, set.as_slice(), user)?);
        if groups.len() > MAX_GROUPS {
            return Err(TokenFault::TooMany);
        }
        Ok(Token {
            version: VERSION,
            privileges: privileges(&set),
            user: *user,
            owner: *user,
            primary: *primary,
            groups: Sids::from_vec(groups),
            deny_only: Sids::new(alloc),
            restricting: Sids::new(alloc),
        })
    }

    /// The token that a directory gives an object, with these identifiers besides, where these are the directory's
    /// members.
    ///
    /// Version 2. The user and the owner are the object's first objectSid, and the primary group is the domain's
    /// identifier with its primaryGroupID, or else S-1-5-32-545. The groups are the least set that has Everyone,
    /// Authenticated Users (but for the domain's Guest, S-1-5-7 and S-1-1-0), the primary group and the given
    /// identifiers, and with the user and each of the set the groups that count for access and name it as a member,
    /// and its sIDHistory; without the user, in rising order of their bytes. With Administrators (S-1-5-32-544) the
    /// privileges are to read and write the SACL and to take ownership.
    ///
    /// The time is about linear in the groups with their memberships: no other object is looked at.
    ///
    /// # Errors
    ///
    /// `NoSid` where the object isn't live or has no objectSid, `TooMany` above 1,024 groups. `Memory` where memory
    /// ran out.
    pub fn token(
        &self,
        alloc: Global,
        dir: &Dir,
        number: u32,
        extra: &[Sid],
    ) -> Result<Token, TokenFault>
        requires { AreMembersOf dir.now self.now }
        ensures token { IfOk result (IsTokenOf dir.now number extra.now) }
        ensures fault { IfErr result (IsTokenFault dir.now number extra.now) }
    {
        let user = match dir.self_sid(number) {
            Some(user) => user,
            None => return Err(TokenFault::NoSid),
        };
        let primary = primary_of(dir, number);
        let first = first_with(alloc, is_unauthenticated(dir, user), &primary, extra)?;
        self.token_from(alloc, dir, user, &primary, first.as_slice())
    }
}

/// The token that a directory gives an object, as [`Members::token`] says, where it is the only one that is asked
/// for: the members of all groups are looked at once.
///
/// # Errors
///
/// Those of [`Members::token`].
pub fn token_of(alloc: Global, dir: &Dir, number: u32, extra: &[Sid]) -> Result<Token, TokenFault>
    ensures token { IfOk result (IsTokenOf dir.now number extra.now) }
    ensures fault { IfErr result (IsTokenFault dir.now number extra.now) }
{
    let members = Members::of(alloc, dir)?;
    members.token(alloc, dir, number, extra)
}
