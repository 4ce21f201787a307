//! The access token of a caller as a value, and the bits of its privileges.

ghost use Rattle.std.specs.Prelude.{◌≡◌};
ghost use Rattle.ad_ids.specs.Token.{holds};

use crate::sid::Sid;
use crate::sids::Sids;

/// The privilege to read and write the system access control list, in [`Token::privileges`].
pub const SECURITY: u8 = 1;
/// The privilege to take ownership of an object, in [`Token::privileges`].
pub const TAKE_OWNERSHIP: u8 = 2;
/// The privilege to give an object any owner, in [`Token::privileges`].
pub const RESTORE: u8 = 4;

/// An access token ([MS-DTYP] 2.5.2): whom an access check is made for.
#[derive(Debug, PartialEq, Eq, Drop)]
pub struct Token {
    /// The version of the bytes that it was read from, 1 or 2. Version 1 has neither deny-only groups nor
    /// restricting identifiers.
    pub version: u8,
    /// The sum of the privileges held, of [`SECURITY`], [`TAKE_OWNERSHIP`] and [`RESTORE`].
    pub privileges: u8,
    /// The user.
    pub user: Sid,
    /// The owner that a new object gets: the user or an enabled group.
    pub owner: Sid,
    /// The primary group that a new object gets.
    pub primary: Sid,
    /// The enabled groups, which allow and deny.
    pub groups: Sids,
    /// The groups that only deny.
    pub deny_only: Sids,
    /// The restricting identifiers. Where there are any, a right has to be granted to them too.
    pub restricting: Sids,
}

impl Token {
    /// Whether the identifier is the user or an enabled group: those that the token holds.
    pub fn holds(&self, sid: &Sid) -> bool
        ensures { result ≡ holds self.now sid.now }
    {
        self.user == *sid || self.groups.contains(sid)
    }
}
