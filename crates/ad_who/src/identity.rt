//! Identities, as lines tell them, and their tokens.

ghost use Rattle.std.specs.Prelude.{◌≡◌, ◌++◌, [], IfOk, IfSome, OnOk};
ghost use Rattle.ad_bytes.specs.Puts.{ended};
ghost use Rattle.ad_identities.specs.Identities.{IsIdentity};
ghost use Rattle.ad_principals.specs.Membership.{AreMembersOf};
ghost use Rattle.ad_who.specs.Lines.{name_or, identity_text, IsTokenIf};
ghost use Rattle.ad_who.specs.Faults.{IsLiveIf};

use ad_dir::Dir;
use ad_identities::{Identity, identity_token};
use ad_ids::Token;
use ad_principals::{Members, TokenFault, put, put_name, put_sid};
use std::alloc::{AllocError, Global};

/// The name of an identity's object, and a line end; a hyphen where it has none.
pub(crate) fn put_name_or(
    alloc: Global,
    into: &mut Vec<u8>,
    dir: &Dir,
    number: Option<u32>,
) -> Result<(), AllocError>
    requires { IsLiveIf dir.now number }
    ensures { OnOk result (into.new.items ≡ into.old.items ++ ended (name_or dir.now number)) }
{
    match number {
        Some(number) => put_name(alloc, into, dir, number),
        None => put(into, b"-\n"),
    }
}

/// The object of an identity is live.
pub(crate) fn identity_lives(dir: &Dir, identity: &Identity)
    requires { IsIdentity dir.now identity.now }
    ensures { IsLiveIf dir.now identity.now.number }
{}

/// The identifier and the name of an identity, and a line end.
pub(crate) fn put_identity(
    alloc: Global,
    into: &mut Vec<u8>,
    dir: &Dir,
    identity: &Identity,
) -> Result<(), AllocError>
    requires { IsLiveIf dir.now identity.now.number }
    ensures { OnOk result (into.new.items ≡ into.old.items ++ identity_text dir.now identity.now) }
{
    put_sid(alloc, into, &identity.sid)?;
    put_name_or(alloc, into, dir, identity.number)
}

/// The token of an identity; none where it has too many groups.
pub(crate) fn token_if(
    alloc: Global,
    dir: &Dir,
    members: &Members,
    identity: &Identity,
) -> Result<Option<Token>, AllocError>
    requires members { AreMembersOf dir.now members.now }
    requires identity { IsIdentity dir.now identity.now }
    ensures token { IfOk result (IsTokenIf dir.now identity.now) }
    ensures alone { IfOk result (λ token. IfSome token (λ t. t.restricting ≡ [])) }
{
    match identity_token(alloc, dir, members, identity) {
        Ok(token) => Ok(Some(token)),
        Err(TokenFault::NoSid) => unreachable!(),
        Err(TokenFault::TooMany) => Ok(None),
        Err(TokenFault::Memory) => Err(AllocError),
    }
}
