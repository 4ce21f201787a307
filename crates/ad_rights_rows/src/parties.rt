//! Who there is, and with which token.

ghost use Rattle.std.specs.Prelude.{◌≡◌, ◌++◌, ◌∷◌, [], List, All, IfOk, OnOk};
ghost use Rattle.ad_ids.specs.declared.token.Token.{Token as TokenValue};
ghost use Rattle.ad_principals.specs.Membership.{AreMembersOf};
ghost use Rattle.ad_identities.specs.declared.identity.Identity.{Identity as IdentityValue};
ghost use Rattle.ad_identities.specs.Identities.{AreIdentities, IsIdentity, IsIdentityToken};
ghost use Rattle.ad_rights.specs.Set.{IsBare};
ghost use Rattle.ad_rights_rows.specs.Rows.{AreParties};
ghost use Rattle.ad_rights_rows.specs.Kept.{AreKept};

use ad_dir::Dir;
use ad_identities::{Identity, identities, identity_token};
use ad_ids::Token;
use ad_principals::{Members, TokenFault};
use ad_rights_judged::Tokens;
use std::alloc::{AllocError, Global};

/// The identities that have a token, with their tokens, and those that have too many groups for one.
#[derive(Drop)]
pub struct Parties {
    pub members: Vec<Identity>,
    pub tokens: Tokens,
    pub without: Vec<Identity>,
}

// The token of an identity only allows.
fn only_allows(dir: &Dir, identity: &Identity, token: &Token)
    requires { IsIdentityToken dir.now identity.now token.now }
    ensures { IsBare token.now }
{}

fn put_with(
    alloc: Global,
    parties: &mut Parties,
    dir: &Dir,
    identity: &Identity,
    token: Token,
) -> Result<(), AllocError>
    requires kept { AreKept dir.now parties.now }
    requires identity { IsIdentity dir.now identity.now }
    requires token { IsIdentityToken dir.now identity.now token }
    ensures kept { OnOk result (AreKept dir.now parties.new) }
    ensures added { OnOk result ((done : List IdentityValue) → AreParties dir.now done
        parties.old.members.items parties.old.tokens.all.items parties.old.without.items → AreParties
        dir.now (done ++ identity.now ∷ []) parties.new.members.items parties.new.tokens.all.items
        parties.new.without.items) }
{
    only_allows(dir, identity, &token);
    parties.tokens.add(alloc, token)?;
    parties.members.push(*identity)?;
    Ok(())
}

// Puts one identity more.
fn put(
    alloc: Global,
    parties: &mut Parties,
    dir: &Dir,
    members: &Members,
    identity: &Identity,
) -> Result<(), AllocError>
    requires members { AreMembersOf dir.now members.now }
    requires kept { AreKept dir.now parties.now }
    requires identity { IsIdentity dir.now identity.now }
    ensures kept { OnOk result (AreKept dir.now parties.new) }
    ensures added { OnOk result ((done : List IdentityValue) → AreParties dir.now done
        parties.old.members.items parties.old.tokens.all.items parties.old.without.items → AreParties
        dir.now (done ++ identity.now ∷ []) parties.new.members.items parties.new.tokens.all.items
        parties.new.without.items) }
{
    match identity_token(alloc, dir, members, identity) {
        Ok(token) => put_with(alloc, parties, dir, identity, token),
        Err(TokenFault::NoSid) => unreachable!(),
        Err(TokenFault::TooMany) => {
            parties.without.push(*identity)?;
            Ok(())
        }
        Err(TokenFault::Memory) => Err(AllocError),
    }
}

// These identities, in their order.
fn put_all(
    alloc: Global,
    parties: &mut Parties,
    dir: &Dir,
    members: &Members,
    all: &[Identity],
) -> Result<(), AllocError>
    requires members { AreMembersOf dir.now members.now }
    requires kept { AreKept dir.now parties.now }
    requires all { All (IsIdentity dir.now) all.now }
    ensures kept { OnOk result (AreKept dir.now parties.new) }
    ensures added { OnOk result (AreParties dir.now [] parties.old.members.items
        parties.old.tokens.all.items parties.old.without.items → AreParties dir.now all.now
        parties.new.members.items parties.new.tokens.all.items parties.new.without.items) }
{
    for identity in all {
        put(alloc, parties, dir, members, identity)?;
    }
    Ok(())
}

fn none(alloc: Global, dir: &Dir) -> Parties
    ensures kept { AreKept dir.now result }
    ensures none { AreParties dir.now [] result.members.items result.tokens.all.items
        result.without.items }
{
    Parties {
        members: Vec::new(alloc),
        tokens: Tokens::new(alloc),
        without: Vec::new(alloc),
    }
}

/// All identities of a directory, with their tokens.
///
/// # Errors
///
/// Out of memory.
pub fn all_parties(alloc: Global, dir: &Dir) -> Result<Parties, AllocError>
    ensures kept { IfOk result (AreKept dir.now) }
    ensures are { IfOk result (λ parties. (all : List IdentityValue) × AreIdentities dir.now all
        × AreParties dir.now all parties.members.items parties.tokens.all.items
        parties.without.items) }
{
    let all = identities(alloc, dir)?;
    let members = Members::of(alloc, dir)?;
    let mut parties = none(alloc, dir);
    put_all(alloc, &mut parties, dir, &members, all.as_slice())?;
    Ok(parties)
}
