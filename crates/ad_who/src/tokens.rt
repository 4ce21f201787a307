//! The token of the identity of a name, as lines.

ghost use Rattle.std.specs.Prelude.{◌≡◌, ◌≢◌, ◌++◌, ◌||◌, ◌∷◌, [], Ok, Some, None, true, map, if◌then◌else◌};
ghost use Rattle.std.specs.Prelude.{IfOk, IfErr, IfSome, IfNone, OnOk};
ghost use Rattle.std.specs.List.{flat_map};
ghost use Rattle.std.specs.String.{string_bytes};
ghost use Rattle.ad_ids.specs.SidValue.{same_sid};
ghost use Rattle.ad_ids.specs.WellKnown.{everyone, authenticated_users};
ghost use Rattle.ad_dir_model.specs.Objects.{is_live};
ghost use Rattle.ad_principals.specs.Groups.{is_principal, anonymous};
ghost use Rattle.ad_principals.specs.Membership.{AreMembersOf};
ghost use Rattle.ad_principals.specs.Named.{named};
ghost use Rattle.ad_principals.specs.Tokens.{IsTokenOf, IsTokenFrom, IsFaultFrom, HasTooManyGroups};
ghost use Rattle.ad_principals.specs.declared.fault.TokenFault.TheVariants as token_fault;
ghost use Rattle.ad_identities.specs.Identities.{lone, IsIdentity};
ghost use Rattle.ad_identities.specs.Named.{identity_named};
ghost use Rattle.ad_who.specs.Further.{first_further, IsLoneToken, HasTooManyLone, IsTokenWith, HasTooManyWith};
ghost use Rattle.ad_who.specs.Further.{IsTokenFound};
ghost use Rattle.ad_who.specs.Lines.{group_line, token_text};
ghost use Rattle.ad_who.specs.Faults.{IsNameFault, IsNoToken, IsOfLive};
ghost use Rattle.ad_who.specs.Answers.{sids_of, IsTokenText, IsTokenRefusal};

use crate::fault::AskFault;
use crate::identity::{identity_lives, token_if};
use crate::pieces::{put_number_line, put_sid_line};
use ad_dir::Dir;
use ad_identities::{Identity, identity_named};
use ad_ids::{Sid, Token};
use ad_principals::{Members, NameFault, TokenFault, principal_named, sid_of_text};
use std::alloc::{AllocError, Global};

/// The object of a name.
pub(crate) fn object_named(alloc: Global, dir: &Dir, name: &[u8]) -> Result<u32, AskFault>
    ensures number { IfOk result (λ number. named dir.now name.now ≡ Ok number) }
    ensures live { IfOk result (λ number. is_live dir.now.objects number ≡ true) }
    ensures fault { IfErr result (IsNameFault (named dir.now name.now)) }
{
    match principal_named(alloc, dir, name) {
        Ok(number) => Ok(number),
        Err(NameFault::NoObject) => Err(AskFault::NoObject),
        Err(NameFault::Several) => Err(AskFault::Several),
        Err(NameFault::Memory) => Err(AskFault::Memory),
    }
}

/// The identity of a name, where what it names is one.
pub(crate) fn identity_asked(
    alloc: Global,
    dir: &Dir,
    name: &[u8],
) -> Result<Option<Identity>, AskFault>
    ensures found { IfOk result (λ found. identity_named dir.now name.now ≡ Ok found) }
    ensures known { IfOk result (λ found. IfSome found (IsIdentity dir.now)) }
    ensures fault { IfErr result (IsNameFault (identity_named dir.now name.now)) }
    ensures live { IfErr result (IsOfLive dir.now) }
{
    match identity_named(alloc, dir, name) {
        Ok(found) => Ok(found),
        Err(NameFault::NoObject) => Err(AskFault::NoObject),
        Err(NameFault::Several) => Err(AskFault::Several),
        Err(NameFault::Memory) => Err(AskFault::Memory),
    }
}

// ---- the token

// Puts Authenticated Users.
fn put_accounts(first: &mut Vec<Sid>, is_apart: bool) -> Result<(), AllocError>
    ensures { OnOk result (first.new.items
        ≡ first.old.items ++ (if is_apart then [] else authenticated_users ∷ [])) }
{
    if is_apart {
        return Ok(());
    }
    first.push(Sid::well_known(5, 11))?;
    Ok(())
}

fn is_apart(sid: &Sid) -> bool
    ensures { result ≡ (same_sid sid.now everyone || same_sid sid.now anonymous) }
{
    sid.is_well_known(1, 0) || sid.is_well_known(5, 7)
}

// Everyone, Authenticated Users but for Everyone and who hasn't bound, and further identifiers.
fn first_further(alloc: Global, sid: &Sid, sids: &[Sid]) -> Result<Vec<Sid>, AllocError>
    ensures { IfOk result (λ first. first.items ≡ first_further sid.now sids.now) }
{
    let mut first = Vec::new(alloc);
    first.push(Sid::well_known(1, 0))?;
    put_accounts(&mut first, is_apart(sid))?;
    first.extend_from_slice(sids)?;
    Ok(first)
}

// The token of an identifier without a principal, with further ones.
fn with_further(
    alloc: Global,
    dir: &Dir,
    members: &Members,
    sid: &Sid,
    sids: &[Sid],
) -> Result<Token, TokenFault>
    requires { AreMembersOf dir.now members.now }
    ensures token { IfOk result (IsTokenFrom dir.now (Some sid.now) everyone
        (first_further sid.now sids.now)) }
    ensures fault { IfErr result (IsFaultFrom dir.now (Some sid.now)
        (first_further sid.now sids.now)) }
    ensures some { IfErr result (λ fault. fault ≢ token_fault.NoSid) }
{
    let first = first_further(alloc, sid, sids)?;
    members.token_from(alloc, dir, sid, &Sid::well_known(1, 0), first.as_slice())
}

// The same, where there may be none further.
fn lone_token(
    alloc: Global,
    dir: &Dir,
    members: &Members,
    sid: &Sid,
    sids: &[Sid],
) -> Result<Option<Token>, AllocError>
    requires members { AreMembersOf dir.now members.now }
    requires identity { IsIdentity dir.now (lone sid.now) }
    ensures token { IfOk result (λ token. IfSome token (IsLoneToken dir.now sid.now sids.now)) }
    ensures many { IfOk result (λ token. IfNone token (HasTooManyLone dir.now sid.now sids.now)) }
{
    match sids {
        [] => token_if(
            alloc,
            dir,
            members,
            &Identity {
                sid: *sid,
                number: None,
            },
        ),
        [_, ..] => match with_further(alloc, dir, members, sid, sids) {
            Ok(token) => Ok(Some(token)),
            Err(TokenFault::NoSid) => unreachable!(),
            Err(TokenFault::TooMany) => Ok(None),
            Err(TokenFault::Memory) => Err(AllocError),
        },
    }
}

// The token of a principal, with further identifiers.
fn principal_token(
    alloc: Global,
    dir: &Dir,
    members: &Members,
    number: u32,
    sids: &[Sid],
) -> Result<Option<Token>, AllocError>
    requires members { AreMembersOf dir.now members.now }
    requires principal { is_principal dir.now number ≡ true }
    ensures token { IfOk result (λ token. IfSome token (IsTokenOf dir.now number sids.now)) }
    ensures many { IfOk result (λ token. IfNone token (HasTooManyGroups dir.now number sids.now)) }
{
    match members.token(alloc, dir, number, sids) {
        Ok(token) => Ok(Some(token)),
        Err(TokenFault::NoSid) => unreachable!(),
        Err(TokenFault::TooMany) => Ok(None),
        Err(TokenFault::Memory) => Err(AllocError),
    }
}

// The token of an identity, with further identifiers; none where it has too many groups.
fn token_with(
    alloc: Global,
    dir: &Dir,
    identity: &Identity,
    sids: &[Sid],
) -> Result<Option<Token>, AllocError>
    requires { IsIdentity dir.now identity.now }
    ensures token { IfOk result (λ token. IfSome token (IsTokenWith dir.now identity.now.sid
        identity.now.number sids.now)) }
    ensures many { IfOk result (λ token. IfNone token (HasTooManyWith dir.now identity.now.sid
        identity.now.number sids.now)) }
{
    let members = Members::of(alloc, dir)?;
    match identity.number {
        Some(number) => principal_token(alloc, dir, &members, number, sids),
        None => lone_token(alloc, dir, &members, &identity.sid, sids),
    }
}

fn token_by(alloc: Global, dir: &Dir, identity: &Identity, sids: &[Sid]) -> Result<Token, AskFault>
    requires { IsIdentity dir.now identity.now }
    ensures token { IfOk result (IsTokenWith dir.now identity.now.sid identity.now.number sids.now) }
    ensures fault { IfErr result (IsNoToken dir.now (Some identity.now) sids.now) }
    ensures live { IfErr result (IsOfLive dir.now) }
{
    identity_lives(dir, identity);
    match token_with(alloc, dir, identity, sids)? {
        Some(token) => Ok(token),
        None => Err(AskFault::TooMany(identity.number)),
    }
}

// The token of what a name represents.
fn token_for(
    alloc: Global,
    dir: &Dir,
    found: Option<Identity>,
    sids: &[Sid],
) -> Result<Token, AskFault>
    requires { IfSome found (IsIdentity dir.now) }
    ensures token { IfOk result (IsTokenFound dir.now found sids.now) }
    ensures fault { IfErr result (IsNoToken dir.now found sids.now) }
    ensures live { IfErr result (IsOfLive dir.now) }
{
    match found {
        Some(identity) => token_by(alloc, dir, &identity, sids),
        None => Err(AskFault::NoPrincipal),
    }
}

// ---- further identifiers

// The identifiers that texts are. None where one isn't.
fn sids_of(alloc: Global, texts: &[String]) -> Result<Option<Vec<Sid>>, AllocError>
    ensures some { IfOk result (λ sids.
        IfSome sids (λ all. sids_of (map string_bytes texts.now) ≡ Some all.items)) }
    ensures none { IfOk result (λ sids. IfNone sids (sids_of (map string_bytes texts.now) ≡ None)) }
{
    let mut sids = Vec::new(alloc);
    for text in texts {
        match sid_of_text(text.as_bytes()) {
            Some(sid) => sids.push(sid)?,
            None => return Ok(None),
        }
    }
    Ok(Some(sids))
}

// ---- the lines

fn put_groups(alloc: Global, into: &mut Vec<u8>, groups: &[Sid]) -> Result<(), AllocError>
    ensures { OnOk result (into.new.items ≡ into.old.items ++ flat_map group_line groups.now) }
{
    for sid in groups {
        put_sid_line(alloc, into, b"group ", sid)?;
    }
    Ok(())
}

#[tactic(auto, unfolding(crate::specs::Lines::token_text))]
fn token_text(alloc: Global, token: &Token) -> Result<Vec<u8>, AllocError>
    ensures { IfOk result (λ text. text.items ≡ token_text token.now) }
{
    let mut text = Vec::new(alloc);
    put_sid_line(alloc, &mut text, b"user ", &token.user)?;
    put_sid_line(alloc, &mut text, b"owner ", &token.owner)?;
    put_sid_line(alloc, &mut text, b"primary ", &token.primary)?;
    put_groups(alloc, &mut text, token.groups.as_slice())?;
    put_number_line(&mut text, b"privileges ", token.privileges)?;
    Ok(text)
}

/// The token of the identity of a name, with the identifiers that further texts are, in lines that end with LF: `user`,
/// `owner`, `primary` and each `group` with an identifier, and `privileges` with their sum.
///
/// # Errors
///
/// The first from the left: `NoObject` or `Several` of the name, `NoIdentifier` of a further text, and then
/// `NoPrincipal` or `TooMany` of the token. `Memory` where memory ran out.
pub(crate) fn token_lines(
    alloc: Global,
    dir: &Dir,
    name: &[u8],
    texts: &[String],
) -> Result<Vec<u8>, AskFault>
    ensures text { IfOk result (λ text. IsTokenText dir.now name.now (map string_bytes texts.now)
        text.items) }
    ensures refusal { IfErr result (IsTokenRefusal dir.now name.now (map string_bytes texts.now)) }
    ensures live { IfErr result (IsOfLive dir.now) }
{
    let found = identity_asked(alloc, dir, name)?;
    let sids = match sids_of(alloc, texts)? {
        Some(sids) => sids,
        None => return Err(AskFault::NoIdentifier),
    };
    let token = token_for(alloc, dir, found, sids.as_slice())?;
    Ok(token_text(alloc, &token)?)
}
