//! The tokens of the principals of both directories.

ghost use Rattle.std.specs.Prelude.{◌≡◌, ◌++◌, ◌∷◌, [], true, List, All, map, slice_get, IfOk, IfErr, OnOk};
ghost use Rattle.std.specs.Option.{option_copied};
ghost use Rattle.ad_dir_model.specs.Objects.{is_live};
ghost use Rattle.ad_principals.specs.Groups.{is_principal};
ghost use Rattle.ad_principals.specs.Membership.{AreMembersOf};
ghost use Rattle.ad_principals.specs.Tokens.{IsTokenOf, IsTokenFault};
ghost use Rattle.ad_both.specs.declared.both.Both.{Both as BothValue};
ghost use Rattle.ad_diff_rights.specs.declared.tokens.DiffFault.TheVariants as diff_fault;
ghost use Rattle.ad_diff_rights.specs.Both.{are_principals};
ghost use Rattle.ad_diff_rights.specs.Parties.{IsParty, AreNoParties, IsOfLive, IsNoToken};

use ad_both::Both;
use ad_dir::Dir;
use ad_ids::Token;
use ad_principals::{Members, TokenFault};
use std::alloc::{AllocError, Global};

/// A principal of both directories, with the token that each gives it.
#[derive(Drop)]
pub struct Party {
    pub both: Both,
    pub was: Token,
    pub is: Token,
}

/// Why there are no differences.
#[derive(Clone, Copy, Debug, PartialEq, Eq)]
pub enum DiffFault {
    /// The principal of this number in the first directory has more groups there than a token may.
    Before(u32),
    /// The one of this number in the second has them there.
    After(u32),
    /// Memory ran out.
    Memory,
}

impl From<AllocError> for DiffFault {
    ghost from_gives = { λ _ e. e ≡ diff_fault.Memory };

    fn from(_: AllocError) -> DiffFault {
        DiffFault::Memory
    }
}

// A principal is live.
fn principal_lives(dir: &Dir, principal: u32)
    requires { is_principal dir.now principal ≡ true }
    ensures { is_live dir.now.objects principal ≡ true }
{}

// The token of a principal, or this fault where it has too many groups.
fn token_in(
    alloc: Global,
    dir: &Dir,
    members: &Members,
    principal: u32,
    fault: DiffFault,
) -> Result<Token, DiffFault>
    requires members { AreMembersOf dir.now members.now }
    requires principal { is_principal dir.now principal ≡ true }
    ensures token { IfOk result (IsTokenOf dir.now principal []) }
    ensures fault { IfErr result (IsNoToken dir.now principal fault) }
{
    match members.token(alloc, dir, principal, &[]) {
        Ok(token) => Ok(token),
        Err(TokenFault::NoSid) => unreachable!(),
        Err(TokenFault::TooMany) => Err(fault),
        Err(TokenFault::Memory) => Err(DiffFault::Memory),
    }
}

// A principal with its tokens.
fn party_of(
    alloc: Global,
    before: &Dir,
    after: &Dir,
    members: &Members,
    others: &Members,
    principal: Both,
) -> Result<Party, DiffFault>
    requires members { AreMembersOf before.now members.now }
    requires others { AreMembersOf after.now others.now }
    requires principal { are_principals before.now after.now principal ≡ true }
    ensures both { IfOk result (λ party. party.both ≡ principal) }
    ensures party { IfOk result (IsParty before.now after.now) }
    ensures fault { IfErr result (λ fault. (others : List BothValue)
        → AreNoParties before.now after.now (principal ∷ others) fault) }
    ensures live { IfErr result (IsOfLive before.now after.now) }
{
    principal_lives(before, principal.before);
    principal_lives(after, principal.after);
    let was = token_in(
        alloc,
        before,
        members,
        principal.before,
        DiffFault::Before(principal.before),
    )?;
    let is = token_in(
        alloc,
        after,
        others,
        principal.after,
        DiffFault::After(principal.after),
    )?;
    Ok(Party {
        both: principal,
        was,
        is,
    })
}

fn push_party(parties: &mut Vec<Party>, party: Party) -> Result<(), AllocError>
    ensures { OnOk result (parties.new.items ≡ parties.old.items ++ (party ∷ [])) }
{
    parties.push(party)?;
    Ok(())
}

// Each of these principals with its tokens.
fn parties_of(
    alloc: Global,
    before: &Dir,
    after: &Dir,
    members: &Members,
    others: &Members,
    principals: &[Both],
) -> Result<Vec<Party>, DiffFault>
    requires members { AreMembersOf before.now members.now }
    requires others { AreMembersOf after.now others.now }
    requires principals { All (λ p. are_principals before.now after.now p ≡ true) principals.now }
    ensures both { IfOk result (λ parties. map (λ party. party.both) parties.items
        ≡ principals.now) }
    ensures parties { IfOk result (λ parties. All (IsParty before.now after.now) parties.items) }
    ensures fault { IfErr result (AreNoParties before.now after.now principals.now) }
    ensures live { IfErr result (IsOfLive before.now after.now) }
{
    let mut parties = Vec::new(alloc);
    for principal in principals {
        let party = match party_of(alloc, before, after, members, others, *principal) {
            Ok(party) => party,
            Err(fault) => return Err(fault),
        };
        push_party(&mut parties, party)?;
    }
    Ok(parties)
}

/// Each of these principals of both with its tokens.
///
/// # Errors
///
/// `Before` or `After` of the first that has too many groups in the first directory, or in the second. `Memory` where
/// memory ran out.
pub fn parties(
    alloc: Global,
    before: &Dir,
    after: &Dir,
    principals: &[Both],
) -> Result<Vec<Party>, DiffFault>
    requires { All (λ p. are_principals before.now after.now p ≡ true) principals.now }
    ensures both { IfOk result (λ parties. map (λ party. party.both) parties.items
        ≡ principals.now) }
    ensures parties { IfOk result (λ parties. All (IsParty before.now after.now) parties.items) }
    ensures fault { IfErr result (AreNoParties before.now after.now principals.now) }
    ensures live { IfErr result (IsOfLive before.now after.now) }
{
    let members = Members::of(alloc, before)?;
    let others = Members::of(alloc, after)?;
    parties_of(alloc, before, after, &members, &others, principals)
}

/// The principal at a place, if there is one.
pub fn party_at(parties: &[Party], place: usize) -> Option<&Party>
    ensures { option_copied result ≡ slice_get parties.entry.now place }
{
    parties.get(place)
}
