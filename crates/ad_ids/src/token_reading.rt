//! The bytes of a token are read, in both versions.

ghost use Rattle.std.specs.Prelude.{◌≡◌, ◌≤◌, ◌++◌, [], OnOk, ℕ, List, IfOk, Result, Ok};
ghost use Rattle.ad_bytes.specs.Reading.{Reads, ReadsUnless, GivesUnless};
ghost use Rattle.ad_ids.specs.Token.{put_enabled, put_deny_only, has_own_owner, SpellsToken};
ghost use Rattle.ad_ids.specs.TokenReading.{is_memory, marked_at, sids_at, groups_at, count_at, plain_lists_at};
ghost use Rattle.ad_ids.specs.TokenReading.{marked_lists_at, version_at, privileges_at, lists_at, fields_at};
ghost use Rattle.ad_ids.specs.TokenReading.{token_of};
ghost use Rattle.ad_ids.specs.TokenLists.{lists_seen};
ghost use Rattle.ad_ids.specs.declared.token.Token.{Token as TokenValue};
ghost use Rattle.ad_ids.specs.declared.token_fault.TokenFault.TheVariants as fault;

use crate::mark::Mark;
use crate::sid::Sid;
use crate::sids::Sids;
use crate::token::Token;
use crate::token_fault::TokenFault;
use ad_bytes::Input;
use std::alloc::{AllocError, Global};

#[tactic(auto, unfolding(crate::specs::TokenReading::version_at))]
fn version(input: &mut Input<'_>) -> Result<u8, TokenFault>
    ensures { Reads result input.new (version_at input.old) }
{
    let version = input.byte()?;
    if version != 1 && version != 2 {
        return Err(TokenFault::Version(version));
    }
    Ok(version)
}

#[tactic(auto, unfolding(crate::specs::TokenReading::privileges_at))]
fn privileges(input: &mut Input<'_>) -> Result<u8, TokenFault>
    ensures { Reads result input.new (privileges_at input.old) }
{
    let privileges = input.byte()?;
    if privileges > 7 {
        return Err(TokenFault::Privileges(privileges));
    }
    Ok(privileges)
}

#[tactic(auto, unfolding(crate::specs::TokenReading::count_at))]
fn group_count(input: &mut Input<'_>) -> Result<u16, TokenFault>
    ensures { Reads result input.new (count_at fault.Groups input.old) }
{
    let count = input.be16()?;
    if count > 1024 {
        return Err(TokenFault::Groups(count));
    }
    Ok(count)
}

#[tactic(auto, unfolding(crate::specs::TokenReading::count_at))]
fn restricting_count(input: &mut Input<'_>) -> Result<u16, TokenFault>
    ensures { Reads result input.new (count_at fault.Restricting input.old) }
{
    let count = input.be16()?;
    if count > 1024 {
        return Err(TokenFault::Restricting(count));
    }
    Ok(count)
}

#[tactic(auto, unfolding(crate::specs::TokenReading::marked_at))]
fn marked(input: &mut Input<'_>) -> Result<(Mark, Sid), TokenFault>
    ensures { Reads result input.new (marked_at input.old) }
{
    let mark = match input.byte()? {
        0 => Mark::Enabled,
        1 => Mark::DenyOnly,
        other => return Err(TokenFault::Mark(other)),
    };
    let sid = Sid::read(input)?;
    Ok((mark, sid))
}

// Reads that many identifiers.
fn sids(alloc: Global, input: &mut Input<'_>, count: u16) -> Result<Sids, TokenFault>
    ensures { ReadsUnless is_memory (λ sids. sids) result input.new (sids_at count input.old) }
{
    let mut sids = Sids::new(alloc);
    for _ in 0..count {
        let sid = Sid::read(input)?;
        sids.push(sid)?;
    }
    Ok(sids.indexed())
}

// Puts a group among those of its mark.
fn put_group(
    enabled: &mut Sids,
    deny_only: &mut Sids,
    mark: Mark,
    sid: Sid,
) -> Result<(), AllocError>
    ensures enabled { OnOk result (enabled.new ≡ enabled.old ++ put_enabled mark sid []) }
    ensures deny_only { OnOk result (deny_only.new ≡ deny_only.old ++ put_deny_only mark sid []) }
{
    match mark {
        Mark::Enabled => enabled.push(sid),
        Mark::DenyOnly => deny_only.push(sid),
    }
}

// Reads that many groups with their marks.
fn groups(alloc: Global, input: &mut Input<'_>, count: u16) -> Result<(Sids, Sids), TokenFault>
    ensures { ReadsUnless is_memory (λ groups. (groups.0, groups.1)) result input.new
        (groups_at count input.old) }
{
    let mut enabled = Sids::new(alloc);
    let mut deny_only = Sids::new(alloc);
    for _ in 0..count {
        let (mark, sid) = marked(input)?;
        put_group(&mut enabled, &mut deny_only, mark, sid)?;
    }
    Ok((enabled.indexed(), deny_only.indexed()))
}

// The lists of identifiers that a token ends with.
#[derive(Drop)]
struct TokenLists {
    groups: Sids,
    deny_only: Sids,
    restricting: Sids,
}

#[tactic(auto, unfolding(crate::specs::TokenReading::plain_lists_at))]
fn plain_lists(alloc: Global, input: &mut Input<'_>) -> Result<TokenLists, TokenFault>
    ensures { ReadsUnless is_memory lists_seen result input.new (plain_lists_at input.old) }
{
    let count = group_count(input)?;
    let groups = sids(alloc, input, count)?;
    Ok(TokenLists {
        groups,
        deny_only: Sids::new(alloc),
        restricting: Sids::new(alloc),
    })
}

#[tactic(auto, unfolding(crate::specs::TokenReading::marked_lists_at))]
fn marked_lists(alloc: Global, input: &mut Input<'_>) -> Result<TokenLists, TokenFault>
    ensures { ReadsUnless is_memory lists_seen result input.new (marked_lists_at input.old) }
{
    let count = group_count(input)?;
    let (groups, deny_only) = groups(alloc, input, count)?;
    let others = restricting_count(input)?;
    let restricting = sids(alloc, input, others)?;
    Ok(TokenLists {
        groups,
        deny_only,
        restricting,
    })
}

#[tactic(auto, unfolding(crate::specs::TokenReading::lists_at))]
fn lists(alloc: Global, input: &mut Input<'_>, version: u8) -> Result<TokenLists, TokenFault>
    ensures { ReadsUnless is_memory lists_seen result input.new (lists_at version input.old) }
{
    if version == 1 {
        plain_lists(alloc, input)
    } else {
        marked_lists(alloc, input)
    }
}

impl Token {
    /// Reads the fields of a token at the start of the input. Whether the owner is the token's own isn't
    /// looked at. After a fault the input stands somewhere within the token.
    #[tactic(auto, unfolding(crate::specs::TokenReading::fields_at))]
    fn read_fields(alloc: Global, input: &mut Input<'_>) -> Result<Token, TokenFault>
        ensures { ReadsUnless is_memory (λ token. token) result input.new (fields_at input.old) }
    {
        let version = version(input)?;
        let privileges = privileges(input)?;
        let user = Sid::read(input)?;
        let owner = Sid::read(input)?;
        let primary = Sid::read(input)?;
        let lists = lists(alloc, input, version)?;
        Ok(Token {
            version,
            privileges,
            user,
            owner,
            primary,
            groups: lists.groups,
            deny_only: lists.deny_only,
            restricting: lists.restricting,
        })
    }

    /// Whether the owner is the user or an enabled group.
    fn has_own_owner(&self) -> bool
        ensures { result ≡ has_own_owner self.now }
    {
        self.holds(&self.owner)
    }

    /// Reads the token that all of the bytes encode.
    ///
    /// Version 1 is the version byte 1, a byte of privileges, the user's, the owner's and the primary group's
    /// identifier, and a count of two bytes, the most significant first, with as many groups. Version 2 has the
    /// version byte 2 and a mark before each group, 0 for an enabled one and 1 for one that only denies, and after
    /// the groups a count of two bytes with as many restricting identifiers.
    ///
    /// # Errors
    ///
    /// The fault that stands first from the left: `Short` where the bytes end before a field other than an
    /// identifier does, `Version` above 2 or at 0, `Privileges` where a bit above the third is set, `Sid` where an
    /// identifier can't be read, `Groups` and `Restricting` above 1,024, `Mark` above 1, and then `Rest` where
    /// bytes stand after the token, and `Owner` where the owner is neither the user nor an enabled group. `Memory`
    /// out of memory.
    pub fn from_bytes(alloc: Global, bytes: &[u8]) -> Result<Token, TokenFault>
        // What is read is encoded so.
        ensures found { IfOk result (λ token. SpellsToken token bytes.now) }
        // Whatever is encoded so is read, unless it is out of memory.
        ensures only { (token : TokenValue) → SpellsToken token bytes.now
            → GivesUnless is_memory (λ token. token) result (Ok token) }
        // Which fault it is.
        ensures fault { GivesUnless is_memory (λ token. token) result (token_of bytes.now) }
    {
        Token::whole(alloc, bytes)
    }

    #[tactic(auto, unfolding(crate::specs::TokenReading::token_of))]
    fn whole(alloc: Global, bytes: &[u8]) -> Result<Token, TokenFault>
        ensures { GivesUnless is_memory (λ token. token) result (token_of bytes.now) }
    {
        let mut input = Input::new(bytes);
        let token = Token::read_fields(alloc, &mut input)?;
        if !input.is_empty() {
            return Err(TokenFault::Rest);
        }
        if !token.has_own_owner() {
            return Err(TokenFault::Owner);
        }
        Ok(token)
    }
}
