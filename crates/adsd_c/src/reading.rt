//! What the bytes of a caller represent.

ghost use Rattle.std.specs.Prelude.{◌≡◌, ◌+◌, ◌≤◌, length};
ghost use Rattle.ad_bytes.specs.Reading.{GivesUnless, or_fault};
ghost use Rattle.ad_ids.specs.GuidText.{guid_of};
ghost use Rattle.ad_ids.specs.TokenReading.{token_of};
ghost use Rattle.ad_sd.specs.Reading.{sd_of, parts_of};
ghost use Rattle.ad_types.specs.Path.{guids_of};
ghost use Rattle.adsd_c.specs.declared.refusal.Refusal.TheVariants as refusal;
ghost use Rattle.adsd_c.specs.Refusal.{is_memory};
ghost use Rattle.adsd_c.specs.Reading.{whole_sid, sid_if, guid_from, path_of, given_or};

use crate::refusal::Refusal;
use ad_bytes::Input;
use ad_ids::{Guid, Sid, Token, TokenFault};
use ad_sd::{NormalSd, Sd, SdFault, SdParts, read_parts, read_sd};
use ad_types::Path;
use std::alloc::Global;

/// The identifier that all of the bytes are, or this refusal.
#[tactic(auto, unfolding(crate::specs::Reading::whole_sid))]
pub(crate) fn whole_sid(bytes: &[u8], fault: Refusal) -> Result<Sid, Refusal>
    ensures { result ≡ whole_sid fault bytes.now }
{
    let mut input = Input::new(bytes);
    let Ok(sid) = Sid::read(&mut input) else {
        return Err(fault);
    };
    if !input.is_empty() {
        return Err(fault);
    }
    Ok(sid)
}

/// The same of an identifier that need not be given.
#[tactic(auto, unfolding(crate::specs::Reading::sid_if))]
pub(crate) fn sid_if(bytes: &[u8], fault: Refusal) -> Result<Option<Sid>, Refusal>
    ensures { result ≡ sid_if fault bytes.now }
{
    if bytes.is_empty() {
        return Ok(None);
    }
    match whole_sid(bytes, fault) {
        Ok(sid) => Ok(Some(sid)),
        Err(fault) => Err(fault),
    }
}

/// The GUID that the bytes are.
pub(crate) fn whole_guid(bytes: &[u8]) -> Result<Guid, Refusal>
    ensures { result ≡ given_or refusal.Guid (guid_of bytes.now) }
{
    match Guid::from_bytes(bytes) {
        Some(guid) => Ok(guid),
        None => Err(Refusal::Guid),
    }
}

// The GUID from a place on.
fn guid_from(bytes: &[u8], at: usize) -> Guid
    requires { at + 16 ≤ length bytes.now }
    ensures { result ≡ guid_from at bytes.now }
{
    let mut copy = [0; 16];
    copy.copy_from_slice(&bytes[at..at + 16]);
    Guid { bytes: copy }
}

/// The path of the GUIDs that stand one after the other.
#[tactic(auto, unfolding(crate::specs::Reading::path_of))]
pub(crate) fn path_of(bytes: &[u8]) -> Result<Path, Refusal>
    ensures { GivesUnless is_memory guids_of result (path_of bytes.now) }
{
    match bytes.len() {
        0 => Ok(Path::empty()),
        16 => Ok(Path::one(guid_from(bytes, 0))),
        32 => Ok(Path::two(guid_from(bytes, 0), guid_from(bytes, 16))),
        48 => Ok(Path::three(
            guid_from(bytes, 0),
            guid_from(bytes, 16),
            guid_from(bytes, 32),
        )),
        _ => Err(Refusal::Path),
    }
}

/// The token that the bytes are.
pub(crate) fn token(alloc: Global, bytes: &[u8]) -> Result<Token, Refusal>
    ensures { GivesUnless is_memory (λ token. token) result
        (or_fault refusal.Token (token_of bytes.now)) }
{
    match Token::from_bytes(alloc, bytes) {
        Ok(token) => Ok(token),
        Err(TokenFault::Memory) => Err(Refusal::Memory),
        Err(_) => Err(Refusal::Token),
    }
}

// The self-relative descriptor that the bytes are, or this refusal.
fn sd(alloc: Global, bytes: &[u8], fault: Refusal) -> Result<Sd, Refusal>
    ensures { GivesUnless is_memory (λ sd. sd) result (or_fault fault (sd_of bytes.now)) }
{
    match read_sd(alloc, bytes) {
        Ok(sd) => Ok(sd),
        Err(SdFault::Memory) => Err(Refusal::Memory),
        Err(_) => Err(fault),
    }
}

/// The same, in its normal bytes.
pub(crate) fn kept_sd(alloc: Global, bytes: &[u8], fault: Refusal) -> Result<NormalSd, Refusal>
    ensures { GivesUnless is_memory (λ sd. sd) result (or_fault fault (sd_of bytes.now)) }
{
    let sd = sd(alloc, bytes, fault)?;
    Ok(NormalSd::of(alloc, &sd)?)
}

/// The parts that a self-relative descriptor has, or this refusal.
pub(crate) fn parts(alloc: Global, bytes: &[u8], fault: Refusal) -> Result<SdParts, Refusal>
    ensures { GivesUnless is_memory (λ parts. parts) result (or_fault fault (parts_of bytes.now)) }
{
    match read_parts(alloc, bytes) {
        Ok(parts) => Ok(parts),
        Err(SdFault::Memory) => Err(Refusal::Memory),
        Err(_) => Err(fault),
    }
}
