//! One entry, and one identifier, from their texts.

ghost use Rattle.std.specs.Prelude.{◌≡◌, ◌++◌, List, ℕ, Option, length, IfOk, true};
ghost use Rattle.std.specs.Option.{option_copied, option_map};
ghost use Rattle.ad_sddl.specs.Reading.{read_of};
ghost use Rattle.ad_ldifmod.specs.Changes.{if_read, sole, sole_entry, sole_owner, begins_entry, entry_of, sid_of};
ghost use Rattle.ad_ldifmod.specs.Changes.{is_kind, if_own, own_entry, change_of};

use crate::change::Change;
use crate::lines::Verb;
use ad_acl::{Ace, AceKind, INHERITED};
use ad_ids::Sid;
use ad_sd::{AceList, SdParts};
use ad_sddl::SddlFault;
use std::alloc::{AllocError, Global};

// A text after two bytes.
fn behind(alloc: Global, head: &[u8], text: &[u8]) -> Result<Vec<u8>, AllocError>
    ensures { IfOk result (λ both. both.items ≡ head.now ++ text.now) }
{
    let mut both = Vec::from_slice(alloc, head)?;
    both.extend_from_slice(text)?;
    Ok(both)
}

// The parts of a descriptor that the text encodes, if it encodes any.
fn read_if(alloc: Global, text: &[u8], domain: Option<&Sid>) -> Result<Option<SdParts>, AllocError>
    ensures { IfOk result (λ parts. parts
        ≡ if_read (read_of (option_copied domain.entry) text.now)) }
{
    match ad_sddl::read(alloc, text, domain) {
        Ok(parts) => Ok(Some(parts)),
        Err(SddlFault::Bad { .. }) => Ok(None),
        Err(SddlFault::Memory) => Err(AllocError),
    }
}

fn sole(entries: &[Ace]) -> Option<Ace>
    ensures { result ≡ sole entries.now }
{
    match entries {
        [entry] => Some(*entry),
        _ => None,
    }
}

// The entry of a descriptor that has one entry in its list and nothing else.
fn sole_entry(parts: &SdParts) -> Option<Ace>
    ensures { result ≡ sole_entry parts.now }
{
    match (&parts.owner, &parts.group, &parts.dacl, &parts.sacl) {
        (None, None, Some(list), None) => sole(list.entries.as_slice()),
        _ => None,
    }
}

// The owner of a descriptor that has nothing else.
fn sole_owner(parts: &SdParts) -> Option<Sid>
    ensures { result ≡ sole_owner parts.now }
{
    match (&parts.owner, &parts.group, &parts.dacl, &parts.sacl) {
        (Some(owner), None, None, None) => Some(*owner),
        _ => None,
    }
}

fn begins_entry(text: &[u8]) -> bool
    ensures { result ≡ begins_entry text.now }
{
    match text.first() {
        Some(byte) => *byte == b'(',
        None => false,
    }
}

// The entry that the text encodes, if it encodes one and nothing else.
#[tactic(auto, unfolding(crate::specs::Changes::entry_of))]
fn entry_of(alloc: Global, text: &[u8], domain: Option<&Sid>) -> Result<Option<Ace>, AllocError>
    ensures { IfOk result (λ entry. entry ≡ entry_of (option_copied domain.entry) text.now) }
{
    if !begins_entry(text) {
        return Ok(None);
    }
    let list = behind(alloc, b"D:", text)?;
    match read_if(alloc, &list, domain)? {
        Some(parts) => Ok(sole_entry(&parts)),
        None => Ok(None),
    }
}

// The identifier that the text encodes, if it encodes one and nothing else.
#[tactic(auto, unfolding(crate::specs::Changes::sid_of))]
fn sid_of(alloc: Global, text: &[u8], domain: Option<&Sid>) -> Result<Option<Sid>, AllocError>
    ensures { IfOk result (λ sid. sid ≡ sid_of (option_copied domain.entry) text.now) }
{
    let owner = behind(alloc, b"O:", text)?;
    match read_if(alloc, &owner, domain)? {
        Some(parts) => Ok(sole_owner(&parts)),
        None => Ok(None),
    }
}

fn is_kind(kind: AceKind, other: AceKind) -> bool
    ensures { result ≡ is_kind kind other }
{
    match (kind, other) {
        (AceKind::Allow, AceKind::Allow) => true,
        (AceKind::Deny, AceKind::Deny) => true,
        (AceKind::Audit, AceKind::Audit) => true,
        _ => false,
    }
}

// The entry, where it is of the kind and doesn't say that it was inherited.
fn if_own(kind: AceKind, entry: Ace) -> Option<Ace>
    ensures { result ≡ if_own kind entry }
{
    if is_kind(entry.kind, kind) && entry.flags & INHERITED == 0 {
        return Some(entry);
    }
    None
}

// The entry that the text encodes, where it is of the kind and doesn't say that it was inherited.
fn own_entry(
    alloc: Global,
    kind: AceKind,
    text: &[u8],
    domain: Option<&Sid>,
) -> Result<Option<Ace>, AllocError>
    ensures { IfOk result (λ entry. entry ≡ own_entry kind (option_copied domain.entry) text.now) }
{
    match entry_of(alloc, text, domain)? {
        Some(entry) => Ok(if_own(kind, entry)),
        None => Ok(None),
    }
}

/// What a line asks for by its word and the text after it; none where that is no such entry or no identifier.
pub(crate) fn change_of(
    alloc: Global,
    verb: Verb,
    text: &[u8],
    domain: Option<&Sid>,
) -> Result<Option<Change>, AllocError>
    ensures { IfOk result (λ change. change ≡ change_of (option_copied domain.entry) verb
        text.now) }
{
    match verb {
        Verb::Grant => match own_entry(alloc, AceKind::Allow, text, domain)? {
            Some(entry) => Ok(Some(Change::Behind(entry))),
            None => Ok(None),
        },
        Verb::Deny => match own_entry(alloc, AceKind::Deny, text, domain)? {
            Some(entry) => Ok(Some(Change::Front(entry))),
            None => Ok(None),
        },
        Verb::Revoke => match sid_of(alloc, text, domain)? {
            Some(sid) => Ok(Some(Change::Without(sid))),
            None => Ok(None),
        },
    }
}
