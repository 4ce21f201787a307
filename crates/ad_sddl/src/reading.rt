//! How a whole text is read.

ghost use Rattle.std.specs.Prelude.{◌≡◌, ◌≤◌, ◌<◌, List, ℕ, Option, Some, None, length, drop, OnOk, IfOk, IfErr, Ok};
ghost use Rattle.std.specs.Prelude.{false};
ghost use Rattle.std.specs.Option.{option_copied};
ghost use Rattle.ad_bytes.specs.Reading.{Reads, ReadsUnless, GivesUnless};
ghost use Rattle.ad_sd.specs.declared.parts.SdParts.{SdParts as PartsValue};
ghost use Rattle.ad_sddl.specs.Grammar.{no_parts, SpellsSddl};
ghost use Rattle.ad_sddl.specs.Reading.{sid_at, list_at, once_at, part_at, parts_at, parts_of, is_out_of_memory};
ghost use Rattle.ad_sddl.specs.Reading.{read_of};
ghost use Rattle.ad_sddl.specs.Calls.{is_memory, ReadsParts, ReadsAll};

use crate::fault::{ParseError, SddlFault, SddlKind};
use crate::field::takes;
use crate::list::read_list;
use crate::numeric::read_sid;
use ad_bytes::Input;
use ad_ids::Sid;
use ad_sd::{AceList, SdParts};
use std::alloc::Global;

fn no_parts() -> SdParts
    ensures { result ≡ no_parts }
{
    SdParts {
        owner: None,
        group: None,
        dacl: None,
        sacl: None,
    }
}

// Reads an owner or a group after its letter and colon, where there was none. With these the text had so many bytes
// left.
#[tactic(auto, unfolding(crate::specs::Reading::once_at))]
fn read_new_sid(
    input: &mut Input<'_>,
    domain: Option<&Sid>,
    is_there: bool,
    left: usize,
) -> Result<Sid, ParseError>
    ensures read { (bytes : List ℕ) → input.old ≡ drop 2 bytes → left ≡ length bytes
        → Reads result input.new (once_at (sid_at (option_copied domain.entry)) is_there bytes) }
    ensures left { OnOk result (length input.new ≤ length input.old) }
{
    if is_there {
        return Err(ParseError::Bad(SddlKind::Repeated, left));
    }
    read_sid(input, domain)
}

// Reads a list after its letter and colon, where there was none. With these the text had so many bytes left.
#[tactic(auto, unfolding(crate::specs::Reading::once_at))]
fn read_new_list(
    alloc: Global,
    input: &mut Input<'_>,
    domain: Option<&Sid>,
    is_there: bool,
    left: usize,
) -> Result<AceList, ParseError>
    ensures read { (bytes : List ℕ) → input.old ≡ drop 2 bytes → left ≡ length bytes
        → ReadsUnless is_memory (λ list. list) result input.new
        (once_at (list_at (option_copied domain.entry)) is_there bytes) }
    ensures left { OnOk result (length input.new ≤ length input.old) }
{
    if is_there {
        return Err(ParseError::Bad(SddlKind::Repeated, left));
    }
    read_list(alloc, input, domain)
}

// Puts the next part into the parts.
#[tactic(auto, unfolding(crate::specs::Reading::part_at))]
fn read_part(
    alloc: Global,
    input: &mut Input<'_>,
    domain: Option<&Sid>,
    parts: &mut SdParts,
) -> Result<(), ParseError>
    ensures read { ReadsParts result parts.new input.new
        (part_at (option_copied domain.entry) parts.old input.old) }
    ensures left { OnOk result (length input.new < length input.old) }
{
    let left = input.len();
    if takes(input, b"o:") {
        let owner = read_new_sid(input, domain, parts.owner.is_some(), left)?;
        parts.owner = Some(owner);
        return Ok(());
    }
    if takes(input, b"g:") {
        let group = read_new_sid(input, domain, parts.group.is_some(), left)?;
        parts.group = Some(group);
        return Ok(());
    }
    if takes(input, b"d:") {
        let dacl = read_new_list(alloc, input, domain, parts.dacl.is_some(), left)?;
        parts.dacl = Some(dacl);
        return Ok(());
    }
    if takes(input, b"s:") {
        let sacl = read_new_list(alloc, input, domain, parts.sacl.is_some(), left)?;
        parts.sacl = Some(sacl);
        return Ok(());
    }
    Err(ParseError::Bad(SddlKind::Part, left))
}

// Puts all parts up to the end into the parts, one at least.
fn read_all(
    alloc: Global,
    input: &mut Input<'_>,
    domain: Option<&Sid>,
    parts: &mut SdParts,
) -> Result<(), ParseError>
    ensures read { ReadsAll result parts.new
        (parts_at (option_copied domain.entry) parts.old input.old) }
{
    'parts: loop {
        read_part(alloc, input, domain, parts)?;
        if input.is_empty() {
            return Ok(());
        }
    }
}

// Reads a text in lower case.
fn read_lower(alloc: Global, text: &[u8], domain: Option<&Sid>) -> Result<SdParts, ParseError>
    ensures { GivesUnless is_memory (λ p. p) result
        (parts_of (option_copied domain.entry) text.now) }
{
    let mut input = Input::new(text);
    let mut parts = no_parts();
    read_all(alloc, &mut input, domain, &mut parts)?;
    Ok(parts)
}

// Reads a text in either case.
#[tactic(auto, unfolding(crate::specs::Reading::read_of))]
fn read_text(alloc: Global, text: &[u8], domain: Option<&Sid>) -> Result<SdParts, SddlFault>
    // What is read, and which fault it is and where.
    ensures { GivesUnless is_out_of_memory (λ p. p) result
        (read_of (option_copied domain.entry) text.now) }
{
    let lower = text.to_ascii_lowercase(alloc)?;
    match read_lower(alloc, &lower, domain) {
        Ok(parts) => Ok(parts),
        Err(ParseError::Bad(kind, left)) => Err(SddlFault::Bad {
            place: text.len().saturating_sub(left),
            kind,
        }),
        Err(ParseError::Memory) => Err(SddlFault::Memory),
    }
}

/// Reads the text of a security descriptor ([MS-DTYP] 2.5.1): one or more of the parts `O:`, `G:`, `D:` and `S:`,
/// in any order. Letters, codes and aliases may stand in either case. An owner or group is a numeric identifier or
/// an alias; the aliases of a domain's principals represent identifiers below `domain`. A list has the flags `P`,
/// `AR` and `AI`, of which `P` alone is kept, and entries `(type;flags;rights;object type;inherited
/// type;identifier)`. At each place the longest thing is taken that may stand there.
///
/// # Errors
///
/// `Bad` with the first place at which nothing fits that may stand there, as its kind says. `Memory` may come
/// instead of any answer.
pub fn read(alloc: Global, text: &[u8], domain: Option<&Sid>) -> Result<SdParts, SddlFault>
    // What is read is encoded so.
    ensures found { IfOk result (λ parts. SpellsSddl (option_copied domain.entry) parts text.now) }
    // Whatever is encoded so is read.
    ensures only { (parts : PartsValue) → SpellsSddl (option_copied domain.entry) parts text.now
        → GivesUnless is_out_of_memory (λ p. p) result (Ok parts) }
    // Which fault it is, and where.
    ensures read { GivesUnless is_out_of_memory (λ p. p) result
        (read_of (option_copied domain.entry) text.now) }
{
    read_text(alloc, text, domain)
}
