//! How the one text of a security descriptor is written.

ghost use Rattle.std.specs.Prelude.{◌≡◌, ◌<◌, ◌≤◌, ◌++◌, ◌⊎◌, List, ℕ, Option, length, OnOk, IfOk, bit_and};
ghost use Rattle.std.specs.List.{AllByRecursion, flat_map};
ghost use Rattle.std.specs.String.{string_bytes};
ghost use Rattle.ad_ids.specs.SidText.{sid_text};
ghost use Rattle.ad_ids.specs.GuidText.{guid_text};
ghost use Rattle.ad_ids.specs.SidValue.{SidValue};
ghost use Rattle.ad_ids.specs.Sid.{IsSid};
ghost use Rattle.ad_acl.specs.Writing.{has_guid, IsEntry};
ghost use Rattle.ad_sd.specs.Writing.{IsSidIf};
ghost use Rattle.ad_acl.specs.Codes.{flag_codes, right_codes};
ghost use Rattle.ad_sddl.specs.Grammar.{type_text, SpellsSddl};
ghost use Rattle.ad_sddl.specs.Canonical.{AreCapitals, codes_text, hex_text, rights_text, guid_text_if};
ghost use Rattle.ad_sddl.specs.Canonical.{entry_text, sid_part, list_text, list_part, canonical, all_parts};
ghost use Rattle.ad_sddl.specs.Canonical.{AreEntriesIf, AreParts, IsEmpty};

use crate::ranges::entry_has_its_ranges;
use ad_acl::{Ace, AceKind, Code, flag_codes, right_codes};
use ad_bytes::hex_char;
use ad_ids::{Guid, Sid};
use ad_sd::{AceList, Sd, SdParts};
use std::alloc::{AllocError, Global};

// Writes two capital letters.
fn push_letters(text: &mut String, letters: [u8; 2]) -> Result<(), AllocError>
    requires { AllByRecursion (λ letter. letter < 128) letters }
    ensures { OnOk result (string_bytes text.new ≡ string_bytes text.old ++ letters) }
{
    text.push(char::from(letters[0]))?;
    text.push(char::from(letters[1]))
}

// Writes the codes of the mask in the order of the table.
fn push_codes(text: &mut String, table: &[Code], mask: u32) -> Result<(), AllocError>
    requires { AreCapitals table.now }
    ensures { OnOk result (string_bytes text.new ≡ string_bytes text.old
        ++ codes_text table.now mask) }
{
    for code in table {
        if mask & code.bits != 0 {
            push_letters(text, code.letters)?;
        }
    }
    Ok(())
}

// Writes the last hexadecimal digits of the number, without zeros before them.
#[tactic(auto, unfolding(crate::specs::Canonical::hex_text))]
fn push_hex(text: &mut String, count: u8, number: u32) -> Result<(), AllocError>
    ensures { OnOk result (string_bytes text.new ≡ string_bytes text.old ++ hex_text count number) }
{
    if count == 0 {
        return Ok(());
    }
    if number == 0 {
        return Ok(());
    }
    push_hex(text, count - 1, number / 16)?;
    text.push(hex_char((number % 16) as u8))
}

// The bits of all codes of rights.
const ALL_RIGHTS: u32 = 0xf00f_01ff;

fn push_rights(text: &mut String, mask: u32) -> Result<(), AllocError>
    ensures { OnOk result (string_bytes text.new ≡ string_bytes text.old ++ rights_text mask) }
{
    if mask | ALL_RIGHTS == ALL_RIGHTS {
        return push_codes(text, right_codes(), mask);
    }
    text.push_str("0x")?;
    push_hex(text, 8, mask)
}

/// The rights of a mask as a text of a descriptor has them: as codes where these have all its bits, else in
/// hexadecimal.
///
/// # Errors
///
/// Memory ran out.
pub fn rights_text(alloc: Global, mask: u32) -> Result<String, AllocError>
    ensures { IfOk result (λ text. string_bytes text ≡ rights_text mask) }
{
    let mut text = String::new(alloc);
    push_rights(&mut text, mask)?;
    Ok(text)
}

fn push_guid(alloc: Global, text: &mut String, guid: &Option<Guid>) -> Result<(), AllocError>
    ensures { OnOk result (string_bytes text.new ≡ string_bytes text.old ++ guid_text_if guid.now) }
{
    match guid {
        None => Ok(()),
        Some(guid) => text.push_str(&guid.text(alloc)?),
    }
}

fn push_sid(alloc: Global, text: &mut String, sid: &Sid) -> Result<(), AllocError>
    ensures text { OnOk result (string_bytes text.new ≡ string_bytes text.old ++ sid_text sid.now) }
    ensures is { IsSid sid.now }
{
    sid.has_its_ranges();
    text.push_str(&sid.text(alloc)?)
}

fn type_text(is_object: bool, kind: AceKind) -> &'static str
    ensures { result.now ≡ type_text is_object kind }
{
    if is_object {
        match kind {
            AceKind::Allow => "OA",
            AceKind::Deny => "OD",
            AceKind::Audit => "OU",
        }
    } else {
        match kind {
            AceKind::Allow => "A",
            AceKind::Deny => "D",
            AceKind::Audit => "AU",
        }
    }
}

fn has_guid(ace: &Ace) -> bool
    ensures { result ≡ has_guid ace.now.object ace.now.inherited }
{
    ace.object.is_some() || ace.inherited.is_some()
}

fn push_entry(alloc: Global, text: &mut String, ace: &Ace) -> Result<(), AllocError>
    ensures text { OnOk result (string_bytes text.new ≡ string_bytes text.old
        ++ entry_text ace.now) }
{
    text.push_str("(")?;
    text.push_str(type_text(has_guid(ace), ace.kind))?;
    text.push_str(";")?;
    push_codes(text, flag_codes(), u32::from(ace.flags))?;
    text.push_str(";")?;
    push_rights(text, ace.mask)?;
    text.push_str(";")?;
    push_guid(alloc, text, &ace.object)?;
    text.push_str(";")?;
    push_guid(alloc, text, &ace.inherited)?;
    text.push_str(";")?;
    push_sid(alloc, text, &ace.sid)?;
    text.push_str(")")
}

fn push_list(alloc: Global, text: &mut String, list: &AceList) -> Result<(), AllocError>
    ensures text { OnOk result (string_bytes text.new ≡ string_bytes text.old
        ++ list_text list.now) }
    ensures are { OnOk result (AllByRecursion IsEntry list.now.entries) }
{
    if list.protected {
        text.push_str("P")?;
    }
    push_entries(alloc, text, list.entries.as_slice())
}

fn push_entries(alloc: Global, text: &mut String, entries: &[Ace]) -> Result<(), AllocError>
    ensures text { OnOk result (string_bytes text.new ≡ string_bytes text.old
        ++ flat_map entry_text entries.now) }
    ensures are { OnOk result (AllByRecursion IsEntry entries.now) }
{
    for ace in entries {
        push_entry(alloc, text, ace)?;
        entry_has_its_ranges(ace);
    }
    Ok(())
}

fn push_sid_part(
    alloc: Global,
    text: &mut String,
    head: &str,
    sid: &Option<Sid>,
) -> Result<(), AllocError>
    ensures text { OnOk result (string_bytes text.new ≡ string_bytes text.old
        ++ sid_part head.now sid.now) }
    ensures is { OnOk result (IsSidIf sid.now) }
{
    match sid {
        None => Ok(()),
        Some(sid) => {
            text.push_str(head)?;
            push_sid(alloc, text, sid)
        }
    }
}

fn push_list_part(
    alloc: Global,
    text: &mut String,
    head: &str,
    list: &Option<AceList>,
) -> Result<(), AllocError>
    ensures text { OnOk result (string_bytes text.new ≡ string_bytes text.old
        ++ list_part head.now list.now) }
    ensures are { OnOk result (AreEntriesIf list.now) }
{
    match list {
        None => Ok(()),
        Some(list) => {
            text.push_str(head)?;
            push_list(alloc, text, list)
        }
    }
}

#[tactic(auto, unfolding(crate::specs::Canonical::canonical))]
fn text_of_parts(alloc: Global, parts: &SdParts) -> Result<String, AllocError>
    ensures written { IfOk result (λ text. string_bytes text ≡ canonical parts.now) }
    ensures are { OnOk result (AreParts parts.now) }
{
    let mut text = String::new(alloc);
    push_sid_part(alloc, &mut text, "O:", &parts.owner)?;
    push_sid_part(alloc, &mut text, "G:", &parts.group)?;
    push_list_part(alloc, &mut text, "D:", &parts.dacl)?;
    push_list_part(alloc, &mut text, "S:", &parts.sacl)?;
    Ok(text)
}

#[tactic(auto, unfolding(crate::specs::Canonical::canonical))]
fn text_of_sd(alloc: Global, sd: &Sd) -> Result<String, AllocError>
    ensures written { IfOk result (λ text. string_bytes text ≡ canonical (all_parts sd.now)) }
    ensures are { OnOk result (AreParts (all_parts sd.now)) }
{
    let mut text = String::from_str(alloc, "O:")?;
    push_sid(alloc, &mut text, &sd.owner)?;
    text.push_str("G:")?;
    push_sid(alloc, &mut text, &sd.group)?;
    text.push_str("D:")?;
    push_list(alloc, &mut text, &sd.dacl)?;
    text.push_str("S:")?;
    push_list(alloc, &mut text, &sd.sacl)?;
    Ok(text)
}

/// Writes the parts as their one canonical text: in the order `O:`, `G:`, `D:`, `S:`, a list with `P` where it is
/// protected and no other flag, codes in capitals and in a fixed order, rights in hexadecimal where their codes
/// don't cover the mask, GUIDs in lower case, and identifiers as numbers. Of no parts the text is empty.
///
/// # Errors
///
/// Memory ran out.
pub fn print_parts(alloc: Global, parts: &SdParts) -> Result<String, AllocError>
    ensures written { IfOk result (λ text. string_bytes text ≡ canonical parts.now) }
    // Where a part is there, what is written encodes them, so that it is read as them again.
    ensures spelled { IfOk result (λ text. (IsEmpty parts.now → ⊥) → (domain : Option SidValue)
        → SpellsSddl domain parts.now (string_bytes text)) }
{
    text_of_parts(alloc, parts)
}

/// Writes the descriptor as its one canonical text, as [`print_parts`] does its four parts.
///
/// # Errors
///
/// Memory ran out.
pub fn print(alloc: Global, sd: &Sd) -> Result<String, AllocError>
    ensures written { IfOk result (λ text. string_bytes text ≡ canonical (all_parts sd.now)) }
    // What is written encodes the four parts, so that it is read as them again.
    ensures spelled { IfOk result (λ text. (domain : Option SidValue)
        → SpellsSddl domain (all_parts sd.now) (string_bytes text)) }
{
    text_of_sd(alloc, sd)
}
