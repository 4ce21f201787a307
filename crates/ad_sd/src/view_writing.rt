//! How the parts of a view are written.

ghost use Rattle.std.specs.Prelude.{◌≡◌, IfOk};
ghost use Rattle.ad_bytes.specs.Reading.{GivesUnless};
ghost use Rattle.ad_acl.specs.Entry.{says};
ghost use Rattle.ad_acl.specs.Writing.{is_memory};
ghost use Rattle.ad_sd.specs.Sd.{SpellsParts};
ghost use Rattle.ad_sd.specs.Seen.{seen};
ghost use Rattle.ad_sd.specs.Shown.{asked, parts_shown};
ghost use Rattle.ad_sd.specs.View.{entries_left};
ghost use Rattle.ad_sd.specs.Writing.{written};

use crate::entries::Entries;
use crate::parts::{AceList, SdParts};
use crate::view::{SdView, collected};
use crate::writing::write_parts;
use ad_acl::AclWriteFault;
use ad_ids::Sid;
use std::alloc::{AllocError, Global};

fn asked_sid(wanted: bool, sid: Sid) -> Option<Sid>
    ensures { result ≡ asked wanted sid }
{
    if wanted { Some(sid) } else { None }
}

// The list, where it is wanted. Where it isn't, none of its entries is decoded.
fn asked_list(
    alloc: Global,
    wanted: bool,
    protected: bool,
    entries: Entries<'_>,
) -> Result<Option<AceList>, AllocError>
    ensures { IfOk result (λ list. list
        ≡ asked wanted (record { protected = protected; entries = entries_left entries.entry })) }
{
    if !wanted {
        return Ok(None);
    }
    let entries = collected(alloc, entries)?;
    Ok(Some(AceList { protected, entries }))
}

// The DACL, where it is asked for.
fn asked_dacl(alloc: Global, view: &SdView<'_>, parts: u8) -> Result<Option<AceList>, AllocError>
    ensures { IfOk result (λ list. list ≡ asked (says parts 4) (seen view.now).dacl) }
{
    asked_list(alloc, parts & 4 != 0, view.dacl_protected(), view.dacl())
}

// The SACL, where it is asked for. Where it isn't, it isn't looked for after the other.
fn asked_sacl(alloc: Global, view: &SdView<'_>, parts: u8) -> Result<Option<AceList>, AllocError>
    ensures { IfOk result (λ list. list ≡ asked (says parts 8) (seen view.now).sacl) }
{
    if parts & 8 == 0 {
        return Ok(None);
    }
    asked_list(alloc, true, view.sacl_protected(), view.sacl())
}

// The parts that are asked for.
fn parts_shown(alloc: Global, view: &SdView<'_>, parts: u8) -> Result<SdParts, AllocError>
    ensures { IfOk result (λ shown. shown ≡ parts_shown (seen view.now) parts) }
{
    let dacl = asked_dacl(alloc, view, parts)?;
    let sacl = asked_sacl(alloc, view, parts)?;
    Ok(SdParts {
        owner: asked_sid(parts & 1 != 0, view.owner()),
        group: asked_sid(parts & 2 != 0, view.group()),
        dacl,
        sacl,
    })
}

/// Writes the parts of the descriptor that are asked for, as [`write_parts`] does: 1 is the owner, 2 the group, 4 the
/// DACL and 8 the SACL. The other bits ask for nothing.
///
/// # Errors
///
/// `TooLong` exactly where a list that is asked for takes more than 65,535 bytes. `Memory` may come instead of any
/// answer.
pub fn write_view(alloc: Global, view: SdView<'_>, parts: u8) -> Result<Vec<u8>, AclWriteFault>
    // What is written, and when nothing is.
    ensures written { GivesUnless is_memory (λ v. v.items) result
        (written (parts_shown (seen view.entry) parts)) }
    // What is written encodes the parts, so that it is read as them again.
    ensures spelled { IfOk result (λ v. SpellsParts (parts_shown (seen view.entry) parts) v.items) }
{
    write_shown(alloc, &view, parts)
}

fn write_shown(alloc: Global, view: &SdView<'_>, parts: u8) -> Result<Vec<u8>, AclWriteFault>
    ensures written { GivesUnless is_memory (λ v. v.items) result
        (written (parts_shown (seen view.now) parts)) }
    ensures spelled { IfOk result (λ v. SpellsParts (parts_shown (seen view.now) parts) v.items) }
{
    let shown = parts_shown(alloc, view, parts)?;
    write_parts(alloc, &shown)
}
