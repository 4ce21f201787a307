//! How the parts of a descriptor are written ([MS-DTYP] 2.4.6).

ghost use Rattle.std.specs.Prelude.{◌≡◌, ◌++◌, ◌+◌, ◌^◌, ◌<◌, ◌≤◌, ◌∷◌, ℕ, length, take, IfOk, OnOk};
ghost use Rattle.std.specs.Option.{is_some};
ghost use Rattle.ad_bytes.specs.Reading.{GivesUnless};
ghost use Rattle.ad_bytes.specs.Numbers.{le_bytes};
ghost use Rattle.ad_ids.specs.Sid.{IsSid, SpellsSid, sid_bytes};
ghost use Rattle.ad_acl.specs.Writing.{is_memory};
ghost use Rattle.ad_sd.specs.Sd.{SpellsParts, headed};
ghost use Rattle.ad_sd.specs.Writing.{sid_part, list_part, IsSidIf, SpellsListIf, dacl_bits, sacl_bits, offset_if};
ghost use Rattle.ad_sd.specs.Writing.{laid_out, written};

use crate::parts::{AceList, SdParts};
use ad_acl::{AclWriteFault, write_acl};
use ad_ids::{MAX_SID_BYTES, Sid};
use std::alloc::{AllocError, Global};

/// The number of bytes of a descriptor's header.
const HEADER_BYTES: usize = 20;

/// The control bit of a descriptor whose parts stand after its header.
const SELF_RELATIVE: u16 = 0x8000;

fn sid_written(alloc: Global, sid: &Sid) -> Result<Vec<u8>, AllocError>
    ensures bytes { IfOk result (λ v. v.items ≡ sid_bytes sid.now) }
    ensures few { IfOk result (λ v. length v.items ≤ 68) }
    ensures is { IsSid sid.now }
{
    let mut buffer = [0; MAX_SID_BYTES];
    let len = sid.write(&mut buffer);
    Vec::from_slice(alloc, &buffer[..len])
}

fn sid_part(alloc: Global, sid: &Option<Sid>) -> Result<Vec<u8>, AllocError>
    ensures bytes { IfOk result (λ v. v.items ≡ sid_part sid.now) }
    ensures few { IfOk result (λ v. length v.items ≤ 68) }
    ensures is { IsSidIf sid.now }
{
    match sid {
        None => Ok(Vec::new(alloc)),
        Some(sid) => sid_written(alloc, sid),
    }
}

fn list_part(alloc: Global, list: &Option<AceList>) -> Result<Vec<u8>, AclWriteFault>
    ensures bytes { GivesUnless is_memory (λ v. v.items) result (list_part list.now) }
    ensures spelled { IfOk result (λ v. SpellsListIf list.now v.items) }
    ensures few { IfOk result (λ v. length v.items ≤ 65535) }
{
    match list {
        None => Ok(Vec::new(alloc)),
        Some(list) => write_acl(alloc, list.entries.as_slice()),
    }
}

fn dacl_bits(list: &Option<AceList>) -> u16
    ensures bits { result ≡ dacl_bits list.now }
    ensures few { result ≤ 0x1404 }
{
    match list {
        None => 0,
        Some(list) => if list.protected { 0x1404 } else { 0x404 },
    }
}

fn sacl_bits(list: &Option<AceList>) -> u16
    ensures bits { result ≡ sacl_bits list.now }
    ensures few { result ≤ 0x2810 }
{
    match list {
        None => 0,
        Some(list) => if list.protected { 0x2810 } else { 0x810 },
    }
}

// The offset of a part, which is 0 where the part is absent.
fn offset_if(there: bool, at: usize) -> u32
    requires { at < 2 ^ 32 }
    ensures { result ≡ offset_if there at }
{
    if there { at as u32 } else { 0 }
}

#[derive(Clone, Copy)]
struct Offsets {
    owner: u32,
    group: u32,
    sacl: u32,
    dacl: u32,
}

#[tactic(auto, unfolding(ad_bytes::specs::Numbers::le_bytes))]
fn put_header(into: &mut Vec<u8>, control: u16, at: Offsets) -> Result<(), AllocError>
    ensures { OnOk result (into.new.items ≡ into.old.items ++ 1 ∷ 0 ∷ le_bytes 2 control
        ++ (le_bytes 4 at.owner ++ (le_bytes 4 at.group
        ++ (le_bytes 4 at.sacl ++ le_bytes 4 at.dacl)))) }
{
    into.extend_from_slice(&[1, 0])?;
    into.extend_from_slice(&control.to_le_bytes())?;
    into.extend_from_slice(&at.owner.to_le_bytes())?;
    into.extend_from_slice(&at.group.to_le_bytes())?;
    into.extend_from_slice(&at.sacl.to_le_bytes())?;
    into.extend_from_slice(&at.dacl.to_le_bytes())?;
    Ok(())
}

// The control bits of the parts.
fn control_of(parts: &SdParts) -> u16
    ensures { result ≡ 0x8000 + dacl_bits parts.now.dacl + sacl_bits parts.now.sacl }
{
    SELF_RELATIVE + dacl_bits(&parts.dacl) + sacl_bits(&parts.sacl)
}

// Where each part stands, after the header and those before it, which have so many bytes.
fn offsets_of(parts: &SdParts, owner: usize, group: usize, sacl: usize) -> Offsets
    requires { 20 + owner + group + sacl < 2 ^ 32 }
    ensures owner { result.owner ≡ offset_if (is_some parts.now.owner) 20 }
    ensures group { result.group ≡ offset_if (is_some parts.now.group) (20 + owner) }
    ensures sacl { result.sacl ≡ offset_if (is_some parts.now.sacl) (20 + owner + group) }
    ensures dacl { result.dacl ≡ offset_if (is_some parts.now.dacl) (20 + owner + group + sacl) }
{
    let group_at = HEADER_BYTES + owner;
    let sacl_at = group_at + group;
    Offsets {
        owner: offset_if(parts.owner.is_some(), HEADER_BYTES),
        group: offset_if(parts.group.is_some(), group_at),
        sacl: offset_if(parts.sacl.is_some(), sacl_at),
        dacl: offset_if(parts.dacl.is_some(), sacl_at + sacl),
    }
}

// Puts the bytes of the parts after the header.
fn put_parts(
    into: &mut Vec<u8>,
    owner: &[u8],
    group: &[u8],
    sacl: &[u8],
    dacl: &[u8],
) -> Result<(), AllocError>
    ensures { OnOk result (into.new.items ≡ into.old.items ++ owner.now ++ group.now ++ sacl.now
        ++ dacl.now) }
{
    into.extend_from_slice(owner)?;
    into.extend_from_slice(group)?;
    into.extend_from_slice(sacl)?;
    into.extend_from_slice(dacl)?;
    Ok(())
}

// The descriptor of parts with these bytes.
fn laid_out(
    alloc: Global,
    parts: &SdParts,
    owner: &[u8],
    group: &[u8],
    sacl: &[u8],
    dacl: &[u8],
) -> Result<Vec<u8>, AllocError>
    requires owner { owner.now ≡ sid_part parts.now.owner }
    requires group { group.now ≡ sid_part parts.now.group }
    requires few { length owner.now + length group.now + length sacl.now + length dacl.now
        < 2 ^ 18 }
    ensures { IfOk result (λ v. v.items ≡ laid_out parts.now sacl.now dacl.now) }
{
    let offsets = offsets_of(parts, owner.len(), group.len(), sacl.len());
    let size = HEADER_BYTES + owner.len() + group.len() + sacl.len() + dacl.len();
    let mut bytes = Vec::with_capacity(alloc, size)?;
    put_header(&mut bytes, control_of(parts), offsets)?;
    put_parts(&mut bytes, owner, group, sacl, dacl)?;
    Ok(bytes)
}

/// Writes the parts as a self-relative descriptor in its one canonical encoding ([MS-DTYP] 2.4.6): revision 1, the
/// control bits 0x8000, 0x0404 with a DACL and 0x1000 where it is protected, 0x0810 with a SACL
/// and 0x2000 where it is protected; then owner, group, SACL and DACL without gaps. An absent part
/// has offset 0.
///
/// # Errors
///
/// `TooLong` exactly where a list takes more than 65,535 bytes. `Memory` may come instead of any answer.
#[tactic(auto, unfolding(crate::specs::Writing::written))]
pub fn write_parts(alloc: Global, parts: &SdParts) -> Result<Vec<u8>, AclWriteFault>
    // What is written, and when nothing is.
    ensures written { GivesUnless is_memory (λ v. v.items) result (written parts.now) }
    // What is written encodes the parts, so that it is read as them again.
    ensures spelled { IfOk result (λ v. SpellsParts parts.now v.items) }
{
    let sacl = list_part(alloc, &parts.sacl)?;
    let dacl = list_part(alloc, &parts.dacl)?;
    let owner = sid_part(alloc, &parts.owner)?;
    let group = sid_part(alloc, &parts.group)?;
    let bytes = laid_out(alloc, parts, &owner, &group, &sacl, &dacl)?;
    Ok(bytes)
}
