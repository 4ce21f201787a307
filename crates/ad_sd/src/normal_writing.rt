//! The normal bytes of a descriptor.

ghost use Rattle.std.specs.Prelude.{◌≡◌, ◌++◌, ◌∷◌, [], length, IfOk, OnOk};
ghost use Rattle.std.specs.List.{flat_map, AllByRecursion};
ghost use Rattle.ad_bytes.specs.Numbers.{be_bytes};
ghost use Rattle.ad_ids.specs.Sid.{IsSid, sid_bytes};
ghost use Rattle.ad_acl.specs.Writing.{IsEntry, entry_bytes};
ghost use Rattle.ad_sd.specs.Normal.{marks_of, entries_bytes, AreEntries, SpellsNormal};

use crate::parts::Sd;
use ad_acl::{Ace, write_entry};
use ad_ids::{MAX_SID_BYTES, Sid};
use std::alloc::{AllocError, Global};

// Room for an entry: most take fewer bytes.
const ENTRY_ROOM: usize = 64;

// The most bytes of a descriptor beside its entries: the marks, two identifiers and two counts.
const BESIDE_ENTRIES: usize = 1 + 2 * MAX_SID_BYTES + 16;

fn marks_of(dacl: bool, sacl: bool) -> u8
    ensures { result ≡ marks_of dacl sacl }
{
    match (dacl, sacl) {
        (false, false) => 0,
        (true, false) => 1,
        (false, true) => 2,
        (true, true) => 3,
    }
}

fn put_sid(into: &mut Vec<u8>, sid: &Sid) -> Result<(), AllocError>
    ensures put { OnOk result (into.new.items ≡ into.old.items ++ sid_bytes sid.now) }
    ensures is { OnOk result (IsSid sid.now) }
{
    let mut buffer = [0; MAX_SID_BYTES];
    let len = sid.write(&mut buffer);
    into.extend_from_slice(&buffer[..len])
}

#[tactic(auto, unfolding(ad_bytes::specs::Numbers::be_bytes))]
fn put_count(into: &mut Vec<u8>, count: u64) -> Result<(), AllocError>
    ensures { OnOk result (into.new.items ≡ into.old.items ++ be_bytes 8 count) }
{
    into.extend_from_slice(&count.to_be_bytes())
}

fn each_written(alloc: Global, entries: &[Ace]) -> Result<Vec<u8>, AllocError>
    ensures written { IfOk result (λ v. v.items ≡ flat_map entry_bytes entries.now) }
    ensures are { OnOk result (AllByRecursion IsEntry entries.now) }
{
    let mut bytes = Vec::with_capacity(alloc, entries.len().saturating_mul(ENTRY_ROOM))?;
    for ace in entries {
        write_entry(&mut bytes, ace)?;
    }
    Ok(bytes)
}

// Puts a list whose entries are written so.
#[tactic(auto, unfolding(crate::specs::Normal::entries_bytes))]
fn put_entries(into: &mut Vec<u8>, entries: &[Ace], written: &[u8]) -> Result<(), AllocError>
    requires written { written.now ≡ flat_map entry_bytes entries.now }
    requires each { AllByRecursion IsEntry entries.now }
    ensures put { OnOk result (into.new.items ≡ into.old.items ++ entries_bytes entries.now) }
    ensures are { OnOk result (AreEntries entries.now) }
{
    put_count(into, entries.len() as u64)?;
    into.extend_from_slice(written)
}

// Room for the bytes of a descriptor whose lists' entries take so many.
fn room_for(dacl: usize, sacl: usize) -> usize {
    BESIDE_ENTRIES.saturating_add(dacl).saturating_add(sacl)
}

// Puts the descriptor whose lists' entries are written so.
fn put_normal(into: &mut Vec<u8>, sd: &Sd, allowed: &[u8], audited: &[u8]) -> Result<(), AllocError>
    requires empty { into.old.items ≡ [] }
    requires allowed { allowed.now ≡ flat_map entry_bytes sd.now.dacl.entries }
    requires each_allowed { AllByRecursion IsEntry sd.now.dacl.entries }
    requires audited { audited.now ≡ flat_map entry_bytes sd.now.sacl.entries }
    requires each_audited { AllByRecursion IsEntry sd.now.sacl.entries }
    ensures { OnOk result (SpellsNormal sd.now into.new.items) }
{
    let dacl = sd.dacl.entries.as_slice();
    let sacl = sd.sacl.entries.as_slice();
    into.push(marks_of(sd.dacl.protected, sd.sacl.protected))?;
    put_sid(into, &sd.owner)?;
    put_sid(into, &sd.group)?;
    put_entries(into, dacl, allowed)?;
    put_entries(into, sacl, audited)?;
    Ok(())
}

/// The normal bytes of the descriptor: a byte, 1 where the DACL is protected and 2 where the SACL
/// is; the owner and the group ([MS-DTYP] 2.4.2.2); the number of entries of the DACL in eight bytes, the
/// most significant first, and the entries as they are written ([MS-DTYP] 2.4.4); and so the SACL. Each
/// descriptor has one such encoding, and none begins another.
///
/// # Errors
///
/// Memory ran out.
pub fn normal(alloc: Global, sd: &Sd) -> Result<Vec<u8>, AllocError>
    ensures { IfOk result (λ v. SpellsNormal sd.now v.items) }
{
    let allowed = each_written(alloc, sd.dacl.entries.as_slice())?;
    let audited = each_written(alloc, sd.sacl.entries.as_slice())?;
    let mut bytes = Vec::with_capacity(alloc, room_for(allowed.len(), audited.len()))?;
    put_normal(&mut bytes, sd, &allowed, &audited)?;
    Ok(bytes)
}
