//! How a list of entries is written ([MS-DTYP] 2.4.5).

ghost use Rattle.std.specs.Prelude.{◌≡◌, ◌++◌, ◌∷◌, ◌+◌, ◌<◌, ◌≤◌, List, length, IfOk, IfErr, OnOk, if◌then◌else◌};
ghost use Rattle.std.specs.List.{flat_map, list_any, AllByRecursion};
ghost use Rattle.ad_bytes.specs.Reading.{GivesUnless};
ghost use Rattle.ad_bytes.specs.Numbers.{le_bytes};
ghost use Rattle.ad_acl.specs.declared.write_fault.AclWriteFault.TheVariants.{TooLong};
ghost use Rattle.ad_acl.specs.Entry.{Entry};
ghost use Rattle.ad_acl.specs.Acl.{SpellsList};
ghost use Rattle.ad_acl.specs.Writing.{IsEntry, entry_bytes, is_object_entry, written, is_memory};

use crate::ace::Ace;
use crate::entry_writing::{has_guid, write_entry};
use crate::write_fault::AclWriteFault;
use std::alloc::{AllocError, Global};

/// The number of bytes of a list's header.
const HEADER_BYTES: usize = 8;

/// The largest number of bytes that the size of a list says.
const MAX_BYTES: usize = 65_535;

// The entries one after the other, where they fit into a list.
fn entries_written(alloc: Global, list: &[Ace]) -> Result<Vec<u8>, AclWriteFault>
    ensures written { IfOk result (λ v. v.items ≡ flat_map entry_bytes list.now) }
    ensures are { OnOk result (AllByRecursion IsEntry list.now) }
    ensures fit { IfOk result (λ v. 8 + length v.items ≤ 65535) }
    ensures too_long { IfErr result
        (λ fault. fault ≡ TooLong → 65535 < 8 + length (flat_map entry_bytes list.now)) }
{
    let mut bytes = Vec::new(alloc);
    for ace in list {
        write_entry(&mut bytes, ace)?;
        if bytes.len() > MAX_BYTES - HEADER_BYTES {
            return Err(AclWriteFault::TooLong);
        }
    }
    Ok(bytes)
}

// Whether an entry with a GUID stands in the list.
fn has_object_entry(list: &[Ace]) -> bool
    ensures { result ≡ list_any is_object_entry list.now }
{
    list.iter().any(|ace| has_guid(&ace.object, &ace.inherited))
}

fn revision_by(has_guid: bool) -> u8
    ensures { result ≡ (if has_guid then 4 else 2) }
{
    if has_guid { 4 } else { 2 }
}

// Puts the header: the revision, the size of the whole list, and the number of its entries.
#[tactic(auto, unfolding(ad_bytes::specs::Numbers::le_bytes))]
fn put_header(into: &mut Vec<u8>, revision: u8, size: u16, count: u16) -> Result<(), AllocError>
    ensures { OnOk result (into.new.items ≡ into.old.items ++ revision ∷ 0 ∷ le_bytes 2 size
        ++ (le_bytes 2 count ++ le_bytes 2 0)) }
{
    into.extend_from_slice(&[revision, 0])?;
    into.extend_from_slice(&size.to_le_bytes())?;
    into.extend_from_slice(&count.to_le_bytes())?;
    into.extend_from_slice(&[0, 0])?;
    Ok(())
}

/// Writes the list whose entries, so many, stand in the bytes as they are written, one after the other ([MS-DTYP]
/// 2.4.5). `has_guid` says whether one of them has a GUID.
///
/// # Errors
///
/// As [`write_acl`].
pub fn write_list_of(
    alloc: Global,
    entries: &[u8],
    count: usize,
    has_guid: bool,
) -> Result<Vec<u8>, AclWriteFault>
    // Each entry takes a byte at least.
    requires { count ≤ length entries.now }
    ensures written { (list : List Entry) → entries.now ≡ flat_map entry_bytes list → count
        ≡ length list
        → has_guid ≡ list_any is_object_entry list → GivesUnless is_memory (λ v. v.items) result
        (written list) }
    ensures few { IfOk result (λ v. length v.items ≤ 65535) }
{
    if entries.len() > MAX_BYTES - HEADER_BYTES {
        return Err(AclWriteFault::TooLong);
    }
    let size = HEADER_BYTES + entries.len();
    let mut bytes = Vec::with_capacity(alloc, size)?;
    put_header(&mut bytes, revision_by(has_guid), size as u16, count as u16)?;
    bytes.extend_from_slice(entries)?;
    Ok(bytes)
}

/// Writes the list in its one canonical encoding ([MS-DTYP] 2.4.5): revision 4 where an entry with a GUID
/// stands in it and 2 otherwise, an entry with object flags exactly where it has a GUID, the bytes that say
/// nothing 0, and nothing after an identifier or after the last entry.
///
/// # Errors
///
/// `TooLong` exactly where the list takes more than 65,535 bytes. `Memory` may come instead of any answer.
pub fn write_acl(alloc: Global, list: &[Ace]) -> Result<Vec<u8>, AclWriteFault>
    // What is written, and when nothing is.
    ensures written { GivesUnless is_memory (λ v. v.items) result (written list.now) }
    // What is written encodes the list, so that it is read as the list again.
    ensures spelled { IfOk result (λ v. SpellsList list.now v.items) }
{
    let entries = entries_written(alloc, list)?;
    let has_guid = has_object_entry(list);
    write_list_of(alloc, entries.as_slice(), list.len(), has_guid)
}
