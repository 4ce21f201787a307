//! How a list of entries is read ([MS-DTYP] 2.4.5).

ghost use Rattle.std.specs.Prelude.{◌≡◌, ◌++◌, List, ℕ, IfOk, IfErr, OnErr, Ok, Err, false};
ghost use Rattle.ad_bytes.specs.Reading.{Reads, ReadsUnless, GivesUnless, TakesFront, many_at};
ghost use Rattle.ad_acl.specs.Entry.{Entry};
ghost use Rattle.ad_acl.specs.Acl.{SpellsList};
ghost use Rattle.ad_acl.specs.Reading.{list_header_at, entry_at, list_at, is_memory};

use crate::ace::Ace;
use crate::entry::read_through;
use crate::fault::AclFault;
use ad_bytes::{Input, Short};
use std::alloc::Global;

/// The number of bytes of a list's header.
const HEADER_BYTES: u16 = 8;

/// The number of bytes of the smallest entry: its header, its mask, and an identifier of one sub-authority.
const SMALLEST_ENTRY: usize = 20;

#[derive(Clone, Copy)]
struct ListHeader {
    revision: u8,
    // In bytes, of the whole list.
    size: u16,
    // The number of entries.
    count: u16,
}

#[tactic(auto, unfolding(crate::specs::Reading::list_header_at))]
fn read_header(input: &mut Input<'_>) -> Result<ListHeader, Short>
    ensures { Reads result input.new (list_header_at input.old) }
{
    let revision = input.byte()?;
    input.byte()?;
    let size = input.le16()?;
    let count = input.le16()?;
    input.le16()?;
    Ok(ListHeader {
        revision,
        size,
        count,
    })
}

// The entries one after the other. Memory is taken once, for as many as the bytes can hold.
fn read_entries(alloc: Global, body: &mut Input<'_>, count: u16) -> Result<Vec<Ace>, AclFault>
    ensures { ReadsUnless is_memory (λ v. v.items) result body.new
        (many_at entry_at count body.old) }
{
    let room = usize::from(count).min(body.len() / SMALLEST_ENTRY);
    let mut entries = Vec::with_capacity(alloc, room)?;
    for _ in 0..count {
        let entry = read_through(body)?;
        entries.push(entry)?;
    }
    Ok(entries)
}

/// Reads a list at the start of the input ([MS-DTYP] 2.4.5), of which it consumes as many bytes as the
/// list's header tells.
///
/// # Errors
///
/// As [`read_acl`]. The input stays as it was.
pub fn read_list(alloc: Global, input: &mut Input<'_>) -> Result<Vec<Ace>, AclFault>
    ensures read { ReadsUnless is_memory (λ v. v.items) result input.new (list_at input.old) }
    ensures err { OnErr result (input.new ≡ input.old) }
{
    let mut probe = Input::new(input.rest());
    let list = list_through(alloc, &mut probe)?;
    *input = probe;
    Ok(list)
}

// The same, but after a fault the input stands somewhere within the list.
#[tactic(auto, unfolding(crate::specs::Reading::list_at))]
fn list_through(alloc: Global, input: &mut Input<'_>) -> Result<Vec<Ace>, AclFault>
    ensures { ReadsUnless is_memory (λ v. v.items) result input.new (list_at input.old) }
{
    let header = read_header(input)?;
    if header.revision != 2 && header.revision != 4 {
        return Err(AclFault::Revision(header.revision));
    }
    if header.size < HEADER_BYTES {
        return Err(AclFault::Size);
    }
    let Ok(mut body) = input.part(usize::from(header.size - HEADER_BYTES)) else {
        return Err(AclFault::Size);
    };
    read_entries(alloc, &mut body, header.count)
}

/// Reads the access control list that stands at the start of the bytes ([MS-DTYP] 2.4.5): its entries in
/// order. The flag 0x20 of an entry, unknown object flags, the bytes after an entry's identifier and those
/// after the last entry are dropped. Bytes may follow the list.
///
/// # Errors
///
/// The fault that stands first from the left: `Short` below 8 bytes, `Revision` where it is neither 2 nor 4,
/// and `Size` where the list's size is below 8 or above the bytes given. Then for each entry `AceSize` where
/// its header of 4 bytes passes the list, `AceKind` where its type isn't 0, 1, 2, 5, 6 or 7, `AceSize` where
/// its size is below 4 or passes the list, or where its mask, object flags and GUIDs pass the entry, and `Sid`
/// where its identifier has a fault. `Memory` may come instead of any answer.
pub fn read_acl(alloc: Global, bytes: &[u8]) -> Result<Vec<Ace>, AclFault>
    // What is read is encoded so, at the start of the bytes.
    ensures found { IfOk result (λ list. (rest : List ℕ) × TakesFront SpellsList bytes.now
        list.items rest) }
    // Whatever is encoded so is read, unless memory runs out.
    ensures only { (entries : List Entry) (text rest : List ℕ) → SpellsList entries text → bytes.now
        ≡ text ++ rest
        → GivesUnless is_memory (λ v. v.items) result (Ok entries) }
    // Which fault it is.
    ensures fault { IfErr result (λ fault. is_memory fault ≡ false → list_at bytes.now
        ≡ Err fault) }
{
    let mut input = Input::new(bytes);
    read_list(alloc, &mut input)
}
