//! How a self-relative descriptor is read ([MS-DTYP] 2.4.6).

ghost use Rattle.std.specs.Prelude.{◌≡◌, Ok, IfOk};
ghost use Rattle.ad_bytes.specs.Reading.{Reads, GivesUnless};
ghost use Rattle.ad_acl.specs.Entry.{says};
ghost use Rattle.ad_sd.specs.declared.parts.Sd.{Sd as SdValue};
ghost use Rattle.ad_sd.specs.declared.parts.SdParts.{SdParts as PartsValue};
ghost use Rattle.ad_sd.specs.Sd.{SpellsParts, SpellsSd, list_or_empty};
ghost use Rattle.ad_sd.specs.Reading.{is_memory, header_at, from_offset, sid_named, list_named, sid_of};
ghost use Rattle.ad_sd.specs.Reading.{present_list, sacl_of, dacl_of, parts_of, sd_of, of_list};

use crate::fault::SdFault;
use crate::parts::{AceList, Sd, SdParts};
use ad_acl::{Aces, AclFault, read_list};
use ad_bytes::{Input, Short};
use ad_ids::{Sid, SidFault};
use std::alloc::Global;

/// The control bit that says that a DACL is there.
const DACL_PRESENT: u16 = 0x4;
/// The control bit that says that a SACL is there.
const SACL_PRESENT: u16 = 0x10;
/// The control bit of a protected DACL.
const DACL_PROTECTED: u16 = 0x1000;
/// The control bit of a protected SACL.
const SACL_PROTECTED: u16 = 0x2000;

#[derive(Clone, Copy)]
struct Header {
    revision: u8,
    control: u16,
    // The offsets of the parts, in bytes from the start of the descriptor.
    owner: u32,
    group: u32,
    sacl: u32,
    dacl: u32,
}

#[tactic(auto, unfolding(crate::specs::Reading::header_at))]
fn read_header(input: &mut Input<'_>) -> Result<Header, Short>
    ensures { Reads result input.new (header_at input.old) }
{
    let revision = input.byte()?;
    input.byte()?;
    let control = input.le16()?;
    let owner = input.le32()?;
    let group = input.le32()?;
    let sacl = input.le32()?;
    let dacl = input.le32()?;
    Ok(Header {
        revision,
        control,
        owner,
        group,
        sacl,
        dacl,
    })
}

// The bytes of a part, from its offset on.
#[tactic(auto, unfolding(crate::specs::Reading::from_offset))]
fn from_offset(bytes: &[u8], part: u8, offset: u32) -> Result<Input<'_>, SdFault>
    ensures { result ≡ from_offset part offset bytes.now }
{
    let offset = offset as usize;
    if offset >= bytes.len() {
        return Err(SdFault::Offset(part));
    }
    Ok(Input::new(&bytes[offset..]))
}

// What the fault of an identifier is in a part, which is the owner (1) or the group (2).
fn sid_fault(part: u8, fault: SidFault) -> SdFault
    ensures { result ≡ sid_named part fault }
{
    if part == 1 {
        SdFault::Owner(fault)
    } else {
        SdFault::Group(fault)
    }
}

// The identifier of such a part.
#[tactic(auto, unfolding(crate::specs::Reading::present_sid))]
fn read_sid(bytes: &[u8], part: u8, offset: u32) -> Result<Option<Sid>, SdFault>
    ensures { result ≡ sid_of part (sid_named part) offset bytes.now }
{
    if offset == 0 {
        return Ok(None);
    }
    let mut input = from_offset(bytes, part, offset)?;
    match Sid::read(&mut input) {
        Ok(sid) => Ok(Some(sid)),
        Err(fault) => Err(sid_fault(part, fault)),
    }
}

// What the fault of a list is in a part, which is the discretionary (4) or the SACL (8).
fn list_fault(part: u8, fault: AclFault) -> SdFault
    ensures { result ≡ of_list (list_named part) fault }
{
    match fault {
        AclFault::Memory => SdFault::Memory,
        fault => {
            if part == 8 {
                SdFault::Sacl(fault)
            } else {
                SdFault::Dacl(fault)
            }
        }
    }
}

// The list of such a part, which isn't absent.
#[tactic(auto, unfolding(crate::specs::Reading::present_list))]
fn read_present(
    alloc: Global,
    bytes: &[u8],
    part: u8,
    protected: bool,
    offset: u32,
) -> Result<Option<AceList>, SdFault>
    ensures { GivesUnless is_memory (λ list. list) result
        (present_list part (list_named part) protected offset bytes.now) }
{
    let mut input = from_offset(bytes, part, offset)?;
    match read_list(alloc, &mut input) {
        Ok(entries) => Ok(Some(AceList {
            protected,
            entries: Aces::from_vec(entries),
        })),
        Err(fault) => Err(list_fault(part, fault)),
    }
}

fn read_sacl(
    alloc: Global,
    bytes: &[u8],
    control: u16,
    offset: u32,
) -> Result<Option<AceList>, SdFault>
    ensures { GivesUnless is_memory (λ list. list) result (sacl_of control offset bytes.now) }
{
    if control & SACL_PRESENT == 0 || offset == 0 {
        return Ok(None);
    }
    read_present(alloc, bytes, 8, control & SACL_PROTECTED != 0, offset)
}

fn read_dacl(
    alloc: Global,
    bytes: &[u8],
    control: u16,
    offset: u32,
) -> Result<Option<AceList>, SdFault>
    ensures { GivesUnless is_memory (λ list. list) result (dacl_of control offset bytes.now) }
{
    if control & DACL_PRESENT == 0 {
        return Ok(None);
    }
    if offset == 0 {
        return Err(SdFault::NullDacl);
    }
    read_present(alloc, bytes, 4, control & DACL_PROTECTED != 0, offset)
}

#[tactic(auto, unfolding(crate::specs::Reading::parts_of))]
fn parts(alloc: Global, bytes: &[u8]) -> Result<SdParts, SdFault>
    ensures { GivesUnless is_memory (λ parts. parts) result (parts_of bytes.now) }
{
    let mut input = Input::new(bytes);
    let header = read_header(&mut input)?;
    if header.revision != 1 {
        return Err(SdFault::Revision(header.revision));
    }
    let owner = read_sid(bytes, 1, header.owner)?;
    let group = read_sid(bytes, 2, header.group)?;
    let sacl = read_sacl(alloc, bytes, header.control, header.sacl)?;
    let dacl = read_dacl(alloc, bytes, header.control, header.dacl)?;
    Ok(SdParts {
        owner,
        group,
        dacl,
        sacl,
    })
}

/// Reads the self-relative descriptor that the bytes are ([MS-DTYP] 2.4.6): revision 1, a byte, the control bits in
/// two bytes, and the offsets of owner, group, SACL and DACL in four bytes each, the least
/// significant byte first. The parts may stand in any order and overlap. Owner and group are absent at offset 0, the
/// SACL at offset 0 or without the control bit 0x10, and the DACL without 0x4. The bits 0x1000
/// and 0x2000 protect the DACL and SACL; other bits aren't looked at.
///
/// # Errors
///
/// The first in this order: `Short` below 20 bytes, `Revision` where it isn't 1, and then for the owner, the group,
/// the SACL and the DACL `Offset` where the part isn't absent and its offset is at the end of the
/// bytes or after it, and `Owner`, `Group`, `Sacl`, `Dacl` where it can't be read. `NullDacl` where the
/// DACL isn't absent and its offset is 0. `Memory` may come instead of any answer.
pub fn read_parts(alloc: Global, bytes: &[u8]) -> Result<SdParts, SdFault>
    // What is read is encoded so.
    ensures found { IfOk result (λ parts. SpellsParts parts bytes.now) }
    // Whatever is encoded so is read, unless memory ran out.
    ensures only { (parts : PartsValue) → SpellsParts parts bytes.now
        → GivesUnless is_memory (λ parts. parts) result (Ok parts) }
    // Which fault it is.
    ensures fault { GivesUnless is_memory (λ parts. parts) result (parts_of bytes.now) }
{
    parts(alloc, bytes)
}

// The list, or an empty one where it is absent.
fn list_or_empty(alloc: Global, list: Option<AceList>) -> AceList
    ensures { result ≡ list_or_empty list }
{
    match list {
        Some(list) => list,
        None => AceList {
            protected: false,
            entries: Aces::new(alloc),
        },
    }
}

#[tactic(auto, unfolding(crate::specs::Reading::sd_of))]
fn whole(alloc: Global, bytes: &[u8]) -> Result<Sd, SdFault>
    ensures { GivesUnless is_memory (λ sd. sd) result (sd_of bytes.now) }
{
    let SdParts {
        owner,
        group,
        dacl,
        sacl,
    } = parts(alloc, bytes)?;
    let Some(owner) = owner else {
        return Err(SdFault::NoOwner);
    };
    let Some(group) = group else {
        return Err(SdFault::NoGroup);
    };
    let Some(dacl) = dacl else {
        return Err(SdFault::NoDacl);
    };
    Ok(Sd {
        owner,
        group,
        dacl,
        sacl: list_or_empty(alloc, sacl),
    })
}

/// Reads the self-relative descriptor that the bytes are, all of whose parts are there but for the SACL, which
/// is empty and not protected where it is absent.
///
/// # Errors
///
/// Those of [`read_parts`], and after them `NoOwner`, `NoGroup` and `NoDacl` where that part is absent.
pub fn read_sd(alloc: Global, bytes: &[u8]) -> Result<Sd, SdFault>
    // What is read is encoded so.
    ensures found { IfOk result (λ sd. SpellsSd sd bytes.now) }
    // Whatever is encoded so is read, unless memory ran out.
    ensures only { (sd : SdValue) → SpellsSd sd bytes.now → GivesUnless is_memory (λ sd. sd) result
        (Ok sd) }
    // Which fault it is.
    ensures fault { GivesUnless is_memory (λ sd. sd) result (sd_of bytes.now) }
{
    whole(alloc, bytes)
}
