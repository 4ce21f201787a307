//! How one entry is read ([MS-DTYP] 2.4.4).

ghost use Rattle.std.specs.Prelude.{◌≡◌, bit_and, Ok, Err, OnErr};
ghost use Rattle.ad_bytes.specs.Reading.{Reads};
ghost use Rattle.ad_acl.specs.Entry.{says};
ghost use Rattle.ad_acl.specs.Reading.{header_at, shape_of, kept, which_at, guid_if, fixed_at, entry_at};

use crate::ace::Ace;
use crate::fault::AclFault;
use crate::kind::AceKind;
use ad_bytes::{Input, Short};
use ad_ids::{Guid, Sid};

/// The number of bytes of an entry's header.
const HEADER_BYTES: u16 = 4;

/// The flag that an entry doesn't keep.
const DROPPED_FLAG: u8 = 0x20;

/// The bit of the object flags that says that an object type stands.
const OBJECT_TYPE: u32 = 1;

/// The bit of the object flags that says that an inherited object type stands.
const INHERITED_TYPE: u32 = 2;

#[derive(Clone, Copy)]
struct Header {
    code: u8,
    flags: u8,
    // In bytes, of the whole entry.
    size: u16,
}

// What a type byte says: what the entry does, and whether object flags stand in it.
#[derive(Clone, Copy)]
struct Shape {
    kind: AceKind,
    is_object: bool,
}

// The fields between the header and the security identifier.
#[derive(Clone, Copy)]
struct Fixed {
    mask: u32,
    object: Option<Guid>,
    inherited: Option<Guid>,
}

#[tactic(auto, unfolding(crate::specs::Reading::header_at))]
fn read_header(input: &mut Input<'_>) -> Result<Header, Short>
    ensures { Reads result input.new (header_at input.old) }
{
    let code = input.byte()?;
    let flags = input.byte()?;
    let size = input.le16()?;
    Ok(Header { code, flags, size })
}

#[tactic(auto, unfolding(crate::specs::Reading::shape_of))]
fn told_by(code: u8) -> Result<Shape, AclFault>
    ensures { result ≡ shape_of code }
{
    let (kind, is_object) = match code {
        0 => (AceKind::Allow, false),
        1 => (AceKind::Deny, false),
        2 => (AceKind::Audit, false),
        5 => (AceKind::Allow, true),
        6 => (AceKind::Deny, true),
        7 => (AceKind::Audit, true),
        _ => return Err(AclFault::AceKind(code)),
    };
    Ok(Shape { kind, is_object })
}

fn kept_flags(flags: u8) -> u8
    ensures value { result ≡ kept flags }
    ensures clear { bit_and result 32 ≡ 0 }
{
    flags & !DROPPED_FLAG
}

fn object_flags(input: &mut Input<'_>, is_object: bool) -> Result<u32, Short>
    ensures { Reads result input.new (which_at is_object input.old) }
{
    if is_object { input.le32() } else { Ok(0) }
}

#[tactic(auto, unfolding(crate::specs::Reading::guid_if))]
fn read_guid(input: &mut Input<'_>, stands: bool) -> Result<Option<Guid>, Short>
    ensures { Reads result input.new (guid_if stands input.old) }
{
    if !stands {
        return Ok(None);
    }
    let guid = Guid::read(input)?;
    Ok(Some(guid))
}

#[tactic(auto, unfolding(crate::specs::Reading::fixed_at))]
fn read_fixed(input: &mut Input<'_>, is_object: bool) -> Result<Fixed, Short>
    ensures { Reads result input.new (fixed_at is_object input.old) }
{
    let mask = input.le32()?;
    let which = object_flags(input, is_object)?;
    let object = read_guid(input, which & OBJECT_TYPE != 0)?;
    let inherited = read_guid(input, which & INHERITED_TYPE != 0)?;
    Ok(Fixed {
        mask,
        object,
        inherited,
    })
}

/// Reads an entry at the start of the rest of a list ([MS-DTYP] 2.4.4).
///
/// # Errors
///
/// As [`read_acl`](crate::read_acl) says of each entry. The input stays as it was.
pub fn read_entry(input: &mut Input<'_>) -> Result<Ace, AclFault>
    ensures read { Reads result input.new (entry_at input.old) }
    ensures err { OnErr result (input.new ≡ input.old) }
{
    let mut probe = Input::new(input.rest());
    let ace = read_through(&mut probe)?;
    *input = probe;
    Ok(ace)
}

// The same, but after a fault the input stands somewhere within the entry.
#[tactic(auto, unfolding(crate::specs::Reading::entry_at))]
pub(crate) fn read_through(input: &mut Input<'_>) -> Result<Ace, AclFault>
    ensures { Reads result input.new (entry_at input.old) }
{
    let Ok(header) = read_header(input) else {
        return Err(AclFault::AceSize);
    };
    let shape = told_by(header.code)?;
    if header.size < HEADER_BYTES {
        return Err(AclFault::AceSize);
    }
    let Ok(mut body) = input.part(usize::from(header.size - HEADER_BYTES)) else {
        return Err(AclFault::AceSize);
    };
    let Ok(fixed) = read_fixed(&mut body, shape.is_object) else {
        return Err(AclFault::AceSize);
    };
    let sid = Sid::read(&mut body)?;
    Ok(Ace {
        kind: shape.kind,
        flags: kept_flags(header.flags),
        mask: fixed.mask,
        object: fixed.object,
        inherited: fixed.inherited,
        sid,
    })
}
