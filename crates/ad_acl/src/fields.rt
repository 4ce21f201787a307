//! The fields of an entry, in the bytes in which it stands ([MS-DTYP] 2.4.4).

ghost use Rattle.std.specs.Prelude.{◌≡◌, ◌+◌, ◌≤◌, ℕ, List, Ok, true, length, take, drop, bit_and};
ghost use Rattle.ad_ids.specs.SidReading.{sid_at};
ghost use Rattle.byteorder.specs.Endian.{little_number};
ghost use Rattle.ad_acl.specs.EntryIn.{entry_in, is_entry};
ghost use Rattle.ad_acl.specs.Offsets.{kind_of, which_in, guid_len, guids_offset, sid_offset};

use crate::kind::AceKind;
use ad_bytes::Input;
use ad_ids::{Guid, Sid};
use byteorder::{ByteOrder, LittleEndian};

/// The flag that an entry doesn't keep.
const DROPPED_FLAG: u8 = 0x20;

/// The first of the types whose entries have object flags.
const FIRST_OBJECT_TYPE: u8 = 5;

/// The bit of the object flags that says that an object type stands.
const OBJECT_TYPE: u32 = 1;

/// The bit of the object flags that says that an inherited object type stands.
const INHERITED_TYPE: u32 = 2;

#[inline]
fn tail(bytes: &[u8], at: usize) -> &[u8]
    requires { at ≤ length bytes.now }
    ensures { result.now ≡ drop at bytes.now }
{
    &bytes[at..]
}

/// The number in the two bytes at the offset, the least significant first.
#[inline]
pub(crate) fn number16(bytes: &[u8], at: usize) -> u16
    requires { at + 2 ≤ length bytes.now }
    ensures { result ≡ little_number 2 (drop at bytes.now) }
{
    LittleEndian::read_u16(&bytes[at..])
}

/// The number in the four bytes at the offset, the least significant first.
#[inline]
pub(crate) fn number32(bytes: &[u8], at: usize) -> u32
    requires { at + 4 ≤ length bytes.now }
    ensures { result ≡ little_number 4 (drop at bytes.now) }
{
    LittleEndian::read_u32(&bytes[at..])
}

#[inline]
fn guid_at(bytes: &[u8], at: usize) -> Guid
    requires { at + 16 ≤ length bytes.now }
    ensures { result ≡ record { bytes = take 16 (drop at bytes.now) } }
{
    let mut guid = [0; 16];
    guid.copy_from_slice(&bytes[at..at + 16]);
    Guid { bytes: guid }
}

// What an entry with this type byte does.
#[inline]
fn kind_of(code: u8) -> AceKind
    ensures { result ≡ kind_of code }
{
    match code {
        0 => AceKind::Allow,
        1 => AceKind::Deny,
        5 => AceKind::Allow,
        6 => AceKind::Deny,
        _ => AceKind::Audit,
    }
}

#[inline]
pub(crate) fn kind_in(bytes: &[u8]) -> AceKind
    requires { is_entry bytes.now ≡ true }
    ensures { result ≡ (entry_in bytes.now).kind }
{
    kind_of(bytes[0])
}

#[inline]
pub(crate) fn flags_in(bytes: &[u8]) -> u8
    requires { is_entry bytes.now ≡ true }
    ensures value { result ≡ (entry_in bytes.now).flags }
    ensures clear { bit_and result 32 ≡ 0 }
{
    bytes[1] & !DROPPED_FLAG
}

#[inline]
pub(crate) fn mask_in(bytes: &[u8]) -> u32
    requires { is_entry bytes.now ≡ true }
    ensures { result ≡ (entry_in bytes.now).mask }
{
    number32(bytes, 4)
}

// The object flags, of which a plain entry has none.
#[inline]
fn which_in(bytes: &[u8]) -> u32
    requires { is_entry bytes.now ≡ true }
    ensures { result ≡ which_in bytes.now }
{
    if bytes[0] >= FIRST_OBJECT_TYPE {
        number32(bytes, 8)
    } else {
        0
    }
}

#[inline]
fn guid_len(stands: bool) -> usize
    ensures value { result ≡ guid_len stands }
    ensures few { result ≤ 16 }
{
    if stands { 16 } else { 0 }
}

// The offset of what stands after the object flags.
#[inline]
fn guids_offset(bytes: &[u8]) -> usize
    requires { is_entry bytes.now ≡ true }
    ensures value { result ≡ guids_offset bytes.now }
    ensures few { result ≤ 12 }
{
    if bytes[0] >= FIRST_OBJECT_TYPE { 12 } else { 8 }
}

// The offset of the identifier.
#[inline]
fn sid_offset(bytes: &[u8]) -> usize
    requires { is_entry bytes.now ≡ true }
    ensures { result ≡ sid_offset bytes.now }
{
    let which = which_in(bytes);
    guids_offset(bytes) + guid_len(which & OBJECT_TYPE != 0) + guid_len(which & INHERITED_TYPE != 0)
}

#[inline]
pub(crate) fn object_in(bytes: &[u8]) -> Option<Guid>
    requires { is_entry bytes.now ≡ true }
    ensures { result ≡ (entry_in bytes.now).object }
{
    let which = which_in(bytes);
    if which & OBJECT_TYPE == 0 {
        return None;
    }
    Some(guid_at(bytes, 12))
}

#[inline]
pub(crate) fn inherited_in(bytes: &[u8]) -> Option<Guid>
    requires { is_entry bytes.now ≡ true }
    ensures { result ≡ (entry_in bytes.now).inherited }
{
    let which = which_in(bytes);
    if which & INHERITED_TYPE == 0 {
        return None;
    }
    let at = 12 + guid_len(which & OBJECT_TYPE != 0);
    Some(guid_at(bytes, at))
}

#[inline]
pub(crate) fn sid_in(bytes: &[u8]) -> Sid
    requires { is_entry bytes.now ≡ true }
    ensures { result ≡ (entry_in bytes.now).sid }
{
    let at = sid_offset(bytes);
    let mut input = Input::new(tail(bytes, at));
    match Sid::read(&mut input) {
        Ok(sid) => sid,
        Err(_) => unreachable!(),
    }
}

// The bytes from the identifier on.
#[inline]
pub(crate) fn from_sid(bytes: &[u8]) -> &[u8]
    requires { is_entry bytes.now ≡ true }
    ensures { (rest : List ℕ) × (sid_at result.now ≡ Ok ((entry_in bytes.now).sid, rest)) }
{
    let at = sid_offset(bytes);
    tail(bytes, at)
}
