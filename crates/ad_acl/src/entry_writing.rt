//! How one entry is written ([MS-DTYP] 2.4.4).

ghost use Rattle.std.specs.Prelude.{◌≡◌, ◌++◌, ◌+◌, ◌^◌, ◌<◌, ◌≤◌, ◌∷◌, ℕ, length, take, OnOk, OnErr};
ghost use Rattle.ad_bytes.specs.Reading.{IsBytes};
ghost use Rattle.ad_bytes.specs.Numbers.{le_bytes};
ghost use Rattle.ad_ids.specs.Sid.{SpellsSid, sid_bytes};
ghost use Rattle.ad_acl.specs.Entry.{type_code};
ghost use Rattle.ad_acl.specs.Exact.{IsFront};
ghost use Rattle.ad_acl.specs.Writing.{IsEntry, IsGuidIf, has_guid, which_of, which_bytes, guid_bytes, fixed_bytes};
ghost use Rattle.ad_acl.specs.Writing.{entry_bytes};

use crate::ace::Ace;
use crate::kind::AceKind;
use ad_ids::{Guid, MAX_SID_BYTES, Sid};
use std::alloc::AllocError;

/// The number of bytes of an entry's header.
const HEADER_BYTES: usize = 4;

pub(crate) fn code_of(kind: AceKind, is_object: bool) -> u8
    ensures { result ≡ type_code is_object kind }
{
    match (kind, is_object) {
        (AceKind::Allow, false) => 0,
        (AceKind::Deny, false) => 1,
        (AceKind::Audit, false) => 2,
        (AceKind::Allow, true) => 5,
        (AceKind::Deny, true) => 6,
        (AceKind::Audit, true) => 7,
    }
}

// Whether an entry with these GUIDs is written with object flags.
pub(crate) fn has_guid(object: &Option<Guid>, inherited: &Option<Guid>) -> bool
    ensures { result ≡ has_guid object.now inherited.now }
{
    match (object, inherited) {
        (None, None) => false,
        _ => true,
    }
}

pub(crate) fn object_flags(object: &Option<Guid>, inherited: &Option<Guid>) -> u32
    ensures { result ≡ which_of object.now inherited.now }
{
    match (object, inherited) {
        (None, None) => 0,
        (Some(_), None) => 1,
        (None, Some(_)) => 2,
        (Some(_), Some(_)) => 3,
    }
}

// The same bytes; a contract sees of a slice that each is below 256.
fn seen(bytes: &[u8]) -> &[u8]
    ensures same { result.now ≡ bytes.now }
    ensures fit { IsBytes bytes.now }
{
    bytes
}

fn sixteen(bytes: &[u8; 16]) -> &[u8]
    ensures same { result.now ≡ bytes.now }
    ensures sixteen { length bytes.now ≡ 16 }
    ensures fit { IsBytes bytes.now }
{
    let _bytes = *bytes;
    seen(bytes)
}

// The bytes of the GUID, or none.
pub(crate) fn guid_part(guid: &Option<Guid>) -> &[u8]
    ensures bytes { result.now ≡ guid_bytes guid.now }
    ensures few { length result.now ≤ 16 }
    ensures is { IsGuidIf guid.now }
{
    match guid {
        None => &[],
        Some(guid) => sixteen(&guid.bytes),
    }
}

// The number of bytes of the object flags.
pub(crate) fn flags_size(is_object: bool) -> usize
    ensures size { (which : ℕ) → result ≡ length (which_bytes is_object which) }
    ensures few { result ≤ 4 }
{
    if is_object { 4 } else { 0 }
}

#[tactic(auto, unfolding(ad_bytes::specs::Numbers::le_bytes))]
fn put_object_flags(into: &mut Vec<u8>, is_object: bool, which: u32) -> Result<(), AllocError>
    ensures put { OnOk result (into.new.items ≡ into.old.items ++ which_bytes is_object which) }
    ensures same { OnErr result (into.new.items ≡ into.old.items) }
{
    if is_object {
        into.extend_from_slice(&which.to_le_bytes())?;
    }
    Ok(())
}

// The number of bytes of the fields between the header and the security identifier.
pub(crate) fn fixed_size(object: &Option<Guid>, inherited: &Option<Guid>) -> usize
    ensures size { (mask : ℕ) → result ≡ length (fixed_bytes mask object.now inherited.now) }
    ensures few { result ≤ 40 }
    ensures object { IsGuidIf object.now }
    ensures inherited { IsGuidIf inherited.now }
{
    4 + flags_size(has_guid(object, inherited))
        + guid_part(object).len()
        + guid_part(inherited).len()
}

// Puts the header: the type, the flags, and the size of the whole entry.
#[tactic(auto, unfolding(ad_bytes::specs::Numbers::le_bytes))]
fn put_header(into: &mut Vec<u8>, code: u8, flags: u8, size: u16) -> Result<(), AllocError>
    ensures put { OnOk result (into.new.items ≡ into.old.items ++ code ∷ flags ∷ le_bytes 2 size) }
    ensures grown { OnErr result (IsFront into.old.items into.new.items) }
    ensures fits { flags < 256 }
{
    into.extend_from_slice(&[code, flags])?;
    into.extend_from_slice(&size.to_le_bytes())?;
    Ok(())
}

#[tactic(auto, unfolding(ad_bytes::specs::Numbers::le_bytes))]
fn put_mask(into: &mut Vec<u8>, mask: u32) -> Result<(), AllocError>
    ensures put { OnOk result (into.new.items ≡ into.old.items ++ le_bytes 4 mask) }
    ensures same { OnErr result (into.new.items ≡ into.old.items) }
    ensures fits { mask < 2 ^ 32 }
{
    into.extend_from_slice(&mask.to_le_bytes())
}

// Puts the fields between the header and the security identifier.
#[tactic(auto, unfolding(crate::specs::Writing::fixed_bytes))]
fn put_fixed(
    into: &mut Vec<u8>,
    mask: u32,
    object: &Option<Guid>,
    inherited: &Option<Guid>,
) -> Result<(), AllocError>
    ensures put { OnOk result (into.new.items ≡ into.old.items ++ fixed_bytes mask object.now
        inherited.now) }
    ensures grown { OnErr result (IsFront into.old.items into.new.items) }
    ensures fits { OnOk result (mask < 2 ^ 32) }
{
    put_mask(into, mask)?;
    put_object_flags(
        into,
        has_guid(object, inherited),
        object_flags(object, inherited),
    )?;
    into.extend_from_slice(guid_part(object))?;
    into.extend_from_slice(guid_part(inherited))?;
    Ok(())
}

// Puts the entry at the end. Where memory runs out, a part of it may stand there.
fn put_entry(into: &mut Vec<u8>, ace: &Ace) -> Result<(), AllocError>
    ensures written { OnOk result (into.new.items ≡ into.old.items ++ entry_bytes ace.now) }
    ensures is { OnOk result (IsEntry ace.now) }
    ensures grown { OnErr result (IsFront into.old.items into.new.items) }
{
    let mut sid = [0; MAX_SID_BYTES];
    let sid_len = ace.sid.write(&mut sid);
    let size = HEADER_BYTES + fixed_size(&ace.object, &ace.inherited) + sid_len;
    let code = code_of(ace.kind, has_guid(&ace.object, &ace.inherited));
    put_header(into, code, ace.flags, size as u16)?;
    put_fixed(into, ace.mask, &ace.object, &ace.inherited)?;
    into.extend_from_slice(&sid[..sid_len])?;
    Ok(())
}

/// Puts the entry at the end, as it is written ([MS-DTYP] 2.4.4).
///
/// # Errors
///
/// Memory ran out. The bytes stay as they were.
pub fn write_entry(into: &mut Vec<u8>, ace: &Ace) -> Result<(), AllocError>
    ensures written { OnOk result (into.new.items ≡ into.old.items ++ entry_bytes ace.now) }
    ensures is { OnOk result (IsEntry ace.now) }
    ensures err { OnErr result (into.new.items ≡ into.old.items) }
{
    let len = into.len();
    match put_entry(into, ace) {
        Ok(()) => Ok(()),
        Err(e) => {
            into.truncate(len);
            Err(e)
        }
    }
}
