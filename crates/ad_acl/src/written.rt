//! Whether bytes begin with an entry as it is written ([MS-DTYP] 2.4.4).

ghost use Rattle.std.specs.Prelude.{◌≡◌, ◌≤◌, ℕ, length, IfSome, IfNone};
ghost use Rattle.ad_acl.specs.Entry.{Entry};
ghost use Rattle.ad_acl.specs.Writing.{IsEntry, entry_bytes};
ghost use Rattle.ad_acl.specs.Exact.{IsFront};
ghost use Rattle.ad_acl.specs.Written.{BeginsWritten};
ghost use Rattle.ad_acl.specs.Offsets.{offset_after_flags, written_offset, SaysSid, IsExact};

use crate::fields::{number16, number32};

/// The number of bytes of the smallest entry: its header, its mask, and an identifier of one sub-authority.
const SMALLEST_ENTRY: usize = 20;

/// The largest number of sub-authorities of an identifier.
const MAX_SUB_AUTHORITIES: u8 = 15;

/// The flag that no entry is written with.
const DROPPED_FLAG: u8 = 0x20;

fn offset_after_flags(which: u32) -> Option<usize>
    ensures value { result ≡ offset_after_flags which }
    ensures few { IfSome result (λ at. at ≤ 44) }
{
    match which {
        1 => Some(28),
        2 => Some(28),
        3 => Some(44),
        _ => None,
    }
}

// The offset of the identifier, by the type and the object flags; none where no entry is written with these.
fn written_offset(bytes: &[u8]) -> Option<usize>
    requires { 20 ≤ length bytes.now }
    ensures value { result ≡ written_offset bytes.now }
    ensures few { IfSome result (λ at. at ≤ 44) }
{
    let code = bytes[0];
    if code <= 2 {
        return Some(8);
    }
    if code < 5 {
        return None;
    }
    if code > 7 {
        return None;
    }
    offset_after_flags(number32(bytes, 8))
}

// The number of bytes of the identifier at the offset, by its header; none where no identifier's header stands there.
fn sid_len(bytes: &[u8], at: usize) -> Option<usize>
    requires { at ≤ 44 }
    ensures some { IfSome result (λ len. SaysSid bytes.now at len) }
    ensures few { IfSome result (λ len. len ≤ 68) }
    ensures none { IfNone result ((len : ℕ) → SaysSid bytes.now at len → ⊥) }
{
    if bytes.len() < at + 2 {
        return None;
    }
    if bytes[at] != 1 {
        return None;
    }
    let count = bytes[at + 1];
    if count == 0 {
        return None;
    }
    if count > MAX_SUB_AUTHORITIES {
        return None;
    }
    Some(8 + 4 * usize::from(count))
}

fn exact_size(bytes: &[u8]) -> Option<usize>
    ensures some { IfSome result (λ size. IsExact bytes.now size) }
    ensures none { IfNone result ((size : ℕ) → IsExact bytes.now size → ⊥) }
{
    if bytes.len() < SMALLEST_ENTRY {
        return None;
    }
    let Some(at) = written_offset(bytes) else {
        return None;
    };
    let Some(len) = sid_len(bytes, at) else {
        return None;
    };
    if bytes.len() < at + len {
        return None;
    }
    if bytes[1] & DROPPED_FLAG != 0 {
        return None;
    }
    if usize::from(number16(bytes, 2)) != at + len {
        return None;
    }
    Some(at + len)
}

/// The size of the entry that the bytes begin with, in bytes, where it stands there as it is written ([MS-DTYP]
/// 2.4.4): without the flag 0x20, with object flags exactly where it has a GUID and with no others set, and with
/// nothing after its identifier. None where no entry stands so.
pub fn written_size(bytes: &[u8]) -> Option<usize>
    ensures some { IfSome result (λ size. BeginsWritten size bytes.now) }
    ensures within { IfSome result (λ size. size ≤ length bytes.now) }
    ensures none { IfNone result ((entry : Entry) → IsEntry entry → IsFront (entry_bytes entry)
        bytes.now → ⊥) }
{
    exact_size(bytes)
}
