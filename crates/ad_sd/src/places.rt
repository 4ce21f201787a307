//! Where the parts of a descriptor stand in its normal bytes.

ghost use Rattle.std.specs.Prelude.{◌≡◌, true, Ok};
ghost use Rattle.ad_ids.specs.SidReading.{sid_at};
ghost use Rattle.ad_acl.specs.Reading.{entry_at};
ghost use Rattle.ad_bytes.specs.Reading.{many_at};
ghost use Rattle.ad_sd.specs.NormalReading.{entries_exactly_at};
ghost use Rattle.ad_sd.specs.SdIn.{sd_in, is_normal};
ghost use Rattle.ad_sd.specs.SidHere.{is_read, sid_of};
ghost use Rattle.ad_sd.specs.Entries.{are_read, entries_of};
ghost use Rattle.ad_sd.specs.Lists.{begins_list, listed, HasLists, HasParts};
ghost use Rattle.ad_sd.specs.View.{to_come};

use crate::entries_in::EntriesIn;
use crate::slices::tail;
use ad_acl::AceIn;
use ad_bytes::Input;
use ad_ids::Sid;
use byteorder::{BigEndian, ByteOrder};

/// The mark of a protected DACL.
const DACL_PROTECTED: u8 = 1;

/// The mark of a protected SACL.
const SACL_PROTECTED: u8 = 2;

// The identifier at the start of the bytes.
fn first_sid(bytes: &[u8]) -> Sid
    requires { is_read bytes.now ≡ true }
    ensures { result ≡ sid_of bytes.now }
{
    let mut input = Input::new(bytes);
    match Sid::read(&mut input) {
        Ok(sid) => sid,
        Err(_) => unreachable!(),
    }
}

// The bytes after it.
#[inline]
fn after_sid(bytes: &[u8]) -> &[u8]
    requires { is_read bytes.now ≡ true }
    ensures { sid_at bytes.now ≡ Ok (sid_of bytes.now, result.now) }
{
    let len = 8 + 4 * usize::from(bytes[1]);
    tail(bytes, len)
}

// The entries of the list at the start of the bytes.
#[inline]
fn entries_at(bytes: &[u8]) -> EntriesIn<'_>
    requires { begins_list bytes.now ≡ true }
    ensures { to_come result ≡ listed bytes.now }
{
    let count = BigEndian::read_u64(bytes);
    let entries = tail(bytes, 8);
    EntriesIn::of(entries, count)
}

// The bytes after so many entries.
fn after_entries(bytes: &[u8], count: u64) -> &[u8]
    requires { are_read count bytes.now ≡ true }
    ensures { many_at entry_at count bytes.now ≡ Ok (entries_of count bytes.now, result.now) }
{
    let mut rest = bytes;
    for _ in 0..count {
        let (_, after) = AceIn::split_first(rest);
        rest = after;
    }
    rest
}

// The bytes after the list at the start.
#[inline]
fn after_list(bytes: &[u8]) -> &[u8]
    requires { begins_list bytes.now ≡ true }
    ensures { entries_exactly_at bytes.now ≡ Ok (listed bytes.now, result.now) }
{
    let count = BigEndian::read_u64(bytes);
    let entries = tail(bytes, 8);
    after_entries(entries, count)
}

// What stands after the marks.
#[inline]
fn parts_in(bytes: &[u8]) -> &[u8]
    requires { is_normal bytes.now ≡ true }
    ensures { HasParts (sd_in bytes.now) result.now }
{
    tail(bytes, 1)
}

/// Whether the DACL is protected.
#[inline]
pub(crate) fn dacl_protected_in(bytes: &[u8]) -> bool
    requires { is_normal bytes.now ≡ true }
    ensures { result ≡ (sd_in bytes.now).dacl.protected }
{
    bytes[0] & DACL_PROTECTED != 0
}

/// Whether the SACL is protected.
#[inline]
pub(crate) fn sacl_protected_in(bytes: &[u8]) -> bool
    requires { is_normal bytes.now ≡ true }
    ensures { result ≡ (sd_in bytes.now).sacl.protected }
{
    bytes[0] & SACL_PROTECTED != 0
}

#[inline]
pub(crate) fn owner_in(bytes: &[u8]) -> Sid
    requires { is_normal bytes.now ≡ true }
    ensures { result ≡ (sd_in bytes.now).owner }
{
    first_sid(parts_in(bytes))
}

#[inline]
pub(crate) fn group_in(bytes: &[u8]) -> Sid
    requires { is_normal bytes.now ≡ true }
    ensures { result ≡ (sd_in bytes.now).group }
{
    let group = after_sid(parts_in(bytes));
    first_sid(group)
}

/// The two lists, one after the other.
#[inline]
pub(crate) fn lists_in(bytes: &[u8]) -> &[u8]
    requires { is_normal bytes.now ≡ true }
    ensures { HasLists (sd_in bytes.now) result.now }
{
    let group = after_sid(parts_in(bytes));
    after_sid(group)
}

/// The entries of the DACL.
#[inline]
pub(crate) fn dacl_in(bytes: &[u8]) -> EntriesIn<'_>
    requires { is_normal bytes.now ≡ true }
    ensures { to_come result ≡ (sd_in bytes.now).dacl.entries }
{
    let dacl = lists_in(bytes);
    entries_at(dacl)
}

/// The entries of the SACL.
pub(crate) fn sacl_in(bytes: &[u8]) -> EntriesIn<'_>
    requires { is_normal bytes.now ≡ true }
    ensures { to_come result ≡ (sd_in bytes.now).sacl.entries }
{
    let sacl = after_list(lists_in(bytes));
    entries_at(sacl)
}
