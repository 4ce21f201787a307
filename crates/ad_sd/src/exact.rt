//! Whether bytes are normal bytes: each part as it is written, and nothing after the last.

ghost use Rattle.std.specs.Prelude.{◌≡◌, MatchOption};
ghost use Rattle.ad_ids.specs.SidReading.{sid_at};
ghost use Rattle.ad_bytes.specs.Reading.{or_fault, many_at};
ghost use Rattle.ad_sd.specs.NormalReading.{not_normal, entry_exactly_at, entries_exactly_at};
ghost use Rattle.ad_sd.specs.SdIn.{is_normal};
ghost use Rattle.ad_sd.specs.Lists.{IsNotRead, IsReadTo};

use crate::slices::tail;
use ad_acl::written_size;
use ad_bytes::Input;
use ad_ids::Sid;

// The bytes are no normal bytes.
#[derive(Clone, Copy)]
pub(crate) struct NotNormal;

// The bytes after the entry that stands at the start as it is written, or none where none does.
fn after_entry(bytes: &[u8]) -> Option<&[u8]>
    ensures { MatchOption result (IsNotRead (entry_exactly_at bytes.now))
        (λ left. IsReadTo (entry_exactly_at bytes.now) left.now) }
{
    match written_size(bytes) {
        Some(size) => Some(tail(bytes, size)),
        None => None,
    }
}

// The same of so many entries.
fn after_entries(bytes: &[u8], count: u64) -> Option<&[u8]>
    ensures { MatchOption result (IsNotRead (many_at entry_exactly_at count bytes.now))
        (λ left. IsReadTo (many_at entry_exactly_at count bytes.now) left.now) }
{
    let mut rest = bytes;
    for _ in 0..count {
        match after_entry(rest) {
            Some(after) => rest = after,
            None => return None,
        }
    }
    Some(rest)
}

// The same of a list of entries after their number.
fn after_list(bytes: &[u8]) -> Option<&[u8]>
    ensures { MatchOption result (IsNotRead (entries_exactly_at bytes.now))
        (λ left. IsReadTo (entries_exactly_at bytes.now) left.now) }
{
    let mut input = Input::new(bytes);
    match input.be64() {
        Ok(count) => {
            let entries = input.rest();
            after_entries(entries, count)
        }
        Err(_) => None,
    }
}

// The same of an identifier.
fn after_sid(bytes: &[u8]) -> Option<&[u8]>
    ensures { MatchOption result (IsNotRead (or_fault not_normal (sid_at bytes.now)))
        (λ left. IsReadTo (or_fault not_normal (sid_at bytes.now)) left.now) }
{
    let mut input = Input::new(bytes);
    match Sid::read(&mut input) {
        Ok(_) => Some(input.rest()),
        Err(_) => None,
    }
}

/// Whether the bytes are the normal bytes of a descriptor.
pub(crate) fn is_normal(bytes: &[u8]) -> bool
    ensures { result ≡ is_normal bytes.now }
{
    let Some((marks, after_marks)) = bytes.split_first() else {
        return false;
    };
    if *marks >= 4 {
        return false;
    }
    let Some(after_owner) = after_sid(after_marks) else {
        return false;
    };
    let Some(after_group) = after_sid(after_owner) else {
        return false;
    };
    let Some(after_dacl) = after_list(after_group) else {
        return false;
    };
    let Some(after_sacl) = after_list(after_dacl) else {
        return false;
    };
    after_sacl.is_empty()
}
