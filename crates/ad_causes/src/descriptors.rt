//! What differs in the descriptors of an object.

ghost use Rattle.std.specs.Prelude.{◌≡◌, ◌++◌, ◌&&◌, not, codes, [], if◌then◌else◌, OnOk, IfOk};
ghost use Rattle.std.specs.Str.{bytes_eq};
ghost use Rattle.ad_bytes.specs.Puts.{labelled};
ghost use Rattle.ad_sd.specs.Seen.{seen};
ghost use Rattle.ad_causes.specs.Extra.{texts, extra, is_none};
ghost use Rattle.ad_causes.specs.Descriptors.{differ, is_reordered, entry_texts, joined};
ghost use Rattle.ad_causes.specs.Steps.{owner_text, protection_text, order_text, entry_line, entries_text};
ghost use Rattle.ad_causes.specs.Steps.{lists_text, descriptors_text};

use crate::counting::extra;
use crate::entries::{entry_texts, joined};
use crate::pieces::{divided, put_line, put_signed};
use ad_sd::SdView;
use std::alloc::{AllocError, Global};

// ---- owner and protection

fn put_owner(
    alloc: Global,
    into: &mut Vec<u8>,
    name: &[u8],
    was: SdView<'_>,
    is: SdView<'_>,
) -> Result<(), AllocError>
    ensures { OnOk result (into.new.items
        ≡ into.old.items ++ owner_text name.now (seen was.entry) (seen is.entry)) }
{
    let owner = is.owner();
    if was.owner() == owner {
        return Ok(());
    }
    let text = owner.text(alloc)?;
    let both = divided(alloc, name, text.as_bytes())?;
    put_line(into, b"owner ", both.as_slice())
}

fn differ(was: bool, is: bool) -> bool
    ensures { result ≡ differ was is }
{
    if was { !is } else { is }
}

fn put_protection(
    into: &mut Vec<u8>,
    name: &[u8],
    was: SdView<'_>,
    is: SdView<'_>,
) -> Result<(), AllocError>
    ensures { OnOk result (into.new.items
        ≡ into.old.items ++ protection_text name.now (seen was.entry) (seen is.entry)) }
{
    if differ(was.dacl_protected(), is.dacl_protected()) {
        return put_line(into, b"protected ", name);
    }
    Ok(())
}

// ---- entries

// Whether nothing is more, and nothing is less.
fn are_none(more: &[Vec<u8>], less: &[Vec<u8>]) -> bool
    ensures { result ≡ (is_none (texts more.now) && is_none (texts less.now)) }
{
    more.is_empty() && less.is_empty()
}

// Whether the lists differ.
fn are_others(alloc: Global, was: &[Vec<u8>], is: &[Vec<u8>]) -> Result<bool, AllocError>
    ensures { IfOk result (λ are. are ≡ not (bytes_eq (joined (texts was.now)) (joined (texts is.now)))) }
{
    let first = joined(alloc, was)?;
    let second = joined(alloc, is)?;
    Ok(first.as_slice() != second.as_slice())
}

// Whether the lists differ, where neither has more entries than the other.
fn is_reordered(
    alloc: Global,
    was: &[Vec<u8>],
    is: &[Vec<u8>],
    more: &[Vec<u8>],
    less: &[Vec<u8>],
) -> Result<bool, AllocError>
    requires more { texts more.now ≡ extra (texts is.now) (texts was.now) }
    requires less { texts less.now ≡ extra (texts was.now) (texts is.now) }
    ensures { IfOk result (λ found. found ≡ is_reordered (texts was.now) (texts is.now)) }
{
    if are_none(more, less) {
        return are_others(alloc, was, is);
    }
    Ok(false)
}

fn put_order(into: &mut Vec<u8>, name: &[u8], is: bool) -> Result<(), AllocError>
    ensures { OnOk result (into.new.items
        ≡ into.old.items ++ (if is then labelled (codes "order ") name.now else [])) }
{
    if is {
        return put_line(into, b"order ", name);
    }
    Ok(())
}

fn put_entry(
    alloc: Global,
    into: &mut Vec<u8>,
    more: bool,
    name: &[u8],
    text: &[u8],
) -> Result<(), AllocError>
    ensures { OnOk result (into.new.items ≡ into.old.items ++ entry_line more name.now text.now) }
{
    let both = divided(alloc, name, text)?;
    put_signed(into, b"entry ", more, both.as_slice())
}

fn put_entries(
    alloc: Global,
    into: &mut Vec<u8>,
    more: bool,
    name: &[u8],
    all: &[Vec<u8>],
) -> Result<(), AllocError>
    ensures { OnOk result (into.new.items
        ≡ into.old.items ++ entries_text more name.now (texts all.now)) }
{
    for text in all {
        put_entry(alloc, into, more, name, text.as_slice())?;
    }
    Ok(())
}

fn put_lists(
    alloc: Global,
    into: &mut Vec<u8>,
    name: &[u8],
    was: &[Vec<u8>],
    is: &[Vec<u8>],
) -> Result<(), AllocError>
    ensures { OnOk result (into.new.items
        ≡ into.old.items ++ lists_text name.now (texts was.now) (texts is.now)) }
{
    let more = extra(alloc, is, was)?;
    let less = extra(alloc, was, is)?;
    let reordered = is_reordered(alloc, was, is, more.as_slice(), less.as_slice())?;
    put_order(into, name, reordered)?;
    put_entries(alloc, into, true, name, more.as_slice())?;
    put_entries(alloc, into, false, name, less.as_slice())
}

// ---- all

/// What differs in two descriptors of an object of a name.
///
/// # Errors
///
/// Out of memory.
pub(crate) fn put_descriptors(
    alloc: Global,
    into: &mut Vec<u8>,
    name: &[u8],
    was: SdView<'_>,
    is: SdView<'_>,
) -> Result<(), AllocError>
    ensures { OnOk result (into.new.items
        ≡ into.old.items ++ descriptors_text name.now (seen was.entry) (seen is.entry)) }
{
    put_owner(alloc, into, name, was, is)?;
    put_protection(into, name, was, is)?;
    let first = entry_texts(alloc, was)?;
    let second = entry_texts(alloc, is)?;
    put_lists(alloc, into, name, first.as_slice(), second.as_slice())
}
