//! Texts that one list has more often than another, by a table of how often each stands in the other.

ghost use Rattle.std.specs.Prelude.{◌≡◌, ◌++◌, ◌∷◌, [], ◌+◌, IfOk, OnOk};
ghost use Rattle.ad_causes.specs.Extra.{texts, has_text, extra};
ghost use Rattle.ad_causes.specs.Counts.{counted, IsNoted, AreCounts, IsKept};

use indexmap::IndexMap;
use std::alloc::{AllocError, Global};

// How often a text is noted.
fn count_in(table: &IndexMap<&[u8], usize>, text: &[u8]) -> usize
    ensures { result ≡ counted table.now text.now }
{
    match table.get(text) {
        Some(count) => *count,
        None => 0,
    }
}

fn note<'a>(
    table: &mut IndexMap<&'a [u8], usize>,
    text: &'a [u8],
    count: usize,
) -> Result<(), AllocError>
    ensures { OnOk result (IsNoted table.old table.new text.now count) }
{
    table.insert(text, count)?;
    Ok(())
}

// Notes a text once more.
fn add<'a>(table: &mut IndexMap<&'a [u8], usize>, text: &'a [u8]) -> Result<(), AllocError>
    ensures { OnOk result (IsNoted table.old table.new text.now (counted table.old text.now + 1)) }
{
    let count = count_in(table, text);
    match count.checked_add(1) {
        Some(more) => note(table, text, more),
        None => Err(AllocError),
    }
}

/// How often each text stands in a list.
///
/// # Errors
///
/// Out of memory.
pub(crate) fn counts_of<'a>(
    alloc: Global,
    all: &'a [Vec<u8>],
) -> Result<IndexMap<&'a [u8], usize>, AllocError>
    ensures { IfOk result (AreCounts (texts all.now)) }
{
    let mut table = IndexMap::new(alloc);
    for text in all {
        add(&mut table, text.as_slice())?;
    }
    Ok(table)
}

/// Whether a text is among these, of which there is a table.
pub(crate) fn is_counted(all: &[Vec<u8>], table: &IndexMap<&[u8], usize>, text: &[u8]) -> bool
    requires { AreCounts (texts all.now) table.now }
    ensures { result ≡ has_text (texts all.now) text.now }
{
    count_in(table, text) != 0
}

fn push_copy(alloc: Global, found: &mut Vec<Vec<u8>>, text: &[u8]) -> Result<(), AllocError>
    ensures { OnOk result (texts found.new.items ≡ texts found.old.items ++ (text.now ∷ [])) }
{
    found.push(text.to_vec(alloc)?)?;
    Ok(())
}

// Takes a text out of those that are noted, or keeps it where it isn't among them.
fn keep<'a>(
    alloc: Global,
    table: &mut IndexMap<&'a [u8], usize>,
    found: &mut Vec<Vec<u8>>,
    text: &'a [u8],
) -> Result<(), AllocError>
    ensures { OnOk result (IsKept table.old table.new found.old.items found.new.items text.now) }
{
    let count = count_in(table, text);
    if count == 0 {
        push_copy(alloc, found, text)?;
        return Ok(());
    }
    note(table, text, count - 1)
}

/// The texts that the first list has more often than the second, each as often as it has it more, in its order.
///
/// # Errors
///
/// Out of memory.
pub(crate) fn extra<'a>(
    alloc: Global,
    all: &'a [Vec<u8>],
    others: &'a [Vec<u8>],
) -> Result<Vec<Vec<u8>>, AllocError>
    ensures { IfOk result (λ found. texts found.items ≡ extra (texts all.now) (texts others.now)) }
{
    let mut table = counts_of(alloc, others)?;
    let mut found = Vec::new(alloc);
    for text in all {
        keep(alloc, &mut table, &mut found, text.as_slice())?;
    }
    Ok(found)
}
