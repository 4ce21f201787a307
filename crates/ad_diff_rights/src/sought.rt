//! Labels of one list that are sought in another.
//!
//! Both lists have mostly one order, so a label is sought from where the last one stood. Where many stand elsewhere, or
//! nowhere, that would be square, and a table is made of the other list.

ghost use Rattle.std.specs.Prelude.{◌≡◌, drop, is_some, OnOk, IfOk};
ghost use Rattle.ad_diff_rights.specs.Changes.{has_label};
ghost use Rattle.ad_diff_rights.specs.Steps.{texts, IsTableOf, IsOneMore};

use indexmap::IndexSet;
use std::alloc::{AllocError, Global};

/// So many labels may stand elsewhere before a table is made.
const MOST_MISSES: usize = 8;

/// Where in a list the next label is likely to stand, and how many so far stood elsewhere, or nowhere.
#[derive(Drop)]
pub(crate) struct Near {
    place: usize,
    misses: usize,
}

impl Near {
    /// The beginning of a list.
    pub(crate) fn new() -> Near {
        Near {
            place: 0,
            misses: 0,
        }
    }

    /// Whether a table is cheaper.
    pub(crate) fn is_off(&self) -> bool {
        self.misses > MOST_MISSES
    }

    /// Notes where a label was found.
    fn note(&mut self, found: Option<usize>) {
        let behind = match found {
            Some(place) => place < self.place,
            None => true,
        };
        if behind {
            self.misses = self.misses.saturating_add(1);
        }
        if let Some(place) = found {
            self.place = place.saturating_add(1);
        }
    }
}

// The place of the label among these, of which the first stands at this place; none where it isn't among them.
fn place_in(labels: &[Vec<u8>], first: usize, label: &[u8]) -> Option<usize>
    ensures { is_some result ≡ has_label (texts labels.now) label.now }
{
    let mut place = first;
    for other in labels {
        if label == other.as_slice() {
            return Some(place);
        }
        place = place.saturating_add(1);
    }
    None
}

/// Those from a place on.
pub(crate) fn labels_from(labels: &[Vec<u8>], place: usize) -> &[Vec<u8>]
    ensures { result.now ≡ drop place labels.entry.now }
{
    match labels.get(place..) {
        Some(rest) => rest,
        None => &[],
    }
}

// The place of the label among these. It is sought from a place on first, since both lists have one order.
fn place_of(labels: &[Vec<u8>], near: usize, label: &[u8]) -> Option<usize>
    ensures { is_some result ≡ has_label (texts labels.now) label.now }
{
    match place_in(labels_from(labels, near), near, label) {
        Some(place) => Some(place),
        None => place_in(labels, 0, label),
    }
}

/// Whether the label is among these, which is noted.
pub(crate) fn has_near(labels: &[Vec<u8>], near: &mut Near, label: &[u8]) -> bool
    ensures { result ≡ has_label (texts labels.now) label.now }
{
    let found = place_of(labels, near.place, label);
    near.note(found);
    found.is_some()
}

fn enter<'a>(table: &mut IndexSet<&'a [u8]>, label: &'a [u8]) -> Result<(), AllocError>
    ensures { OnOk result (IsOneMore table.old table.new label.now) }
{
    table.insert(label)?;
    Ok(())
}

/// A table of labels.
///
/// # Errors
///
/// Out of memory.
pub(crate) fn table_of<'a>(
    alloc: Global,
    labels: &'a [Vec<u8>],
) -> Result<IndexSet<&'a [u8]>, AllocError>
    ensures { IfOk result (IsTableOf (texts labels.now)) }
{
    let mut table = IndexSet::new(alloc);
    for label in labels {
        enter(&mut table, label.as_slice())?;
    }
    Ok(table)
}

/// Whether the label is among these, of which there is a table.
pub(crate) fn has_in(labels: &[Vec<u8>], table: &IndexSet<&[u8]>, label: &[u8]) -> bool
    requires { IsTableOf (texts labels.now) table.now }
    ensures { result ≡ has_label (texts labels.now) label.now }
{
    table.contains(label)
}
