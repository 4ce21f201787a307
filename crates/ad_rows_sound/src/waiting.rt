//! A pending list in which each parent is found soon.

ghost use Rattle.std.specs.Prelude.{◌≡◌, IfOk};
ghost use Rattle.std.specs.Ordering.{nat_cmp};
ghost use Rattle.std.specs.BTreeMap.{get};
ghost use Rattle.ad_dir_model.specs.Inheritance.{covers};
ghost use Rattle.ad_rows_sound.specs.Waiting.{is_below, least_of, AreLeast};

use prop_queue::Pending;
use std::alloc::{AllocError, Global};
use std::collections::BTreeMap;
use std::marker::Model;

/// A pending list with the least cursor of each parent. A contract sees the list.
#[derive(Drop)]
pub(crate) struct Waiting<'a> {
    entries: &'a [Pending],
    least: BTreeMap<u32, u32>,
}

impl<'a> Model for Waiting<'a> {
    ghost use Rattle.std.specs.Prelude.{List};
    ghost use Rattle.prop_queue.specs.declared.pending.Pending.{Pending as Entry};
    ghost use Rattle.ad_rows_sound.specs.Waiting.{AreLeast};

    ghost Value = { List Entry };

    ghost view = { λ waiting. waiting.entries.now };

    ghost invariant = { λ waiting. AreLeast waiting.least waiting.entries.now };
}

// The cursor, or the one that its parent has if that is less.
fn least_with(least: &BTreeMap<u32, u32>, parent: u32, cursor: u32) -> u32
    ensures { result ≡ least_of (get nat_cmp least.now parent) cursor }
{
    match least.get(&parent) {
        Some(earlier) => cursor.min(*earlier),
        None => cursor,
    }
}

// The least cursor of each parent.
fn least_cursors(alloc: Global, entries: &[Pending]) -> Result<BTreeMap<u32, u32>, AllocError>
    ensures { IfOk result (λ least. AreLeast least entries.now) }
{
    let mut least = BTreeMap::new(alloc);
    'each: for i in 0..entries.len() {
        let entry = entries[i];
        let cursor = least_with(&least, entry.parent, entry.cursor);
        least.insert(entry.parent, cursor)?;
    }
    Ok(least)
}

// Whether the least cursor of the parent is below the child.
fn is_below(least: &BTreeMap<u32, u32>, parent: u32, child: u32) -> bool
    ensures { result ≡ is_below (get nat_cmp least.now parent) child }
{
    match least.get(&parent) {
        Some(cursor) => *cursor < child,
        None => false,
    }
}

impl<'a> Waiting<'a> {
    /// The list of these entries. The error is that memory ran out.
    pub(crate) fn of(alloc: Global, entries: &'a [Pending]) -> Result<Waiting<'a>, AllocError>
        ensures { IfOk result (λ waiting. waiting ≡ entries.now) }
    {
        let least = least_cursors(alloc, entries)?;
        Ok(Waiting { entries, least })
    }

    /// Whether an entry of the parent has its cursor below the child.
    pub(crate) fn covers(&self, parent: u32, child: u32) -> bool
        ensures { result ≡ covers self.now parent child }
    {
        is_below(&self.least, parent, child)
    }
}
