//! The least set of classes that has a class and, with each class, those next to it, by a list of the classes found.

ghost use Rattle.std.specs.Prelude.{◌≡◌, ◌<◌, ℕ, [], ◌∷◌, length, false, IfOk, OnOk};
ghost use Rattle.ad_schema_classes.specs.Chains.{set_of};
ghost use Rattle.ad_schema_classes.specs.Flags.{flag_at};
ghost use Rattle.ad_schema_classes.specs.Rows.{nexts};
ghost use Rattle.ad_schema_classes.specs.Work.{is_free, Noted};

use crate::flags::blank_row;
use crate::links::{ClassLinks, next_to};
use std::alloc::{AllocError, Global};

/// Whether the place is in the row and its flag isn't set.
#[tactic(auto, unfolding(crate::specs::Work::is_free))]
fn is_free(row: &[bool], k: u32) -> bool
    ensures { result ≡ is_free row.now k }
{
    match row.get(k as usize) {
        Some(flag) => !*flag,
        None => false,
    }
}

/// Flags a place, and puts it after the others where it wasn't flagged before.
fn note(row: &mut [bool], order: &mut Vec<u32>, k: u32) -> Result<(), AllocError>
    ensures { OnOk result (Noted row.old order.old.items (k ∷ []) row.new order.new.items) }
{
    if is_free(row, k) {
        order.push(k)?;
        row[k as usize] = true;
    }
    Ok(())
}

/// Flags the places of a list, and puts those that weren't flagged before after the others.
fn note_all(row: &mut [bool], order: &mut Vec<u32>, list: &[u32]) -> Result<(), AllocError>
    ensures { OnOk result (Noted row.old order.old.items list.now row.new order.new.items) }
{
    for k in list {
        note(row, order, *k)?;
    }
    Ok(())
}

/// Makes a blank row the set of a class: each class that was found is looked at once.
fn fill_set(
    alloc: Global,
    set: &mut [bool],
    links: &[ClassLinks],
    class: u32,
) -> Result<(), AllocError>
    requires len { length set.old ≡ length links.now }
    requires blank { (j : ℕ) → flag_at set.old j ≡ false }
    requires class { class < length links.now }
    ensures { OnOk result ((j : ℕ) → j < length links.now → flag_at set.new j
        ≡ set_of (nexts links.now) class j) }
{
    let mut order = Vec::new(alloc);
    note(set, &mut order, class)?;
    let mut n = 0;
    while n < order.len() {
        let found = order[n];
        n += 1;
        note_all(set, &mut order, next_to(links, found))?;
    }
    Ok(())
}

/// The set of a class.
pub fn class_set(alloc: Global, links: &[ClassLinks], class: u32) -> Result<Vec<bool>, AllocError>
    requires { class < length links.now }
    ensures { IfOk result (λ set. (j : ℕ) → j < length links.now → flag_at set.items j
        ≡ set_of (nexts links.now) class j) }
{
    let mut set = blank_row(alloc, links.len())?;
    fill_set(alloc, &mut set, links, class)?;
    Ok(set)
}
