//! Rows of flags by place.

ghost use Rattle.std.specs.Prelude.{◌≡◌, ◌<◌, ◌||◌, ◌&&◌, ◌==◌, ℕ, length, map, false, IfOk};
ghost use Rattle.ad_schema_classes.specs.Chains.{contains, listed};
ghost use Rattle.ad_schema_classes.specs.Flags.{flag_at};
ghost use Rattle.ad_schema_classes.specs.Rows.{part_of};

use crate::links::{ClassLinks, Part, part_of};
use std::alloc::{AllocError, Global};

/// A row without flags.
pub fn blank_row(alloc: Global, len: usize) -> Result<Vec<bool>, AllocError>
    ensures len { IfOk result (λ row. length row.items ≡ len) }
    ensures blank { IfOk result (λ row. (j : ℕ) → flag_at row.items j ≡ false) }
{
    let mut row = Vec::with_capacity(alloc, len)?;
    for _place in 0..len {
        row.push(false)?;
    }
    Ok(row)
}

/// The flag of a place.
#[tactic(auto, unfolding(crate::specs::Flags::flag_at))]
pub fn flag_at(row: &[bool], k: usize) -> bool
    ensures { result ≡ flag_at row.now k }
{
    match row.get(k) {
        Some(flag) => *flag,
        None => false,
    }
}

/// Sets the flag of a place.
#[tactic(auto, unfolding(crate::specs::Flags::flag_at))]
pub fn mark(row: &mut [bool], k: u32)
    ensures { (j : ℕ) → j < length row.old
        → flag_at row.new j ≡ (flag_at row.old j || (k == j)) }
{
    if (k as usize) < row.len() {
        row[k as usize] = true;
    }
}

/// Sets the flags of these places.
pub fn mark_all(row: &mut [bool], list: &[u32])
    ensures { (j : ℕ) → j < length row.old
        → flag_at row.new j ≡ (flag_at row.old j || contains list.now j) }
{
    for k in list {
        mark(row, *k);
    }
}

fn mark_all_if(row: &mut [bool], flag: bool, list: &[u32])
    ensures { (j : ℕ) → j < length row.old
        → flag_at row.new j ≡ (flag_at row.old j || (flag && contains list.now j)) }
{
    if flag {
        mark_all(row, list);
    }
}

/// Sets the flags of the attributes that the classes of a set name so.
pub fn mark_listed(row: &mut [bool], set: &[bool], links: &[ClassLinks], part: Part)
    ensures { (j : ℕ) → j < length row.old → flag_at row.new j ≡ (flag_at row.old j
        || listed (flag_at set.now) 0 (map (part_of part) links.now) j) }
{
    for n in 0..links.len() {
        mark_all_if(row, flag_at(set, n), part_of(part, &links[n]));
    }
}
