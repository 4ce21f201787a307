//! The rows of a class: the attributes that its objects must have, and those that they may have.

ghost use Rattle.std.specs.Prelude.{◌≡◌, ◌<◌, ◌||◌, ◌==◌, ◌^◌, ℕ, length, map, IfOk};
ghost use Rattle.ad_schema_classes.specs.declared.links.Part.TheVariants.{Must, May};
ghost use Rattle.ad_schema_classes.specs.Chains.{listed};
ghost use Rattle.ad_schema_classes.specs.Flags.{flag_at};
ghost use Rattle.ad_schema_classes.specs.Rows.{part_of, AreRowsOf, HaveRows, must_in, allowed_in};

use crate::chain::naming_of;
use crate::flags::{blank_row, flag_at, mark, mark_listed};
use crate::links::{ClassLinks, Part};
use crate::sets::class_set;
use std::alloc::{AllocError, Global};

/// For each attribute, by place, whether the objects of a class must have it, and whether they may.
#[derive(Drop)]
pub struct ClassRows {
    pub must: Vec<bool>,
    pub allowed: Vec<bool>,
}

/// The row of the attributes that the classes of a set list as must.
fn must_row(
    alloc: Global,
    set: &[bool],
    links: &[ClassLinks],
    attrs: usize,
) -> Result<Vec<bool>, AllocError>
    ensures len { IfOk result (λ row. length row.items ≡ attrs) }
    ensures row { IfOk result (λ row. (j : ℕ) → j < attrs → flag_at row.items j
        ≡ listed (flag_at set.now) 0 (map (part_of Must) links.now) j) }
{
    let mut row = blank_row(alloc, attrs)?;
    mark_listed(&mut row, set, links, Part::Must);
    Ok(row)
}

/// Adds to a row the attributes that the classes of a set list as may, and the naming attribute.
fn mark_allowed(row: &mut [bool], set: &[bool], links: &[ClassLinks], naming: u32)
    ensures { (j : ℕ) → j < length row.old → flag_at row.new j ≡ (flag_at row.old j
        || listed (flag_at set.now) 0 (map (part_of May) links.now) j || naming == j) }
{
    mark_listed(row, set, links, Part::May);
    mark(row, naming);
}

/// The row of the allowed attributes, from that of the attributes that must be there.
fn allowed_row(
    alloc: Global,
    must: &[bool],
    set: &[bool],
    links: &[ClassLinks],
    naming: u32,
) -> Result<Vec<bool>, AllocError>
    ensures { IfOk result (λ row. (j : ℕ) → j < length must.now → flag_at row.items j
        ≡ (flag_at must.now j
        || listed (flag_at set.now) 0 (map (part_of May) links.now) j || naming == j)) }
{
    let mut row = Vec::from_slice(alloc, must)?;
    mark_allowed(&mut row, set, links, naming);
    Ok(row)
}

/// The rows of a class, over so many attributes.
fn class_rows(
    alloc: Global,
    links: &[ClassLinks],
    cn: u32,
    attrs: usize,
    class: u32,
) -> Result<ClassRows, AllocError>
    requires { class < length links.now }
    ensures { IfOk result (λ rows. AreRowsOf links.now cn attrs class rows) }
{
    let set = class_set(alloc, links, class)?;
    let must = must_row(alloc, set.as_slice(), links, attrs)?;
    let naming = naming_of(links, cn, class);
    let allowed = allowed_row(alloc, must.as_slice(), set.as_slice(), links, naming)?;
    Ok(ClassRows { must, allowed })
}

/// The rows of all classes.
pub fn all_rows(
    alloc: Global,
    links: &[ClassLinks],
    cn: u32,
    attrs: usize,
) -> Result<Vec<ClassRows>, AllocError>
    requires { length links.now < 2 ^ 32 }
    ensures len { IfOk result (λ all. length all.items ≡ length links.now) }
    ensures rows { IfOk result (λ all. HaveRows links.now cn attrs all.items) }
{
    let mut all = Vec::new(alloc);
    for i in 0..links.len() {
        let rows = class_rows(alloc, links, cn, attrs, i as u32)?;
        all.push(rows)?;
    }
    Ok(all)
}

/// Whether a class must have an attribute, by its row.
#[tactic(auto, unfolding(crate::specs::Rows::must_in))]
pub fn must_in(all: &[ClassRows], class: u32, attr: u32) -> bool
    requires { class < length all.now }
    ensures { result ≡ must_in all.now class attr }
{
    flag_at(all[class as usize].must.as_slice(), attr as usize)
}

/// Whether a class may have an attribute, by its row.
#[tactic(auto, unfolding(crate::specs::Rows::allowed_in))]
pub fn allowed_in(all: &[ClassRows], class: u32, attr: u32) -> bool
    requires { class < length all.now }
    ensures { result ≡ allowed_in all.now class attr }
{
    flag_at(all[class as usize].allowed.as_slice(), attr as usize)
}
