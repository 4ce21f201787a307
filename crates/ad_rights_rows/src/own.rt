//! Where the objects themselves stand among the identities.

ghost use Rattle.std.specs.Prelude.{◌≡◌, ℕ, nat_eq, IfOk, OnOk};
ghost use Rattle.indexmap.specs.IndexMap.{get};
ghost use Rattle.ad_rights_rows.specs.Rows.{own_at};
ghost use Rattle.ad_rights_rows.specs.Steps.{or_else, place_if};

use ad_identities::Identity;
use indexmap::IndexMap;
use std::alloc::{AllocError, Global};

type Places = IndexMap<u32, usize>;

// Puts the place of an object, where none is known of it.
fn enter(table: &mut Places, number: Option<u32>, place: usize) -> Result<(), AllocError>
    ensures { OnOk result ((asked : ℕ) → get nat_eq table.new asked
        ≡ or_else (get nat_eq table.old asked) (place_if number place asked)) }
{
    if let Some(number) = number {
        if table.get(&number).is_none() {
            table.insert(number, place)?;
        }
    }
    Ok(())
}

/// The places of the objects of identities, by their numbers.
///
/// # Errors
///
/// Out of memory.
pub fn places(alloc: Global, members: &[Identity]) -> Result<IndexMap<u32, usize>, AllocError>
    ensures { IfOk result (λ table. (number : ℕ) → get nat_eq table number
        ≡ own_at members.now number) }
{
    let mut table = IndexMap::new(alloc);
    for place in 0..members.len() {
        enter(&mut table, members[place].number, place)?;
    }
    Ok(table)
}
