//! The attributes of an addition by their numbers: which of them are given, and what is held of them. They are kept
//! in order, so that none is looked for among all of them.

ghost use Rattle.std.specs.Prelude.{◌≡◌, ℕ, ◌++◌, ◌-◌, ◌==◌, ◌&&◌, ◌||◌, not, [], map, IfOk, OnOk};
ghost use Rattle.std.specs.BTreeMap.{btree_map_len};
ghost use Rattle.std.specs.BTreeSet.{contains};
ghost use Rattle.std.specs.Ordering.{nat_cmp};
ghost use Rattle.ad_dir_objects.specs.Seen.{stored_seen, held_seen};
ghost use Rattle.ad_change.specs.Adding.{held_before, is_given};
ghost use Rattle.ad_change.specs.Creating.{all_before};
ghost use Rattle.ad_change_values.specs.ByAttr.{by_attr};

use ad_bytes::{Bytes, List, OneOrMany};
use ad_change_values::Held;
use ad_dir::Stored;
use ad_schema::AttrId;
use std::alloc::{AllocError, Global};
use std::collections::{BTreeMap, BTreeSet};

// ---- which are given

// Puts an attribute among those that are given, unless it is bare of values.
fn put_given(given: &mut BTreeSet<u32>, attr: u32, bare: bool) -> Result<(), AllocError>
    ensures { OnOk result ((other : ℕ) → contains nat_cmp given.new other
        ≡ ((attr == other && not bare) || contains nat_cmp given.old other)) }
{
    if bare {
        return Ok(());
    }
    match given.insert(attr) {
        Ok(_) => Ok(()),
        Err(_) => Err(AllocError),
    }
}

/// The attributes that are given with a value.
pub(crate) fn given_of(
    alloc: Global,
    values: &[(AttrId, List<Bytes>)],
) -> Result<BTreeSet<u32>, AllocError>
    ensures { IfOk result (λ given. (attr : ℕ) → contains nat_cmp given attr
        ≡ is_given values.now attr) }
{
    let mut given = BTreeSet::new(alloc);
    'each: for one in values {
        put_given(&mut given, one.0.0, one.1.is_empty())?;
    }
    Ok(given)
}

/// Whether an attribute is one of these.
pub(crate) fn is_in(given: &BTreeSet<u32>, attr: u32) -> bool
    ensures { result ≡ contains nat_cmp given.now attr }
{
    given.contains(&attr)
}

// ---- what is held

// Puts an attribute with its values in the place of what is held of it, where there are any.
fn put_with(
    values: &mut BTreeMap<u32, OneOrMany<Stored>>,
    attr: AttrId,
    stored: OneOrMany<Stored>,
) -> Result<(), AllocError>
    ensures { OnOk result (by_attr values.new.entries ≡ held_before attr.0 (map stored_seen stored)
        (by_attr values.old.entries)) }
{
    if stored.is_empty() {
        return Ok(());
    }
    match values.insert(attr.0, stored) {
        Ok(_) => Ok(()),
        Err(_) => Err(AllocError),
    }
}

// The same of an attribute that was read.
fn put_last(
    values: &mut BTreeMap<u32, OneOrMany<Stored>>,
    last: (AttrId, OneOrMany<Stored>),
) -> Result<(), AllocError>
    ensures { OnOk result (by_attr values.new.entries
        ≡ held_before (held_seen last).attr (held_seen last).values (by_attr values.old.entries)) }
{
    let (attr, stored) = last;
    put_with(values, attr, stored)
}

// Moves the values of the first attribute after those of all before it.
fn move_first(
    values: &mut BTreeMap<u32, OneOrMany<Stored>>,
    all: &mut Held,
) -> Result<(), AllocError>
    ensures moved { OnOk result (map held_seen all.new.items ++ by_attr values.new.entries
        ≡ map held_seen all.old.items ++ by_attr values.old.entries) }
    ensures fewer { OnOk result (btree_map_len values.new ≡ btree_map_len values.old - 1) }
{
    if let Some((attr, held)) = values.pop_first() {
        all.push((AttrId(attr), held))?;
    }
    Ok(())
}

// The attributes with their values, in order.
fn in_order(alloc: Global, values: BTreeMap<u32, OneOrMany<Stored>>) -> Result<Held, AllocError>
    ensures { IfOk result (λ all. map held_seen all.items ≡ by_attr values.entries) }
{
    let mut values = values;
    let count = values.len();
    let mut all = Vec::with_capacity(alloc, count)?;
    for _ in 0..count {
        move_first(&mut values, &mut all)?;
    }
    Ok(all)
}

/// The attributes by their places, each with its values, from those that were sent in their order.
pub(crate) fn all_held(alloc: Global, mut read: Held) -> Result<Held, AllocError>
    ensures { IfOk result (λ held. map held_seen held.items ≡ all_before (map held_seen read.items)
        []) }
{
    let mut values = BTreeMap::new(alloc);
    'each: while let Some(last) = read.pop() {
        put_last(&mut values, last)?;
    }
    in_order(alloc, values)
}
