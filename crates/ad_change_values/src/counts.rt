//! How many values the attributes have.

ghost use Rattle.std.specs.Prelude.{◌≡◌, ℕ, cond, ◌==◌, map, length, unwrap_or, IfOk, OnOk};
ghost use Rattle.std.specs.BTreeMap.{get};
ghost use Rattle.std.specs.Ordering.{nat_cmp};
ghost use Rattle.ad_dir_objects.specs.Seen.{held_seen};
ghost use Rattle.ad_dir_model.specs.Object.{stored_in};
ghost use Rattle.ad_change_values.specs.ByAttr.{count_in};

use ad_bytes::OneOrMany;
use ad_dir::Stored;
use ad_schema::AttrId;
use std::alloc::{AllocError, Global};
use std::collections::BTreeMap;

/// How many values each attribute has, of those that have some.
pub(crate) type Counts = BTreeMap<u32, usize>;

fn put_count(counts: &mut Counts, attr: u32, count: usize) -> Result<(), AllocError>
    ensures { OnOk result ((other : ℕ) → count_in counts.new other ≡ cond (attr == other) count
        (count_in counts.old other)) }
{
    match counts.insert(attr, count) {
        Ok(_) => Ok(()),
        Err(_) => Err(AllocError),
    }
}

/// How many values an attribute has.
pub(crate) fn count_of(counts: &Counts, attr: AttrId) -> usize
    ensures { result ≡ count_in counts.now attr.0 }
{
    match counts.get(&attr.0) {
        Some(count) => *count,
        None => 0,
    }
}

/// How many values each attribute has.
pub(crate) fn counts_of(
    alloc: Global,
    held: &[(AttrId, OneOrMany<Stored>)],
) -> Result<Counts, AllocError>
    ensures { IfOk result (λ counts. (attr : ℕ) → count_in counts attr
        ≡ length (stored_in (map held_seen held.now) attr)) }
{
    let mut counts = BTreeMap::new(alloc);
    let mut place = held.len();
    'each: while 0 < place {
        place -= 1;
        let one = &held[place];
        put_count(&mut counts, one.0.0, one.1.len())?;
    }
    Ok(counts)
}
