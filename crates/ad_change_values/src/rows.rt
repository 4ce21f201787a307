//! The attributes of an object while the items of a Modify are applied to them. They are kept in order by their
//! numbers, so that none is looked for among all of them.

ghost use Rattle.std.specs.Prelude.{◌≡◌, ◌++◌, ◌-◌, map, IfOk, OnOk};
ghost use Rattle.std.specs.BTreeMap.{btree_map_len};
ghost use Rattle.ad_dir_objects.specs.Seen.{stored_seen, held_seen};
ghost use Rattle.ad_dir_model.specs.Object.{stored_in};
ghost use Rattle.ad_dir_model.specs.Changes.{with_values};
ghost use Rattle.ad_dir_model.specs.Soundness.{AttrsRiseFrom};
ghost use Rattle.ad_change_values.specs.Items as modify;
ghost use Rattle.ad_change_values.specs.Judging.{HoldsNone};
ghost use Rattle.ad_change_values.specs.ByAttr.{by_attr};

use crate::held::Held;
use crate::pile::Pile;
use ad_bytes::OneOrMany;
use ad_schema::AttrId;
use std::alloc::{AllocError, Global};
use std::collections::BTreeMap;

/// The attributes by their numbers, each with its values.
pub(crate) type Rows = BTreeMap<u32, Pile>;

fn put_row(rows: &mut Rows, attr: AttrId, pile: Pile) -> Result<(), AllocError>
    ensures { OnOk result (by_attr rows.new.entries ≡ with_values attr.0 (map stored_seen pile)
        (by_attr rows.old.entries)) }
{
    match rows.insert(attr.0, pile) {
        Ok(_) => Ok(()),
        Err(_) => Err(AllocError),
    }
}

/// The attributes with these values.
pub(crate) fn rows_of(held: Held) -> Result<Rows, AllocError>
    requires { AttrsRiseFrom 0 (map held_seen held.items) }
    ensures { IfOk result (λ rows. by_attr rows.entries ≡ map held_seen held.items) }
{
    let mut rows = BTreeMap::new(*held.allocator());
    for (attr, stored) in held {
        put_row(&mut rows, attr, Pile::of(stored))?;
    }
    Ok(rows)
}

// Moves the values of the first attribute after those of all before it.
fn move_first(alloc: Global, rows: &mut Rows, held: &mut Held) -> Result<(), AllocError>
    ensures moved { OnOk result (map held_seen held.new.items ++ by_attr rows.new.entries
        ≡ map held_seen held.old.items ++ by_attr rows.old.entries) }
    ensures fewer { OnOk result (btree_map_len rows.new ≡ btree_map_len rows.old - 1) }
{
    if let Some((attr, pile)) = rows.pop_first() {
        held.push((AttrId(attr), pile.into_few(alloc)?))?;
    }
    Ok(())
}

/// The values that the attributes have.
pub(crate) fn held_of(alloc: Global, rows: Rows) -> Result<Held, AllocError>
    ensures { IfOk result (λ held. map held_seen held.items ≡ by_attr rows.entries) }
{
    let mut rows = rows;
    let count = rows.len();
    let mut held = Vec::with_capacity(alloc, count)?;
    for _ in 0..count {
        move_first(alloc, &mut rows, &mut held)?;
    }
    Ok(held)
}

/// Takes the values of an attribute out.
pub(crate) fn take_pile(alloc: Global, rows: &mut Rows, attr: AttrId) -> Pile
    requires { AttrsRiseFrom 0 (by_attr rows.old.entries) }
    ensures taken { map stored_seen result ≡ stored_in (by_attr rows.old.entries) attr.0 }
    ensures left { by_attr rows.new.entries ≡ modify.without attr.0 (by_attr rows.old.entries) }
{
    match rows.remove(&attr.0) {
        Some(pile) => pile,
        None => Pile::of(OneOrMany::new(alloc)),
    }
}

/// Puts the values of an attribute that isn't held where its number belongs, if there are any.
pub(crate) fn put_pile(rows: &mut Rows, attr: AttrId, stored: Pile) -> Result<(), AllocError>
    requires { HoldsNone attr.0 (by_attr rows.old.entries) }
    ensures { OnOk result (by_attr rows.new.entries ≡ modify.with_these attr.0
        (map stored_seen stored) (by_attr rows.old.entries)) }
{
    if stored.is_empty() {
        return Ok(());
    }
    match rows.insert(attr.0, stored) {
        Ok(_) => Ok(()),
        Err(_) => Err(AllocError),
    }
}
