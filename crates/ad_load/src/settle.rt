//! Inheritance: each object's descriptor, computed from the root.

ghost use Rattle.std.specs.Prelude.{◌≡◌, ◌<◌, map, length, IfOk, OnOk};
ghost use Rattle.ad_dir_objects.specs.Seen.{meta_seen};
ghost use Rattle.ad_inherit.specs.Whole.{explicit_part};
ghost use Rattle.ad_dir_model.specs.Conditions.{IsAllRead};
ghost use Rattle.ad_load.specs.Seen.{entry_seen};
ghost use Rattle.ad_load.specs.Settling.{AreInOrder, HasPlaceAbove, settled_of, with_sd_at, unsettled_with};
ghost use Rattle.ad_load.specs.Settling.{all_settled};

use ad_dir::{Meta, Object, guid_of};
use ad_inherit::{WholeSd, explicit, whole_again};
use ad_schema::Schema;
use ad_sd::NormalSd;
use std::alloc::{AllocError, Global};

// The root's descriptor.
fn root_sd(alloc: Global, own: &NormalSd) -> Result<NormalSd, AllocError>
    ensures { IfOk result (λ sd. sd ≡ explicit_part own.now) }
{
    let sd = explicit(alloc, own.view())?;
    NormalSd::of(alloc, &sd)
}

// The descriptor of the object at a place, where those before it have theirs.
#[tactic(auto, unfolding(crate::specs::Settling::settled_of))]
fn settled_at(
    alloc: Global,
    schema: &Schema,
    last: &mut Option<WholeSd>,
    objects: &[(Object, NormalSd)],
    place: usize,
) -> Result<NormalSd, AllocError>
    requires place { place < length objects.now }
    requires above { HasPlaceAbove (map entry_seen objects.now) place }
    ensures { IfOk result (λ sd. sd ≡ settled_of schema.now (map entry_seen objects.now) place) }
{
    let own = &objects[place];
    if place == 0 {
        return root_sd(alloc, &own.1);
    }
    let above = &objects[own.0.parent as usize - 1];
    let class = guid_of(schema, own.0.class);
    whole_again(alloc, last, above.1.view(), own.1.view(), class)
}

// Gives the object at a place this descriptor.
fn put_sd(objects: &mut Vec<(Object, NormalSd)>, place: usize, sd: NormalSd)
    requires { place < length objects.old.items }
    ensures seen { map entry_seen objects.new.items
        ≡ with_sd_at place sd (map entry_seen objects.old.items) }
    ensures len { length objects.new.items ≡ length objects.old.items }
{
    objects[place].1 = sd;
}

/// Gives each object the descriptor that it has from the root. They stand in the order of their numbers, each after
/// its parent.
pub(crate) fn settle(
    alloc: Global,
    schema: &Schema,
    objects: &mut Vec<(Object, NormalSd)>,
    meta: &Meta,
) -> Result<(), AllocError>
    requires order { AreInOrder (map entry_seen objects.old.items) }
    requires read { IsAllRead (unsettled_with schema.now (map entry_seen objects.old.items)
        (meta_seen meta.now)) }
    ensures { OnOk result (map entry_seen objects.new.items
        ≡ all_settled (unsettled_with schema.now (map entry_seen objects.old.items)
        (meta_seen meta.now))) }
{
    let mut last = None;
    for place in 0..objects.len() {
        let sd = settled_at(alloc, schema, &mut last, objects.as_slice(), place)?;
        put_sd(objects, place, sd);
    }
    Ok(())
}
