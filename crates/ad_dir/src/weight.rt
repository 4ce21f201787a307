//! The weight of all objects, where it is known.

ghost use Rattle.std.specs.Prelude.{◌+◌, ◌≡◌, ℕ, OnOk, OnErr};
ghost use Rattle.ad_dir_model.specs.Objects.{Rise, put, removed};
ghost use Rattle.ad_dir_model.specs.Weight.{object_weight};
ghost use Rattle.ad_sd.specs.declared.parts.Sd.{Sd as SdValue};
ghost use Rattle.ad_dir_objects.specs.Seen.{object_seen, objects_of};
ghost use Rattle.ad_dir_table.specs.Entry.{objects_in};
ghost use Rattle.ad_dir.specs.Weighing.{Weighs, WeighsOne, weight_in};

use ad_dir_objects::{MAX_WEIGHT, Object, after_object, after_objects};
use ad_dir_table::Objects;
use ad_schema::Schema;
use ad_sd::NormalSd;
use std::alloc::AllocError;

fn weight_of(schema: &Schema, object: &Object) -> Option<usize>
    ensures { (sd : SdValue) → WeighsOne result
        (object_weight schema.now (object_seen object.now sd)) }
{
    match after_object(schema, MAX_WEIGHT, object) {
        Some(left) => Some(MAX_WEIGHT - left),
        None => None,
    }
}

// The weight of the object of a number, if there is one.
fn weight_at(schema: &Schema, objects: &Objects, number: u32) -> Option<usize>
    ensures { WeighsOne result (weight_in schema.now (objects_in objects.now.entries) number) }
{
    match objects.object(number) {
        Some(object) => weight_of(schema, object),
        None => Some(0),
    }
}

fn with_less(all: Option<usize>, gone: Option<usize>) -> Option<usize>
    ensures { (a g : ℕ) → WeighsOne all (a + g) → WeighsOne gone g → WeighsOne result a }
{
    match all {
        Some(all) => match gone {
            Some(gone) => all.checked_sub(gone),
            None => None,
        },
        None => None,
    }
}

fn with_more(all: Option<usize>, new: Option<usize>) -> Option<usize>
    ensures { (a n : ℕ) → WeighsOne all a → WeighsOne new n → WeighsOne result (a + n) }
{
    match all {
        Some(all) => match new {
            Some(new) => all.checked_add(new),
            None => None,
        },
        None => None,
    }
}

/// The weight of all objects.
pub(crate) fn weight_of_all(schema: &Schema, objects: &[(Object, NormalSd)]) -> Option<usize>
    ensures { Weighs schema.now result (objects_of objects.now) }
{
    match after_objects(schema, MAX_WEIGHT, objects) {
        Some(left) => Some(MAX_WEIGHT - left),
        None => None,
    }
}

/// The weight of all objects with this one put.
pub(crate) fn weight_with(
    schema: &Schema,
    objects: &Objects,
    all: Option<usize>,
    object: &Object,
) -> Option<usize>
    ensures { (sd : SdValue) → Rise (objects_in objects.now.entries)
        → Weighs schema.now all (objects_in objects.now.entries)
        → Weighs schema.now result (put (object_seen object.now sd)
        (objects_in objects.now.entries)) }
{
    let more = with_more(all, weight_of(schema, object));
    with_less(more, weight_at(schema, objects, object.number))
}

/// The weight of all objects without the one of a number.
pub(crate) fn weight_without(
    schema: &Schema,
    objects: &Objects,
    all: Option<usize>,
    number: u32,
) -> Option<usize>
    ensures { Rise (objects_in objects.now.entries)
        → Weighs schema.now all (objects_in objects.now.entries)
        → Weighs schema.now result (removed number (objects_in objects.now.entries)) }
{
    with_less(all, weight_at(schema, objects, number))
}

/// The weight of all objects after one was put, or else the one before.
pub(crate) fn if_put(
    put: &Result<(), AllocError>,
    new: Option<usize>,
    old: Option<usize>,
) -> Option<usize>
    ensures ok { OnOk put.now (result ≡ new) }
    ensures err { OnErr put.now (result ≡ old) }
{
    match put {
        Ok(()) => new,
        Err(_) => old,
    }
}
