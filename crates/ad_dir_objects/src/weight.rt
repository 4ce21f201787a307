//! What objects weigh. Weights are taken from what is left, as long as it is enough, so that no sum is too large.

ghost use Rattle.std.specs.Prelude.{◌≡◌, ◌&&◌, map, codes, nat_le};
ghost use Rattle.ad_dir_objects.specs.Seen.{stored_seen, held_seen, object_seen, objects_of};
ghost use Rattle.ad_dir_model.specs.Attributes.{is_named};
ghost use Rattle.ad_dir_model.specs.Limits.{max_weight};
ghost use Rattle.ad_dir_model.specs.Weight.{stored_weight, values_weight, is_only_one, held_weight, all_held_weight};
ghost use Rattle.ad_dir_model.specs.Weight.{object_weight, objects_weight};
ghost use Rattle.ad_dir_objects.specs.Left.{left_of};
ghost use Rattle.ad_sd.specs.declared.parts.Sd.{Sd as SdValue};

use crate::attributes::is_named;
use crate::{Object, Stored};
use ad_bytes::OneOrMany;
use ad_schema::{AttrId, Schema};
use ad_sd::NormalSd;

/// The largest weight of a directory.
pub const MAX_WEIGHT: usize = 268_435_456;

fn spend(left: usize, weight: usize) -> Option<usize>
    ensures { result ≡ left_of left weight }
{
    if weight <= left {
        return Some(left - weight);
    }
    None
}

fn after_stored(left: usize, value: &Stored) -> Option<usize>
    ensures { result ≡ left_of left (stored_weight (stored_seen value.now)) }
{
    match value {
        Stored::Plain(value) => match spend(left, 8) {
            Some(less) => spend(less, value.shown().len()),
            None => None,
        },
        Stored::Link(_) => spend(left, 12),
    }
}

fn after_values(left: usize, values: &[Stored]) -> Option<usize>
    ensures { result ≡ left_of left (values_weight (map stored_seen values.now)) }
{
    let mut left = left;
    for value in values {
        match after_stored(left, value) {
            Some(less) => left = less,
            None => return None,
        }
    }
    Some(left)
}

// Whether it is one value, and shows 1.
fn is_only_one(values: &[Stored]) -> bool
    ensures { result ≡ is_only_one (map stored_seen values.now) }
{
    match values {
        [Stored::Plain(value)] => value.shown() == b"1".as_slice(),
        _ => false,
    }
}

// Whether it is an adminCount whose one value is 1. The values are looked at first, since to look a name up takes
// longer.
fn counts_nothing(schema: &Schema, attr: AttrId, values: &[Stored]) -> bool
    ensures { result ≡ (is_named schema.now (codes "adminCount") attr.0
        && is_only_one (map stored_seen values.now)) }
{
    if !is_only_one(values) {
        return false;
    }
    is_named(schema, b"adminCount", attr)
}

fn after_held(schema: &Schema, left: usize, held: &(AttrId, OneOrMany<Stored>)) -> Option<usize>
    ensures { result ≡ left_of left (held_weight schema.now (held_seen held.now)) }
{
    if counts_nothing(schema, held.0, held.1.as_slice()) {
        return Some(left);
    }
    match spend(left, 12) {
        Some(less) => after_values(less, held.1.as_slice()),
        None => None,
    }
}

fn after_all_held(
    schema: &Schema,
    left: usize,
    values: &[(AttrId, OneOrMany<Stored>)],
) -> Option<usize>
    ensures { result ≡ left_of left (all_held_weight schema.now (map held_seen values.now)) }
{
    let mut left = left;
    for held in values {
        match after_held(schema, left, held) {
            Some(less) => left = less,
            None => return None,
        }
    }
    Some(left)
}

/// What is left when the weight of the object is taken from so much, where it is enough.
#[tactic(auto, unfolding(ad_dir_model::specs::Weight::object_weight))]
pub fn after_object(schema: &Schema, left: usize, object: &Object) -> Option<usize>
    ensures { (sd : SdValue) → result
        ≡ left_of left (object_weight schema.now (object_seen object.now sd)) }
{
    let Some(less) = spend(left, 24) else {
        return None;
    };
    match spend(less, object.name.len()) {
        Some(least) => after_all_held(schema, least, object.values.as_slice()),
        None => None,
    }
}

/// What is left when the weights of the objects are taken from so much, where it is enough.
pub fn after_objects(schema: &Schema, left: usize, objects: &[(Object, NormalSd)]) -> Option<usize>
    ensures { result ≡ left_of left (objects_weight schema.now (objects_of objects.now)) }
{
    let mut left = left;
    for entry in objects {
        match after_object(schema, left, &entry.0) {
            Some(less) => left = less,
            None => return None,
        }
    }
    Some(left)
}

/// Whether the objects are light enough for a directory: together at most 268,435,456 bytes.
#[tactic(auto, unfolding(ad_dir_model::specs::Limits::max_weight))]
pub fn are_light(schema: &Schema, objects: &[(Object, NormalSd)]) -> bool
    ensures { result ≡ nat_le (objects_weight schema.now (objects_of objects.now)) max_weight }
{
    after_objects(schema, MAX_WEIGHT, objects).is_some()
}
