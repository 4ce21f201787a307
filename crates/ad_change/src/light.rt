//! Whether the directory is light enough with an object put.

ghost use Rattle.std.specs.Prelude.{◌≡◌, ◌-◌, ℕ, nat_le, true, IfSome};
ghost use Rattle.ad_dir_model.specs.Weight.{weight};
ghost use Rattle.ad_sd.specs.declared.parts.Sd.{Sd as SdValue};
ghost use Rattle.ad_dir_objects.specs.Seen.{object_seen};
ghost use Rattle.ad_dir_model.specs.Objects.{is_live, object_at};
ghost use Rattle.ad_dir_model.specs.Soundness.{IsSound};
ghost use Rattle.ad_dir_objects.specs.Left.{left_of};
ghost use Rattle.ad_change.specs.Tree as tree;
ghost use Rattle.ad_change.specs.Others.{other_weight, others_weight};

use ad_dir::{Dir, Object, live_object};
use ad_dir_objects::after_object;

/// The largest weight of a directory.
const MAX_WEIGHT: usize = 268_435_456;

// What is left after a live object, which counts for nothing if it is the one of this number.
fn after_other(dir: &Dir, left: usize, but: u32, number: u32) -> Option<usize>
    requires { is_live dir.now.objects number ≡ true }
    ensures { result ≡ left_of left
        (other_weight dir.now.schema but (object_at dir.now.objects number)) }
{
    if number == but {
        return Some(left);
    }
    after_object(dir.schema(), left, live_object(dir, number))
}

// What is left after all objects but the one of this number.
fn after_others(dir: &Dir, left: usize, but: u32) -> Option<usize>
    ensures { result ≡ left_of left (others_weight dir.now.schema but dir.now.objects) }
{
    dir.invariants();
    let mut left = left;
    let mut above = 0;
    'each: while let Some(number) = dir.next_number(above) {
        match after_other(dir, left, but, number) {
            Some(less) => left = less,
            None => return None,
        }
        above = number;
    }
    Some(left)
}

fn less(all: usize, gone: usize) -> Option<usize>
    ensures { (rest : ℕ) → all - gone ≡ rest → IfSome result (λ bytes. bytes ≡ rest) }
{
    all.checked_sub(gone)
}

// What all weigh without the object of this number, if there is one, where what it weighs is known.
fn weight_without(dir: &Dir, all: usize, number: u32) -> Option<usize>
    ensures { all ≡ weight dir.now → IfSome result
        (λ bytes. bytes ≡ others_weight dir.now.schema number dir.now.objects) }
{
    dir.invariants();
    match dir.object(number) {
        Some(object) => match after_object(dir.schema(), MAX_WEIGHT, object) {
            Some(left) => less(all, MAX_WEIGHT - left),
            None => None,
        },
        None => Some(all),
    }
}

// The weight of all objects but the one of this number, where it is known.
fn known_others(dir: &Dir, but: u32) -> Option<usize>
    ensures { IfSome result (λ bytes. bytes ≡ others_weight dir.now.schema but dir.now.objects) }
{
    match dir.weight() {
        Some(all) => weight_without(dir, all, but),
        None => None,
    }
}

// Whether so much is enough for all objects but the one of this number.
fn is_enough(dir: &Dir, left: usize, but: u32) -> bool
    ensures { result ≡ nat_le (others_weight dir.now.schema but dir.now.objects) left }
{
    match known_others(dir, but) {
        Some(weight) => weight <= left,
        None => after_others(dir, left, but).is_some(),
    }
}

/// Whether the directory is none too heavy with the object put, in the place of the one of its number if there is
/// one. What the others weigh is kept with the directory, and summed up only where it isn't.
pub(crate) fn fits_weight_limit(dir: &Dir, object: &Object) -> bool
    requires { IsSound dir.now }
    ensures { (sd : SdValue) → result ≡ tree.fits_weight_limit dir.now (object_seen object.now sd) }
{
    match after_object(dir.schema(), MAX_WEIGHT, object) {
        Some(left) => is_enough(dir, left, object.number),
        None => false,
    }
}
