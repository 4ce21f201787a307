//! Whether an object that is put is the one that stands there.

ghost use Rattle.std.specs.Prelude.{◌≡◌, ◌↔◌, IsTrue, map};
ghost use Rattle.std.specs.Str.{bytes_eq};
ghost use Rattle.ad_sd.specs.declared.parts.Sd.{Sd as SdValue};
ghost use Rattle.ad_dir_objects.specs.Seen.{stored_seen, held_seen, object_seen};
ghost use Rattle.ad_change.specs.Judging.{same_place};

use ad_bytes::{Bytes, OneOrMany};
use ad_dir::{Object, Stored};
use ad_schema::AttrId;
use ad_value::{Value, equal};

// ---- values

// Whether two values show the same bytes and are compared by the same key.
fn same_value(a: &Value, b: &Value) -> bool
    ensures { IsTrue result ↔ (a.now ≡ b.now) }
{
    if a.shown() != b.shown() {
        return false;
    }
    equal(a, b)
}

fn same_stored(a: &Stored, b: &Stored) -> bool
    ensures { IsTrue result ↔ (stored_seen a.now ≡ stored_seen b.now) }
{
    match (a, b) {
        (Stored::Plain(a), Stored::Plain(b)) => same_value(a, b),
        (Stored::Link(a), Stored::Link(b)) => *a == *b,
        _ => false,
    }
}

fn same_stored_all(a: &[Stored], b: &[Stored]) -> bool
    ensures { IsTrue result ↔ (map stored_seen a.now ≡ map stored_seen b.now) }
{
    if a.len() != b.len() {
        return false;
    }
    'each: for i in 0..a.len() {
        if !same_stored(&a[i], &b[i]) {
            return false;
        }
    }
    true
}

// ---- attributes

fn same_held(a: &(AttrId, OneOrMany<Stored>), b: &(AttrId, OneOrMany<Stored>)) -> bool
    ensures { IsTrue result ↔ (held_seen a.now ≡ held_seen b.now) }
{
    if a.0.0 != b.0.0 {
        return false;
    }
    same_stored_all(a.1.as_slice(), b.1.as_slice())
}

fn same_held_all(a: &[(AttrId, OneOrMany<Stored>)], b: &[(AttrId, OneOrMany<Stored>)]) -> bool
    ensures { IsTrue result ↔ (map held_seen a.now ≡ map held_seen b.now) }
{
    if a.len() != b.len() {
        return false;
    }
    'each: for i in 0..a.len() {
        if !same_held(&a[i], &b[i]) {
            return false;
        }
    }
    true
}

// ---- the object

fn same_bytes(a: &Bytes, b: &Bytes) -> bool
    ensures { result ≡ bytes_eq a.now b.now }
{
    a.as_slice() == b.as_slice()
}

// Whether two objects have one number, parent, class and naming value.
fn same_place(a: &Object, b: &Object) -> bool
    ensures { result ≡ same_place a.now b.now }
{
    a.number == b.number
        && (a.parent == b.parent && (a.class.0 == b.class.0 && same_bytes(&a.name, &b.name)))
}

/// Whether two objects are the same but for their descriptors. The time is linear in their values.
pub(crate) fn same_object(a: &Object, b: &Object) -> bool
    ensures { (sd : SdValue) → IsTrue result ↔ (object_seen a.now sd ≡ object_seen b.now sd) }
{
    if !same_place(a, b) {
        return false;
    }
    same_held_all(a.values.as_slice(), b.values.as_slice())
}
