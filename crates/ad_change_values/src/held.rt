//! The attributes of an object with their stored values: those of one taken out, and put back.

ghost use Rattle.std.specs.Prelude.{◌≡◌, ◌<◌, ◌==◌, map, length, position, nat_lt, IfSome, OnOk};
ghost use Rattle.ad_dir_objects.specs.Seen.{stored_seen, held_seen};
ghost use Rattle.ad_dir_model.specs.Object.{stored_in};
ghost use Rattle.ad_dir_model.specs.Soundness.{AttrsRiseFrom};
ghost use Rattle.ad_change_values.specs.Items as modify;
ghost use Rattle.ad_change_values.specs.Judging.{HoldsNone};

use ad_bytes::OneOrMany;
use ad_dir::Stored;
use ad_schema::AttrId;
use std::alloc::{AllocError, Global};

/// The attributes of an object with their stored values.
pub type Held = Vec<(AttrId, OneOrMany<Stored>)>;

fn place_of(held: &[(AttrId, OneOrMany<Stored>)], attr: AttrId) -> Option<usize>
    ensures place { result ≡ position (λ one. one.0.0 == attr.0) held.now }
    ensures within { IfSome result (λ place. place < length held.now) }
{
    held.iter().position(|one| one.0.0 == attr.0)
}

/// Takes the values of an attribute out.
pub fn take_stored(alloc: Global, held: &mut Held, attr: AttrId) -> OneOrMany<Stored>
    requires { AttrsRiseFrom 0 (map held_seen held.old.items) }
    ensures taken { map stored_seen result ≡ stored_in (map held_seen held.old.items) attr.0 }
    ensures left { map held_seen held.new.items
        ≡ modify.without attr.0 (map held_seen held.old.items) }
{
    match place_of(held.as_slice(), attr) {
        Some(place) => {
            let (_, stored) = held.remove(place);
            stored
        }
        None => OneOrMany::new(alloc),
    }
}

fn place_above(held: &[(AttrId, OneOrMany<Stored>)], attr: AttrId) -> Option<usize>
    ensures place { result ≡ position (λ one. nat_lt attr.0 one.0.0) held.now }
    ensures within { IfSome result (λ place. place < length held.now) }
{
    held.iter().position(|one| attr.0 < one.0.0)
}

/// Puts the values of an attribute that isn't held where its number belongs, if there are any.
pub fn put_stored(
    held: &mut Held,
    attr: AttrId,
    stored: OneOrMany<Stored>,
) -> Result<(), AllocError>
    requires { HoldsNone attr.0 (map held_seen held.old.items) }
    ensures { OnOk result (map held_seen held.new.items
        ≡ modify.with_these attr.0 (map stored_seen stored) (map held_seen held.old.items)) }
{
    if stored.is_empty() {
        return Ok(());
    }
    match place_above(held.as_slice(), attr) {
        Some(place) => held.insert(place, (attr, stored))?,
        None => held.push((attr, stored))?,
    }
    Ok(())
}
