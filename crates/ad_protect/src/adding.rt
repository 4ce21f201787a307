//! An object with adminCount.

ghost use Rattle.std.specs.Prelude.{◌≡◌, ◌∷◌, [], ◌==◌, ◌<◌, nat_le, false, map, length, slice_get, remove};
ghost use Rattle.std.specs.Prelude.{if◌then◌else◌, IfOk, IsTrue};
ghost use Rattle.std.specs.List.{position_or_len};
ghost use Rattle.std.specs.Option.{option_map_or};
ghost use Rattle.ad_sd.specs.declared.parts.Sd.{Sd as SdValue};
ghost use Rattle.ad_dir_objects.specs.Seen.{stored_seen, held_seen, object_seen};
ghost use Rattle.ad_dir_model.specs.Object.{plain};
ghost use Rattle.ad_dir_model.specs.Changes.{with_values};
ghost use Rattle.ad_dir_model.specs.Protection.{with_mark};
ghost use Rattle.ad_protect.specs.Putting.{mark_seen};

use crate::mark::Mark;
use ad_bytes::{List, OneOrMany};
use ad_dir::{Object, Stored};
use ad_schema::AttrId;
use std::alloc::{AllocError, Global};

type Held = (AttrId, OneOrMany<Stored>);

// The value of a mark alone.
fn one_value(alloc: Global, mark: &Mark) -> Result<OneOrMany<Stored>, AllocError>
    ensures { IfOk result (λ values. map stored_seen values ≡ plain mark.now.value ∷ []) }
{
    let mut values = OneOrMany::new(alloc);
    values.push(Stored::Plain(mark.value.copy(alloc)?))?;
    Ok(values)
}

// The first place of an attribute that isn't before this one.
fn place_of(values: &[Held], attr: AttrId) -> usize
    ensures { result ≡ position_or_len (λ held. nat_le attr.0 held.0.0) values.now }
{
    for (i, held) in values.iter().enumerate() {
        if attr.0 <= held.0.0 {
            return i;
        }
    }
    values.len()
}

// Whether the attribute stands at the place.
fn stands_at(values: &[Held], place: usize, attr: AttrId) -> bool
    ensures { result ≡ option_map_or (λ held. held.0.0 == attr.0) (slice_get values.now place)
        false }
{
    match values.get(place) {
        Some(held) => held.0.0 == attr.0,
        None => false,
    }
}

// Takes the attribute at the place out, where it is to go.
fn remove_if(gone: bool, values: &mut Vec<Held>, place: usize)
    requires { IsTrue gone → place < length values.old.items }
    ensures { values.new.items ≡ (if gone then remove values.old.items place
        else values.old.items) }
{
    if gone {
        let _held = values.remove(place);
    }
}

// The attribute with these values, in the place of what was held of it, or else where its number belongs.
fn with_values(
    mut values: Vec<Held>,
    attr: AttrId,
    of_attr: OneOrMany<Stored>,
) -> Result<Vec<Held>, AllocError>
    ensures { IfOk result (λ all. map held_seen all.items
        ≡ with_values attr.0 (map stored_seen of_attr) (map held_seen values.items)) }
{
    let place = place_of(values.as_slice(), attr);
    let stands = stands_at(values.as_slice(), place, attr);
    remove_if(stands, &mut values, place);
    values.insert(place, (attr, of_attr))?;
    Ok(values)
}

/// The object with the mark.
pub(crate) fn with_mark(alloc: Global, object: Object, mark: &Mark) -> Result<Object, AllocError>
    ensures { (sd : SdValue) → IfOk result (λ marked. object_seen marked sd
        ≡ with_mark (Some (mark_seen mark.now)) (object_seen object sd)) }
{
    let of_attr = one_value(alloc, mark)?;
    let Object {
        number,
        parent,
        class,
        name,
        values,
    } = object;
    let values = with_values(values.into_vec(), mark.attr, of_attr)?;
    Ok(Object {
        number,
        parent,
        class,
        name,
        values: List::from_vec(values),
    })
}
