//! An index of stored values: of each key that is there, from which place on its values are.

ghost use Rattle.std.specs.Prelude.{◌≡◌, ◌==◌, ◌++◌, ◌∷◌, [], Some, None, is_some, suc, not, cond, if◌then◌else◌};
ghost use Rattle.std.specs.Prelude.{filter, length, IfOk, OnOk};
ghost use Rattle.ad_change_values.specs.StoredKeys.{key_of, same_by};
ghost use Rattle.ad_change_values.specs.declared.keys.StoredKey.{StoredKey as KeyValue};
ghost use Rattle.ad_change_values.specs.Piles.{alive, is_since, not_among, since_in, IsIndex};

use crate::keys::{StoredKey, key_of};
use ad_bytes::OneOrMany;
use ad_dir::Stored;
use std::alloc::{AllocError, Global};
use std::collections::BTreeMap;

/// From which place on the values of a key are there.
pub(crate) type Places = BTreeMap<StoredKey, usize>;

fn put(places: &mut Places, key: StoredKey, place: usize) -> Result<(), AllocError>
    ensures { OnOk result ((other : KeyValue) → since_in places.new other ≡ cond (same_by key other)
        (Some place) (since_in places.old other)) }
{
    match places.insert(key, place) {
        Ok(_) => Ok(()),
        Err(_) => Err(AllocError),
    }
}

fn take(places: &mut Places, key: &StoredKey)
    ensures { (other : KeyValue) → since_in places.new other ≡ cond (same_by key.now other) None
        (since_in places.old other) }
{
    places.remove(key);
}

fn since(places: &Places, key: &StoredKey) -> Option<usize>
    ensures { result ≡ since_in places.now key.now }
{
    match places.get(key) {
        Some(place) => Some(*place),
        None => None,
    }
}

/// The index of values that are all there.
pub(crate) fn places_of(alloc: Global, all: &[Stored]) -> Result<Places, AllocError>
    ensures index { IfOk result (λ places. IsIndex (since_in places) all.now) }
    ensures all { IfOk result (λ places. alive (since_in places) 0 all.now ≡ all.now) }
{
    let mut places = BTreeMap::new(alloc);
    for one in all {
        let key = key_of(alloc, one)?;
        put(&mut places, key, 0)?;
    }
    Ok(places)
}

/// Whether a value is there.
pub(crate) fn is_there(alloc: Global, places: &Places, one: &Stored) -> Result<bool, AllocError>
    ensures { IfOk result (λ there. there ≡ is_some (since_in places.now (key_of one.now))) }
{
    let key = key_of(alloc, one)?;
    Ok(places.contains_key(&key))
}

/// Whether none is.
pub(crate) fn is_bare(places: &Places) -> bool
    ensures { result ≡ (length places.now.entries == 0) }
{
    places.len() == 0
}

// Puts the place of a value that comes after so many, unless one of its key is there.
fn put_new(places: &mut Places, key: StoredKey, place: usize) -> Result<(), AllocError>
    ensures { OnOk result ((other : KeyValue) → since_in places.new other
        ≡ (if is_some (since_in places.old key) then since_in places.old other
        else cond (same_by key other) (Some place) (since_in places.old other))) }
{
    if places.contains_key(&key) {
        return Ok(());
    }
    put(places, key, place)?;
    Ok(())
}

/// Puts a value after all.
pub(crate) fn add_one(
    alloc: Global,
    all: &mut OneOrMany<Stored>,
    places: &mut Places,
    one: Stored,
) -> Result<(), AllocError>
    requires { IsIndex (since_in places.old) all.old }
    ensures index { OnOk result (IsIndex (since_in places.new) all.new) }
    ensures added { OnOk result (alive (since_in places.new) 0 all.new ≡ alive (since_in places.old)
        0 all.old ++ one ∷ []) }
{
    let key = key_of(alloc, &one)?;
    put_new(places, key, all.len())?;
    all.push(one)?;
    Ok(())
}

/// Takes values away.
pub(crate) fn take_all(
    alloc: Global,
    all: &[Stored],
    mut places: Places,
    gone: &[Stored],
) -> Result<Places, AllocError>
    requires { IsIndex (since_in places) all.now }
    ensures index { IfOk result (λ left. IsIndex (since_in left) all.now) }
    ensures left { IfOk result (λ left. alive (since_in left) 0 all.now
        ≡ filter (not_among gone.now) (alive (since_in places) 0 all.now)) }
{
    for one in gone {
        let key = key_of(alloc, one)?;
        take(&mut places, &key);
    }
    Ok(places)
}

// Whether the value at a place is there.
fn is_since(alloc: Global, places: &Places, place: usize, one: &Stored) -> Result<bool, AllocError>
    ensures { IfOk result (λ there. there ≡ is_since place (since_in places.now (key_of one.now))) }
{
    let key = key_of(alloc, one)?;
    match since(places, &key) {
        Some(first) => Ok(!(place < first)),
        None => Ok(false),
    }
}

fn next(place: usize) -> Result<usize, AllocError>
    ensures { IfOk result (λ next. next ≡ suc place) }
{
    match place.checked_add(1) {
        Some(next) => Ok(next),
        None => Err(AllocError),
    }
}

fn push_if(left: &mut Vec<Stored>, there: bool, one: Stored) -> Result<(), AllocError>
    ensures { OnOk result (left.new.items ≡ left.old.items ++ (if there then one ∷ [] else [])) }
{
    if !there {
        return Ok(());
    }
    left.push(one)?;
    Ok(())
}

/// The values that are there.
pub(crate) fn alive_of(
    alloc: Global,
    places: &Places,
    all: OneOrMany<Stored>,
) -> Result<OneOrMany<Stored>, AllocError>
    ensures { IfOk result (λ left. left ≡ alive (since_in places.now) 0 all) }
{
    let mut left = Vec::new(alloc);
    let mut place = 0;
    let items = all.into_vec()?;
    for one in items {
        let there = is_since(alloc, places, place, &one)?;
        push_if(&mut left, there, one)?;
        let after = next(place)?;
        place = after;
    }
    Ok(OneOrMany::from_vec(left))
}
