//! Objects that were read, found by their numbers, and told apart by their names and identifiers.

ghost use Rattle.std.specs.Prelude.{◌≡◌, ◌↔◌, ◌-◌, ◌^◌, ◌<◌, ◌++◌, Some, None, length, map, option_map, slice_get};
ghost use Rattle.std.specs.Prelude.{IsTrue, IfOk, IsErr, OnOk};
ghost use Rattle.std.specs.Str.{IsUtf8, is_utf8};
ghost use Rattle.std.specs.List.{AllByRecursion};
ghost use Rattle.ad_dir_model.specs.Object.{Object as ObjectOf};
ghost use Rattle.ad_dir_model.specs.Objects.{object_of, is_live, parent_at, Rise};
ghost use Rattle.ad_dir_model.specs.Tree.{IsPlaced};
ghost use Rattle.ad_bytes.specs.Numbers.{be_bytes};
ghost use Rattle.ad_ids.specs.Sid.{IsSid, sid_bytes};
ghost use Rattle.ad_sd.specs.declared.parts.Sd.{Sd as SdValue};
ghost use Rattle.ad_dir_objects.specs.Seen.{held_seen, object_seen, objects_of, stored_seen};
ghost use Rattle.ad_rows_sound.specs.Least.{IsLeast, lesser};
ghost use Rattle.ad_rows_sound.specs.Parts.{AreLiveLinks, HasSid, HasSmallParent, IsLast, IsLiveLink, name_key};
ghost use Rattle.ad_rows_sound.specs.Parts.{sid_key};
ghost use Rattle.ad_rows_sound.specs.Told.{as_folded};

use ad_bytes::{Bytes, OneOrMany};
use ad_dir::{Object, Stored, object_sid};
use ad_dn::fold;
use ad_ids::{MAX_SID_BYTES, Sid};
use ad_schema::{AttrId, Schema};
use ad_schema_classes::Names;
use ad_sd::NormalSd;
use std::alloc::{AllocError, Global};
use std::str;

/// An object with its descriptor.
pub type Entry = (Object, NormalSd);

// The place of the object of a number, or where it would stand.
fn place_of(objects: &[Entry], number: u32) -> Result<usize, usize>
    requires { Rise (objects_of objects.now) }
    ensures within { IfOk result (λ place. place < length objects.now) }
    ensures found { IfOk result (λ place. (o : ObjectOf) → slice_get (objects_of objects.now) place
        ≡ Some o → o.number ≡ number) }
    ensures absent { IsErr result → object_of (objects_of objects.now) number ≡ None }
{
    objects.binary_search_by_key(&number, |entry| entry.0.number)
}

/// The object of a number.
pub(crate) fn entry_of(objects: &[Entry], number: u32) -> Option<&Entry>
    requires { Rise (objects_of objects.now) }
    ensures { option_map (λ entry. object_seen entry.now.0 entry.now.1) result
        ≡ object_of (objects_of objects.now) number }
{
    match place_of(objects, number) {
        Ok(place) => Some(&objects[place]),
        Err(_) => None,
    }
}

/// Whether an object of the number is there.
pub(crate) fn is_live(objects: &[Entry], number: u32) -> bool
    requires { Rise (objects_of objects.now) }
    ensures { result ≡ is_live (objects_of objects.now) number }
{
    entry_of(objects, number).is_some()
}

// The parent of an object, 0 where there is none of the number.
#[tactic(auto, unfolding(ad_dir_model::specs::Objects::object_at))]
fn parent_of(objects: &[Entry], number: u32) -> u32
    requires { Rise (objects_of objects.now) }
    ensures { result ≡ parent_at (objects_of objects.now) number }
{
    match entry_of(objects, number) {
        Some(entry) => entry.0.parent,
        None => 0,
    }
}

// How many objects at most stand on the way from one up to the root, both counted.
const LEVELS: u32 = 65;

/// Whether an object stands at most 64 parents below the root.
pub(crate) fn is_placed(objects: &[Entry], number: u32) -> bool
    requires { Rise (objects_of objects.now) }
    ensures { IsTrue result ↔ IsPlaced (parent_at (objects_of objects.now)) number }
{
    let mut at = number;
    for _ in 0..LEVELS {
        if at == 1 {
            return true;
        }
        at = parent_of(objects, at);
    }
    false
}

fn is_live_link(objects: &[Entry], stored: &Stored) -> bool
    requires { Rise (objects_of objects.now) }
    ensures { IsTrue result ↔ IsLiveLink (objects_of objects.now) (stored_seen stored.now) }
{
    match stored {
        Stored::Plain(_) => true,
        Stored::Link(number) => is_live(objects, *number),
    }
}

fn are_live_links(objects: &[Entry], values: &[Stored]) -> bool
    requires { Rise (objects_of objects.now) }
    ensures { IsTrue result ↔ AllByRecursion (IsLiveLink (objects_of objects.now))
        (map stored_seen values.now) }
{
    for stored in values {
        if !is_live_link(objects, stored) {
            return false;
        }
    }
    true
}

/// Whether each link of an object names an object that is there.
pub(crate) fn has_live_links(objects: &[Entry], values: &[(AttrId, OneOrMany<Stored>)]) -> bool
    requires { Rise (objects_of objects.now) }
    ensures { IsTrue result ↔ AllByRecursion (AreLiveLinks (objects_of objects.now))
        (map held_seen values.now) }
{
    for held in values {
        if !are_live_links(objects, held.1.as_slice()) {
            return false;
        }
    }
    true
}

fn is_text(bytes: &[u8]) -> bool
    ensures { IsTrue result ↔ IsUtf8 bytes.now }
{
    str::from_utf8(bytes).is_ok()
}

fn is_utf8(bytes: &[u8]) -> bool
    ensures utf8 { IsTrue result ↔ IsUtf8 bytes.now }
    ensures test { result ≡ is_utf8 bytes.now }
{
    is_text(bytes)
}

// The name after folding; where it isn't UTF-8, the bytes as they are. A name that is too long is folded as well.
fn as_folded(alloc: Global, name: &[u8]) -> Result<Vec<u8>, AllocError>
    ensures { IfOk result (λ bytes. bytes.items ≡ as_folded name.now) }
{
    if is_utf8(name) {
        fold(alloc, name)
    } else {
        Vec::from_slice(alloc, name)
    }
}

// A number before a name.
#[tactic(auto, unfolding(ad_bytes::specs::Numbers::be_bytes))]
fn keyed(alloc: Global, number: u32, name: &[u8]) -> Result<Bytes, AllocError>
    ensures key { IfOk result (λ key. key ≡ be_bytes 4 number ++ name.now) }
    ensures small { number < 2 ^ 32 }
{
    let mut key = Vec::from_slice(alloc, &number.to_be_bytes())?;
    key.extend_from_slice(name)?;
    Ok(Bytes::from_vec(key))
}

// The parent, and the name after folding.
fn name_key(alloc: Global, object: &Object) -> Result<Bytes, AllocError>
    ensures key { IfOk result (λ key. (sd : SdValue) → key ≡ name_key (object_seen object.now sd)) }
    ensures small { OnOk result (object.now.parent < 2 ^ 32) }
{
    let name = as_folded(alloc, object.name.as_slice())?;
    keyed(alloc, object.parent, name.as_slice())
}

fn sid_bytes(alloc: Global, sid: &Sid) -> Result<Bytes, AllocError>
    ensures bytes { IfOk result (λ bytes. bytes ≡ sid_bytes sid.now) }
    ensures is { IsSid sid.now }
{
    let mut buffer = [0; MAX_SID_BYTES];
    let len = sid.write(&mut buffer);
    Bytes::from_slice(alloc, &buffer[..len])
}

#[tactic(auto, unfolding(ad_bytes::specs::Numbers::be_bytes))]
fn number_bytes(alloc: Global, number: u32) -> Result<Bytes, AllocError>
    ensures { IfOk result (λ bytes. bytes ≡ be_bytes 4 number) }
{
    Bytes::from_slice(alloc, &number.to_be_bytes())
}

fn sid_key(alloc: Global, schema: &Schema, object: &Object) -> Result<Bytes, AllocError>
    ensures key { IfOk result (λ key. (sd : SdValue) → key
        ≡ sid_key schema.now (object_seen object.now sd)) }
    ensures is { OnOk result ((sd : SdValue) → HasSid schema.now (object_seen object.now sd)) }
{
    match object_sid(schema, object) {
        Some(sid) => sid_bytes(alloc, &sid),
        None => number_bytes(alloc, object.number),
    }
}

/// The keys of the names of objects.
pub(crate) fn name_keys(alloc: Global, objects: &[Entry]) -> Result<Vec<Bytes>, AllocError>
    ensures keys { IfOk result (λ keys. keys.items ≡ map name_key (objects_of objects.now)) }
    ensures small { OnOk result (AllByRecursion HasSmallParent (objects_of objects.now)) }
{
    let mut keys = Vec::with_capacity(alloc, objects.len())?;
    for entry in objects {
        let key = name_key(alloc, &entry.0)?;
        keys.push(key)?;
    }
    Ok(keys)
}

/// The keys of the identifiers of objects.
pub(crate) fn sid_keys(
    alloc: Global,
    schema: &Schema,
    objects: &[Entry],
) -> Result<Vec<Bytes>, AllocError>
    ensures keys { IfOk result (λ keys. keys.items ≡ map (sid_key schema.now)
        (objects_of objects.now)) }
    ensures are { OnOk result (AllByRecursion (HasSid schema.now) (objects_of objects.now)) }
{
    let mut keys = Vec::with_capacity(alloc, objects.len())?;
    for entry in objects {
        let key = sid_key(alloc, schema, &entry.0)?;
        keys.push(key)?;
    }
    Ok(keys)
}

/// The lesser of two numbers, where there are any.
pub(crate) fn lesser(least: Option<u32>, place: Option<u32>) -> Option<u32>
    ensures { result ≡ lesser least place }
{
    match (least, place) {
        (Some(a), Some(b)) => Some(if a < b { a } else { b }),
        (Some(a), None) => Some(a),
        (None, place) => place,
    }
}

/// The least place of a key that stands at a later place again.
pub(crate) fn first_clash(alloc: Global, keys: Vec<Bytes>) -> Result<Option<u32>, AllocError>
    requires { length keys.items < 2 ^ 32 - 1 }
    ensures { IfOk result (IsLeast (IsLast keys.items)) }
{
    let mut names = Names::new(alloc);
    let mut clash = None;
    for key in keys {
        clash = lesser(clash, names.find_exact(key.as_slice()));
        names.push(key)?;
    }
    Ok(clash)
}
