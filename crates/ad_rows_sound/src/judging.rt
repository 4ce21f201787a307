//! Whether all that was read is a sound directory.

ghost use Rattle.std.specs.Prelude.{◌≡◌, ◌↔◌, ◌-◌, ◌^◌, ◌<◌, ◌≤◌, List, Some, None, length, slice_get, IsTrue, IfOk};
ghost use Rattle.std.specs.Prelude.{IfErr, IfSome, OnOk, MatchOption};
ghost use Rattle.std.specs.List.{AllByRecursion};
ghost use Rattle.prop_queue.specs.declared.pending.Pending.{Pending as Entries};
ghost use Rattle.ad_schema.specs.declared.line.SchemaRecord.{SchemaRecord};
ghost use Rattle.ad_dir_model.specs.Directory.{Meta as MetaOf};
ghost use Rattle.ad_dir_model.specs.Object.{Object as ObjectOf};
ghost use Rattle.ad_dir_model.specs.Objects.{Rise};
ghost use Rattle.ad_dir_model.specs.Opening.{IsFirstBadPending};
ghost use Rattle.ad_dir_model.specs.Soundness.{HasOwnSid, IsContent, IsSound, IsSoundFrame};
ghost use Rattle.ad_dir_objects.specs.Seen.{meta_seen, objects_of};
ghost use Rattle.ad_rows_sound.specs.Least.{IsLeastObject};
ghost use Rattle.ad_rows_sound.specs.Objects.{AreObjects, HasSmallNumber};
ghost use Rattle.ad_rows_sound.specs.Parts.{ArePending, dir_of};
ghost use Rattle.ad_rows_sound.specs.Told.{HasNameAlone, IsSoundAmong, IsToldBy};

use crate::fault::SoundnessFault;
use crate::finding::{Entry, entry_of, first_clash, is_live, lesser, name_keys, sid_keys};
use crate::frame::{are_counted, are_short, defaults_read, is_short_name};
use crate::soundness::first_astray;
use crate::waiting::Waiting;
use ad_dir::{Meta, object_sid};
use ad_dir_objects::are_light;
use ad_schema::Schema;
use prop_queue::Pending;
use std::alloc::{AllocError, Global};
use std::collections::BTreeSet;

const MAX_OBJECTS: usize = 65_536;

// A counter is below 2^32.
fn fits(counter: u32)
    ensures { counter < 2 ^ 32 }
{
    let _ = counter;
}

/// Whether the schema, the counters and the limits are sound, and the root is there.
fn is_frame(
    alloc: Global,
    schema: &Schema,
    objects: &[Entry],
    meta: &Meta,
) -> Result<bool, AllocError>
    requires few { length objects.now ≤ 65_536 }
    requires rise { Rise (objects_of objects.now) }
    ensures { IfOk result (λ is. (pending : List Entries)
        → IsTrue is ↔ IsSoundFrame (dir_of schema.now (objects_of objects.now) pending
        (meta_seen meta.now))) }
{
    let Some(root) = entry_of(objects, 1) else {
        return Ok(false);
    };
    let domain = object_sid(schema, &root.0);
    if !are_light(schema, objects) {
        return Ok(false);
    }
    if !are_short(schema.records()) || !is_short_name(alloc, &meta.suffix)? {
        return Ok(false);
    }
    if !are_counted(schema, domain.as_ref(), meta, objects) {
        return Ok(false);
    }
    schema.make_schema();
    fits(meta.next_number);
    fits(meta.next_rid);
    defaults_read(alloc, schema, domain.as_ref())
}

// The number of the object at a place, where a place was found.
fn number_at(objects: &[Entry], place: Option<u32>) -> Option<u32>
    requires { IfSome place (λ i. i < length objects.now) }
    ensures { MatchOption place (result ≡ None)
        (λ i. (o : ObjectOf) → slice_get (objects_of objects.now) i ≡ Some o → result
        ≡ Some o.number) }
{
    match place {
        Some(place) => Some(objects[place as usize].0.number),
        None => None,
    }
}

// The least number of an object whose name another sibling has.
fn same_name(alloc: Global, objects: &[Entry]) -> Result<Option<u32>, AllocError>
    requires few { length objects.now < 2 ^ 32 - 1 }
    requires rise { Rise (objects_of objects.now) }
    ensures { IfOk result (IsLeastObject (HasNameAlone (objects_of objects.now))
        (objects_of objects.now)) }
{
    let keys = name_keys(alloc, objects)?;
    let place = first_clash(alloc, keys)?;
    Ok(number_at(objects, place))
}

// The least number of an object whose identifier another one has.
fn same_sid(alloc: Global, schema: &Schema, objects: &[Entry]) -> Result<Option<u32>, AllocError>
    requires few { length objects.now < 2 ^ 32 - 1 }
    requires rise { Rise (objects_of objects.now) }
    requires small { AllByRecursion HasSmallNumber (objects_of objects.now) }
    ensures { IfOk result (IsLeastObject (HasOwnSid schema.now (objects_of objects.now))
        (objects_of objects.now)) }
{
    let keys = sid_keys(alloc, schema, objects)?;
    let place = first_clash(alloc, keys)?;
    Ok(number_at(objects, place))
}

/// The least number of an object at which a sentence fails.
fn first_unsound(
    alloc: Global,
    schema: &Schema,
    objects: &[Entry],
    bad: Option<u32>,
    pending: &[Pending],
) -> Result<Option<u32>, AllocError>
    requires few { length objects.now < 2 ^ 32 - 1 }
    requires rise { Rise (objects_of objects.now) }
    requires small { AllByRecursion HasSmallNumber (objects_of objects.now) }
    ensures bad { IfOk result (λ first. first ≡ None → bad ≡ None) }
    ensures least { IfOk result (λ first. IsLeastObject (IsContent schema.now)
        (objects_of objects.now) bad → (meta : MetaOf)
        → IsLeastObject (IsSoundAmong (dir_of schema.now (objects_of objects.now) pending.now meta))
        (objects_of objects.now) first) }
{
    let waiting = Waiting::of(alloc, pending)?;
    let astray = first_astray(alloc, schema, objects, &waiting)?;
    let name = same_name(alloc, objects)?;
    let sid = same_sid(alloc, schema, objects)?;
    let alone = lesser(bad, astray);
    let shared = lesser(name, sid);
    Ok(lesser(alone, shared))
}

// The first pending parent that isn't live, or is pending before.
fn first_bad_pending(
    alloc: Global,
    objects: &[Entry],
    pending: &[Pending],
) -> Result<Option<u32>, AllocError>
    requires { Rise (objects_of objects.now) }
    ensures { IfOk result (λ bad. (schema : List SchemaRecord) (meta : MetaOf)
        → MatchOption bad (ArePending (objects_of objects.now) pending.now)
        (IsFirstBadPending (dir_of schema (objects_of objects.now) pending.now meta))) }
{
    let mut parents = BTreeSet::new(alloc);
    for i in 0..pending.len() {
        let parent = pending[i].parent;
        if !is_live(objects, parent) {
            return Ok(Some(parent));
        }
        let is_new = parents.insert(parent)?;
        if !is_new {
            return Ok(Some(parent));
        }
    }
    Ok(None)
}

/// Whether what was read is a sound directory.
///
/// # Errors
///
/// `Unsound` with the number that is told where it isn't, and `Memory`.
pub fn judge(
    alloc: Global,
    schema: &Schema,
    objects: &[Entry],
    bad: Option<u32>,
    pending: &[Pending],
    meta: &Meta,
) -> Result<(), SoundnessFault>
    requires { AreObjects schema.now bad (objects_of objects.now) }
    ensures sound { OnOk result (IsSound
        (dir_of schema.now (objects_of objects.now) pending.now (meta_seen meta.now))) }
    ensures told { IsLeastObject (IsContent schema.now) (objects_of objects.now) bad
        → IfErr result (IsToldBy (dir_of schema.now (objects_of objects.now) pending.now
        (meta_seen meta.now))) }
{
    if objects.len() > MAX_OBJECTS {
        return Err(SoundnessFault::Unsound(0));
    }
    if !is_frame(alloc, schema, objects, meta)? {
        return Err(SoundnessFault::Unsound(0));
    }
    if let Some(number) = first_unsound(alloc, schema, objects, bad, pending)? {
        return Err(SoundnessFault::Unsound(number));
    }
    if let Some(parent) = first_bad_pending(alloc, objects, pending)? {
        return Err(SoundnessFault::Unsound(parent));
    }
    Ok(())
}
