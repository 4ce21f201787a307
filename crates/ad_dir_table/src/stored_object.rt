//! The objects by their numbers, each with the id of its descriptor.

ghost use Rattle.std.specs.Prelude.{◌≡◌, OnOk, OnErr, IfOk, IfSome, MatchOption, option_map, List};
ghost use Rattle.std.specs.Option.{option_copied};
ghost use Rattle.std.specs.BTreeMap.{IsOrdered, insert_entry, is_at};
ghost use Rattle.std.specs.Map.{lookup, remove_entry};
ghost use Rattle.std.specs.Ordering.{nat_cmp};
ghost use Rattle.ad_schema.specs.declared.line.SchemaRecord.{SchemaRecord};
ghost use Rattle.ad_sd.specs.declared.parts.Sd.{Sd as SdValue};
ghost use Rattle.sd_pool.specs.Blocks.{Extent};
ghost use Rattle.ad_dir_model.specs.Identity.{sid_in};
ghost use Rattle.ad_dir_model.specs.Objects.{object_of, numbers};
ghost use Rattle.ad_dir_objects.specs.Seen.{object_seen};
ghost use Rattle.ad_dir_table.specs.Entry.{HasItsSid};
ghost use Rattle.ad_dir_table.specs.Listing.{next_number};
ghost use Rattle.ad_dir_table.specs.Fields.{AllKept, AreKeyed, HasNormal, entry_kept, kept_sid, object_kept};
ghost use Rattle.ad_dir_table.specs.Fields.{objects_kept, with_id};

use crate::object_slot::ObjectSlot;
use ad_dir_objects::{Object, object_sid};
use ad_ids::Sid;
use ad_schema::Schema;
use sd_pool::SdId;
use std::alloc::{AllocError, Global};
use std::collections::BTreeMap;
use std::ops::Bound;

/// An object with the id of its descriptor, and its identifier if it has one.
#[derive(Drop)]
pub(crate) struct StoredObject {
    pub object: Object,
    pub id: SdId,
    pub has_sid: bool,
    pub sid: Sid,
}

impl StoredObject {
    /// The object with the identifier that it has.
    pub fn of(schema: &Schema, object: Object, id: SdId) -> StoredObject
        ensures object { result.object ≡ object }
        ensures id { result.id ≡ id }
        ensures sid { (sd : SdValue) → kept_sid result ≡ sid_in schema.now (object_seen object sd) }
    {
        match object_sid(schema, &object) {
            Some(sid) => StoredObject {
                object,
                id,
                has_sid: true,
                sid,
            },
            None => StoredObject {
                object,
                id,
                has_sid: false,
                sid: Sid::well_known(0, 0),
            },
        }
    }
}

/// The identifier of an object.
pub(crate) fn sid_of(kept: &StoredObject) -> Option<&Sid>
    ensures { option_copied result ≡ kept_sid kept.now }
{
    if kept.has_sid { Some(&kept.sid) } else { None }
}

fn kept_in(found: Option<&ObjectSlot>) -> Option<&StoredObject>
    ensures { option_copied result ≡ option_copied found.entry }
{
    match found {
        Some(shelf) => Some(shelf.kept()),
        None => None,
    }
}

/// The object of a number.
pub(crate) fn kept_of(objects: &BTreeMap<u32, ObjectSlot>, number: u32) -> Option<&StoredObject>
    requires { AreKeyed objects.now.entries }
    ensures at { option_copied result ≡ lookup (is_at (nat_cmp number)) objects.now.entries }
    ensures found { (live : List Extent)
        → option_map (λ kept. object_kept live kept.now) result
        ≡ object_of (objects_kept live objects.now.entries) number }
    ensures normal { (live : List Extent) → AllKept (HasNormal live) objects.now.entries
        → IfSome result (λ kept. HasNormal live kept.now) }
    ensures sid { (schema : List SchemaRecord) (live : List Extent)
        → AllKept (λ kept. HasItsSid schema (entry_kept live kept)) objects.now.entries
        → IfSome result (λ kept. HasItsSid schema (entry_kept live kept.now)) }
{
    kept_in(objects.get(&number))
}

/// The least number above one.
pub(crate) fn next_number(objects: &BTreeMap<u32, ObjectSlot>, above: u32) -> Option<u32>
    requires { AreKeyed objects.now.entries }
    ensures { (live : List Extent) → result ≡ next_number (objects_kept live objects.now.entries)
        above }
{
    match objects
        .range((Bound::Excluded(above), Bound::Unbounded))
        .next()
    {
        Some((number, _)) => Some(*number),
        None => None,
    }
}

/// The numbers, rising.
pub(crate) fn numbers(
    alloc: Global,
    objects: &BTreeMap<u32, ObjectSlot>,
) -> Result<Vec<u32>, AllocError>
    ensures { (live : List Extent) → IfOk result
        (λ all. all.items ≡ numbers (objects_kept live objects.now.entries)) }
{
    let mut all = Vec::new(alloc);
    for kept in objects.values() {
        all.push(kept.kept().object.number)?;
    }
    Ok(all)
}

fn id_of(was: Option<ObjectSlot>) -> Option<SdId>
    ensures { result ≡ option_map (λ kept. kept.id) was }
{
    match was {
        Some(shelf) => Some(shelf.kept().id),
        None => None,
    }
}

/// Inserts an object in the place of the one that has its number, or else where its number belongs. Answers the id that
/// the one before has named.
pub(crate) fn put(
    alloc: Global,
    objects: &mut BTreeMap<u32, ObjectSlot>,
    kept: StoredObject,
) -> Result<Option<SdId>, AllocError>
    ensures entries { OnOk result (objects.new.entries ≡ insert_entry nat_cmp objects.old.entries
        kept.object.number kept) }
    ensures was { IfOk result (λ was. was
        ≡ option_map (λ k. k.id) (lookup (is_at (nat_cmp kept.object.number))
        objects.old.entries)) }
    ensures err { OnErr result (objects.new.entries ≡ objects.old.entries) }
    ensures ordered { IsOrdered nat_cmp objects.old → IsOrdered nat_cmp objects.new }
{
    let number = kept.object.number;
    let shelf = ObjectSlot::of(alloc, kept)?;
    match objects.insert(number, shelf) {
        Ok(was) => Ok(id_of(was)),
        Err(_) => Err(AllocError),
    }
}

/// Gives the object of a number another id of its descriptor. Answers the one before, and none where there is no
/// object of the number.
pub(crate) fn set_id(objects: &mut BTreeMap<u32, ObjectSlot>, number: u32, id: SdId) -> Option<SdId>
    ensures entries { MatchOption (lookup (is_at (nat_cmp number)) objects.old.entries)
        (objects.new.entries ≡ objects.old.entries)
        (λ kept. objects.new.entries ≡ insert_entry nat_cmp objects.old.entries number
        (with_id id kept)) }
    ensures was { result ≡ option_map (λ k. k.id)
        (lookup (is_at (nat_cmp number)) objects.old.entries) }
    ensures ordered { IsOrdered nat_cmp objects.new }
{
    match objects.get_mut(&number) {
        Some(shelf) => Some(shelf.set_id(id)),
        None => None,
    }
}

/// Removes the object of a number out. Answers the id that it has named.
pub(crate) fn take(objects: &mut BTreeMap<u32, ObjectSlot>, number: u32) -> Option<SdId>
    ensures entries { objects.new.entries ≡ remove_entry (is_at (nat_cmp number))
        objects.old.entries }
    ensures was { result ≡ option_map (λ k. k.id)
        (lookup (is_at (nat_cmp number)) objects.old.entries) }
    ensures ordered { IsOrdered nat_cmp objects.new }
{
    id_of(objects.remove(&number))
}
