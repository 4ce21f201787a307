//! The objects and the pool together.

ghost use Rattle.std.specs.Prelude.{◌≡◌, ◌↔◌, ◌<◌, ◌-◌, ◌^◌, true, is_some, [], length, OnOk, OnErr, IfOk, IsTrue};
ghost use Rattle.std.specs.Prelude.{option_map, List};
ghost use Rattle.std.specs.Option.{option_copied, option_and_then, IfSome};
ghost use Rattle.ad_schema.specs.declared.line.SchemaRecord.{SchemaRecord};
ghost use Rattle.ad_sd.specs.Seen.{seen};
ghost use Rattle.ad_sd.specs.SdIn.{sd_in};
ghost use Rattle.ad_sd.specs.Normal.{SpellsNormal};
ghost use Rattle.sd_pool.specs.Pool.{is_live};
ghost use Rattle.sd_pool.specs.Sharers.{bytes_at};
ghost use Rattle.ad_dir_model.specs.Identity.{sid_in};
ghost use Rattle.ad_dir_model.specs.Objects.{object_at, object_of, sd_at, put, removed};
ghost use Rattle.ad_dir_model.specs.Objects as Objects;
ghost use Rattle.ad_dir_objects.specs.Seen.{object_seen};
ghost use Rattle.ad_dir_table.specs.Entry.{objects_in, HaveTheirSids};
ghost use Rattle.ad_dir_table.specs.Listing.{descriptor_count};
ghost use Rattle.ad_dir_table.specs.Pooled.{IsPoolOf};
ghost use Rattle.ad_dir_table.specs.Fields.{entries_of, IsTable};

use crate::object_slot::ObjectSlot;
use crate::pooled;
use crate::stored_object::{self, StoredObject, kept_of};
use ad_dir_objects::Object;
use ad_ids::Sid;
use ad_schema::Schema;
use ad_sd::SdView;
use sd_pool::{SdId, SdPool};
use std::alloc::{AllocError, Global};
use std::collections::BTreeMap;

/// The objects by their numbers, and the pool of their descriptors.
#[derive(Drop)]
pub(crate) struct Parts {
    pub alloc: Global,
    pub kept: BTreeMap<u32, ObjectSlot>,
    pub pool: SdPool,
}

/// No objects. It takes no memory.
pub(crate) fn empty(alloc: Global) -> Parts
    ensures kept { IsTable result }
    ensures none { entries_of result ≡ [] }
{
    Parts {
        alloc,
        kept: BTreeMap::new(alloc),
        pool: SdPool::new(alloc),
    }
}

/// The object of a number.
pub(crate) fn object(parts: &Parts, number: u32) -> Option<&Object>
    requires { IsTable parts.now }
    ensures { option_map (λ object.
        object_seen object.now (sd_at (objects_in (entries_of parts.now)) number)) result
        ≡ object_of (objects_in (entries_of parts.now)) number }
{
    match kept_of(&parts.kept, number) {
        Some(kept) => Some(&kept.object),
        None => None,
    }
}

/// The identifier of the object of a number.
pub(crate) fn sid(parts: &Parts, number: u32) -> Option<&Sid>
    requires { IsTable parts.now }
    ensures { (schema : List SchemaRecord) → HaveTheirSids schema (entries_of parts.now)
        → option_copied result ≡ option_and_then (sid_in schema)
        (object_of (objects_in (entries_of parts.now)) number) }
{
    match kept_of(&parts.kept, number) {
        Some(kept) => stored_object::sid_of(kept),
        None => None,
    }
}

/// The id of the descriptor of an object.
pub(crate) fn id(parts: &Parts, number: u32) -> Option<SdId>
    requires { IsTable parts.now }
    ensures some { is_some result ≡ Objects.is_live (objects_in (entries_of parts.now)) number }
    ensures live { IfSome result (λ id. is_live parts.now.pool.live id.0 ≡ true) }
    ensures bytes { IfSome result (λ id.
        SpellsNormal (sd_at (objects_in (entries_of parts.now)) number)
        (bytes_at parts.now.pool.live id.0)) }
{
    match kept_of(&parts.kept, number) {
        Some(kept) => Some(kept.id),
        None => None,
    }
}

/// The descriptor of an object.
pub(crate) fn sd(parts: &Parts, number: u32) -> Option<SdView<'_>>
    requires { IsTable parts.now }
    ensures { option_map seen result ≡ option_map (λ object. object.sd)
        (object_of (objects_in (entries_of parts.now)) number) }
{
    match id(parts, number) {
        Some(id) => Some(SdView::of_normal(pooled::bytes_at(&parts.pool, id))),
        None => None,
    }
}

/// Whether two live objects have one descriptor.
pub(crate) fn is_same(parts: &Parts, a: u32, b: u32) -> bool
    requires kept { IsTable parts.now }
    requires a { Objects.is_live (objects_in (entries_of parts.now)) a ≡ true }
    requires b { Objects.is_live (objects_in (entries_of parts.now)) b ≡ true }
    ensures { IsTrue result ↔ (sd_at (objects_in (entries_of parts.now)) a
        ≡ sd_at (objects_in (entries_of parts.now)) b) }
{
    parts.pool.is_one();
    match (id(parts, a), id(parts, b)) {
        (Some(a), Some(b)) => a.0 == b.0,
        _ => unreachable!(),
    }
}

/// What holds of the pool.
pub(crate) fn is_pooled(parts: &Parts)
    requires { IsTable parts.now }
    ensures { IsPoolOf (objects_in (entries_of parts.now)) parts.now.pool }
{
    parts.pool.is_one();
}

/// Inserts an object with the normal bytes of its descriptor in the place of the one that has its number, or else where
/// its number belongs.
///
/// # Errors
///
/// Out of memory. What is seen stays.
pub(crate) fn put(
    parts: &mut Parts,
    schema: &Schema,
    object: Object,
    bytes: &[u8],
) -> Result<(), AllocError>
    requires kept { IsTable parts.old }
    requires few { length (entries_of parts.old) < 2 ^ 32 - 1 }
    requires normal { SpellsNormal (sd_in bytes.now) bytes.now }
    ensures kept { IsTable parts.new }
    ensures ok { OnOk result (objects_in (entries_of parts.new)
        ≡ put (object_seen object (sd_in bytes.now)) (objects_in (entries_of parts.old))) }
    ensures err { OnErr result (entries_of parts.new ≡ entries_of parts.old) }
    ensures sids { HaveTheirSids schema.now (entries_of parts.old) → HaveTheirSids schema.now
        (entries_of parts.new) }
{
    parts.pool.is_one();
    let id = pooled::put(&mut parts.pool, bytes)?;
    match stored_object::put(
        parts.alloc,
        &mut parts.kept,
        StoredObject::of(schema, object, id),
    ) {
        Ok(was) => {
            pooled::give_back_if(&mut parts.pool, was);
            Ok(())
        }
        Err(error) => {
            pooled::give_back(&mut parts.pool, id);
            Err(error)
        }
    }
}

/// Gives the object of a number the descriptor of these normal bytes.
///
/// # Errors
///
/// Out of memory. What is seen stays.
pub(crate) fn put_sd(parts: &mut Parts, number: u32, bytes: &[u8]) -> Result<(), AllocError>
    requires kept { IsTable parts.old }
    requires live { Objects.is_live (objects_in (entries_of parts.old)) number ≡ true }
    requires few { length (entries_of parts.old) < 2 ^ 32 - 1 }
    requires normal { SpellsNormal (sd_in bytes.now) bytes.now }
    ensures kept { IsTable parts.new }
    ensures ok { OnOk result (objects_in (entries_of parts.new)
        ≡ put (record (object_at (objects_in (entries_of parts.old)) number) { sd = sd_in bytes.now })
        (objects_in (entries_of parts.old))) }
    ensures err { OnErr result (entries_of parts.new ≡ entries_of parts.old) }
    ensures sids { (schema : List SchemaRecord) → HaveTheirSids schema (entries_of parts.old)
        → HaveTheirSids schema (entries_of parts.new) }
{
    parts.pool.is_one();
    let id = pooled::put(&mut parts.pool, bytes)?;
    let was = stored_object::set_id(&mut parts.kept, number, id);
    pooled::give_back_if(&mut parts.pool, was);
    Ok(())
}

/// Removes the object of a number out. It takes no memory.
pub(crate) fn remove(parts: &mut Parts, number: u32)
    requires kept { IsTable parts.old }
    ensures kept { IsTable parts.new }
    ensures removed { objects_in (entries_of parts.new)
        ≡ removed number (objects_in (entries_of parts.old)) }
    ensures sids { (schema : List SchemaRecord) → HaveTheirSids schema (entries_of parts.old)
        → HaveTheirSids schema (entries_of parts.new) }
{
    let was = stored_object::take(&mut parts.kept, number);
    pooled::give_back_if(&mut parts.pool, was);
}
