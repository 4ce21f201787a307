//! The objects of a directory and the indexes over them, changed together.

ghost use Rattle.std.specs.Prelude.{◌≡◌, ◌<◌, ◌≤◌, ◌-◌, ◌^◌, length, OnOk, OnErr, IfOk, List, []};
ghost use Rattle.std.specs.Str.{IsUtf8};
ghost use Rattle.ad_schema.specs.declared.line.SchemaRecord.{SchemaRecord};
ghost use Rattle.ad_sd.specs.Normal.{SpellsNormal};
ghost use Rattle.ad_sd.specs.SdIn.{sd_in};
ghost use Rattle.ad_dir_model.specs.Objects.{put, removed, Rise};
ghost use Rattle.ad_dir_objects.specs.Seen.{object_seen, objects_of};
ghost use Rattle.ad_dir_table.specs.Entry.{objects_in, HaveTheirSids};
ghost use Rattle.ad_dir_table.specs.Lists.{ListsRise};
ghost use Rattle.ad_dir_table.specs.Indexed.{AreNamed, IsIndexed, HasOwnKeys};
ghost use Rattle.ad_dir.specs.Standing.{AreStanding};

use ad_dir_objects::{Object, object_sid};
use ad_dir_table::{Index, Objects, changes_of, edit, make_room, reserve, take_out};
use ad_schema::Schema;
use ad_sd::NormalSd;
use std::alloc::{AllocError, Global};

/// Puts an object with the normal bytes of its descriptor in the place of the one that has its number, or else where
/// its number belongs. No other object has its keys.
///
/// # Errors
///
/// Out of memory. The objects and what stands in the indexes stay as they were.
pub(crate) fn put(
    objects: &mut Objects,
    index: &mut Index,
    schema: &Schema,
    object: Object,
    bytes: &[u8],
) -> Result<(), AllocError>
    requires few { length objects.old.entries < 2 ^ 32 - 1 }
    requires above { 1 ≤ object.number }
    requires normal { SpellsNormal (sd_in bytes.now) bytes.now }
    requires sids { HaveTheirSids schema.now objects.old.entries }
    requires rise { Rise (objects_in objects.old.entries) }
    requires named { AreNamed (objects_in objects.old.entries) }
    requires named_too { IsUtf8 object.name }
    requires own { HasOwnKeys schema.now (objects_in objects.old.entries)
        (object_seen object (sd_in bytes.now)) }
    requires indexed { IsIndexed schema.now index.old (objects_in objects.old.entries) }
    ensures ok { OnOk result (objects_in objects.new.entries
        ≡ put (object_seen object (sd_in bytes.now)) (objects_in objects.old.entries)) }
    ensures err { OnErr result (objects.new.entries ≡ objects.old.entries) }
    ensures sids { HaveTheirSids schema.now objects.new.entries }
    ensures indexed { IsIndexed schema.now index.new (objects_in objects.new.entries) }
{
    let alloc = *index.names.allocator();
    let number = object.number;
    let changes = changes_of(alloc, schema, objects, &object)?;
    make_room(alloc, index, changes.parents.to)?;
    objects.put(schema, object, bytes)?;
    edit(index, changes, number);
    Ok(())
}

/// Takes the object of a number out. It takes no memory.
pub(crate) fn remove(objects: &mut Objects, index: &mut Index, number: u32)
    requires named { AreNamed (objects_in objects.old.entries) }
    requires rise { Rise (objects_in objects.old.entries) }
    requires lists { ListsRise index.old.children.entries }
    ensures removed { objects_in objects.new.entries
        ≡ removed number (objects_in objects.old.entries) }
    ensures sids { (schema : List SchemaRecord) → HaveTheirSids schema objects.old.entries
        → HaveTheirSids schema objects.new.entries }
    ensures indexed { (schema : List SchemaRecord) → HaveTheirSids schema objects.old.entries
        → IsIndexed schema index.old (objects_in objects.old.entries)
        → IsIndexed schema index.new (objects_in objects.new.entries) }
{
    if let Some(object) = objects.object(number) {
        take_out(index, object, objects.sid(number));
    }
    objects.remove(number);
}

// How many objects of a list have an identifier.
fn sids_in(schema: &Schema, objects: &[(Object, NormalSd)]) -> usize {
    let mut count = 0usize;
    for one in objects {
        if object_sid(schema, &one.0).is_some() {
            count = count.saturating_add(1);
        }
    }
    count
}

// Puts the objects of a list by rising number where there are none.
fn put_all(
    all: &mut Objects,
    index: &mut Index,
    schema: &Schema,
    objects: Vec<(Object, NormalSd)>,
) -> Result<(), AllocError>
    requires standing { AreStanding schema.now (objects_of objects.items) }
    requires none { all.old.entries ≡ [] }
    requires indexed { IsIndexed schema.now index.old [] }
    ensures seen { OnOk result (objects_in all.new.entries ≡ objects_of objects.items) }
    ensures sids { OnOk result (HaveTheirSids schema.now all.new.entries) }
    ensures indexed { OnOk result (IsIndexed schema.now index.new (objects_in all.new.entries)) }
{
    for (object, sd) in objects {
        put(all, index, schema, object, sd.as_bytes())?;
    }
    Ok(())
}

/// The objects of a list by rising number.
pub(crate) fn all_of(
    alloc: Global,
    schema: &Schema,
    objects: Vec<(Object, NormalSd)>,
) -> Result<(Objects, Index), AllocError>
    requires { AreStanding schema.now (objects_of objects.items) }
    ensures seen { IfOk result (λ all. objects_in all.0.entries ≡ objects_of objects.items) }
    ensures sids { IfOk result (λ all. HaveTheirSids schema.now all.0.entries) }
    ensures indexed { IfOk result (λ all. IsIndexed schema.now all.1 (objects_in all.0.entries)) }
{
    let sids = sids_in(schema, objects.as_slice());
    let mut index = Index::new(alloc);
    reserve(&mut index, objects.len(), sids)?;
    let mut all = Objects::new(alloc);
    put_all(&mut all, &mut index, schema, objects)?;
    Ok((all, index))
}
