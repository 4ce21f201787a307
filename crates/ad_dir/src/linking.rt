//! The objects of a directory with their indexes, and what is counted of their links and values, changed together.

ghost use Rattle.std.specs.Prelude.{◌≡◌, ◌<◌, ◌≤◌, ◌-◌, ◌^◌, length, OnOk, OnErr, IfOk, List};
ghost use Rattle.std.specs.Str.{IsUtf8};
ghost use Rattle.ad_schema.specs.declared.line.SchemaRecord.{SchemaRecord};
ghost use Rattle.ad_sd.specs.Normal.{SpellsNormal};
ghost use Rattle.ad_sd.specs.SdIn.{sd_in};
ghost use Rattle.ad_dir_links.specs.Counted.{AreCounted, Adds, Drops, Keeps};
ghost use Rattle.ad_dir_links.specs.Changing.{IsBalanced, ties_found, object_ties};
ghost use Rattle.ad_dir_model.specs.Objects.{object_of, put, removed, Rise};
ghost use Rattle.ad_dir_objects.specs.Seen.{object_seen};
ghost use Rattle.ad_dir_table.specs.Entry.{objects_in, HaveTheirSids};
ghost use Rattle.ad_dir_table.specs.Lists.{ListsRise};
ghost use Rattle.ad_dir_table.specs.Indexed.{AreNamed, IsIndexed, HasOwnKeys};

use crate::indexed_objects;
use ad_dir_links::{LinkChange, Links, add_links, drop_links, forget_holder, link_change};
use ad_dir_objects::Object;
use ad_dir_table::{Index, Objects};
use ad_schema::Schema;
use std::alloc::{AllocError, Global};

// Counts what an object has more than the one in its place.
fn count_more(
    alloc: Global,
    objects: &Objects,
    links: &mut Links,
    indexed: &[bool],
    object: &Object,
) -> Result<LinkChange, AllocError>
    ensures adds { IfOk result (λ change. Adds object.now.number change.more.items links.old.entries
        links.new.entries) }
    ensures balanced { IfOk result (λ change.
        IsBalanced (ties_found indexed.now
        (object_of (objects_in objects.now.entries) object.now.number))
        (object_ties indexed.now object.now) change.more.items change.less.items) }
    ensures keeps { Keeps links.old.entries links.new.entries }
{
    let change = link_change(alloc, indexed, objects.object(object.number), object)?;
    add_links(links, object.number, change.more.as_slice())?;
    Ok(change)
}

// Counts those that it has less no more, or where it wasn't put those that were counted.
fn count_less(links: &mut Links, number: u32, change: &LinkChange, put: &Result<(), AllocError>)
    ensures ok { OnOk put.now (Drops number change.now.less.items links.old.entries
        links.new.entries) }
    ensures err { OnErr put.now (Drops number change.now.more.items links.old.entries
        links.new.entries) }
{
    match put {
        Ok(()) => drop_links(links, number, change.less.as_slice()),
        Err(_) => drop_links(links, number, change.more.as_slice()),
    }
}

/// Puts an object with the normal bytes of its descriptor in the place of the one that has its number, or else where
/// its number belongs. No other object has its keys.
///
/// # Errors
///
/// Out of memory. The objects stay as they were.
pub(crate) fn put(
    objects: &mut Objects,
    index: &mut Index,
    links: &mut Links,
    indexed: &[bool],
    schema: &Schema,
    object: Object,
    bytes: &[u8],
) -> Result<(), AllocError>
    requires few { length objects.old.entries < 2 ^ 32 - 1 }
    requires above { 1 ≤ object.number }
    requires normal { SpellsNormal (sd_in bytes.now) bytes.now }
    requires sids { HaveTheirSids schema.now objects.old.entries }
    requires rise { Rise (objects_in objects.old.entries) }
    requires named { AreNamed (objects_in objects.old.entries) }
    requires named_too { IsUtf8 object.name }
    requires own { HasOwnKeys schema.now (objects_in objects.old.entries)
        (object_seen object (sd_in bytes.now)) }
    requires indexed { IsIndexed schema.now index.old (objects_in objects.old.entries) }
    requires linked { AreCounted indexed.now links.old.entries (objects_in objects.old.entries) }
    ensures ok { OnOk result (objects_in objects.new.entries
        ≡ put (object_seen object (sd_in bytes.now)) (objects_in objects.old.entries)) }
    ensures err { OnErr result (objects.new.entries ≡ objects.old.entries) }
    ensures sids { HaveTheirSids schema.now objects.new.entries }
    ensures indexed { IsIndexed schema.now index.new (objects_in objects.new.entries) }
    ensures linked { AreCounted indexed.now links.new.entries (objects_in objects.new.entries) }
{
    let alloc = *index.names.allocator();
    let number = object.number;
    let change = count_more(alloc, objects, links, indexed, &object)?;
    let put = indexed_objects::put(objects, index, schema, object, bytes);
    count_less(links, number, &change, &put);
    put
}

// Counts what the object of a number has no more.
fn forget(alloc: Global, objects: &Objects, links: &mut Links, indexed: &[bool], number: u32)
    ensures { AreCounted indexed.now links.old.entries (objects_in objects.now.entries)
        → AreCounted indexed.now links.new.entries
        (removed number (objects_in objects.now.entries)) }
{
    if let Some(object) = objects.object(number) {
        forget_holder(alloc, links, indexed, object);
    }
}

/// Takes the object of a number out. It needs no memory.
pub(crate) fn remove(
    objects: &mut Objects,
    index: &mut Index,
    links: &mut Links,
    indexed: &[bool],
    number: u32,
)
    requires named { AreNamed (objects_in objects.old.entries) }
    requires rise { Rise (objects_in objects.old.entries) }
    requires lists { ListsRise index.old.children.entries }
    ensures removed { objects_in objects.new.entries
        ≡ removed number (objects_in objects.old.entries) }
    ensures sids { (schema : List SchemaRecord) → HaveTheirSids schema objects.old.entries
        → HaveTheirSids schema objects.new.entries }
    ensures indexed { (schema : List SchemaRecord) → HaveTheirSids schema objects.old.entries
        → IsIndexed schema index.old (objects_in objects.old.entries)
        → IsIndexed schema index.new (objects_in objects.new.entries) }
    ensures linked { AreCounted indexed.now links.old.entries (objects_in objects.old.entries)
        → AreCounted indexed.now links.new.entries (objects_in objects.new.entries) }
{
    let alloc = *index.names.allocator();
    forget(alloc, objects, links, indexed, number);
    indexed_objects::remove(objects, index, number);
}
