//! The indexes over the objects: their numbers by names, by identifiers and by parents.

ghost use Rattle.std.specs.Prelude.{◌<◌, [], OnOk, IfOk, List};
ghost use Rattle.std.specs.Option.{option_copied};
ghost use Rattle.std.specs.Str.{IsUtf8};
ghost use Rattle.ad_schema.specs.declared.line.SchemaRecord.{SchemaRecord};
ghost use Rattle.ad_sd.specs.declared.parts.Sd.{Sd as SdValue};
ghost use Rattle.ad_dir_objects.specs.Seen.{object_seen};
ghost use Rattle.ad_dir_table.specs.Entry.{objects_in, HaveTheirSids};
ghost use Rattle.ad_dir_table.specs.Lists.{ListsRise, IsNew};
ghost use Rattle.ad_dir_table.specs.Indexed.{AreNamed, IsIndexed, AreChanges, ShowSame, HasRoom, AreEdited, AreRemoved};

use crate::Objects;
use crate::by_name::{Names, name_change, put_name, take_name, take_name_of};
use crate::by_parent::{Children, add_child, drop_child, make_place_if, parent_change};
use crate::by_sid::{Sids, put_sid, sid_change, take_sid};
use crate::change::Changes;
use ad_dir_objects::Object;
use ad_ids::Sid;
use ad_schema::Schema;
use indexmap::IndexMap;
use std::alloc::{AllocError, Global};

/// The numbers of objects by keys.
#[derive(Drop)]
pub struct Index {
    pub names: Names,
    pub sids: Sids,
    pub children: Children,
}

impl Index {
    /// The indexes of no object.
    pub fn new(alloc: Global) -> Index
        ensures { (schema : List SchemaRecord) → IsIndexed schema result [] }
    {
        Index {
            names: IndexMap::new(alloc),
            sids: IndexMap::new(alloc),
            children: IndexMap::new(alloc),
        }
    }
}

/// How the keys of an object's number change where it is put.
pub fn changes_of(
    alloc: Global,
    schema: &Schema,
    objects: &Objects,
    object: &Object,
) -> Result<Changes, AllocError>
    requires sids { HaveTheirSids schema.now objects.now.entries }
    requires named { AreNamed (objects_in objects.now.entries) }
    requires named_too { IsUtf8 object.now.name }
    ensures { IfOk result (λ changes. (sd : SdValue)
        → AreChanges schema.now (objects_in objects.now.entries) (object_seen object.now sd)
        changes) }
{
    Ok(Changes {
        names: name_change(alloc, objects, object)?,
        sids: sid_change(schema, objects, object),
        parents: parent_change(objects, object),
    })
}

/// Makes room for so many names and identifiers at once.
///
/// # Errors
///
/// Out of memory. What stands in the indexes stays.
pub fn reserve(index: &mut Index, names: usize, sids: usize) -> Result<(), AllocError>
    ensures { ShowSame index.old index.new }
{
    index.names.reserve(names)?;
    index.sids.reserve(sids)
}

/// Makes room for a name, an identifier and a child more under a parent, if there is one.
///
/// # Errors
///
/// Out of memory. What stands in the indexes stays.
pub fn make_room(alloc: Global, index: &mut Index, parent: Option<u32>) -> Result<(), AllocError>
    ensures room { OnOk result (HasRoom parent index.new) }
    ensures same { ShowSame index.old index.new }
{
    index.names.reserve(1)?;
    index.sids.reserve(1)?;
    make_place_if(alloc, &mut index.children, parent)
}

/// Inserts a number under new keys, for which there is room, and takes it out under old ones.
pub fn edit(index: &mut Index, changes: Changes, number: u32)
    requires room { HasRoom changes.parents.to index.old }
    requires rise { ListsRise index.old.children.entries }
    requires above { 0 < number }
    requires new { IsNew changes.parents.to number index.old.children.entries }
    ensures { AreEdited changes number index.old index.new }
{
    let Changes {
        names,
        sids,
        parents,
    } = changes;
    put_name(&mut index.names, names.to, number);
    take_name(&mut index.names, names.from);
    put_sid(&mut index.sids, sids.to, number);
    take_sid(&mut index.sids, sids.from.as_ref());
    add_child(&mut index.children, parents.to, number);
    drop_child(&mut index.children, parents.from, number);
}

/// Removes the number of an object out under all its keys. It takes no memory.
pub fn take_out(index: &mut Index, object: &Object, sid: Option<&Sid>)
    requires named { IsUtf8 object.now.name }
    requires rise { ListsRise index.old.children.entries }
    ensures { (sd : SdValue) → AreRemoved (object_seen object.now sd) (option_copied sid.entry)
        index.old index.new }
{
    take_name_of(&mut index.names, object);
    take_sid(&mut index.sids, sid);
    drop_child(&mut index.children, Some(object.parent), object.number);
}
