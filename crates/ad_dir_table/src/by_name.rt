//! The numbers of objects by their names.

ghost use Rattle.std.specs.Prelude.{◌≡◌, ◌<◌, ◌↔◌, IfOk, IsTrue, Some};
ghost use Rattle.std.specs.Option.{option_map};
ghost use Rattle.std.specs.Str.{IsUtf8};
ghost use Rattle.indexmap.specs.IndexMap.{spare};
ghost use Rattle.ad_sd.specs.declared.parts.Sd.{Sd as SdValue};
ghost use Rattle.ad_dn.specs.Fold.{folded};
ghost use Rattle.ad_dir_model.specs.Names.{child_named};
ghost use Rattle.ad_dir_objects.specs.Seen.{object_seen};
ghost use Rattle.ad_dir_table.specs.Entry.{objects_in};
ghost use Rattle.ad_dir_table.specs.NameKeys.{key_name, name_at};
ghost use Rattle.ad_dir_table.specs.Exact.{name_of};
ghost use Rattle.ad_dir_table.specs.KeyChanges.{IsChange, Inserts, Removes};
ghost use Rattle.ad_dir_table.specs.Indexed.{AreNamed, was};

use crate::Objects;
use crate::change::Change;
use crate::name_key::{Asked, NameKey};
use ad_dir_objects::Object;
use ad_dn::{fold, same_value};
use indexmap::IndexMap;
use std::alloc::{AllocError, Global};
use std::str;

pub type Names = IndexMap<NameKey, u32>;

// The key of an object.
fn key_of(alloc: Global, object: &Object) -> Result<NameKey, AllocError>
    requires { IsUtf8 object.now.name }
    ensures { IfOk result (λ key. (sd : SdValue) → Some (key_name key)
        ≡ name_of (object_seen object.now sd)) }
{
    Ok(NameKey {
        parent: object.parent,
        folded: fold(alloc, object.name.as_slice())?,
    })
}

// Whether two objects have one name.
fn has_name_of(old: &Object, new: &Object) -> bool
    requires old { IsUtf8 old.now.name }
    requires new { IsUtf8 new.now.name }
    ensures { (sd other : SdValue) → IsTrue result
        ↔ (name_of (object_seen old.now sd) ≡ name_of (object_seen new.now other)) }
{
    old.parent == new.parent && same_value(old.name.as_slice(), new.name.as_slice())
}

fn renamed(alloc: Global, old: &Object, new: &Object) -> Result<Change<NameKey>, AllocError>
    requires old { IsUtf8 old.now.name }
    requires new { IsUtf8 new.now.name }
    ensures { IfOk result (λ change. (sd other : SdValue)
        → IsChange (name_of (object_seen old.now sd)) (name_of (object_seen new.now other))
        (option_map key_name change.to) (option_map key_name change.from)) }
{
    if has_name_of(old, new) {
        return Ok(Change {
            to: None,
            from: None,
        });
    }
    Ok(Change {
        to: Some(key_of(alloc, new)?),
        from: Some(key_of(alloc, old)?),
    })
}

/// How the key of an object's number changes where it is put.
pub(crate) fn name_change(
    alloc: Global,
    objects: &Objects,
    object: &Object,
) -> Result<Change<NameKey>, AllocError>
    requires named { AreNamed (objects_in objects.now.entries) }
    requires named_too { IsUtf8 object.now.name }
    ensures { IfOk result (λ change. (sd : SdValue)
        → IsChange (was name_of (objects_in objects.now.entries) object.now.number)
        (name_of (object_seen object.now sd)) (option_map key_name change.to)
        (option_map key_name change.from)) }
{
    match objects.object(object.number) {
        Some(old) => renamed(alloc, old, object),
        None => Ok(Change {
            to: Some(key_of(alloc, object)?),
            from: None,
        }),
    }
}

/// Inserts a number under a key, if there is one, where there is room.
pub(crate) fn put_name(names: &mut Names, to: Option<NameKey>, number: u32)
    requires { 0 < spare names.old }
    ensures { Inserts (option_map key_name to) number (name_at names.old.entries)
        (name_at names.new.entries) }
{
    if let Some(key) = to {
        match names.insert(key, number) {
            Ok(_) => {}
            Err(_) => unreachable!(),
        }
    }
}

/// Removes out what stands under a key, if there is one.
pub(crate) fn take_name(names: &mut Names, from: Option<NameKey>)
    ensures { Removes (option_map key_name from) (name_at names.old.entries)
        (name_at names.new.entries) }
{
    if let Some(key) = from {
        let _was = names.swap_remove(&key);
    }
}

/// Removes out what stands under the name of an object. It takes no memory.
pub(crate) fn take_name_of(names: &mut Names, object: &Object)
    requires { IsUtf8 object.now.name }
    ensures { (sd : SdValue) → Removes (name_of (object_seen object.now sd))
        (name_at names.old.entries) (name_at names.new.entries) }
{
    match str::from_utf8(object.name.as_slice()) {
        Ok(name) => {
            let _was = names.swap_remove(Asked {
                parent: object.parent,
                name,
            });
        }
        Err(_) => unreachable!(),
    }
}

/// The number that stands under a parent and a naming value that isn't folded. It takes no memory.
pub fn with_name(names: &Names, parent: u32, name: &[u8]) -> Option<u32>
    requires { IsUtf8 name.now }
    ensures { result ≡ name_at names.now.entries
        (record { parent = parent; folded = folded name.now }) }
{
    match str::from_utf8(name) {
        Ok(name) => names.get(Asked { parent, name }).copied(),
        Err(_) => unreachable!(),
    }
}
