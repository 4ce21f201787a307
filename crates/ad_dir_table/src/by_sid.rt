//! The numbers of objects by their identifiers.

ghost use Rattle.std.specs.Prelude.{◌≡◌, ◌<◌, ◌↔◌, IsTrue, List};
ghost use Rattle.std.specs.Option.{option_copied};
ghost use Rattle.indexmap.specs.IndexMap.{spare};
ghost use Rattle.ad_schema.specs.declared.line.SchemaRecord.{SchemaRecord};
ghost use Rattle.ad_sd.specs.declared.parts.Sd.{Sd as SdValue};
ghost use Rattle.ad_dir_model.specs.Identity.{sid_in};
ghost use Rattle.ad_dir_objects.specs.Seen.{object_seen};
ghost use Rattle.ad_dir_table.specs.Entry.{objects_in, HaveTheirSids};
ghost use Rattle.ad_dir_table.specs.Exact.{sid_at};
ghost use Rattle.ad_dir_table.specs.KeyChanges.{IsChange, Inserts, Removes};
ghost use Rattle.ad_dir_table.specs.Indexed.{was};

use crate::Objects;
use crate::change::Change;
use ad_dir_objects::{Object, object_sid};
use ad_ids::Sid;
use ad_schema::Schema;
use indexmap::IndexMap;

pub type Sids = IndexMap<Sid, u32>;

// Whether two are one identifier, or none.
fn is_one(a: Option<&Sid>, b: Option<&Sid>) -> bool
    ensures { IsTrue result ↔ (option_copied a.entry ≡ option_copied b.entry) }
{
    match a {
        Some(a) => match b {
            Some(b) => *a == *b,
            None => false,
        },
        None => b.is_none(),
    }
}

fn changed(old: Option<&Sid>, new: Option<&Sid>) -> Change<Sid>
    ensures { IsChange (option_copied old.entry) (option_copied new.entry) result.to result.from }
{
    if is_one(old, new) {
        return Change {
            to: None,
            from: None,
        };
    }
    Change {
        to: new.copied(),
        from: old.copied(),
    }
}

/// How the identifier of an object's number changes where it is put.
pub(crate) fn sid_change(schema: &Schema, objects: &Objects, object: &Object) -> Change<Sid>
    requires { HaveTheirSids schema.now objects.now.entries }
    ensures { (sd : SdValue) → IsChange
        (was (sid_in schema.now) (objects_in objects.now.entries) object.now.number)
        (sid_in schema.now (object_seen object.now sd)) result.to result.from }
{
    let old = objects.sid(object.number);
    match object_sid(schema, object) {
        Some(new) => changed(old, Some(&new)),
        None => changed(old, None),
    }
}

/// Inserts a number under an identifier, if there is one, where there is room.
pub(crate) fn put_sid(sids: &mut Sids, to: Option<Sid>, number: u32)
    requires { 0 < spare sids.old }
    ensures { Inserts to number (sid_at sids.old.entries) (sid_at sids.new.entries) }
{
    if let Some(sid) = to {
        match sids.insert(sid, number) {
            Ok(_) => {}
            Err(_) => unreachable!(),
        }
    }
}

/// Removes out what stands under an identifier, if there is one. It takes no memory.
pub(crate) fn take_sid(sids: &mut Sids, from: Option<&Sid>)
    ensures { Removes (option_copied from.entry) (sid_at sids.old.entries) (sid_at sids.new.entries) }
{
    if let Some(sid) = from {
        let _was = sids.swap_remove(sid);
    }
}

/// The number that stands under an identifier. It takes no memory.
pub fn with_sid(sids: &Sids, sid: &Sid) -> Option<u32>
    ensures { result ≡ sid_at sids.now.entries sid.now }
{
    sids.get(sid).copied()
}
