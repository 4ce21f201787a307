//! The row that an edit changes.

ghost use Rattle.std.specs.Prelude.{◌≡◌, IfOk};
ghost use Rattle.ad_sd.specs.declared.parts.Sd.{Sd as SdValue};
ghost use Rattle.ad_sd.specs.Normal.{SpellsNormal};
ghost use Rattle.ad_dir.specs.Conditions.{HasNormal};
ghost use Rattle.ad_dir_model.specs.Directory.{put_object};
ghost use Rattle.ad_dir_objects.specs.Seen.{edit_seen, meta_seen, object_seen};
ghost use Rattle.ad_dn.specs.Value.{AreRdns};
ghost use Rattle.ad_rows_write.specs.Body.{SpellsMeta, SpellsObject, SpellsQueue};
ghost use Rattle.ad_rows_write.specs.Rows.{IsRowOf};

use crate::writing::{put_bytes, put_list, put_text, put4};
use ad_bytes::Bytes;
use ad_dir::{Edit, Meta, Object, Stored};
use ad_dn::Dn;
use ad_sd::NormalSd;
use prop_queue::Pending;
use row_store::Row;
use std::alloc::{AllocError, Global};

pub(crate) const OBJECTS: u8 = 1;

pub(crate) const QUEUE: u8 = 2;

pub(crate) const META: u8 = 3;

/// The row that an edit changes: an object's, by its number; that of the pending list; or that of the counters.
///
/// # Errors
///
/// Out of memory.
pub fn row_of(alloc: Global, edit: &Edit) -> Result<Row, AllocError>
    requires { HasNormal edit.now }
    ensures { IfOk result (λ row. IsRowOf (edit_seen edit.now) row) }
{
    match edit {
        Edit::PutObject(object, sd) => {
            let body = object_body(alloc, object, sd)?;
            Ok(row(OBJECTS, u64::from(object.number), body))
        }
        Edit::RemoveObject(number) => Ok(Row {
            kind: OBJECTS,
            number: u64::from(*number),
            body: None,
        }),
        Edit::PutQueue(pending) => Ok(row(QUEUE, 0, queue_body(alloc, pending)?)),
        Edit::PutMeta(meta) => Ok(row(META, 0, meta_body(alloc, meta)?)),
    }
}

/// The row of an object with this descriptor.
///
/// # Errors
///
/// Out of memory.
pub(crate) fn row_with(alloc: Global, object: &Object, sd: &NormalSd) -> Result<Row, AllocError>
    ensures { IfOk result (λ row. IsRowOf (put_object (object_seen object.now sd.now)) row) }
{
    let body = object_body(alloc, object, sd.as_bytes())?;
    Ok(row(OBJECTS, u64::from(object.number), body))
}

/// A row with a body.
pub(crate) fn row(kind: u8, number: u64, body: Vec<u8>) -> Row
    ensures { (result.kind ≡ kind) × (result.number ≡ number) × (result.body ≡ Some body.items) }
{
    Row {
        kind,
        number,
        body: Some(Bytes::from_vec(body)),
    }
}

// How many bytes an object's body has beside its parts: the parent, the class, the length of the name, and how many
// attributes there are.
const BESIDE_PARTS: usize = 24;

// How many bytes an attribute takes beside its values.
const BESIDE_VALUES: usize = 12;

// How many bytes a value takes.
fn room_for_value(stored: &Stored) -> usize {
    match stored {
        Stored::Plain(value) => value.shown().len().saturating_add(8),
        Stored::Link(_) => 12,
    }
}

// Room for the values of an attribute.
fn room_for_values(values: &[Stored]) -> usize {
    let mut room = BESIDE_VALUES;
    for stored in values {
        room = room.saturating_add(room_for_value(stored));
    }
    room
}

/// Room for an object's body, so that it isn't moved while it grows.
pub(crate) fn room_for(object: &Object, sd: &[u8]) -> usize {
    let mut room = sd.len().saturating_add(object.name.len());
    for held in object.values.as_slice() {
        room = room.saturating_add(room_for_values(held.1.as_slice()));
    }
    room.saturating_add(BESIDE_PARTS)
}

/// An object, and the normal bytes of its descriptor.
pub(crate) fn object_body(alloc: Global, object: &Object, sd: &[u8]) -> Result<Vec<u8>, AllocError>
    ensures { IfOk result (λ body. (of : SdValue) → SpellsNormal of sd.now
        → SpellsObject (object_seen object.now of) body.items) }
{
    let mut body = Vec::with_capacity(alloc, room_for(object, sd))?;
    put4(&mut body, object.parent)?;
    put4(&mut body, object.class.0)?;
    put_text(&mut body, object.name.as_slice())?;
    put_list(&mut body, object.values.as_slice())?;
    put_bytes(&mut body, sd)?;
    Ok(body)
}

pub(crate) fn queue_body(alloc: Global, pending: &[Pending]) -> Result<Vec<u8>, AllocError>
    ensures { IfOk result (λ body. SpellsQueue pending.now body.items) }
{
    let mut body = Vec::new(alloc);
    put_list(&mut body, pending)?;
    Ok(body)
}

// Tells that a name has the form of a name, and does nothing.
fn has_form(dn: &Dn)
    ensures { AreRdns dn.now.rdns }
{
    dn.rdns.as_slice();
}

pub(crate) fn meta_body(alloc: Global, meta: &Meta) -> Result<Vec<u8>, AllocError>
    ensures { IfOk result (λ body. SpellsMeta (meta_seen meta.now) body.items) }
{
    has_form(&meta.suffix);
    let suffix = meta.suffix.text(alloc)?;
    let mut body = Vec::new(alloc);
    put4(&mut body, meta.next_number)?;
    put4(&mut body, meta.next_rid)?;
    put_text(&mut body, &suffix)?;
    Ok(body)
}
