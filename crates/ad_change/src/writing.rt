//! Objects that are put: as they are, or with the descriptor that they should have.

ghost use Rattle.std.specs.Prelude.{◌≡◌, ◌≢◌, ◌<◌, ◌↔◌, true, length, IsTrue, IfOk};
ghost use Rattle.ad_schema.specs.Classes.{classes_of};
ghost use Rattle.ad_sd.specs.Normal.{SpellsNormal};
ghost use Rattle.ad_sd.specs.Seen.{seen};
ghost use Rattle.ad_sd.specs.declared.parts.Sd.{Sd as SdValue};
ghost use Rattle.ad_dir_objects.specs.Seen.{object_seen};
ghost use Rattle.ad_dir_model.specs.Objects.{is_live, object_at};
ghost use Rattle.ad_dir_model.specs.Tree.{root};
ghost use Rattle.ad_dir_model.specs.Inheritance.{whole_at};
ghost use Rattle.ad_dir_model.specs.Edits as edits_of;
ghost use Rattle.ad_change.specs.Judging.{AreNeeded};
ghost use Rattle.ad_dir.specs.Conditions.{AreEdits};

use crate::same::same_object;
use ad_bytes::List;
use ad_dir::{Dir, Edit, Object, ROOT, guid_of, live_object, live_sd};
use ad_dir_write::{copied, is_another, mark_if};
use ad_inherit::{explicit, whole};
use ad_sd::{SdView, normal};
use std::alloc::{AllocError, Global};

// ---- descriptors

// The normal bytes of the descriptor that an object with this one of its own should have.
fn whole_of(
    alloc: Global,
    dir: &Dir,
    object: &Object,
    own: SdView<'_>,
) -> Result<Vec<u8>, AllocError>
    requires class { object.now.class.0 < length (classes_of dir.now.schema) }
    requires parent { object.now.number ≢ root → is_live dir.now.objects object.now.parent ≡ true }
    ensures { IfOk result (λ bytes.
        SpellsNormal (whole_at dir.now (object_seen object.now (seen own.entry)))
        bytes.items) }
{
    if object.number == ROOT {
        let sd = explicit(alloc, own)?;
        return normal(alloc, &sd);
    }
    let class = guid_of(dir.schema(), object.class);
    let sd = whole(alloc, live_sd(dir, object.parent), own, class)?;
    normal(alloc, &sd)
}

// ---- edits

// Whether a live object stands there as it is put, with these bytes of its descriptor.
fn is_there(dir: &Dir, object: &Object, bytes: &[u8]) -> bool
    requires { is_live dir.now.objects object.now.number ≡ true }
    ensures { (sd : SdValue) → SpellsNormal sd bytes.now
        → IsTrue result ↔ (object_seen object.now sd ≡ object_at dir.now.objects
        object.now.number) }
{
    if is_another(dir, object.number, bytes) {
        return false;
    }
    same_object(live_object(dir, object.number), object)
}

// The edit of an object with these bytes of a descriptor.
fn put_of(alloc: Global, object: Object, bytes: Vec<u8>) -> Result<List<Edit>, AllocError>
    ensures { (sd : SdValue) → SpellsNormal sd bytes.items
        → IfOk result (AreEdits (edits_of.change_edits (object_seen object sd))) }
{
    let mut edits = List::new(alloc);
    edits.push(Edit::PutObject(object, bytes))?;
    Ok(edits)
}

/// The edit of an object with the descriptor that it has, and none where it stands there so.
pub(crate) fn put_edits(
    alloc: Global,
    dir: &Dir,
    object: Object,
    sd: SdView<'_>,
) -> Result<List<Edit>, AllocError>
    requires { is_live dir.now.objects object.number ≡ true }
    ensures { IfOk result (λ edits.
        AreNeeded dir.now (edits_of.change_edits (object_seen object (seen sd.entry))) edits) }
{
    dir.invariants();
    if is_there(dir, &object, sd.as_bytes()) {
        return Ok(List::new(alloc));
    }
    let bytes = Vec::from_slice(alloc, sd.as_bytes())?;
    put_of(alloc, object, bytes)
}

// The edits of a live object with these bytes of the descriptor that it should have: it is put, and marked where they
// are those of another one.
fn marking(
    alloc: Global,
    dir: &Dir,
    object: Object,
    bytes: Vec<u8>,
) -> Result<List<Edit>, AllocError>
    requires live { is_live dir.now.objects object.number ≡ true }
    ensures { (own : SdValue) → SpellsNormal (whole_at dir.now (object_seen object own)) bytes.items
        → IfOk result (AreEdits (edits_of.write_edits dir.now (object_seen object own))) }
{
    let number = object.number;
    let mut queue = copied(alloc, dir.queue())?;
    mark_if(
        is_another(dir, number, bytes.as_slice()),
        &mut queue,
        number,
    )?;
    let mut edits = List::new(alloc);
    edits.push(Edit::PutObject(object, bytes))?;
    edits.push(Edit::PutQueue(queue.into_entries()))?;
    Ok(edits)
}

/// The edits of an object that is written with this descriptor as its own: it gets the one that it should have
/// then, and is marked where that is another one than before. There is none where it stands there so. The parent
/// that it names is live unless it is the root.
pub(crate) fn write_edits(
    alloc: Global,
    dir: &Dir,
    object: Object,
    own: SdView<'_>,
) -> Result<List<Edit>, AllocError>
    requires live { is_live dir.now.objects object.number ≡ true }
    requires class { object.class.0 < length (classes_of dir.now.schema) }
    requires parent { object.number ≢ root → is_live dir.now.objects object.parent ≡ true }
    ensures { IfOk result (λ edits.
        AreNeeded dir.now (edits_of.write_edits dir.now (object_seen object (seen own.entry)))
        edits) }
{
    dir.invariants();
    let bytes = whole_of(alloc, dir, &object, own)?;
    if is_there(dir, &object, bytes.as_slice()) {
        return Ok(List::new(alloc));
    }
    marking(alloc, dir, object, bytes)
}
