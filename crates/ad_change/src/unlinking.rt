//! Objects without the links to those that go.

ghost use Rattle.std.specs.Prelude.{◌≡◌, ◌++◌, not, true, [], ◌∷◌, map, filter_map, IfOk, OnOk};
ghost use Rattle.std.specs.List.{filter, list_any};
ghost use Rattle.ad_dir.specs.Conditions.{HasNormal};
ghost use Rattle.ad_dir_objects.specs.Seen.{stored_seen, held_seen, edit_seen};
ghost use Rattle.ad_dir_model.specs.Objects.{is_live, object_at};
ghost use Rattle.ad_dir_model.specs.Directory.{put_object};
ghost use Rattle.ad_dir_model.specs.Changes.{goes_with, stays_linked, unlinked, unlinked_held};
ghost use Rattle.ad_change.specs.Removing.{AddsEdits, IsLeaving, losing_among, loses_some, unlinked_at};

use crate::subtree::goes_with;
use ad_bytes::{List, OneOrMany};
use ad_dir::{Dir, Edit, Object, Stored, live_object, live_sd};
use ad_schema::AttrId;
use std::alloc::{AllocError, Global};

// ---- whether links are lost

// Whether a value is a link to an object that goes.
fn is_lost(dir: &Dir, target: u32, alone: bool, value: &Stored) -> bool
    requires { IsLeaving dir.now target alone }
    ensures { result ≡ not (stays_linked (goes_with dir.now target) (stored_seen value.now)) }
{
    match value {
        Stored::Plain(_) => false,
        Stored::Link(number) => goes_with(dir, target, alone, *number),
    }
}

// Whether one of the values is.
fn some_lost(dir: &Dir, target: u32, alone: bool, stored: &[Stored]) -> bool
    requires { IsLeaving dir.now target alone }
    ensures { result ≡ loses_some (goes_with dir.now target) (map stored_seen stored.now) }
{
    'each: for value in stored {
        if is_lost(dir, target, alone, value) {
            return true;
        }
    }
    false
}

// Whether an object that has these values loses any.
fn loses(dir: &Dir, target: u32, alone: bool, values: &[(AttrId, OneOrMany<Stored>)]) -> bool
    requires { IsLeaving dir.now target alone }
    ensures { result ≡ list_any (λ held. loses_some (goes_with dir.now target) held.values)
        (map held_seen values.now) }
{
    'each: for held in values {
        if some_lost(dir, target, alone, held.1.as_slice()) {
            return true;
        }
    }
    false
}

// ---- what is kept

// Puts a copy of a value at the end, unless it is a link to an object that goes.
fn push_kept(
    alloc: Global,
    dir: &Dir,
    target: u32,
    alone: bool,
    kept: &mut OneOrMany<Stored>,
    value: &Stored,
) -> Result<(), AllocError>
    requires { IsLeaving dir.now target alone }
    ensures { OnOk result (map stored_seen kept.new
        ≡ map stored_seen kept.old ++ filter (stays_linked (goes_with dir.now target))
        (stored_seen value.now ∷ [])) }
{
    match value {
        Stored::Plain(value) => kept.push(Stored::Plain(value.copy(alloc)?))?,
        Stored::Link(number) => {
            if !goes_with(dir, target, alone, *number) {
                kept.push(Stored::Link(*number))?;
            }
        }
    }
    Ok(())
}

// The values without those links.
fn values_left(
    alloc: Global,
    dir: &Dir,
    target: u32,
    alone: bool,
    stored: &[Stored],
) -> Result<OneOrMany<Stored>, AllocError>
    requires { IsLeaving dir.now target alone }
    ensures { IfOk result (λ kept. map stored_seen kept
        ≡ filter (stays_linked (goes_with dir.now target)) (map stored_seen stored.now)) }
{
    let mut kept = OneOrMany::new(alloc);
    'each: for value in stored {
        push_kept(alloc, dir, target, alone, &mut kept, value)?;
    }
    Ok(kept)
}

// Puts an attribute with what is kept of it at the end, where that is anything.
fn push_held(
    alloc: Global,
    dir: &Dir,
    target: u32,
    alone: bool,
    all: &mut List<(AttrId, OneOrMany<Stored>)>,
    held: &(AttrId, OneOrMany<Stored>),
) -> Result<(), AllocError>
    requires { IsLeaving dir.now target alone }
    ensures { OnOk result (map held_seen all.new
        ≡ map held_seen all.old ++ filter_map (unlinked_held (goes_with dir.now target))
        (held_seen held.now ∷ [])) }
{
    let kept = values_left(alloc, dir, target, alone, held.1.as_slice())?;
    if !kept.is_empty() {
        all.push((held.0, kept))?;
    }
    Ok(())
}

// The attributes with what is kept of them.
fn all_kept(
    alloc: Global,
    dir: &Dir,
    target: u32,
    alone: bool,
    values: &[(AttrId, OneOrMany<Stored>)],
) -> Result<List<(AttrId, OneOrMany<Stored>)>, AllocError>
    requires { IsLeaving dir.now target alone }
    ensures { IfOk result (λ all. map held_seen all
        ≡ filter_map (unlinked_held (goes_with dir.now target)) (map held_seen values.now)) }
{
    let mut all = List::new(alloc);
    'each: for held in values {
        push_held(alloc, dir, target, alone, &mut all, held)?;
    }
    Ok(all)
}

// ---- edits

// The edit that takes the links to objects that go away from an object.
fn unlinking(
    alloc: Global,
    dir: &Dir,
    target: u32,
    alone: bool,
    number: u32,
) -> Result<Edit, AllocError>
    requires leaving { IsLeaving dir.now target alone }
    requires live { is_live dir.now.objects number ≡ true }
    ensures seen { IfOk result (λ edit. edit_seen edit
        ≡ put_object (unlinked (goes_with dir.now target) (object_at dir.now.objects number))) }
    ensures normal { IfOk result HasNormal }
{
    let object = live_object(dir, number);
    let unlinked = Object {
        number: object.number,
        parent: object.parent,
        class: object.class,
        name: object.name.copy(alloc)?,
        values: all_kept(alloc, dir, target, alone, object.values.as_slice())?,
    };
    let bytes = Vec::from_slice(alloc, live_sd(dir, number).as_bytes())?;
    Ok(Edit::PutObject(unlinked, bytes))
}

/// Puts that edit at the end where the object loses a link.
pub(crate) fn push_unlinking(
    alloc: Global,
    dir: &Dir,
    target: u32,
    alone: bool,
    number: u32,
    edits: &mut List<Edit>,
) -> Result<(), AllocError>
    requires leaving { IsLeaving dir.now target alone }
    requires live { is_live dir.now.objects number ≡ true }
    ensures { OnOk result (AddsEdits edits.old edits.new
        (map (λ one. put_object (unlinked_at dir.now target one))
        (losing_among dir.now target (number ∷ [])))) }
{
    if loses(
        dir,
        target,
        alone,
        live_object(dir, number).values.as_slice(),
    ) {
        edits.push(unlinking(alloc, dir, target, alone, number)?)?;
    }
    Ok(())
}
