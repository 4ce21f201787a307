//! Whether each object that was read stands where it should.

ghost use Rattle.std.specs.Prelude.{◌≡◌, ◌⊎◌, ◌↔◌, true, false, IsTrue, IfOk};
ghost use Rattle.ad_inherit.specs.Whole.{explicit_part, whole};
ghost use Rattle.ad_dir_model.specs.Objects.{Rise};
ghost use Rattle.ad_dir_model.specs.Inheritance.{covers, guid_at};
ghost use Rattle.ad_dir_objects.specs.Seen.{object_seen, objects_of};
ghost use Rattle.ad_rows_sound.specs.Least.{IsLeastObject};
ghost use Rattle.ad_rows_sound.specs.Parts.{IsPlacedBy, IsStanding};

use crate::finding::{Entry, entry_of, has_live_links, is_placed};
use crate::settled::{Settled, is_sd, is_settled};
use crate::waiting::Waiting;
use ad_inherit::explicit;
use ad_schema::Schema;
use std::alloc::{AllocError, Global};

fn is_root(alloc: Global, entry: &Entry) -> Result<bool, AllocError>
    ensures { IfOk result (λ is. IsTrue is
        ↔ ((entry.now.0.parent ≡ 0) × (explicit_part entry.now.1 ≡ entry.now.1))) }
{
    if entry.0.parent != 0 {
        return Ok(false);
    }
    let own = explicit(alloc, entry.1.view())?;
    is_sd(alloc, &entry.1, &own)
}

// Whether an object below the root has what its parent passes down, or its turn is still to come.
fn inherits<'a>(
    alloc: Global,
    schema: &Schema,
    last: &mut Option<Settled<'a>>,
    parent: &'a Entry,
    pending: &Waiting<'_>,
    entry: &'a Entry,
) -> Result<bool, AllocError>
    ensures { IfOk result (λ is. IsTrue is
        ↔ ((entry.now.1 ≡ whole parent.now.1 entry.now.1 (guid_at schema.now entry.now.0.class.0))
        ⊎ (covers pending.now entry.now.0.parent entry.now.0.number ≡ true))) }
{
    if pending.covers(entry.0.parent, entry.0.number) {
        return Ok(true);
    }
    is_settled(alloc, schema, last, parent, entry)
}

#[tactic(auto, unfolding(ad_dir_model::specs::Objects::object_at))]
fn is_below<'a>(
    alloc: Global,
    schema: &Schema,
    last: &mut Option<Settled<'a>>,
    objects: &'a [Entry],
    pending: &Waiting<'_>,
    entry: &'a Entry,
) -> Result<bool, AllocError>
    requires { Rise (objects_of objects.now) }
    ensures { IfOk result (λ is. IsTrue is ↔ IsPlacedBy false schema.now (objects_of objects.now)
        pending.now (object_seen entry.now.0 entry.now.1)) }
{
    let Some(parent) = entry_of(objects, entry.0.parent) else {
        return Ok(false);
    };
    if !is_placed(objects, entry.0.number) {
        return Ok(false);
    }
    inherits(alloc, schema, last, parent, pending, entry)
}

fn stands<'a>(
    alloc: Global,
    schema: &Schema,
    last: &mut Option<Settled<'a>>,
    objects: &'a [Entry],
    pending: &Waiting<'_>,
    entry: &'a Entry,
) -> Result<bool, AllocError>
    requires { Rise (objects_of objects.now) }
    ensures { IfOk result (λ is. IsTrue is ↔ IsStanding schema.now (objects_of objects.now)
        pending.now (object_seen entry.now.0 entry.now.1)) }
{
    if !has_live_links(objects, entry.0.values.as_slice()) {
        return Ok(false);
    }
    if entry.0.number == 1 {
        is_root(alloc, entry)
    } else {
        is_below(alloc, schema, last, objects, pending, entry)
    }
}

/// The least number of an object that doesn't stand where it should, or has a link to none.
pub(crate) fn first_astray(
    alloc: Global,
    schema: &Schema,
    objects: &[Entry],
    pending: &Waiting<'_>,
) -> Result<Option<u32>, AllocError>
    requires { Rise (objects_of objects.now) }
    ensures { IfOk result (IsLeastObject
        (IsStanding schema.now (objects_of objects.now) pending.now) (objects_of objects.now)) }
{
    let mut last = None;
    for entry in objects {
        if !stands(alloc, schema, &mut last, objects, pending, entry)? {
            return Ok(Some(entry.0.number));
        }
    }
    Ok(None)
}
