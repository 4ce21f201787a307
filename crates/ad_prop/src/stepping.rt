//! The edits of one step, with the pending list in the directory or beside it.

ghost use Rattle.std.specs.Prelude.{◌≡◌, ◌<◌, ◌∷◌, [], length, slice_get, Some, None, Ok, IfOk, OnOk};
ghost use Rattle.std.specs.Option.{MatchOption, ForSome};
ghost use Rattle.prop_queue.specs.Pending.{advanced};
ghost use Rattle.ad_dir_model.specs.Objects.{object_at, sd_at};
ghost use Rattle.ad_dir_model.specs.Directory.{put_object, with_pending};
ghost use Rattle.ad_dir_model.specs.Inheritance.{settled, marked_if_changed};
ghost use Rattle.ad_dir_model.specs.Soundness.{IsSound};
ghost use Rattle.ad_prop.specs.Step.{MakeStep, MakeStepBeside};
ghost use Rattle.ad_prop.specs.Turn.{IsTurn, AreAllEdits};
ghost use Rattle.ad_dir.specs.Conditions.{AreEdits};

use crate::child::whole_of;
use ad_dir::{Dir, Edit, live_object};
use ad_dir_write::{copied, is_another, mark_if};
use prop_queue::{Pending, Queue};
use std::alloc::{AllocError, Global};

// The child gets its descriptor; the cursor goes to the child, and the child is marked where it changed.
fn child_edits(
    alloc: Global,
    dir: &Dir,
    queue: &mut Queue,
    child: u32,
) -> Result<Vec<Edit>, AllocError>
    requires child { IsTurn dir.now child }
    requires some { 0 < length queue.old }
    requires ahead { ForSome (slice_get queue.old 0) (λ head. head.cursor < child) }
    ensures edits { IfOk result (λ edits.
        AreEdits (put_object (settled dir.now (object_at dir.now.objects child)) ∷ [])
        edits.items) }
    ensures queue { OnOk result (queue.new ≡ marked_if_changed (sd_at dir.now.objects child)
        (settled dir.now (object_at dir.now.objects child)) (advanced child queue.old)) }
{
    let object = live_object(dir, child).copy(alloc)?;
    let bytes = whole_of(alloc, dir, child)?;
    queue.advance(child);
    mark_if(is_another(dir, child, bytes.as_slice()), queue, child)?;
    let mut edits = Vec::new(alloc);
    edits.push(Edit::PutObject(object, bytes))?;
    Ok(edits)
}

// The edits of a step but for that of the list, where this entry stands first.
fn step_of(
    alloc: Global,
    dir: &Dir,
    queue: &mut Queue,
    head: Pending,
) -> Result<Vec<Edit>, AllocError>
    requires sound { IsSound (with_pending queue.old dir.now) }
    requires head { slice_get queue.old 0 ≡ Some head }
    ensures { IfOk result (λ edits. MakeStepBeside dir.now queue.old queue.new edits.items) }
{
    match dir.next_child(head.parent, head.cursor) {
        Some(child) => Ok(child_edits(alloc, dir, queue, child)?),
        None => {
            queue.drop_head();
            Ok(Vec::new(alloc))
        }
    }
}

/// One step of a directory whose pending list is kept beside it: the list that the directory itself has counts for
/// nothing. The list is changed in its place, and the edits are those of the step but for that of the list: one or
/// none. None are answered exactly where nothing is pending, and the list stays empty.
///
/// So many steps can be made without a copy of the list for each. The time of a step doesn't depend on how long the
/// list is.
///
/// # Errors
///
/// Out of memory. Nothing is said of the list then. Where nothing is pending no memory is taken.
pub fn step_beside(
    alloc: Global,
    dir: &Dir,
    queue: &mut Queue,
) -> Result<Option<Vec<Edit>>, AllocError>
    requires { IsSound (with_pending queue.old dir.now) }
    ensures made { IfOk result (λ made. MatchOption made (queue.old ≡ [])
        (λ edits. MakeStepBeside dir.now queue.old queue.new edits.items)) }
    // Where nothing is pending no memory is taken.
    ensures idle { queue.old ≡ [] → result ≡ Ok None }
    ensures empty { queue.old ≡ [] → queue.new ≡ [] }
{
    match queue.at(0) {
        Some(head) => Ok(Some(step_of(alloc, dir, queue, head)?)),
        None => Ok(None),
    }
}

// The edits, and then that of the list.
fn with_queue(mut edits: Vec<Edit>, queue: Queue) -> Result<Vec<Edit>, AllocError>
    ensures { IfOk result (λ all. AreAllEdits edits.items queue all.items) }
{
    edits.push(Edit::PutQueue(queue.into_entries()))?;
    Ok(edits)
}

/// The edits of one step of a sound directory, in their order, and none exactly where nothing is pending.
///
/// The least child of the pending list's head above its cursor gets the descriptor that it should have: the
/// explicit part of its own with what its parent's stored descriptor passes down. The cursor goes to the child, and
/// the child is marked where its descriptor changed. Where there is no such child the head goes. So a step touches
/// one child, or none.
///
/// # Errors
///
/// Out of memory. Where nothing is pending none is taken.
pub fn step(alloc: Global, dir: &Dir) -> Result<Option<Vec<Edit>>, AllocError>
    requires { IsSound dir.now }
    ensures made { IfOk result (λ made. MatchOption made (dir.now.pending ≡ [])
        (λ edits. MakeStep dir.now edits.items)) }
    // Where nothing is pending no memory is taken.
    ensures idle { dir.now.pending ≡ [] → result ≡ Ok None }
{
    if dir.queue().is_empty() {
        return Ok(None);
    }
    let mut queue = copied(alloc, dir.queue())?;
    match step_beside(alloc, dir, &mut queue)? {
        Some(edits) => Ok(Some(with_queue(edits, queue)?)),
        None => Ok(None),
    }
}
