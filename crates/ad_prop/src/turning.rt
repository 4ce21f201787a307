//! What a step does of a directory beside the change of its list, for many steps one after the other.

ghost use Rattle.std.specs.Prelude.{◌≡◌, ◌<◌, [], length, slice_get, Some, None, Ok, IfOk, OnOk};
ghost use Rattle.std.specs.Option.{MatchOption, ForSome};
ghost use Rattle.prop_queue.specs.Pending.{advanced};
ghost use Rattle.ad_dir_model.specs.Objects.{object_at, sd_at};
ghost use Rattle.ad_dir_model.specs.Directory.{with_pending};
ghost use Rattle.ad_dir_model.specs.Inheritance.{settled, marked_if_changed, whole_at};
ghost use Rattle.ad_dir_model.specs.Soundness.{IsSound};
ghost use Rattle.ad_prop.specs.Step.{TakesTurn};
ghost use Rattle.ad_prop.specs.Turn.{IsTurn, IsGiven};

use ad_dir::{Dir, guid_of, live_object, live_sd};
use ad_dir_write::{is_another, mark_if};
use ad_inherit::{WholeSd, whole_again};
use ad_sd::NormalSd;
use prop_queue::{Pending, Queue};
use std::alloc::{AllocError, Global};

/// What a step makes of the objects.
#[derive(Drop)]
pub enum Turn {
    /// The child of this number gets this descriptor.
    Child(u32, NormalSd),
    /// None is left, and all stay as they are.
    Head,
}

// The descriptor that the child whose turn it is should have.
fn whole_of(
    alloc: Global,
    dir: &Dir,
    last: &mut Option<WholeSd>,
    child: u32,
) -> Result<NormalSd, AllocError>
    requires { IsTurn dir.now child }
    ensures { IfOk result (λ sd. sd ≡ whole_at dir.now (object_at dir.now.objects child)) }
{
    let object = live_object(dir, child);
    let class = guid_of(dir.schema(), object.class);
    let above = live_sd(dir, object.parent);
    whole_again(alloc, last, above, live_sd(dir, child), class)
}

// The child gets its descriptor; the cursor goes to the child, and the child is marked where it changed.
fn child_turn(
    alloc: Global,
    dir: &Dir,
    queue: &mut Queue,
    last: &mut Option<WholeSd>,
    child: u32,
) -> Result<Turn, AllocError>
    requires child { IsTurn dir.now child }
    requires some { 0 < length queue.old }
    requires ahead { ForSome (slice_get queue.old 0) (λ head. head.cursor < child) }
    ensures turn { IfOk result (IsGiven dir.now child) }
    ensures queue { OnOk result (queue.new ≡ marked_if_changed (sd_at dir.now.objects child)
        (settled dir.now (object_at dir.now.objects child)) (advanced child queue.old)) }
{
    let sd = whole_of(alloc, dir, last, child)?;
    queue.advance(child);
    mark_if(is_another(dir, child, sd.as_bytes()), queue, child)?;
    Ok(Turn::Child(child, sd))
}

// The turn where this entry stands first.
fn turn_of(
    alloc: Global,
    dir: &Dir,
    queue: &mut Queue,
    last: &mut Option<WholeSd>,
    head: Pending,
) -> Result<Turn, AllocError>
    requires sound { IsSound (with_pending queue.old dir.now) }
    requires head { slice_get queue.old 0 ≡ Some head }
    ensures { IfOk result (λ turn. TakesTurn dir.now queue.old queue.new turn) }
{
    match dir.next_child(head.parent, head.cursor) {
        Some(child) => Ok(child_turn(alloc, dir, queue, last, child)?),
        None => {
            queue.drop_head();
            Ok(Turn::Head)
        }
    }
}

/// What one step makes of the objects of a directory whose pending list is kept beside it, as in
/// [`step_beside`](crate::step_beside). `last` is what an earlier turn has left there, or none: where the child has the
/// class of the last one, its descriptor and its parent's, the descriptor isn't computed again.
///
/// # Errors
///
/// Out of memory. Nothing is said of the list then. Where nothing is pending no memory is taken.
pub fn turn_beside(
    alloc: Global,
    dir: &Dir,
    queue: &mut Queue,
    last: &mut Option<WholeSd>,
) -> Result<Option<Turn>, AllocError>
    requires { IsSound (with_pending queue.old dir.now) }
    ensures made { IfOk result (λ made. MatchOption made (queue.old ≡ [])
        (λ turn. TakesTurn dir.now queue.old queue.new turn)) }
    // Where nothing is pending no memory is taken.
    ensures idle { queue.old ≡ [] → result ≡ Ok None }
    ensures empty { queue.old ≡ [] → queue.new ≡ [] }
{
    match queue.at(0) {
        Some(head) => Ok(Some(turn_of(alloc, dir, queue, last, head)?)),
        None => Ok(None),
    }
}
