//! Steps of propagation, made in the directory and noted for the store.

ghost use Rattle.std.specs.Prelude.{◌≡◌, ◌<◌, ◌≤◌, true, [], ◌∷◌, map, IfOk, OnOk};
ghost use Rattle.ad_dir.specs.Applying.{MayApplyAll};
ghost use Rattle.ad_dir.specs.Conditions.{MayPend, MayPut, with_sd};
ghost use Rattle.ad_dir_objects.specs.Seen.{edit_seen};
ghost use Rattle.ad_dir_model.specs.Objects.{is_live, object_at};
ghost use Rattle.ad_dir_model.specs.Directory.{put_object, put_queue, with_pending};
ghost use Rattle.ad_dir_model.specs.Soundness.{IsSound};
ghost use Rattle.ad_prop.specs.Step.{MayTake, turn_edits};
ghost use Rattle.ad_engine_store.specs.Stepping.{Makes, MakesSteps, MakesBeside};

use ad_dir::{Dir, Edit, live_object};
use ad_dir_write::copied;
use ad_prop::{Turn, turn_beside};
use ad_rows::Batch;
use ad_sd::NormalSd;
use prop_queue::Queue;
use std::alloc::{AllocError, Global};

/// Makes edits one after the other, and notes the row of each.
pub(crate) fn make_all(dir: &mut Dir, batch: &mut Batch, edits: Vec<Edit>) -> Result<(), AllocError>
    requires { MayApplyAll dir.old edits.items }
    ensures { OnOk result (Makes (map edit_seen edits.items) dir.old dir.new batch.old batch.new) }
{
    for edit in edits {
        batch.note(&edit)?;
        dir.apply(edit)?;
    }
    Ok(())
}

// Gives a live object this descriptor, and notes its row.
fn give(dir: &mut Dir, batch: &mut Batch, number: u32, sd: &NormalSd) -> Result<(), AllocError>
    requires live { is_live dir.old.objects number ≡ true }
    requires may { MayPut dir.old (with_sd sd.now (object_at dir.old.objects number)) }
    ensures { OnOk result (Makes (put_object (with_sd sd.now (object_at dir.old.objects number)) ∷ [])
        dir.old dir.new batch.old batch.new) }
{
    batch.note_object(live_object(dir, number), sd)?;
    dir.put_sd(number, sd)
}

// Makes what a turn makes of the objects, and notes its row.
fn take(dir: &mut Dir, batch: &mut Batch, turn: Turn) -> Result<(), AllocError>
    requires { MayTake dir.old turn }
    ensures { OnOk result (Makes (turn_edits dir.old turn) dir.old dir.new batch.old batch.new) }
{
    match turn {
        Turn::Child(number, sd) => give(dir, batch, number, &sd),
        Turn::Head => Ok(()),
    }
}

// Makes at most so many steps over a pending list that is kept beside the directory, and notes the rows of the
// objects.
fn make_beside(
    alloc: Global,
    dir: &mut Dir,
    queue: &mut Queue,
    batch: &mut Batch,
    most: u32,
) -> Result<u32, AllocError>
    requires { IsSound (with_pending queue.old dir.old) }
    ensures steps { IfOk result (λ n. MakesBeside n queue.old queue.new dir.old dir.new batch.old
        batch.new) }
    ensures most { IfOk result (λ n. n ≤ most) }
    ensures empty { IfOk result (λ n. n < most → queue.new ≡ []) }
{
    let mut last = None;
    for done in 0..most {
        match turn_beside(alloc, dir, queue, &mut last)? {
            Some(turn) => take(dir, batch, turn)?,
            None => return Ok(done),
        }
    }
    Ok(most)
}

// Makes this list the directory's, and notes its row.
fn put_queue(dir: &mut Dir, batch: &mut Batch, queue: Queue) -> Result<(), AllocError>
    requires { MayPend dir.old queue }
    ensures { OnOk result (Makes (put_queue queue ∷ []) dir.old dir.new batch.old batch.new) }
{
    let edit = Edit::PutQueue(queue.into_entries());
    batch.note(&edit)?;
    dir.apply(edit)?;
    Ok(())
}

/// Makes at most so many steps, and notes their rows: those of the objects, and that of the pending list once.
/// Fewer are made exactly where nothing is pending any more.
///
/// # Errors
///
/// Out of memory. The directory has then made some of them.
pub(crate) fn make_steps(
    alloc: Global,
    dir: &mut Dir,
    batch: &mut Batch,
    most: u32,
) -> Result<u32, AllocError>
    requires { IsSound dir.old }
    ensures steps { IfOk result (λ n. MakesSteps n dir.old dir.new batch.old batch.new) }
    ensures most { IfOk result (λ n. n ≤ most) }
    ensures empty { IfOk result (λ n. n < most → dir.new.pending ≡ []) }
{
    let mut queue = copied(alloc, dir.queue())?;
    let n = make_beside(alloc, dir, &mut queue, batch, most)?;
    put_queue(dir, batch, queue)?;
    Ok(n)
}
