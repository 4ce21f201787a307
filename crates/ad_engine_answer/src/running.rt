//! Protection runs.

ghost use Rattle.std.specs.Prelude.{IfOk};
ghost use Rattle.ad_dir_model.specs.Soundness.{IsSound};
ghost use Rattle.ad_engine_answer.specs.Decided.{IsRun};

use crate::decided::Decided;
use crate::framing::counts;
use ad_bytes::List;
use ad_dir::Dir;
use ad_dir_model::a_protection_run_keeps_a_directory_sound;
use ad_protect::run_edits;
use std::alloc::{AllocError, Global};

/// What a protection run of a sound directory is answered: how many objects it changes and how many are protected,
/// and the edits that make it. Where the directory is to be as it was there is no edit.
///
/// # Errors
///
/// Out of memory.
pub fn run_answer(alloc: Global, dir: &Dir) -> Result<Decided, AllocError>
    requires { IsSound dir.now }
    ensures { IfOk result (IsRun dir.now) }
{
    a_protection_run_keeps_a_directory_sound();
    let (edits, changed, protected) = run_edits(alloc, dir)?;
    let reply = counts(alloc, changed as usize, protected as usize)?;
    Ok(Decided {
        reply,
        edits: List::from_vec(edits),
        drops: false,
    })
}
