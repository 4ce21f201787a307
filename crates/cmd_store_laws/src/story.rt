//! A store that is loaded, served, left by a crash, and served again.

ghost use Rattle.std.specs.Prelude.{◌≡◌, IfOk, Err};
ghost use Rattle.ad_dir_model.specs.Directory.{Directory};
ghost use Rattle.ad_frames.specs.Frames.{frames_of};
ghost use Rattle.cmd_call.specs.declared.outcome.Outcome.{Outcome};
ghost use Rattle.cmd_store.specs.Load.{LoadsAs, NoDirectory};
ghost use Rattle.cmd_store_laws.specs.Holding.{IsUnloaded};
ghost use Rattle.cmd_store_laws.specs.Runs.{IsRun};

use crate::{loaded, reopened, served};
use cmd_call::Outcome;
use site_io::{Crash, MemSite, Site};
use std::alloc::{AllocError, Global};
use thiserror::Error;

/// What came of a run.
#[derive(Drop)]
pub struct Run {
    /// How serving the frames before the crash ends where no crash comes.
    pub before: Outcome,
    /// What the crash left.
    pub crash: Crash,
    /// How serving the frames after it ended, and what stands in the slots and was emitted then.
    pub behind: Outcome,
    pub site: MemSite,
}

/// Why there is no such run.
#[derive(Clone, Copy, Debug, PartialEq, Eq, Error)]
pub enum Unrun {
    /// The text wasn't loaded: how that ended.
    #[error("the text wasn't loaded")]
    Load(Outcome),
    /// Serving ended before so many calls on the site.
    #[error("there is no such moment")]
    Moment,
    /// Memory ran out.
    #[error("out of memory")]
    Memory,
}

impl From<AllocError> for Unrun {
    ghost from_gives = { λ _ e. e ≡ Memory };

    ghost use Rattle.cmd_store_laws.specs.declared.story.Unrun.TheVariants.{Memory};

    fn from(_: AllocError) -> Unrun {
        Unrun::Memory
    }
}

/// Loads a text into two slots in memory that are empty, and serves frames there; a crash comes so many calls on the
/// site after that has begun, and keeps so many bytes of what wasn't synced; and over what it left frames are served
/// again. What the crash left represents the directory of the text after the first of the frames, among which is
/// each of whose answer a byte was emitted; and the frames after it are answered from that directory on.
///
/// # Errors
///
/// `Load` where the text wasn't loaded, `Moment` where serving made fewer calls, `Memory`.
pub fn served_across_a_crash(
    alloc: Global,
    text: &[u8],
    frames: &[u8],
    calls: u32,
    kept: u32,
    more: &[u8],
) -> Result<Run, Unrun>
    ensures ok { IfOk result (λ run. (dir : Directory) × LoadsAs dir text.now
        × IsRun ⟦<MemSite as Site>⟧ dir (frames_of frames.now).frames (frames_of more.now).frames run) }
    ensures refused { result ≡ Err (Unrun.Load Outcome.NotOfForm) → NoDirectory text.now }
    ensures unloaded { (outcome : Outcome) → result ≡ Err (Unrun.Load outcome)
        → IsUnloaded outcome }
{
    let mut site = match loaded(alloc, text) {
        Ok(site) => site,
        Err(outcome) => return Err(Unrun::Load(outcome)),
    };
    let at = site.calls().saturating_add(calls);
    let before = served(alloc, &mut site, frames)?;
    if site.calls() < at {
        return Err(Unrun::Moment);
    }
    let crash = site.crash(alloc, at, kept)?;
    let mut left = reopened(alloc, &crash)?;
    let behind = served(alloc, &mut left, more)?;
    Ok(Run {
        before,
        crash,
        behind,
        site: left,
    })
}
