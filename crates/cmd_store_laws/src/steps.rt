//! The commands over a site in memory, which tells all: what each finds there is what the one before left.

ghost use Rattle.std.specs.Prelude.{◌≡◌, ℕ, List, [], ◌≤◌, ◌++◌, IfOk, IfErr, IsErrOf};
ghost use Rattle.site_io.specs.Disk.{Images, images_of};
ghost use Rattle.ad_dir_model.specs.Directory.{Directory};
ghost use Rattle.ad_rows_write.specs.Rows.{IsStoreOf};
ghost use Rattle.ad_frames.specs.Frames.{frames_of};
ghost use Rattle.ad_engine.specs.Runs.{out, after};
ghost use Rattle.cmd_store_open.specs.Lines.{objects_line};
ghost use Rattle.cmd_store.specs.Load.{LoadsAs, NoDirectory};
ghost use Rattle.cmd_store_serve.specs.serving.Crash.{IsCrashBehind};
ghost use Rattle.cmd_store_laws.specs.Holding.{Holds, IsUnloaded, IsAnswered, IsOpened};

use cmd_call::Outcome;
use cmd_store::load;
use cmd_store_serve::serve;
use site_io::{Crash, MemSite, MemSource, Site};
use std::alloc::{AllocError, Global};

/// Loads a text into two slots in memory that are empty.
///
/// # Errors
///
/// How `load` ended where the text wasn't loaded: `NotOfForm` where it is that of no directory, `NoMemory`, or
/// `SourceFailed` or `SiteFailed`.
pub fn loaded(alloc: Global, text: &[u8]) -> Result<MemSite, Outcome>
    ensures ok { IfOk result (λ site. (dir : Directory) × LoadsAs dir text.now
        × Holds ⟦<MemSite as Site>⟧ dir (objects_line dir) site) }
    ensures refused { IsErrOf result Outcome.NotOfForm → NoDirectory text.now }
    ensures only { IfErr result IsUnloaded }
{
    let mut source = MemSource::new(alloc, text, &[])?;
    let mut site = MemSite::new(alloc, &[], &[], &[])?;
    match load(alloc, &mut source, &mut site) {
        Outcome::Done => Ok(site),
        outcome => Err(outcome),
    }
}

/// Serves frames over slots in memory, and answers how that ended.
///
/// # Errors
///
/// `AllocError` where there is no memory for the source.
pub fn served(alloc: Global, site: &mut MemSite, input: &[u8]) -> Result<Outcome, AllocError>
    // over a store it is opened,
    ensures opens { IfOk result (λ outcome. (dir : Directory) (said : List ℕ)
        → Holds ⟦<MemSite as Site>⟧ dir said site.old → IsOpened outcome) }
    // where the input ends whole, bad or over each of its frames is answered,
    ensures answers { IfOk result (λ outcome. (dir : Directory) (said : List ℕ)
        → Holds ⟦<MemSite as Site>⟧ dir said site.old → IsAnswered outcome
        → Holds ⟦<MemSite as Site>⟧ (after dir (frames_of input.now).frames)
        (said ++ out dir (frames_of input.now).frames) site.new) }
    // and whatever comes, a crash at each moment leaves the directory after a prefix of them.
    ensures crash { IfOk result (λ outcome. (dir : Directory) (said : List ℕ)
        → Holds ⟦<MemSite as Site>⟧ dir said site.old
        → (t : ℕ) (images : Images) (text : List ℕ) → ⟦<MemSite as Site>⟧.now site.old ≤ t
        → ⟦<MemSite as Site>⟧.left site.new t images text
        → IsCrashBehind dir (frames_of input.now).frames said images text) }
{
    let mut source = MemSource::new(alloc, input, &[])?;
    Ok(serve(alloc, &mut source, site))
}

/// What a crash left, as slots in memory.
///
/// # Errors
///
/// `AllocError` where there is no memory.
pub fn reopened(alloc: Global, crash: &Crash) -> Result<MemSite, AllocError>
    ensures { IfOk result (λ site. (dir : Directory)
        → IsStoreOf (images_of crash.now.a.items crash.now.b.items) dir
        → Holds ⟦<MemSite as Site>⟧ dir [] site) }
{
    MemSite::new(alloc, &crash.a, &crash.b, &[])
}
