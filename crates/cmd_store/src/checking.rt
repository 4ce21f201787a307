//! The command `check`: what a store represents.

ghost use Rattle.std.specs.Prelude.{◌≡◌, IfOk};
ghost use Rattle.ad_dir_model.specs.Soundness.{IsSound};
ghost use Rattle.cmd_call.specs.Store.{HasFailed, SaysUnless};
ghost use Rattle.cmd_call.specs.declared.outcome.Outcome.TheVariants.{Done, SiteFailed};
ghost use Rattle.cmd_store.specs.Check.{CheckDoes, check_text};

use crate::stale::count_stale;
use ad_dir::Dir;
use ad_engine_store::DirStore;
use cmd_call::{Outcome, put_counted, say};
use cmd_store_open::refuse;
use site_io::Site;
use std::alloc::{AllocError, Global};

// The four numbers of a directory.
fn text_of(alloc: Global, dir: &Dir) -> Result<Vec<u8>, AllocError>
    requires { IsSound dir.now }
    ensures { IfOk result (λ text. text.items ≡ check_text dir.now) }
{
    let stale = count_stale(alloc, dir)?;
    let mut text = Vec::new(alloc);
    put_counted(&mut text, "objects", dir.len() as u64)?;
    put_counted(&mut text, "pending", dir.queue().len() as u64)?;
    put_counted(&mut text, "stale", stale as u64)?;
    put_counted(&mut text, "descriptors", u64::from(dir.descriptors()))?;
    Ok(text)
}

// Emits the numbers of a directory.
fn tell<S: Site>(alloc: Global, site: &mut S, dir: &Dir) -> Outcome
    requires { IsSound dir.now }
    ensures { SaysUnless S.Site site.old site.new (check_text dir.now) Done result }
{
    match text_of(alloc, dir) {
        Ok(text) => say(site, &text, Outcome::Done),
        Err(AllocError) => Outcome::NoMemory,
    }
}

/// Opens the store and emits four lines: the number of objects, that of pending ones, that of objects whose
/// descriptor isn't the one that is recomputed from the root, and that of different descriptors. Where the slots
/// represent no directory the line that says why is emitted. No slot is written.
pub fn check<S: Site>(alloc: Global, site: &mut S) -> Outcome
    ensures does { CheckDoes S.Site site.old site.new result }
    ensures site_failed { result ≡ SiteFailed → HasFailed S.Site site.old site.new }
{
    match DirStore::resume(alloc, site) {
        Ok(engine) => tell(alloc, site, engine.dir()),
        Err(fault) => refuse(alloc, site, fault),
    }
}
