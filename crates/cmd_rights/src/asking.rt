//! The whole command.

ghost use Rattle.std.specs.Prelude.{◌≡◌};
ghost use Rattle.std.specs.Option.{option_map};
ghost use Rattle.ad_dir_model.specs.Directory.{Directory};
ghost use Rattle.ad_rights_dir.specs.Rights.{RightsTold};
ghost use Rattle.cmd_call.specs.Store.{HasFailed};
ghost use Rattle.cmd_call.specs.declared.outcome.Outcome.TheVariants.{SiteFailed};
ghost use Rattle.cmd_who.specs.Asking.{TellsIn};
ghost use Rattle.cmd_rights.specs.Rights.{RightsDoes};

use ad_dir::Dir;
use cmd_call::{Outcome, say};
use cmd_store_open::{DirStore, outcome_of, refuse};
use site_io::Site;
use std::alloc::{AllocError, Global};

// Emits who is told yes on which objects.
fn tell_rights<S: Site>(
    alloc: Global,
    site: &mut S,
    dir: &Dir,
    right: &str,
    base: Option<&str>,
) -> Outcome
    ensures { TellsIn S.Site (λ (dir : Directory). RightsTold dir right.now
        (option_map (λ text. text.now) base.entry)) dir.now site.old site.new result }
{
    match ad_rights_dir::rights(alloc, dir, right, base) {
        Ok(told) => say(site, &told.text, outcome_of(told.answered)),
        Err(AllocError) => Outcome::NoMemory,
    }
}

/// Opens the store and emits who is told yes to a question on which objects at and below a base, each set of identities
/// once. Where no base is given it is the root. Where that can't be told, a line says why, and where the slots represent
/// no directory the line that says why is emitted. No slot is written.
pub fn rights<S: Site>(alloc: Global, site: &mut S, right: &str, base: Option<&str>) -> Outcome
    ensures does { RightsDoes S.Site right.now (option_map (λ text. text.now) base.entry) site.old
        site.new result }
    ensures site_failed { result ≡ SiteFailed → HasFailed S.Site site.old site.new }
{
    match DirStore::resume(alloc, site) {
        Ok(engine) => tell_rights(alloc, site, engine.dir(), right, base),
        Err(fault) => refuse(alloc, site, fault),
    }
}
