//! The whole commands.

ghost use Rattle.std.specs.Prelude.{◌≡◌};
ghost use Rattle.ad_dir_model.specs.Directory.{Directory};
ghost use Rattle.ad_dir_model.specs.Soundness.{IsSound};
ghost use Rattle.ad_control_dir.specs.Control.{ControlTold, ReachTold};
ghost use Rattle.cmd_call.specs.Store.{HasFailed};
ghost use Rattle.cmd_call.specs.declared.outcome.Outcome.TheVariants.{SiteFailed};
ghost use Rattle.cmd_who.specs.Asking.{TellsIn};
ghost use Rattle.cmd_control.specs.Controls.{ControlDoes, ReachDoes};

use ad_dir::Dir;
use cmd_call::{Outcome, say};
use cmd_store_open::{DirStore, outcome_of, refuse};
use site_io::Site;
use std::alloc::{AllocError, Global};

// Emits who can come to control the object of a name.
fn tell_control<S: Site>(alloc: Global, site: &mut S, dir: &Dir, name: &str) -> Outcome
    requires { IsSound dir.now }
    ensures { TellsIn S.Site (λ (dir : Directory). ControlTold dir name.now) dir.now site.old
        site.new result }
{
    match ad_control_dir::control(alloc, dir, name) {
        Ok(told) => say(site, &told.text, outcome_of(told.answered)),
        Err(AllocError) => Outcome::NoMemory,
    }
}

/// Opens the store and emits who can come to control the object of a name: a line for each, and one for the next step of
/// each. Where that can't be told, a line says why, and where the slots represent no directory the line that says why is
/// emitted. No slot is written.
pub fn control<S: Site>(alloc: Global, site: &mut S, name: &str) -> Outcome
    ensures does { ControlDoes S.Site name.now site.old site.new result }
    ensures site_failed { result ≡ SiteFailed → HasFailed S.Site site.old site.new }
{
    match DirStore::resume(alloc, site) {
        Ok(engine) => tell_control(alloc, site, engine.dir(), name),
        Err(fault) => refuse(alloc, site, fault),
    }
}

// Emits what the object of a name can come to control.
fn tell_reach<S: Site>(alloc: Global, site: &mut S, dir: &Dir, name: &str) -> Outcome
    requires { IsSound dir.now }
    ensures { TellsIn S.Site (λ (dir : Directory). ReachTold dir name.now) dir.now site.old
        site.new result }
{
    match ad_control_dir::reach(alloc, dir, name) {
        Ok(told) => say(site, &told.text, outcome_of(told.answered)),
        Err(AllocError) => Outcome::NoMemory,
    }
}

/// Opens the store and emits what the object of a name can come to control: a line for each, and one for the last step
/// to each. All else is as of `control`.
pub fn reach<S: Site>(alloc: Global, site: &mut S, name: &str) -> Outcome
    ensures does { ReachDoes S.Site name.now site.old site.new result }
    ensures site_failed { result ≡ SiteFailed → HasFailed S.Site site.old site.new }
{
    match DirStore::resume(alloc, site) {
        Ok(engine) => tell_reach(alloc, site, engine.dir(), name),
        Err(fault) => refuse(alloc, site, fault),
    }
}
