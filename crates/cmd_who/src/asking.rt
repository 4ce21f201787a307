//! The whole commands.

ghost use Rattle.std.specs.Prelude.{◌≡◌, map};
ghost use Rattle.std.specs.Option.{option_map};
ghost use Rattle.std.specs.String.{string_bytes};
ghost use Rattle.ad_dir_model.specs.Directory.{Directory};
ghost use Rattle.ad_who.specs.Answers.{TokenTold, WhoTold, CanTold};
ghost use Rattle.cmd_call.specs.Store.{HasFailed};
ghost use Rattle.cmd_call.specs.declared.outcome.Outcome.TheVariants.{SiteFailed};
ghost use Rattle.cmd_who.specs.Asks.{TokenDoes, WhoDoes, CanDoes};
ghost use Rattle.cmd_who.specs.Asking.{TellsIn};

use ad_dir::Dir;
use cmd_call::{Outcome, say};
use cmd_store_open::{DirStore, outcome_of, refuse};
use site_io::Site;
use std::alloc::{AllocError, Global};

// Emits the token of the object of a name.
fn tell_token<S: Site>(
    alloc: Global,
    site: &mut S,
    dir: &Dir,
    name: &str,
    sids: &[String],
) -> Outcome
    ensures { TellsIn S.Site (λ (dir : Directory). TokenTold dir name.now
        (map string_bytes sids.now)) dir.now site.old site.new result }
{
    match ad_who::token(alloc, dir, name, sids) {
        Ok(told) => say(site, &told.text, outcome_of(told.answered)),
        Err(AllocError) => Outcome::NoMemory,
    }
}

/// Opens the store and emits the token that its directory gives the object of a name, with further identifiers in it:
/// a line each of its user, owner, primary group, groups and privileges. Where it gives none, a line says why, and
/// where the slots represent no directory the line that says why is emitted. No slot is written.
pub fn token<S: Site>(alloc: Global, site: &mut S, name: &str, sids: &[String]) -> Outcome
    ensures does { TokenDoes S.Site name.now (map string_bytes sids.now) site.old site.new result }
    ensures site_failed { result ≡ SiteFailed → HasFailed S.Site site.old site.new }
{
    match DirStore::resume(alloc, site) {
        Ok(engine) => tell_token(alloc, site, engine.dir(), name, sids),
        Err(fault) => refuse(alloc, site, fault),
    }
}

// Emits who has a right on the object of a name.
fn tell_who<S: Site>(alloc: Global, site: &mut S, dir: &Dir, right: &str, name: &str) -> Outcome
    ensures { TellsIn S.Site (λ (dir : Directory). WhoTold dir right.now name.now) dir.now site.old
        site.new result }
{
    match ad_who::who(alloc, dir, right, name) {
        Ok(told) => say(site, &told.text, outcome_of(told.answered)),
        Err(AllocError) => Outcome::NoMemory,
    }
}

/// Opens the store and emits who has a right on the object of a name: a line for each principal to whose token it is
/// granted, by rising numbers, with what decides, its identifier and its name. Where that can't be told, a line says
/// why, and where the slots represent no directory the line that says why is emitted. No slot is written.
pub fn who<S: Site>(alloc: Global, site: &mut S, right: &str, name: &str) -> Outcome
    ensures does { WhoDoes S.Site right.now name.now site.old site.new result }
    ensures site_failed { result ≡ SiteFailed → HasFailed S.Site site.old site.new }
{
    match DirStore::resume(alloc, site) {
        Ok(engine) => tell_who(alloc, site, engine.dir(), right, name),
        Err(fault) => refuse(alloc, site, fault),
    }
}

// Emits on which objects the object of a name has a right.
fn tell_can<S: Site>(
    alloc: Global,
    site: &mut S,
    dir: &Dir,
    name: &str,
    right: &str,
    base: Option<&str>,
) -> Outcome
    ensures { TellsIn S.Site (λ (dir : Directory). CanTold dir name.now right.now
        (option_map (λ text. text.now) base.entry)) dir.now site.old site.new result }
{
    match ad_who::can(alloc, dir, name, right, base) {
        Ok(told) => say(site, &told.text, outcome_of(told.answered)),
        Err(AllocError) => Outcome::NoMemory,
    }
}

/// Opens the store and emits on which objects the token of the object of a name has a right: a line for each at or
/// below a base on which it is granted, by rising numbers, with what decides and its name. Where no base is given it is
/// the root. Where that can't be told, a line says why, and where the slots represent no directory the line that says
/// why is emitted. No slot is written.
pub fn can<S: Site>(
    alloc: Global,
    site: &mut S,
    name: &str,
    right: &str,
    base: Option<&str>,
) -> Outcome
    ensures does { CanDoes S.Site name.now right.now (option_map (λ text. text.now) base.entry)
        site.old site.new result }
    ensures site_failed { result ≡ SiteFailed → HasFailed S.Site site.old site.new }
{
    match DirStore::resume(alloc, site) {
        Ok(engine) => tell_can(alloc, site, engine.dir(), name, right, base),
        Err(fault) => refuse(alloc, site, fault),
    }
}
