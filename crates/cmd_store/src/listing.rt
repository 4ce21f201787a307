//! The command `list`: what stands in the descriptor of an object.

ghost use Rattle.std.specs.Prelude.{◌≡◌, true};
ghost use Rattle.ad_dn.specs.Value.{AreRdns};
ghost use Rattle.ad_dir_model.specs.Objects.{is_live};
ghost use Rattle.ad_dsacls.specs.Listing.{listing};
ghost use Rattle.cmd_call.specs.Store.{HasFailed, SaysUnless};
ghost use Rattle.cmd_call.specs.declared.outcome.Outcome.TheVariants.{Done, NoObject, SiteFailed};
ghost use Rattle.cmd_store.specs.List.{ListDoes, no_object_line, list_text, list_outcome};

use ad_dir::Dir;
use ad_engine_store::DirStore;
use ad_needs_rules::number_of_name;
use cmd_call::{Outcome, say};
use cmd_store_open::refuse;
use site_io::Site;
use std::alloc::{AllocError, Global};

/// The line where no object has the name.
const NO_OBJECT: &str = "no object\n";

/// What stands above the root of a directory is a name.
pub fn has_suffix(dir: &Dir)
    ensures { AreRdns dir.now.meta.suffix }
{
    let _parts = dir.meta().suffix.rdns.as_slice();
}

// Emits the listing of an object.
fn tell<S: Site>(alloc: Global, site: &mut S, dir: &Dir, number: u32) -> Outcome
    requires { is_live dir.now.objects number ≡ true }
    ensures { SaysUnless S.Site site.old site.new (listing dir.now number) Done result }
{
    match ad_dsacls::list(alloc, dir, number) {
        Ok(text) => say(site, &text, Outcome::Done),
        Err(AllocError) => Outcome::NoMemory,
    }
}

/// Emits that there is no object.
pub fn tell_none<S: Site>(site: &mut S) -> Outcome
    ensures { SaysUnless S.Site site.old site.new no_object_line NoObject result }
{
    say(site, NO_OBJECT.as_bytes(), Outcome::NoObject)
}

// Emits the listing of the object that has the name, or that none has it.
fn list_in<S: Site>(alloc: Global, site: &mut S, dir: &Dir, name: &[u8]) -> Outcome
    ensures said { SaysUnless S.Site site.old site.new (list_text dir.now name.now)
        (list_outcome dir.now name.now) result }
    ensures suffix { AreRdns dir.now.meta.suffix }
{
    has_suffix(dir);
    match number_of_name(alloc, dir, name) {
        Ok(Some(number)) => tell(alloc, site, dir, number),
        Ok(None) => tell_none(site),
        Err(AllocError) => Outcome::NoMemory,
    }
}

/// Opens the store and emits what stands in the descriptor of the object that has the name, line by line. Where no
/// object has it, or the text is no name's, a line says so. Where the slots represent no directory the line that
/// says why is emitted. No slot is written.
pub fn list<S: Site>(alloc: Global, site: &mut S, name: &str) -> Outcome
    ensures does { ListDoes S.Site name.now site.old site.new result }
    ensures site_failed { result ≡ SiteFailed → HasFailed S.Site site.old site.new }
{
    match DirStore::resume(alloc, site) {
        Ok(engine) => list_in(alloc, site, engine.dir(), name.as_bytes()),
        Err(fault) => refuse(alloc, site, fault),
    }
}
