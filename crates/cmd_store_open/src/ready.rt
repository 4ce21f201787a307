//! How `serve` and `settle` begin: the slots of a store that was opened are synced, and a store of version 1
//! becomes one of version 2.

ghost use Rattle.std.specs.Prelude.{◌≡◌, false, IfSome, IfErr, OnOk};
ghost use Rattle.ad_engine_store.specs.Standing.{StandsIn};
ghost use Rattle.cmd_store_open.specs.Opened.{EachStandsFor};
ghost use Rattle.cmd_store_open.specs.Ready.{IsReadySince, IsUnreadySince};

use crate::failed::outcome_of_fault;
use ad_engine_store::DirStore;
use cmd_call::Outcome;
use site_io::Site;

// Makes a store of version 1 one of version 2, where a crash leaves the directory that was opened.
fn migrate_synced<S: Site>(site: &mut S, engine: &mut DirStore) -> Result<(), Outcome>
    requires stands { StandsIn engine.old (S.reads site.old) (S.now site.old) (S.left site.old) }
    requires unspent { engine.old.spent ≡ false }
    requires lasts { IfSome (S.reads site.old)
        (λ held. EachStandsFor S.Site engine.old.dir site.old) }
    ensures ready { OnOk result (IsReadySince S.Site engine.old.dir site.old site.new) }
    ensures stands { OnOk result (StandsIn engine.new (S.reads site.new) (S.now site.new)
        (S.left site.new)) }
    ensures unspent { OnOk result (engine.new.spent ≡ false) }
    ensures dir { engine.new.dir ≡ engine.old.dir }
    ensures tokens { engine.new.tokens ≡ engine.old.tokens }
    ensures failed { IfErr result (IsUnreadySince S.Site engine.old.dir site.old site.new) }
{
    match engine.migrate(site) {
        Ok(()) => Ok(()),
        Err(fault) => Err(outcome_of_fault(fault)),
    }
}

/// Syncs the slots of a store that was opened, and makes a store of version 1 one of version 2.
pub fn make_ready<S: Site>(site: &mut S, engine: &mut DirStore) -> Result<(), Outcome>
    requires stands { StandsIn engine.old (S.reads site.old) (S.now site.old) (S.left site.old) }
    requires unspent { engine.old.spent ≡ false }
    ensures ready { OnOk result (IsReadySince S.Site engine.old.dir site.old site.new) }
    ensures stands { OnOk result (StandsIn engine.new (S.reads site.new) (S.now site.new)
        (S.left site.new)) }
    ensures unspent { OnOk result (engine.new.spent ≡ false) }
    ensures dir { engine.new.dir ≡ engine.old.dir }
    ensures tokens { engine.new.tokens ≡ engine.old.tokens }
    ensures failed { IfErr result (IsUnreadySince S.Site engine.old.dir site.old site.new) }
{
    match engine.sync(site) {
        Ok(()) => migrate_synced(site, engine),
        Err(fault) => Err(outcome_of_fault(fault)),
    }
}
