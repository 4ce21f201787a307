//! The command `settle`: steps of propagation until nothing is pending.

ghost use Rattle.std.specs.Prelude.{◌≡◌, false, [], IfOk};
ghost use Rattle.ad_engine_store.specs.Standing.{StandsIn};
ghost use Rattle.cmd_call.specs.Store.{HasFailed, SaysUnless};
ghost use Rattle.cmd_call.specs.declared.outcome.Outcome.TheVariants.{Done, SiteFailed};
ghost use Rattle.cmd_store.specs.Settle.{SettleDoes, IsSettledReady, IsSettledSince, steps_line};

use ad_engine_store::DirStore;
use cmd_call::{Outcome, put_counted, say};
use cmd_store_open::{make_ready, outcome_of_fault, refuse};
use site_io::Site;
use std::alloc::{AllocError, Global};

// The line that tells how many steps there were.
fn line_of(alloc: Global, steps: u64) -> Result<Vec<u8>, AllocError>
    ensures { IfOk result (λ line. line.items ≡ steps_line steps) }
{
    let mut line = Vec::new(alloc);
    put_counted(&mut line, "steps", steps)?;
    Ok(line)
}

// Emits how many steps there were.
fn tell<S: Site>(alloc: Global, site: &mut S, steps: u64) -> Outcome
    ensures { SaysUnless S.Site site.old site.new (steps_line steps) Done result }
{
    match line_of(alloc, steps) {
        Ok(line) => say(site, &line, Outcome::Done),
        Err(AllocError) => Outcome::NoMemory,
    }
}

// Makes the steps in a store that was opened, where something is pending, and emits how many there were.
fn settle_pending<S: Site>(alloc: Global, site: &mut S, engine: &mut DirStore) -> Outcome
    requires stands { StandsIn engine.old (S.reads site.old) (S.now site.old) (S.left site.old) }
    requires unspent { engine.old.spent ≡ false }
    requires some { ¬ (engine.old.dir.pending ≡ []) }
    ensures { IsSettledReady S.Site engine.old.dir site.old site.new result }
{
    match engine.settle(site) {
        Ok(steps) => tell(alloc, site, steps),
        Err(fault) => outcome_of_fault(fault),
    }
}

// Makes the steps in a store that is ready, and emits how many there were.
fn settle_ready<S: Site>(alloc: Global, site: &mut S, engine: &mut DirStore) -> Outcome
    requires stands { StandsIn engine.old (S.reads site.old) (S.now site.old) (S.left site.old) }
    requires unspent { engine.old.spent ≡ false }
    ensures { IsSettledReady S.Site engine.old.dir site.old site.new result }
{
    if engine.dir().queue().len() == 0 {
        return tell(alloc, site, 0);
    }
    settle_pending(alloc, site, engine)
}

// Makes a store that was opened ready, makes the steps, and emits how many there were.
fn settle_opened<S: Site>(alloc: Global, site: &mut S, engine: &mut DirStore) -> Outcome
    requires stands { StandsIn engine.old (S.reads site.old) (S.now site.old) (S.left site.old) }
    requires unspent { engine.old.spent ≡ false }
    ensures { IsSettledSince S.Site engine.old.dir site.old site.new result }
{
    match make_ready(site, engine) {
        Ok(()) => settle_ready(alloc, site, engine),
        Err(outcome) => outcome,
    }
}

/// Opens the store, syncs its slots, makes a store of version 1 one of version 2, makes steps of propagation until
/// nothing is pending, in commits, and emits how many there were. Before a commit the store is rewritten where it
/// wants a snapshot. Up to the sync nothing is emitted, and a crash leaves what it could leave as the call began.
/// From the sync on, at each moment, it leaves a store that represents the directory after some number of steps.
/// Where nothing is pending no slot of a store of version 2 is written. Where the slots represent no directory the
/// line that says why is emitted, and no slot is written.
pub fn settle<S: Site>(alloc: Global, site: &mut S) -> Outcome
    ensures does { SettleDoes S.Site site.old site.new result }
    ensures site_failed { result ≡ SiteFailed → HasFailed S.Site site.old site.new }
{
    match DirStore::resume(alloc, site) {
        Ok(mut engine) => settle_opened(alloc, site, &mut engine),
        Err(fault) => refuse(alloc, site, fault),
    }
}
