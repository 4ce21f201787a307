//! A directory, its store, and the tokens of the connections.

ghost use Rattle.std.specs.Prelude.{◌≡◌, ◌↔◌, [], true, false, IfSome, IfOk, OnOk, IsErr};
ghost use Rattle.std.specs.Prelude.{IsErrOf};
ghost use Rattle.site_io.specs.Counts.{HasRisen};
ghost use Rattle.site_io.specs.Outside.{OnlyLooks};
ghost use Rattle.ad_dir_model.specs.Soundness.{IsSound};
ghost use Rattle.ad_engine_store.specs.Opening.{IsOpenedAs, AnswersFor};
ghost use Rattle.ad_engine_store.specs.Settling.{LastsAs};

use crate::Tokens;
use crate::creating::store_of;
use crate::engine_fault::EngineFault;
use crate::fault::OpenFault;
use ad_dir::Dir;
use ad_rows::read_dir_in;
use row_store::Store;
use site_io::Site;
use std::alloc::Global;

/// A directory in memory, the store that represents it, and the tokens of the connections.
///
/// Each call on it is to be made over the site with which the engine was made, whose slots no one else has changed
/// since.
pub struct DirStore {
    /// Where memory is taken.
    pub alloc: Global,
    /// The directory. After a call that answered a fault nothing is said of it.
    pub dir: Dir,
    /// The store.
    pub store: Store,
    /// The tokens of the connections.
    pub tokens: Tokens,
    /// Whether a call answered a fault.
    pub spent: bool,
}

// Written out, so that where it is dropped a proof has a single step.
impl Drop for DirStore {
    fn drop(self) {
        let DirStore {
            alloc: _,
            dir,
            store,
            tokens,
            spent: _,
        } = self;
        drop((dir, store, tokens));
    }
}

impl DirStore {
    ghost use Rattle.ad_engine_store.specs.Created.{IsCreated};
    ghost use Rattle.ad_engine_store.specs.Standing.{Stands, StandsIn};

    /// Makes a store of the directory in two empty slots. No connection has a token. At Ok each crash from then on
    /// leaves a store that represents it. A crash before that may leave anything in the slots.
    ///
    /// # Errors
    ///
    /// `Taken` where a slot isn't empty, and `Memory` where there is no memory, before anything is written. `Site`
    /// where the site failed, which its count tells.
    pub fn create<S: Site>(alloc: Global, site: &mut S, dir: Dir) -> Result<DirStore, OpenFault>
        requires { IsSound dir }
        ensures { IsCreated S.Site site.old site.new dir result }
    {
        match store_of(alloc, site, &dir) {
            Ok((store, tokens)) => Ok(DirStore {
                alloc,
                dir,
                store,
                tokens,
                spent: false,
            }),
            Err(fault) => Err(fault),
        }
    }

    /// Opens a store that represents a directory. No connection has a token. It writes no slot.
    ///
    /// # Errors
    ///
    /// `Empty` where neither slot is open. `Broken` where one is open and the slots represent no bodies, or one
    /// that is no batch. `Row` with the least row that isn't of the form of a directory's rows, or isn't there
    /// where it must be. `Unsound` where all rows are, and make no sound directory: with the number that is told of
    /// what they make. `Site` where the site failed, which its count tells. `Memory` where there is no memory.
    pub fn resume<S: Site>(alloc: Global, site: &mut S) -> Result<DirStore, OpenFault>
        // A directory that is opened is the one that the slots represent, and it is sound.
        ensures opened { IfSome (S.reads site.old) (λ held. IsOpenedAs held result) }
        ensures only { IfSome (S.reads site.old) (λ held. AnswersFor held result) }
        ensures sound { IfOk result (λ engine. IsSound engine.dir) }
        ensures stands { IfOk result
            (λ engine. StandsIn engine (S.reads site.new) (S.now site.new) (S.left site.new)) }
        ensures unspent { IfOk result (λ engine. engine.spent ≡ false) }
        ensures tokens { IfOk result (λ engine. engine.tokens ≡ []) }
        ensures never_taken { ¬ IsErrOf result OpenFault.Taken }
        ensures outside { OnlyLooks S.Site site.old site.new }
        ensures cause { IsErrOf result OpenFault.Site → HasRisen (S.slot_faults site.old)
            (S.slot_faults site.new) }
    {
        let tokens = Tokens::new(alloc)?;
        let mut room = Vec::new(alloc);
        let (store, rows) = Store::resume_in(alloc, site, &mut room)?;
        let dir = read_dir_in(alloc, &rows)?;
        Ok(DirStore {
            alloc,
            dir,
            store,
            tokens,
            spent: false,
        })
    }

    /// Makes what was read of the slots last, before anything rests on it: a store that is opened may hold what a
    /// crash would still take back. At Ok each crash from then on leaves a store that represents the directory. It
    /// writes no slot.
    ///
    /// # Errors
    ///
    /// `Spent` exactly where an earlier call on this engine answered a fault. `Site` where the site failed, which
    /// its count tells. A crash leaves what it could leave before.
    pub fn sync<S: Site>(&mut self, site: &mut S) -> Result<(), EngineFault>
        requires { StandsIn self.old (S.reads site.old) (S.now site.old) (S.left site.old) }
        ensures stands { StandsIn self.new (S.reads site.new) (S.now site.new) (S.left site.new) }
        ensures every_crash { OnOk result (LastsAs S.Site self.old.dir site.old site.new) }
        ensures dir { self.new.dir ≡ self.old.dir }
        ensures tokens { self.new.tokens ≡ self.old.tokens }
        ensures spent { IsErrOf result EngineFault.Spent ↔ self.old.spent ≡ true }
        ensures marks { self.new.spent ≡ true ↔ IsErr result }
        ensures faults { ¬ IsErrOf result EngineFault.Memory }
        ensures outside { OnlyLooks S.Site site.old site.new }
        ensures cause { IsErrOf result EngineFault.Site → HasRisen (S.slot_faults site.old)
            (S.slot_faults site.new) }
    {
        if self.spent {
            return Err(EngineFault::Spent);
        }
        self.spent = true;
        self.sync_slots(site)?;
        self.spent = false;
        Ok(())
    }

    // Syncs the slots of a store that isn't poisoned.
    fn sync_slots<S: Site>(&mut self, site: &mut S) -> Result<(), EngineFault>
        requires { Stands self.old (S.reads site.old) (S.now site.old) (S.left site.old) }
        ensures stands { OnOk result
            (Stands self.new (S.reads site.new) (S.now site.new) (S.left site.new)) }
        ensures every_crash { OnOk result (LastsAs S.Site self.old.dir site.old site.new) }
        ensures dir { self.new.dir ≡ self.old.dir }
        ensures tokens { self.new.tokens ≡ self.old.tokens }
        ensures unspent { self.new.spent ≡ self.old.spent }
        ensures faults { IsErrOf result EngineFault.Spent → ⊥ }
        ensures memory { IsErrOf result EngineFault.Memory → ⊥ }
        ensures outside { OnlyLooks S.Site site.old site.new }
        ensures cause { IsErrOf result EngineFault.Site → HasRisen (S.slot_faults site.old)
            (S.slot_faults site.new) }
    {
        Ok(self.store.sync(site)?)
    }

    /// The directory. After a call that answered a fault nothing is said of it.
    pub fn dir(&self) -> &Dir
        ensures { result.now ≡ self.now.dir }
    {
        &self.dir
    }
}
