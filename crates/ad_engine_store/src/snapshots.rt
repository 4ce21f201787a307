//! Snapshots: the rows of the directory in the place of all bodies of the journal.

ghost use Rattle.std.specs.Prelude.{◌≡◌, ◌+◌, ◌^◌, ◌<◌, ◌↔◌, true, IfSome, OnOk, IsErr, IsErrOf};
ghost use Rattle.site_io.specs.Counts.{HasRisen};
ghost use Rattle.site_io.specs.Outside.{TouchesSlots};
ghost use Rattle.gate_log.specs.Store.{IsOne};
ghost use Rattle.gate_log.specs.declared.version.Version.TheVariants.{Two};
ghost use Rattle.ad_engine_store.specs.Bound.{HasRoom};
ghost use Rattle.ad_engine_store.specs.Serving.{LastsOn, LeavesDir};
ghost use Rattle.ad_engine_store.specs.Settling.{LastsAs};

use crate::dir_store::DirStore;
use crate::engine_fault::EngineFault;
use ad_rows::write_rows;
use row_store::Store;
use site_io::Site;

impl DirStore {
    ghost use Rattle.ad_engine_store.specs.Standing.{Stands, StandsIn};

    /// The store, which tells of its journal. After a call that answered a fault nothing is said of it.
    pub fn store(&self) -> &Store
        ensures { result.now ≡ self.now.store }
    {
        &self.store
    }

    // Puts the rows of the directory in the place of all bodies, in the slot that isn't live.
    fn rewrite<S: Site>(&mut self, site: &mut S) -> Result<(), EngineFault>
        requires stands { Stands self.old (S.reads site.old) (S.now site.old) (S.left site.old) }
        requires below { self.old.store.log.generation + 1 < 2 ^ 64 }
        ensures stands { OnOk result
            (Stands self.new (S.reads site.new) (S.now site.new) (S.left site.new)) }
        ensures every_crash { OnOk result (LastsAs S.Site self.old.dir site.old site.new) }
        ensures any_moment { LeavesDir self.old.dir (S.reads site.old) (S.now site.old)
            (S.now site.new) (S.left site.old) (S.left site.new) }
        ensures room { OnOk result (self.new.store.log.behind ≡ 0) }
        ensures version { OnOk result (self.new.store.log.version ≡ Two) }
        ensures dir { self.new.dir ≡ self.old.dir }
        ensures tokens { self.new.tokens ≡ self.old.tokens }
        ensures unspent { self.new.spent ≡ self.old.spent }
        ensures faults { IsErrOf result EngineFault.Spent → ⊥ }
        ensures outside { TouchesSlots S.Site site.old site.new }
        ensures cause { IsErrOf result EngineFault.Site → HasRisen (S.slot_faults site.old)
            (S.slot_faults site.new) }
    {
        let rows = write_rows(self.alloc, &self.dir)?;
        self.store.snapshot_of(site, rows)?;
        Ok(())
    }

    // Takes a snapshot where the store wants one, before the first edit of a commit is made.
    pub(crate) fn make_room<S: Site>(&mut self, site: &mut S) -> Result<(), EngineFault>
        requires { Stands self.old (S.reads site.old) (S.now site.old) (S.left site.old) }
        ensures stands { OnOk result
            (Stands self.new (S.reads site.new) (S.now site.new) (S.left site.new)) }
        ensures any_moment { LeavesDir self.old.dir (S.reads site.old) (S.now site.old)
            (S.now site.new) (S.left site.old) (S.left site.new) }
        ensures room { OnOk result (HasRoom self.new.store.log) }
        ensures dir { self.new.dir ≡ self.old.dir }
        ensures tokens { self.new.tokens ≡ self.old.tokens }
        ensures unspent { self.new.spent ≡ self.old.spent }
        ensures faults { IsErrOf result EngineFault.Spent → ⊥ }
        ensures outside { TouchesSlots S.Site site.old site.new }
        ensures cause { IsErrOf result EngineFault.Site → HasRisen (S.slot_faults site.old)
            (S.slot_faults site.new) }
    {
        if self.store.wants_snapshot() {
            return self.rewrite(site);
        }
        Ok(())
    }

    // Makes a store of version 1 one of version 2.
    fn migrate_slots<S: Site>(&mut self, site: &mut S) -> Result<(), EngineFault>
        requires { Stands self.old (S.reads site.old) (S.now site.old) (S.left site.old) }
        ensures stands { OnOk result
            (Stands self.new (S.reads site.new) (S.now site.new) (S.left site.new)) }
        ensures every_crash { OnOk result
            (LastsOn S.Site self.old.dir self.old.dir site.old site.new) }
        ensures any_moment { LeavesDir self.old.dir (S.reads site.old) (S.now site.old)
            (S.now site.new) (S.left site.old) (S.left site.new) }
        ensures version { OnOk result (self.new.store.log.version ≡ Two) }
        ensures untouched { self.old.store.log.version ≡ Two → site.new ≡ site.old }
        ensures dir { self.new.dir ≡ self.old.dir }
        ensures tokens { self.new.tokens ≡ self.old.tokens }
        ensures unspent { self.new.spent ≡ self.old.spent }
        ensures faults { IsErrOf result EngineFault.Spent → ⊥ }
        ensures outside { TouchesSlots S.Site site.old site.new }
        ensures cause { IsErrOf result EngineFault.Site → HasRisen (S.slot_faults site.old)
            (S.slot_faults site.new) }
    {
        if self.store.log().version() == 2 {
            return Ok(());
        }
        self.rewrite(site)
    }

    /// Makes a store of version 1 one of version 2, by a snapshot in slot B, after which slot A is closed. A store of
    /// version 2 isn't touched. At each moment a crash leaves what it could leave as the call began, or a store of
    /// the directory. The tokens stay as they are.
    ///
    /// # Errors
    ///
    /// `Spent` exactly where an earlier call on this engine answered a fault. `Site` where the site failed, which
    /// its count tells. `Memory` where there is no memory. After a fault the store is to be opened again, and
    /// represents the same directory.
    pub fn migrate<S: Site>(&mut self, site: &mut S) -> Result<(), EngineFault>
        requires { StandsIn self.old (S.reads site.old) (S.now site.old) (S.left site.old) }
        ensures stands { StandsIn self.new (S.reads site.new) (S.now site.new) (S.left site.new) }
        ensures every_crash { OnOk result
            (LastsOn S.Site self.old.dir self.old.dir site.old site.new) }
        ensures any_moment { LeavesDir self.old.dir (S.reads site.old) (S.now site.old)
            (S.now site.new) (S.left site.old) (S.left site.new) }
        ensures version { OnOk result (self.new.store.log.version ≡ Two) }
        // a store of version 2, by what it says of itself and by what its slots hold
        ensures done { self.old.store.log.version ≡ Two → site.new ≡ site.old }
        ensures untouched { IfSome (S.reads site.old)
            (λ held. (IsOne held.a → ⊥) → site.new ≡ site.old) }
        ensures dir { self.new.dir ≡ self.old.dir }
        ensures tokens { self.new.tokens ≡ self.old.tokens }
        ensures spent { IsErrOf result EngineFault.Spent ↔ self.old.spent ≡ true }
        ensures marks { self.new.spent ≡ true ↔ IsErr result }
        ensures outside { TouchesSlots S.Site site.old site.new }
        ensures cause { IsErrOf result EngineFault.Site → HasRisen (S.slot_faults site.old)
            (S.slot_faults site.new) }
    {
        if self.spent {
            return Err(EngineFault::Spent);
        }
        self.spent = true;
        self.migrate_slots(site)?;
        self.spent = false;
        Ok(())
    }
}
