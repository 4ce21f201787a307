//! What a frame changes is made and committed, in one commit.

ghost use Rattle.std.specs.Prelude.{◌≡◌, [], IfOk, OnOk, IsErrOf};
ghost use Rattle.site_io.specs.Counts.{HasRisen};
ghost use Rattle.site_io.specs.Outside.{TouchesSlots};
ghost use Rattle.ad_engine_store.specs.Bound.{HasRoom, IsBounded};
ghost use Rattle.ad_engine_store.specs.Serving.{LeavesOldOrNew, LastsOn};
ghost use Rattle.ad_engine_store.specs.Settling.{LastsAs};
ghost use Rattle.ad_engine_store.specs.Stepping.{made_by, MayCommit};

use crate::dir_store::DirStore;
use crate::engine_fault::EngineFault;
use crate::stepping::make_all;
use ad_bytes::List;
use ad_dir::Edit;
use ad_rows::Batch;
use site_io::Site;

impl DirStore {
    ghost use Rattle.ad_engine_store.specs.Standing.{Stands, StandsIn};

    // Makes the edits and commits them in one commit.
    fn commit_edits<S: Site>(&mut self, site: &mut S, edits: List<Edit>) -> Result<(), EngineFault>
        requires stands { Stands self.old (S.reads site.old) (S.now site.old) (S.left site.old) }
        requires edits { MayCommit edits self.old.dir }
        ensures directory { OnOk result (self.new.dir ≡ made_by edits self.old.dir) }
        ensures stands { OnOk result
            (Stands self.new (S.reads site.new) (S.now site.new) (S.left site.new)) }
        ensures every_crash { OnOk result (LastsAs S.Site self.new.dir site.old site.new) }
        ensures any_moment { LeavesOldOrNew self.old.dir (made_by edits self.old.dir)
            (S.reads site.old) (S.now site.old) (S.now site.new) (S.left site.old)
            (S.left site.new) }
        ensures bound { OnOk result
            (HasRoom self.old.store.log → IsBounded self.new.store (S.reads site.new)) }
        ensures tokens { self.new.tokens ≡ self.old.tokens }
        ensures unspent { self.new.spent ≡ self.old.spent }
        ensures faults { IsErrOf result EngineFault.Spent → ⊥ }
        ensures outside { TouchesSlots S.Site site.old site.new }
        ensures cause { IsErrOf result EngineFault.Site → HasRisen (S.slot_faults site.old)
            (S.slot_faults site.new) }
    {
        let mut batch = Batch::new(self.alloc);
        make_all(&mut self.dir, &mut batch, edits.into_vec())?;
        let rows = batch.rows()?;
        self.store.commit(site, &rows)?;
        Ok(())
    }

    /// Makes the edits and commits them in one commit, after a snapshot where the store wants one. Where there is no
    /// edit the site isn't touched. At each moment a crash leaves what it could leave as the call began, or a store of
    /// the directory from before or of the one that the edits make.
    ///
    /// # Errors
    ///
    /// `Site` where the site failed, which its count tells. `Memory` where there is no memory. After a fault nothing is
    /// said of the directory; the store is to be opened again.
    pub fn commit<S: Site>(&mut self, site: &mut S, edits: List<Edit>) -> Result<(), EngineFault>
        requires stands { Stands self.old (S.reads site.old) (S.now site.old) (S.left site.old) }
        requires edits { MayCommit edits self.old.dir }
        ensures directory { OnOk result (self.new.dir ≡ made_by edits self.old.dir) }
        ensures stands { OnOk result
            (Stands self.new (S.reads site.new) (S.now site.new) (S.left site.new)) }
        ensures every_crash { OnOk result
            (LastsOn S.Site self.old.dir self.new.dir site.old site.new) }
        ensures any_moment { LeavesOldOrNew self.old.dir (made_by edits self.old.dir)
            (S.reads site.old) (S.now site.old) (S.now site.new) (S.left site.old)
            (S.left site.new) }
        ensures bound { OnOk result
            ((edits ≡ [] → ⊥) → IsBounded self.new.store (S.reads site.new)) }
        ensures untouched { edits ≡ [] → site.new ≡ site.old }
        ensures tokens { self.new.tokens ≡ self.old.tokens }
        ensures unspent { self.new.spent ≡ self.old.spent }
        ensures faults { IsErrOf result EngineFault.Spent → ⊥ }
        ensures outside { TouchesSlots S.Site site.old site.new }
        ensures cause { IsErrOf result EngineFault.Site → HasRisen (S.slot_faults site.old)
            (S.slot_faults site.new) }
    {
        if edits.is_empty() {
            return Ok(());
        }
        self.make_room(site)?;
        self.commit_edits(site, edits)
    }
}
