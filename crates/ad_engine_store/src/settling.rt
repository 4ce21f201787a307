//! Settling: steps until nothing is pending, in commits.

ghost use Rattle.std.specs.Prelude.{◌≡◌, ◌↔◌, ◌<◌, [], true, MatchBool, IfOk, OnOk, IsErr, IsErrOf};
ghost use Rattle.site_io.specs.Counts.{HasRisen};
ghost use Rattle.site_io.specs.Outside.{TouchesSlots};
ghost use Rattle.ad_dir_model.specs.Steps.{EmptiesAfter, steps};
ghost use Rattle.ad_engine_store.specs.Settling.{steps_made};
ghost use Rattle.ad_engine_store.specs.Bound.{HasRoom, IsBounded};
ghost use Rattle.ad_engine_store.specs.Settling.{AreSteps, LastsAs, LeavesSteps};
ghost use Rattle.ad_engine_store.specs.Serving.{LeavesOldOrNew};
ghost use Rattle.ad_engine_store.specs.Stepping.{IsDue};

use crate::dir_store::DirStore;
use crate::engine_fault::EngineFault;
use crate::stepping::make_steps;
use ad_dir::Dir;
use ad_rows::Batch;
use site_io::Site;

// How many steps one commit has at most.
const MOST: u32 = 1_000;

// Whether a step is to be made.
fn is_due(dir: &Dir, most: u32) -> bool
    ensures due { MatchBool result (IsDue most dir.now) (0 < most → dir.now.pending ≡ []) }
{
    if most == 0 {
        return false;
    }
    if dir.queue().len() == 0 {
        return false;
    }
    true
}

impl DirStore {
    ghost use Rattle.ad_engine_store.specs.Standing.{Stands, StandsIn};

    // At most so many steps, in one commit. Fewer are made exactly where nothing is pending any more. Where none are
    // made the site isn't touched.
    fn commit_steps<S: Site>(&mut self, site: &mut S, most: u32) -> Result<u32, EngineFault>
        requires { Stands self.old (S.reads site.old) (S.now site.old) (S.left site.old) }
        ensures stands { OnOk result
            (Stands self.new (S.reads site.new) (S.now site.new) (S.left site.new)) }
        ensures steps { IfOk result (λ n. AreSteps n self.old.dir self.new.dir) }
        ensures made { IfOk result (λ n. n ≡ steps_made most self.old.dir) }
        ensures end { OnOk result (self.new.dir ≡ steps most self.old.dir) }
        ensures empty { IfOk result (λ n. n < most → self.new.dir.pending ≡ []) }
        ensures untouched { steps_made most self.old.dir ≡ 0 → site.new ≡ site.old }
        ensures every_crash { IfOk result
            (λ n. 0 < n → LastsAs S.Site self.new.dir site.old site.new) }
        ensures any_moment { LeavesOldOrNew self.old.dir (steps most self.old.dir)
            (S.reads site.old) (S.now site.old) (S.now site.new) (S.left site.old)
            (S.left site.new) }
        ensures bound { IfOk result
            (λ n. 0 < n → HasRoom self.old.store.log → IsBounded self.new.store
            (S.reads site.new)) }
        ensures tokens { self.new.tokens ≡ self.old.tokens }
        ensures unspent { self.new.spent ≡ self.old.spent }
        ensures faults { IsErrOf result EngineFault.Spent → ⊥ }
        ensures outside { TouchesSlots S.Site site.old site.new }
        ensures cause { IsErrOf result EngineFault.Site → HasRisen (S.slot_faults site.old)
            (S.slot_faults site.new) }
    {
        let mut batch = Batch::new(self.alloc);
        let n = make_steps(self.alloc, &mut self.dir, &mut batch, most)?;
        if n == 0 {
            return Ok(0);
        }
        let rows = batch.rows()?;
        self.store.commit(site, &rows)?;
        Ok(n)
    }

    /// At most so many steps, in one commit, after a snapshot where the store wants one. Fewer are made exactly where
    /// nothing is pending any more. Where none are made the site isn't touched.
    ///
    /// # Errors
    ///
    /// `Site` where the site failed, which its count tells. `Memory` where there is no memory. After a fault nothing is
    /// said of the directory; the store is to be opened again.
    pub fn settle_some<S: Site>(&mut self, site: &mut S, most: u32) -> Result<u32, EngineFault>
        requires { Stands self.old (S.reads site.old) (S.now site.old) (S.left site.old) }
        ensures stands { OnOk result
            (Stands self.new (S.reads site.new) (S.now site.new) (S.left site.new)) }
        ensures steps { IfOk result (λ n. AreSteps n self.old.dir self.new.dir) }
        ensures made { IfOk result (λ n. n ≡ steps_made most self.old.dir) }
        ensures end { OnOk result (self.new.dir ≡ steps most self.old.dir) }
        ensures empty { IfOk result (λ n. n < most → self.new.dir.pending ≡ []) }
        ensures untouched { steps_made most self.old.dir ≡ 0 → site.new ≡ site.old }
        ensures every_crash { IfOk result
            (λ n. 0 < n → LastsAs S.Site self.new.dir site.old site.new) }
        ensures any_moment { LeavesOldOrNew self.old.dir (steps most self.old.dir)
            (S.reads site.old) (S.now site.old) (S.now site.new) (S.left site.old)
            (S.left site.new) }
        ensures still { IfOk result (λ n. n ≡ 0 → self.new.store ≡ self.old.store) }
        ensures bound { IfOk result (λ n. 0 < n → IsBounded self.new.store (S.reads site.new)) }
        ensures tokens { self.new.tokens ≡ self.old.tokens }
        ensures unspent { self.new.spent ≡ self.old.spent }
        ensures faults { IsErrOf result EngineFault.Spent → ⊥ }
        ensures outside { TouchesSlots S.Site site.old site.new }
        ensures cause { IsErrOf result EngineFault.Site → HasRisen (S.slot_faults site.old)
            (S.slot_faults site.new) }
    {
        if !is_due(&self.dir, most) {
            return Ok(0);
        }
        self.make_room(site)?;
        self.commit_steps(site, most)
    }

    // Steps until nothing is pending.
    fn settle_all<S: Site>(&mut self, site: &mut S) -> Result<u64, EngineFault>
        requires { Stands self.old (S.reads site.old) (S.now site.old) (S.left site.old) }
        ensures stands { OnOk result
            (Stands self.new (S.reads site.new) (S.now site.new) (S.left site.new)) }
        ensures steps { IfOk result (λ n. AreSteps n self.old.dir self.new.dir) }
        ensures empty { OnOk result (self.new.dir.pending ≡ []) }
        ensures every_crash { IfOk result
            (λ n. 0 < n → LastsAs S.Site self.new.dir site.old site.new) }
        ensures bound { IfOk result (λ n. 0 < n → IsBounded self.new.store (S.reads site.new)) }
        ensures none { IfOk result (λ n. n ≡ 0 → site.new ≡ site.old) }
        ensures any_moment { LeavesSteps self.old.dir (S.reads site.old) (S.now site.old)
            (S.now site.new) (S.left site.old) (S.left site.new) }
        ensures tokens { self.new.tokens ≡ self.old.tokens }
        ensures unspent { self.new.spent ≡ self.old.spent }
        ensures faults { IsErrOf result EngineFault.Spent → ⊥ }
        ensures outside { TouchesSlots S.Site site.old site.new }
        ensures cause { IsErrOf result EngineFault.Site → HasRisen (S.slot_faults site.old)
            (S.slot_faults site.new) }
    {
        let mut total = 0;
        loop {
            let n = self.settle_some(site, MOST)?;
            if n == 0 {
                return Ok(total);
            }
            total += u64::from(n);
        }
    }

    /// Makes steps of propagation until nothing is pending, in commits of at most 1,000 steps, and answers how many
    /// there were. Before a commit the store is rewritten where it wants a snapshot. At each moment a crash leaves
    /// a store that represents the directory after some number of steps. Where nothing is pending the site isn't
    /// touched. The tokens stay as they are.
    ///
    /// # Errors
    ///
    /// `Spent` exactly where an earlier call on this engine answered a fault. `Site` where the site failed, which its
    /// count tells. `Memory` where there is no memory. After a fault nothing is said of the engine's directory; the
    /// store is to be opened again, and represents the directory after some number of steps.
    pub fn settle<S: Site>(&mut self, site: &mut S) -> Result<u64, EngineFault>
        requires { StandsIn self.old (S.reads site.old) (S.now site.old) (S.left site.old) }
        ensures settled { IfOk result
            (λ n. EmptiesAfter n self.old.dir × (self.new.dir ≡ steps n self.old.dir)) }
        ensures stands { StandsIn self.new (S.reads site.new) (S.now site.new) (S.left site.new) }
        ensures every_crash { IfOk result
            (λ n. 0 < n → LastsAs S.Site self.new.dir site.old site.new) }
        ensures bound { IfOk result (λ n. 0 < n → IsBounded self.new.store (S.reads site.new)) }
        ensures none { IfOk result (λ n. n ≡ 0 → site.new ≡ site.old) }
        ensures any_moment { LeavesSteps self.old.dir (S.reads site.old) (S.now site.old)
            (S.now site.new) (S.left site.old) (S.left site.new) }
        ensures tokens { self.new.tokens ≡ self.old.tokens }
        ensures spent { IsErrOf result EngineFault.Spent ↔ self.old.spent ≡ true }
        ensures marks { self.new.spent ≡ true ↔ IsErr result }
        ensures outside { TouchesSlots S.Site site.old site.new }
        ensures cause { IsErrOf result EngineFault.Site → HasRisen (S.slot_faults site.old)
            (S.slot_faults site.new) }
    {
        if self.spent {
            return Err(EngineFault::Spent);
        }
        self.spent = true;
        let total = self.settle_all(site)?;
        self.spent = false;
        Ok(total)
    }
}
