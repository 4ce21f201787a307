//! A log of bodies in two slots.

ghost use Rattle.std.specs.Prelude.{◌≡◌, ◌⊎◌, ◌^◌, ◌++◌, ◌∷◌, [], List, ℕ, ◌+◌, ◌<◌, length, true, false, ◌≤◌};
ghost use Rattle.std.specs.Prelude.{drop};
ghost use Rattle.std.specs.Prelude.{IfSome, OnOk, IsErr, unwrap_or};
ghost use Rattle.gate_log.specs.Counts.{Counts, first_with, behind_with};
ghost use Rattle.gate_log.specs.declared.version.Version.TheVariants.{One, Two};

use crate::LogFault;
use crate::append::{put_record, record_of};
use crate::layout::{RECORD, snapshot_end};
use crate::rewrite::{body_in, headed, is_second, other_of, prepare, snapshot_of, switch};
use crate::step::settle;
use crate::version::Version;
use site_io::{Failed, Site, Slot};
use std::alloc::Global;

/// A log of bodies in the two slots of a site. It holds no body, but the offset of the next record.
///
/// Each call on it is to be made over the site with which the log was made, whose slots no one else has changed
/// since.
#[derive(Debug, Drop)]
pub struct Log {
    pub(crate) alloc: Global,
    pub(crate) version: Version,
    pub(crate) live: Slot,
    pub(crate) generation: u64,
    pub(crate) end: u64,
    pub(crate) first: Option<u64>,
    pub(crate) behind: u64,
    pub(crate) other_open: bool,
    pub(crate) settled: bool,
    pub(crate) spent: bool,
    pub(crate) ghost end_within: { end ≤ 2 ^ 63 },
    pub(crate) ghost behind_within: { behind ≤ end },
    pub(crate) ghost generation_above: { 0 < generation },
    pub(crate) ghost one_is_first: { version ≡ One → generation ≡ 1 },
}

impl Log {
    ghost use Rattle.site_io.specs.Counts.{HasRisen};
    ghost use Rattle.site_io.specs.Told.{BothTold};
    ghost use Rattle.gate_log.specs.Changed.{IsAppended, IsRewritten, IsSynced};
    ghost use Rattle.gate_log.specs.Moments.{Leaves, LastsWhole, Began};
    ghost use Rattle.site_io.specs.Outside.{TouchesSlots};
    ghost use Rattle.gate_log.specs.Store.{number_of, OldOrNew, OldOrWhole};
    ghost use Rattle.gate_log.specs.StoreOfLog.{RestsIn, StandsIn};
    ghost use Rattle.gate_log.specs.Layout.{recorded, snapshot};

    /// The length of the first body in bytes, or 0 where there is none.
    pub fn first(&self) -> u64
        ensures { result ≡ unwrap_or self.now.first 0 }
    {
        self.first.unwrap_or(0)
    }

    /// The length in bytes of all bodies after the first.
    pub fn behind(&self) -> u64
        ensures { result ≡ self.now.behind }
    {
        self.behind
    }

    /// The version of the store, 1 or 2.
    pub fn version(&self) -> u8
        ensures { result ≡ number_of self.now.version }
    {
        self.version.number()
    }

    /// The generation of the live slot, from 1 on.
    pub fn generation(&self) -> u64
        ensures { result ≡ self.now.generation }
    {
        self.generation
    }

    /// Whether an earlier call on this log answered `Site`: each later one then answers `Spent`.
    pub fn is_spent(&self) -> bool
        ensures { result ≡ self.now.spent }
    {
        self.spent
    }

    /// Syncs both slots, where that isn't done yet: what a read gives may not last as a log is opened. At Ok a
    /// crash leaves exactly what the slots hold, and the next call that writes needs no barrier of its own. It
    /// writes no slot.
    ///
    /// # Errors
    ///
    /// `Site` where the site failed, which its count tells; from then on this log answers `Spent` alone, since a
    /// sync that follows one that failed may tell of bytes that were dropped. A crash leaves what it could leave
    /// before.
    pub fn sync<S: Site>(&mut self, site: &mut S) -> Result<(), LogFault>
        requires { StandsIn self.old (S.reads site.old) (S.now site.old) (S.left site.old) }
        ensures { IsSynced S.Site site.old site.new self.old self.new result }
    {
        if self.spent {
            return Err(LogFault::Spent);
        }
        if settle(site, self.settled).is_err() {
            self.spent = true;
            return Err(LogFault::Site);
        }
        self.settled = true;
        Ok(())
    }

    /// Adds a body after the others. At Ok each crash from then on leaves a store that has it.
    ///
    /// # Errors
    ///
    /// `Site` where the site failed, which its count tells; from then on this log answers `Spent` alone, and the
    /// store is to be opened again: it has the bodies from before, with the new one or without. `Memory` where
    /// there is no memory, before anything is written.
    pub fn append<S: Site>(&mut self, site: &mut S, body: &[u8]) -> Result<(), LogFault>
        requires { StandsIn self.old (S.reads site.old) (S.now site.old) (S.left site.old) }
        ensures { IsAppended S.Site site.old site.new self.old self.new body.now result }
    {
        if self.spent {
            return Err(LogFault::Spent);
        }
        let bytes = record_of(self.alloc, body)?;
        if self.add(site, body, &bytes).is_err() {
            self.spent = true;
            return Err(LogFault::Site);
        }
        Ok(())
    }

    // Adds a record. The log is then settled.
    fn add<S: Site>(&mut self, site: &mut S, body: &[u8], bytes: &[u8]) -> Result<(), Failed>
        requires stands { StandsIn self.old (S.reads site.old) (S.now site.old) (S.left site.old) }
        requires unspent { self.old.spent ≡ false }
        requires spelled { bytes.now ≡ recorded body.now ++ 0 ∷ [] }
        ensures added { OnOk result (BothTold (S.reads site.old) (S.reads site.new) (λ before after.
            (bodies : List (List ℕ)) → RestsIn self.old before bodies
            → RestsIn self.new after (bodies ++ body.now ∷ []))) }
        ensures any_moment { IfSome (S.reads site.old)
            (λ held. (bodies : List (List ℕ)) → RestsIn self.old held bodies
            → Leaves (S.now site.old) (S.now site.new) (S.left site.old) (S.left site.new)
            (λ images. Began (S.now site.old) (S.left site.old) images ⊎ OldOrNew bodies body.now
            images)) }
        ensures lasts { OnOk result
            (LastsWhole (S.reads site.new) (S.now site.new) (S.left site.new)) }
        ensures counts { OnOk result ((self.new.first ≡ first_with self.old.first (length body.now))
            × (self.new.behind ≡ behind_with self.old.first self.old.behind (length body.now))) }
        ensures kept { IsErr result → (self.new.first ≡ self.old.first)
            × (self.new.behind ≡ self.old.behind) }
        ensures generation { self.new.generation ≡ self.old.generation }
        ensures version { self.new.version ≡ self.old.version }
        ensures spent { self.new.spent ≡ self.old.spent }
        ensures outside { TouchesSlots S.Site site.old site.new }
        ensures cause { IsErr result → HasRisen (S.slot_faults site.old) (S.slot_faults site.new) }
    {
        settle(site, self.settled)?;
        put_record(site, self.live, self.end, body, bytes)?;
        let length = body.len() as u64;
        self.settled = true;
        self.end += RECORD as u64 + length;
        let (first, behind) = counts_with(self.first, self.behind, length);
        self.first = first;
        self.behind = behind;
        Ok(())
    }

    /// Puts one body in the place of all, in the slot that isn't live. A store of version 1 becomes one of version
    /// 2. At Ok each crash from then on leaves a store that has that body alone.
    ///
    /// # Errors
    ///
    /// `Site` where the site failed, which its count tells; from then on this log answers `Spent` alone, and the
    /// store is to be opened again: it has the bodies from before, or the one new body. `Memory` where there is no
    /// memory, before anything is written.
    pub fn rewrite<S: Site>(&mut self, site: &mut S, body: &[u8]) -> Result<(), LogFault>
        requires stands { StandsIn self.old (S.reads site.old) (S.now site.old) (S.left site.old) }
        requires below { self.old.generation + 1 < 2 ^ 64 }
        ensures { IsRewritten S.Site site.old site.new self.old self.new body.now result }
    {
        if self.spent {
            return Err(LogFault::Spent);
        }
        let bytes = snapshot_of(self.alloc, self.generation + 1, body)?;
        if self.replace(site, body, &bytes).is_err() {
            self.spent = true;
            return Err(LogFault::Site);
        }
        Ok(())
    }

    /// The same, of a body that is not copied: the bytes after the first [`ROOM`](crate::ROOM), whatever these are.
    ///
    /// # Errors
    ///
    /// Those of [`rewrite`](Log::rewrite).
    pub fn rewrite_in<S: Site>(&mut self, site: &mut S, bytes: Vec<u8>) -> Result<(), LogFault>
        requires room { 22 ≤ length bytes.items }
        requires stands { StandsIn self.old (S.reads site.old) (S.now site.old) (S.left site.old) }
        requires below { self.old.generation + 1 < 2 ^ 64 }
        ensures { IsRewritten S.Site site.old site.new self.old self.new (drop 22 bytes.items)
            result }
    {
        if self.spent {
            return Err(LogFault::Spent);
        }
        let whole = headed(self.alloc, self.generation + 1, bytes)?;
        if self.replace(site, body_in(&whole), &whole).is_err() {
            self.spent = true;
            return Err(LogFault::Site);
        }
        Ok(())
    }

    // Puts one body in the place of all. The log is then settled.
    fn replace<S: Site>(&mut self, site: &mut S, body: &[u8], bytes: &[u8]) -> Result<(), Failed>
        requires stands { StandsIn self.old (S.reads site.old) (S.now site.old) (S.left site.old) }
        requires unspent { self.old.spent ≡ false }
        requires below { self.old.generation + 1 < 2 ^ 64 }
        requires spelled { bytes.now ≡ snapshot (self.old.generation + 1) body.now }
        ensures rewritten { OnOk result
            (BothTold (S.reads site.old) (S.reads site.new) (λ before after.
            (bodies : List (List ℕ)) → RestsIn self.old before bodies
            → RestsIn self.new after (body.now ∷ []))) }
        ensures any_moment { IfSome (S.reads site.old)
            (λ held. (bodies : List (List ℕ)) → RestsIn self.old held bodies
            → Leaves (S.now site.old) (S.now site.new) (S.left site.old) (S.left site.new)
            (λ images. Began (S.now site.old) (S.left site.old) images ⊎ OldOrWhole bodies body.now
            images)) }
        ensures lasts { OnOk result
            (LastsWhole (S.reads site.new) (S.now site.new) (S.left site.new)) }
        ensures counts { OnOk result
            ((self.new.first ≡ Some (length body.now)) × (self.new.behind ≡ 0)) }
        ensures kept { IsErr result → (self.new.first ≡ self.old.first)
            × (self.new.behind ≡ self.old.behind) }
        ensures generation { OnOk result (self.new.generation ≡ self.old.generation + 1) }
        ensures version { OnOk result (self.new.version ≡ Two) }
        ensures spent { self.new.spent ≡ self.old.spent }
        ensures outside { TouchesSlots S.Site site.old site.new }
        ensures cause { IsErr result → HasRisen (S.slot_faults site.old) (S.slot_faults site.new) }
    {
        settle(site, self.settled)?;
        prepare(
            site,
            self.version,
            self.live,
            self.generation,
            self.other_open,
            body,
            bytes,
        )?;
        switch(site, self.version, self.live, self.generation, body)?;
        let length = body.len() as u64;
        self.other_open = is_second(self.version);
        self.version = Version::Two;
        self.live = other_of(self.live);
        self.generation += 1;
        self.end = snapshot_end(length);
        self.first = Some(length);
        self.behind = 0;
        self.settled = true;
        Ok(())
    }
}

// One body more: the length of the first, and that of those after it.
pub(crate) fn counts_with(first: Option<u64>, behind: u64, more: u64) -> (Option<u64>, u64)
    requires { behind + more < 2 ^ 64 }
    ensures counts { (bodies : List (List ℕ)) (body : List ℕ) → more ≡ length body
        → Counts first behind bodies
        → Counts result.0 result.1 (bodies ++ body ∷ []) }
    ensures exact { (result.0 ≡ first_with first more)
        × (result.1 ≡ behind_with first behind more) }
    ensures within { result.1 ≤ behind + more }
{
    match first {
        None => (Some(more), behind),
        Some(_) => (first, behind + more),
    }
}
