//! A site in memory, for tests.

ghost use Rattle.std.specs.Prelude.{◌≡◌, ◌↔◌, ◌≤◌, ℕ, List, Some, [], Contains, MatchBool, IfOk, length};
ghost use Rattle.site_io.specs.Crashed.{Crashes};
ghost use Rattle.site_io.specs.Disk.{Images, ReadsAt, images_of};
ghost use Rattle.site_io.specs.MemDisk.{held_in, left_in};
ghost use Rattle.site_io.specs.MemDiskLeft.{left_in_now, output_left};

use crate::call::is_among;
use crate::crash::{image_of, said};
use crate::mem_disk::MemDisk;
use crate::{Crash, Failed, Site, Slot};
use std::alloc::{AllocError, Global};

const LONGEST: usize = 1 << 63;

/// A site in memory. It tells all, and fails at the calls that it was given. It keeps a record of its calls, so
/// that one can see what a crash after each of them leaves. A call for which there is no memory fails, and isn't in
/// the record; no other call fails, but a write that would end past 2^63.
#[derive(Drop)]
pub struct MemSite {
    alloc: Global,
    disk: MemDisk,
    fail: Vec<u32>,
    slot_faults: u64,
    out_faults: u64,
}

impl MemSite {
    /// A site whose slots hold these bytes. The calls whose numbers, from 0, are in `fail` fail.
    ///
    /// # Errors
    ///
    /// `AllocError` where there is no memory.
    pub fn new(alloc: Global, a: &[u8], b: &[u8], fail: &[u32]) -> Result<MemSite, AllocError>
        ensures reads { IfOk result
            (λ site. ⟦<MemSite as Site>⟧.reads site ≡ Some (images_of a.now b.now)) }
        ensures output { IfOk result (λ site. ⟦<MemSite as Site>⟧.emitted site ≡ Some []) }
        ensures slot_faults { IfOk result (λ site. ⟦<MemSite as Site>⟧.slot_faults site ≡ 0) }
        ensures out_faults { IfOk result (λ site. ⟦<MemSite as Site>⟧.out_faults site ≡ 0) }
        ensures moment { IfOk result (λ site. ⟦<MemSite as Site>⟧.now site ≡ 0) }
        ensures left { IfOk result (λ site. (images : Images) (out : List ℕ)
            → ⟦<MemSite as Site>⟧.left site 0 images out ↔ (images ≡ images_of a.now b.now)
            × (out ≡ [])) }
        ensures fails { IfOk result (λ site. ⟦<MemSite as Site>⟧.fails site ≡ Some fail.now) }
    {
        Ok(MemSite {
            alloc,
            disk: MemDisk::new(alloc, a, b)?,
            fail: fail.to_vec(alloc)?,
            slot_faults: 0,
            out_faults: 0,
        })
    }

    /// All that was emitted.
    pub fn output(&self) -> &[u8]
        ensures { ⟦<MemSite as Site>⟧.emitted self.now ≡ Some result.now }
    {
        &self.disk.out
    }

    /// How many calls are in the record.
    pub fn calls(&self) -> u32
        ensures { result ≡ ⟦<MemSite as Site>⟧.now self.now }
    {
        self.disk.done.len() as u32
    }

    /// What a crash after the first `calls` calls leaves: of each slot what stood at its last successful sync among
    /// them, with the first `kept` bytes of its later writes, in order, and what these calls emitted.
    ///
    /// # Errors
    ///
    /// `AllocError` where there is no memory.
    pub fn crash(&self, alloc: Global, calls: u32, kept: u32) -> Result<Crash, AllocError>
        requires { calls ≤ ⟦<MemSite as Site>⟧.now self.now }
        ensures exact { IfOk result (λ crash. Crashes self.now calls kept crash) }
        ensures left { IfOk result (λ crash. ⟦<MemSite as Site>⟧.left self.now calls
            (images_of crash.a.items crash.b.items) crash.out.items) }
    {
        let disk = &self.disk;
        let calls = &disk.done[..calls as usize];
        Ok(Crash {
            a: image_of(alloc, Slot::A, &disk.first_a, calls, kept)?,
            b: image_of(alloc, Slot::B, &disk.first_b, calls, kept)?,
            out: said(alloc, calls)?,
        })
    }

    // Whether the next call is one of those that fail.
    fn refuses(&self) -> bool
        ensures { MatchBool result (Contains self.now.fail.items (length self.now.disk.done.items))
            (¬ Contains self.now.fail.items (length self.now.disk.done.items)) }
    {
        is_among(&self.fail, self.calls())
    }
}

impl Site for MemSite {
    ghost reads = { λ s. Some (held_in s.disk) };

    ghost emitted = { λ s. Some s.disk.out.items };

    ghost slot_faults = { λ s. s.slot_faults };

    ghost out_faults = { λ s. s.out_faults };

    ghost now = { λ s. length s.disk.done.items };

    ghost left = { λ s. left_in s.disk };

    ghost fails = { λ s. Some s.fail.items };

    ghost left_now = { λ s. left_in_now s.disk };

    ghost left_output = { λ s. output_left s.disk };

    ghost left_until = { λ _ _ _ _ left. left.so_many };

    fn length(&mut self, slot: Slot) -> Result<u64, Failed> {
        let refused = self.refuses();
        let done = self.disk.pass();
        let length = match slot {
            Slot::A => self.disk.a.len(),
            Slot::B => self.disk.b.len(),
        };
        if refused || !done {
            self.slot_faults = self.slot_faults.saturating_add(1);
            return Err(Failed);
        }
        Ok(length as u64)
    }

    fn read_at(&mut self, slot: Slot, at: u64, into: &mut [u8]) -> Result<usize, Failed> {
        let refused = self.refuses();
        if !self.disk.pass() || refused {
            self.slot_faults = self.slot_faults.saturating_add(1);
            return Err(Failed);
        }
        Ok(match slot {
            Slot::A => read_from(&self.disk.a, at as usize, into),
            Slot::B => read_from(&self.disk.b, at as usize, into),
        })
    }

    fn write_at(&mut self, slot: Slot, at: u64, bytes: &[u8]) -> Result<(), Failed> {
        let at = at as usize;
        if self.refuses() || at > LONGEST || bytes.len() > LONGEST - at {
            let _ = self.disk.pass();
            self.slot_faults = self.slot_faults.saturating_add(1);
            return Err(Failed);
        }
        if !self.disk.write(self.alloc, slot, at, bytes) {
            self.slot_faults = self.slot_faults.saturating_add(1);
            return Err(Failed);
        }
        Ok(())
    }

    fn sync(&mut self, slot: Slot) -> Result<(), Failed> {
        if self.refuses() {
            let _ = self.disk.pass();
            self.slot_faults = self.slot_faults.saturating_add(1);
            return Err(Failed);
        }
        if !self.disk.sync(slot) {
            self.slot_faults = self.slot_faults.saturating_add(1);
            return Err(Failed);
        }
        Ok(())
    }

    fn emit(&mut self, bytes: &[u8]) -> Result<(), Failed> {
        if self.refuses() {
            let _ = self.disk.pass();
            self.out_faults = self.out_faults.saturating_add(1);
            return Err(Failed);
        }
        if !self.disk.emit(self.alloc, bytes) {
            self.out_faults = self.out_faults.saturating_add(1);
            return Err(Failed);
        }
        Ok(())
    }
}

// Reads from an offset in what a slot holds.
fn read_from(held: &[u8], at: usize, into: &mut [u8]) -> usize
    ensures read { ReadsAt at result into.new held.now }
    ensures within { result ≤ length into.new }
{
    let from = at.min(held.len());
    let n = into.len().min(held.len() - from);
    into[..n].copy_from_slice(&held[from..from + n]);
    n
}
