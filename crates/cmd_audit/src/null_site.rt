//! Slots that keep nothing.

ghost use Rattle.std.specs.Prelude.{◌≡◌, None};

use site_io::{Failed, Site, Slot};

const LONGEST: u64 = 1 << 63;

/// A site whose slots and output keep nothing, and whose content isn't observable: what an engine stands over that
/// makes changes in memory alone. A write that would end past 2^63 fails, and no other call does.
#[derive(Drop)]
pub struct NullSite {
    slot_faults: u64,
}

impl NullSite {
    /// The site, with no fault.
    pub fn new() -> NullSite
        ensures { result.slot_faults ≡ 0 }
    {
        NullSite { slot_faults: 0 }
    }
}

impl Site for NullSite {
    ghost reads = { λ _. None };

    ghost emitted = { λ _. None };

    ghost slot_faults = { λ s. s.slot_faults };

    ghost out_faults = { λ _. 0 };

    ghost now = { λ _. 0 };

    ghost left = { λ _ _ _ _. ⊥ };

    ghost fails = { λ _. None };

    ghost left_now = { λ _ _ _ untold _. Prim.cc untold };

    ghost left_output = { λ _ _ _ _ untold _. Prim.cc untold };

    ghost left_until = { λ _ _ _ _ left. absurd left };

    fn length(&mut self, _slot: Slot) -> Result<u64, Failed> {
        Ok(0)
    }

    fn read_at(&mut self, _slot: Slot, _at: u64, _into: &mut [u8]) -> Result<usize, Failed> {
        Ok(0)
    }

    fn write_at(&mut self, _slot: Slot, at: u64, bytes: &[u8]) -> Result<(), Failed> {
        if at > LONGEST || bytes.len() as u64 > LONGEST - at {
            self.slot_faults = self.slot_faults.saturating_add(1);
            return Err(Failed);
        }
        Ok(())
    }

    fn sync(&mut self, _slot: Slot) -> Result<(), Failed> {
        Ok(())
    }

    fn emit(&mut self, _bytes: &[u8]) -> Result<(), Failed> {
        Ok(())
    }
}
