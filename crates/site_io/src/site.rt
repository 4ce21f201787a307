//! A site: two slots of bytes and an output.

ghost use Rattle.std.specs.Prelude.{◌≡◌, ℕ, List, ◌+◌, ◌^◌, ◌<◌, ◌≤◌, length, Option, Some, IfOk, OnOk, IfSome, IsErr};
ghost use Rattle.site_io.specs.Counts.{HasRisen};
ghost use Rattle.site_io.specs.Failing.{FailsAsTold};
ghost use Rattle.site_io.specs.Told.{BothTold, StaysTold, EmitsPrefix};
ghost use Rattle.site_io.specs.Disk.{Images, at_slot, WritesAt, ReadsAt, GoesOn, LeavesSame, LeavesAll, LeavesTorn};
ghost use Rattle.site_io.specs.Disk.{LeavesEmitted, LeavesHeld};

use crate::{Failed, Slot};

/// Two slots and an output. They are one trait, so that what was answered and what is kept can be compared at one
/// moment.
///
/// Offsets and lengths are in bytes. Each count of faults is a number of 64 bits that stays at its end.
///
/// What a crash may leave: between two syncs of a slot each written range, and all past the old end, may hold any
/// bytes, of any length; bytes elsewhere stay. After a sync that succeeded a crash leaves what a read gives. A
/// `length`, a `read_at` and a `sync` that fails leave what a crash may leave as it was. The output at the present
/// moment is what was emitted.
pub trait Site {
    /// The bytes that a read gives, where that is observable.
    ghost reads: { Self → Option Images };

    /// All that was emitted, where that is observable.
    ghost emitted: { Self → Option (List ℕ) };

    /// How often a call on a slot has failed.
    ghost slot_faults: { Self → ℕ };

    /// How often an `emit` has failed.
    ghost out_faults: { Self → ℕ };

    /// A moment, which never falls.
    ghost now: { Self → ℕ };

    /// What a crash at a moment may leave in the slots, when some bytes had been emitted.
    ghost left: { Self → ℕ → Images → List ℕ → Type 0 };

    /// The moments at which a call fails, where the site tells them beforehand.
    ghost fails: { Self → Option (List ℕ) };

    /// The length of a slot, at most 2^63.
    ///
    /// # Errors
    ///
    /// `Failed` where the site failed, which `slot_faults` tells.
    fn length(&mut self, slot: Slot) -> Result<u64, Failed>
        ensures held { IfOk result (λ n.
            IfSome (reads self.old) (λ held. n ≡ length (at_slot slot held))) }
        ensures bound { IfOk result (λ n. n ≤ 2 ^ 63) }
        ensures slots { StaysTold (reads self.old) (reads self.new) }
        ensures output { StaysTold (emitted self.old) (emitted self.new) }
        ensures moments { GoesOn (now self.old) (now self.new) (left self.old) (left self.new) }
        ensures images { LeavesSame (now self.old) (left self.old) (left self.new) }
        ensures same { LeavesAll (now self.old) (now self.new) (left self.old) (left self.new) }
        ensures never_falls { slot_faults self.old ≤ slot_faults self.new }
        ensures cause { IsErr result → HasRisen (slot_faults self.old) (slot_faults self.new) }
        ensures fails { FailsAsTold (fails self.old) (fails self.new) (now self.old) (now self.new)
            result ⊥ }
        ensures out_faults { out_faults self.new ≡ out_faults self.old };

    /// Reads from an offset in a slot into the first bytes of `into`, and answers how many bytes were read. For a
    /// nonempty `into`, 0 comes only at or past the end.
    ///
    /// # Errors
    ///
    /// `Failed` where the site failed, which `slot_faults` tells.
    fn read_at(&mut self, slot: Slot, at: u64, into: &mut [u8]) -> Result<usize, Failed>
        ensures held { IfOk result (λ n.
            IfSome (reads self.old) (λ held. ReadsAt at n into.new (at_slot slot held))) }
        ensures within { IfOk result (λ n. n ≤ length into.new) }
        ensures slots { StaysTold (reads self.old) (reads self.new) }
        ensures output { StaysTold (emitted self.old) (emitted self.new) }
        ensures moments { GoesOn (now self.old) (now self.new) (left self.old) (left self.new) }
        ensures images { LeavesSame (now self.old) (left self.old) (left self.new) }
        ensures same { LeavesAll (now self.old) (now self.new) (left self.old) (left self.new) }
        ensures never_falls { slot_faults self.old ≤ slot_faults self.new }
        ensures cause { IsErr result → HasRisen (slot_faults self.old) (slot_faults self.new) }
        ensures fails { FailsAsTold (fails self.old) (fails self.new) (now self.old) (now self.new)
            result ⊥ }
        ensures out_faults { out_faults self.new ≡ out_faults self.old };

    /// Writes bytes at an offset in a slot, which is at most its length where that is observable. One that succeeds
    /// ends at most at 2^63.
    ///
    /// # Errors
    ///
    /// `Failed` where the site failed, which `slot_faults` tells. Any part of the range may then have been written,
    /// and anything past the old end.
    fn write_at(&mut self, slot: Slot, at: u64, bytes: &[u8]) -> Result<(), Failed>
        requires { IfSome (reads self.old) (λ held. at ≤ length (at_slot slot held)) }
        ensures written { BothTold (reads self.old) (reads self.new)
            (WritesAt slot at bytes.now result) }
        ensures end { OnOk result (at + length bytes.now ≤ 2 ^ 63) }
        ensures output { StaysTold (emitted self.old) (emitted self.new) }
        ensures moments { GoesOn (now self.old) (now self.new) (left self.old) (left self.new) }
        ensures images { LeavesTorn slot at (length bytes.now) (now self.old) (left self.old)
            (left self.new) }
        ensures never_falls { slot_faults self.old ≤ slot_faults self.new }
        ensures cause { IsErr result → HasRisen (slot_faults self.old) (slot_faults self.new) }
        ensures fails { FailsAsTold (fails self.old) (fails self.new) (now self.old) (now self.new)
            result (2 ^ 63 < at + length bytes.now) }
        ensures out_faults { out_faults self.new ≡ out_faults self.old };

    /// Makes what was written to a slot last: a crash then leaves of it what a read gives.
    ///
    /// # Errors
    ///
    /// `Failed` where the site failed, which `slot_faults` tells.
    fn sync(&mut self, slot: Slot) -> Result<(), Failed>
        ensures lasts { OnOk result
            (LeavesHeld slot (reads self.new) (now self.new) (left self.new)) }
        ensures slots { StaysTold (reads self.old) (reads self.new) }
        ensures output { StaysTold (emitted self.old) (emitted self.new) }
        ensures moments { GoesOn (now self.old) (now self.new) (left self.old) (left self.new) }
        ensures images { LeavesSame (now self.old) (left self.old) (left self.new) }
        ensures failed { IsErr result → LeavesAll (now self.old) (now self.new) (left self.old)
            (left self.new) }
        ensures never_falls { slot_faults self.old ≤ slot_faults self.new }
        ensures cause { IsErr result → HasRisen (slot_faults self.old) (slot_faults self.new) }
        ensures fails { FailsAsTold (fails self.old) (fails self.new) (now self.old) (now self.new)
            result ⊥ }
        ensures out_faults { out_faults self.new ≡ out_faults self.old };

    /// Appends bytes to the output.
    ///
    /// # Errors
    ///
    /// `Failed` where the output failed, which `out_faults` tells. A prefix of the bytes was then emitted.
    fn emit(&mut self, bytes: &[u8]) -> Result<(), Failed>
        ensures output { EmitsPrefix (emitted self.old) (emitted self.new) result bytes.now }
        ensures slots { StaysTold (reads self.old) (reads self.new) }
        ensures moments { GoesOn (now self.old) (now self.new) (left self.old) (left self.new) }
        ensures images { LeavesEmitted bytes.now (now self.old) (left self.old) (left self.new) }
        ensures never_falls { out_faults self.old ≤ out_faults self.new }
        ensures cause { IsErr result → HasRisen (out_faults self.old) (out_faults self.new) }
        ensures fails { FailsAsTold (fails self.old) (fails self.new) (now self.old) (now self.new)
            result ⊥ }
        ensures slot_faults { slot_faults self.new ≡ slot_faults self.old };

    /// What a read gives now, with all that was emitted, is one of the outcomes of a crash now.
    ghost left_now: { (site : Self) (held : Images) (out : List ℕ) → reads site ≡ Some held
        → emitted site ≡ Some out → left site (now site) held out };

    /// Where the site tells what was emitted, a crash now leaves exactly that as output.
    ghost left_output: { (site : Self) (images : Images) (out said : List ℕ) → emitted site
        ≡ Some said → left site (now site) images out → out ≡ said };

    /// No moment after this one has come.
    ghost left_until: { (site : Self) (t : ℕ) (images : Images) (out : List ℕ)
        → left site t images out → t ≤ now site };
}
