//! The steps that each change of a store is made of.

ghost use Rattle.std.specs.Prelude.{◌≡◌, ◌+◌, ◌^◌, ◌≤◌, length, IfSome, OnOk, IsErr, true};
ghost use Rattle.site_io.specs.Counts.{HasRisen};
ghost use Rattle.site_io.specs.Told.{BothTold, StaysTold};
ghost use Rattle.site_io.specs.Disk.{at_slot, GoesOn, LeavesSame, LeavesTorn, LeavesHeld};
ghost use Rattle.site_io.specs.Outside.{OnlyLooks, TouchesSlots};
ghost use Rattle.gate_log.specs.Steps.{Puts};
ghost use Rattle.gate_log.specs.Store.{other};
ghost use Rattle.gate_log.specs.Moments.{LastsWhole};
ghost use Rattle.site_io.specs.declared.slot.Slot.TheVariants.{A, B};

use site_io::{Failed, Site, Slot};

/// Writes bytes at a place in a slot, and syncs the slot.
pub(crate) fn set<S: Site>(site: &mut S, slot: Slot, at: u64, bytes: &[u8]) -> Result<(), Failed>
    requires { IfSome (S.reads site.old) (λ held. at ≤ length (at_slot slot held)) }
    ensures held { OnOk result (BothTold (S.reads site.old) (S.reads site.new)
        (Puts slot at bytes.now)) }
    ensures end { OnOk result (at + length bytes.now ≤ 2 ^ 63) }
    ensures images { LeavesTorn slot at (length bytes.now) (S.now site.old) (S.left site.old)
        (S.left site.new) }
    ensures lasts { OnOk result (LeavesHeld slot (S.reads site.new) (S.now site.new)
        (S.left site.new)) }
    ensures others { OnOk result (LeavesHeld (other slot) (S.reads site.old) (S.now site.old)
        (S.left site.old)
        → LeavesHeld (other slot) (S.reads site.new) (S.now site.new) (S.left site.new)) }
    ensures outside { TouchesSlots S.Site site.old site.new }
    ensures cause { IsErr result → HasRisen (S.slot_faults site.old) (S.slot_faults site.new) }
{
    site.write_at(slot, at, bytes)?;
    site.sync(slot)
}

/// Syncs both slots, since what a read gives may not last yet.
pub(crate) fn barrier<S: Site>(site: &mut S) -> Result<(), Failed>
    ensures lasts_a { OnOk result (LeavesHeld A (S.reads site.new) (S.now site.new)
        (S.left site.new)) }
    ensures lasts_b { OnOk result (LeavesHeld B (S.reads site.new) (S.now site.new)
        (S.left site.new)) }
    ensures outside { OnlyLooks S.Site site.old site.new }
    ensures cause { IsErr result → HasRisen (S.slot_faults site.old) (S.slot_faults site.new) }
{
    site.sync(Slot::A)?;
    site.sync(Slot::B)
}

/// Syncs both slots of a store that isn't settled.
pub(crate) fn settle<S: Site>(site: &mut S, settled: bool) -> Result<(), Failed>
    ensures lasts { OnOk result ((settled ≡ true → LastsWhole (S.reads site.old) (S.now site.old)
        (S.left site.old))
        → LastsWhole (S.reads site.new) (S.now site.new) (S.left site.new)) }
    ensures outside { OnlyLooks S.Site site.old site.new }
    ensures cause { IsErr result → HasRisen (S.slot_faults site.old) (S.slot_faults site.new) }
{
    if settled {
        return Ok(());
    }
    barrier(site)
}
