//! Adding a record.

ghost use Rattle.std.specs.Prelude.{◌≡◌, ℕ, List, Bool, ◌+◌, ◌*◌, ◌^◌, ◌≤◌, ◌<◌, ◌++◌, ◌∷◌, [], length, IfSome, IfOk};
ghost use Rattle.std.specs.Prelude.{OnOk, IsErr};
ghost use Rattle.site_io.specs.Counts.{HasRisen};
ghost use Rattle.site_io.specs.Told.{BothTold, StaysTold};
ghost use Rattle.site_io.specs.Disk.{at_slot};
ghost use Rattle.gate_log.specs.Layout.{recorded, HasRecords};
ghost use Rattle.gate_log.specs.Moments.{Leaves, LastsWhole};
ghost use Rattle.site_io.specs.Outside.{TouchesSlots};
ghost use Rattle.gate_log.specs.Store.{HasBodies, OldOrNew, Rests};
ghost use Rattle.gate_log.specs.declared.version.Version.{Version};

use crate::step::set;
use site_io::{Failed, Site, Slot};
use std::alloc::{AllocError, Global};

// How many bytes stand about the body.
const LENGTH_AND_GATE: usize = 9;

/// The bytes of a record, and a closed gate after it.
pub(crate) fn record_of(alloc: Global, body: &[u8]) -> Result<Vec<u8>, AllocError>
    ensures { IfOk result (λ bytes. bytes.items ≡ recorded body.now ++ 0 ∷ []) }
{
    let mut bytes = Vec::with_capacity(alloc, body.len().saturating_add(LENGTH_AND_GATE))?;
    bytes.extend_from_slice(&(body.len() as u64).to_be_bytes())?;
    bytes.extend_from_slice(body)?;
    bytes.push(0)?;
    Ok(bytes)
}

/// Writes a record behind the closed gate that ends the live slot's records, and then opens that gate.
pub(crate) fn put_record<S: Site>(
    site: &mut S,
    live: Slot,
    end: u64,
    body: &[u8],
    bytes: &[u8],
) -> Result<(), Failed>
    requires spelled { bytes.now ≡ recorded body.now ++ 0 ∷ [] }
    requires small { end ≤ 2 ^ 63 }
    requires rests { IfSome (S.reads site.old)
        (λ held. (version generation : ℕ) × (bodies : List (List ℕ))
        × HasRecords (at_slot live held) version generation end bodies) }
    requires lasts { LastsWhole (S.reads site.old) (S.now site.old) (S.left site.old) }
    ensures added { OnOk result (BothTold (S.reads site.old) (S.reads site.new) (λ before after.
        (version : Version) (generation : ℕ) (is_open : Bool) (bodies : List (List ℕ))
        → Rests version live generation end is_open before bodies
        → Rests version live generation (end + 9 + length body.now) is_open after
        (bodies ++ body.now ∷ []))) }
    ensures any_moment { IfSome (S.reads site.old) (λ held.
        (version : Version) (generation : ℕ) (is_open : Bool) (bodies : List (List ℕ))
        → Rests version live generation end is_open held bodies
        → Leaves (S.now site.old) (S.now site.new) (S.left site.old) (S.left site.new)
        (OldOrNew bodies body.now)) }
    ensures lasts { OnOk result (LastsWhole (S.reads site.new) (S.now site.new) (S.left site.new)) }
    ensures end { OnOk result (end + 9 + length body.now < 2 ^ 63) }
    ensures outside { TouchesSlots S.Site site.old site.new }
    ensures cause { IsErr result → HasRisen (S.slot_faults site.old) (S.slot_faults site.new) }
{
    set(site, live, end + 1, bytes)?;
    set(site, live, end, &[1])
}
