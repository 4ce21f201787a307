//! Making a store.

ghost use Rattle.std.specs.Prelude.{◌≡◌, ◌⊎◌, ◌<◌, ◌≤◌, ◌^◌, ◌∷◌, [], false, length, drop, IfSome, IfOk};
ghost use Rattle.std.specs.Prelude.{OnOk, IsErr, MatchBool};
ghost use Rattle.site_io.specs.Counts.{HasRisen};
ghost use Rattle.site_io.specs.declared.slot.Slot.TheVariants.{A};
ghost use Rattle.gate_log.specs.Layout.{snapshot, snapshot_end};
ghost use Rattle.gate_log.specs.Moments.{LastsWhole};
ghost use Rattle.site_io.specs.Outside.{OnlyLooks, TouchesSlots};
ghost use Rattle.gate_log.specs.Store.{IsClosed, Rests};
ghost use Rattle.gate_log.specs.declared.version.Version.TheVariants.{Two};

use crate::layout::snapshot_end;
use crate::rewrite::{body_in, headed, snapshot_of};
use crate::step::set;
use crate::version::Version;
use crate::{Log, LogFault};
use site_io::{Failed, Site, Slot};
use std::alloc::Global;

/// The first part: both slots get a closed gate. Until then a crash may leave anything in them.
pub(crate) fn clear<S: Site>(site: &mut S) -> Result<(), Failed>
    ensures closed { OnOk result (IfSome (S.reads site.new)
        (λ held. IsClosed held.a × IsClosed held.b)) }
    ensures lasts { OnOk result (LastsWhole (S.reads site.new) (S.now site.new) (S.left site.new)) }
    ensures outside { TouchesSlots S.Site site.old site.new }
    ensures cause { IsErr result → HasRisen (S.slot_faults site.old) (S.slot_faults site.new) }
{
    set(site, Slot::B, 0, &[0])?;
    set(site, Slot::A, 0, &[0])
}

/// The second part: slot A gets its body behind the closed gate, which is then opened.
pub(crate) fn fill<S: Site>(site: &mut S, body: &[u8], bytes: &[u8]) -> Result<(), Failed>
    requires spelled { bytes.now ≡ snapshot 1 body.now }
    requires closed { IfSome (S.reads site.old) (λ held. IsClosed held.a × IsClosed held.b) }
    requires lasts { LastsWhole (S.reads site.old) (S.now site.old) (S.left site.old) }
    ensures made { OnOk result (IfSome (S.reads site.new)
        (λ held. Rests Two A 1 (snapshot_end body.now) false held (body.now ∷ []))) }
    ensures lasts { OnOk result (LastsWhole (S.reads site.new) (S.now site.new) (S.left site.new)) }
    ensures small { OnOk result (snapshot_end body.now ≤ 2 ^ 63) }
    ensures outside { TouchesSlots S.Site site.old site.new }
    ensures cause { IsErr result → HasRisen (S.slot_faults site.old) (S.slot_faults site.new) }
{
    set(site, Slot::A, 1, bytes)?;
    set(site, Slot::A, 0, &[1])
}

impl Log {
    ghost use Rattle.gate_log.specs.Created.{IsBegun, IsCreated};

    /// Makes a store of one body in two empty slots. At Ok each crash from then on leaves a store that has that
    /// body alone. A crash before that may leave anything in the slots.
    ///
    /// # Errors
    ///
    /// `Taken` where a slot isn't empty, and `Memory` where there is no memory, before anything is written. `Site`
    /// where the site failed, which its count tells.
    pub fn create<S: Site>(alloc: Global, site: &mut S, body: &[u8]) -> Result<Log, LogFault>
        ensures { IsCreated S.Site site.old site.new body.now result }
    {
        if !are_empty(site)? {
            return Err(LogFault::Taken);
        }
        let bytes = snapshot_of(alloc, 1, body)?;
        Ok(Log::begin(alloc, site, body, &bytes)?)
    }

    /// The same, of a body that is not copied: the bytes after the first [`ROOM`](crate::ROOM), whatever these are.
    ///
    /// # Errors
    ///
    /// Those of [`create`](Log::create).
    pub fn create_in<S: Site>(alloc: Global, site: &mut S, bytes: Vec<u8>) -> Result<Log, LogFault>
        requires { 22 ≤ length bytes.items }
        ensures { IsCreated S.Site site.old site.new (drop 22 bytes.items) result }
    {
        if !are_empty(site)? {
            return Err(LogFault::Taken);
        }
        let whole = headed(alloc, 1, bytes)?;
        Ok(Log::begin(alloc, site, body_in(&whole), &whole)?)
    }

    // Makes a store in two slots, whatever they hold. The bytes are those of a slot with this body behind its gate.
    fn begin<S: Site>(alloc: Global, site: &mut S, body: &[u8], bytes: &[u8]) -> Result<Log, Failed>
        requires { bytes.now ≡ snapshot 1 body.now }
        ensures { IsBegun S.Site site.old site.new body.now result }
    {
        clear(site)?;
        fill(site, body, bytes)?;
        let length = body.len() as u64;
        Ok(Log {
            alloc,
            version: Version::Two,
            live: Slot::A,
            generation: 1,
            end: snapshot_end(length),
            first: Some(length),
            behind: 0,
            other_open: false,
            settled: true,
            spent: false,
        })
    }
}

// Whether both slots are empty.
fn are_empty<S: Site>(site: &mut S) -> Result<bool, Failed>
    ensures empty { IfOk result (λ empty. IfSome (S.reads site.old)
        (λ held. MatchBool empty ((length held.a ≡ 0) × (length held.b ≡ 0))
        ((0 < length held.a) ⊎ (0 < length held.b)))) }
    ensures outside { OnlyLooks S.Site site.old site.new }
    ensures cause { IsErr result → HasRisen (S.slot_faults site.old) (S.slot_faults site.new) }
{
    let a = site.length(Slot::A)?;
    let b = site.length(Slot::B)?;
    Ok(a == 0 && b == 0)
}
