//! Opening a store.

ghost use Rattle.std.specs.Prelude.{◌≡◌, ◌≤◌, ◌<◌, ◌^◌, ◌⊎◌, ℕ, List, false, true, length, drop};
ghost use Rattle.std.specs.Prelude.{IfOk, IsErr, IsErrOf, MatchOption, MatchBool};
ghost use Rattle.site_io.specs.Disk.{Images, at_slot, images_of};
ghost use Rattle.site_io.specs.declared.slot.Slot.TheVariants.{A, B};
ghost use Rattle.gate_log.specs.Counts.{Counts};
ghost use Rattle.gate_log.specs.Faults.{OnlyBroken};
ghost use Rattle.gate_log.specs.Layout.{opened, HasRecords};
ghost use Rattle.gate_log.specs.Reading.{bodies_of, AreHeads, IsLive, IsNewer, IsOpened, IsSlotOfTwo};
ghost use Rattle.gate_log.specs.Resumed.{IsResumed};
ghost use Rattle.gate_log.specs.Store.{other, number_of, HasBodiesTwo, IsClosed};
ghost use Rattle.gate_log.specs.Store.{IsEmptyStore, IsOne, IsOpen, OtherRests};
ghost use Rattle.gate_log.specs.declared.version.Version.TheVariants.{One, Two};

use crate::layout::RECORDS;
use crate::part::Part;
use crate::read::{head_of, read_slot, records_of};
use crate::version::Version;
use crate::{Log, LogFault};
use site_io::{Site, Slot, read_full};
use std::alloc::{AllocError, Global};

impl Log {
    /// Opens a store, and gives its bodies in order. It writes no slot. Of the slot that isn't live it reads no
    /// more than the head.
    ///
    /// # Errors
    ///
    /// `Empty` where neither slot is open, and `Broken` where one is open and the slots represent no bodies. `Site`
    /// where the site failed, which its count tells, and `Memory` where there is no memory.
    pub fn resume<S: Site>(alloc: Global, site: &mut S) -> Result<(Log, Vec<Vec<u8>>), LogFault>
        ensures { IsResumed S.Site site.old site.new result (λ copies. bodies_of copies.items) }
    {
        let mut room = Vec::new(alloc);
        let (log, bodies) = Log::resume_in(alloc, site, &mut room)?;
        let copies = copies_of(alloc, bodies.as_slice())?;
        Ok((log, copies))
    }

    /// Opens a store, and gives its bodies in order, where they lie: the bytes of the live slot are read into the
    /// room. It writes no slot. Of the slot that isn't live it reads no more than the head.
    ///
    /// # Errors
    ///
    /// `Empty` where neither slot is open, and `Broken` where one is open and the slots represent no bodies. `Site`
    /// where the site failed, which its count tells, and `Memory` where there is no memory.
    pub fn resume_in<'a, S: Site>(
        alloc: Global,
        site: &mut S,
        room: &'a mut Vec<u8>,
    ) -> Result<(Log, Vec<Part<'a>>), LogFault>
        ensures { IsResumed S.Site site.old site.new result (λ parts. parts.items) }
    {
        let mut a = [0u8; RECORDS];
        let in_a = read_full(site, Slot::A, 0, &mut a)?;
        if is_of_version_one(&a[..in_a]) {
            return open(alloc, site, room, Version::One, Slot::A, 1, false);
        }
        let mut b = [0u8; RECORDS];
        let in_b = read_full(site, Slot::B, 0, &mut b)?;
        let live = live_of(&a[..in_a], &b[..in_b])?;
        open(
            alloc,
            site,
            room,
            Version::Two,
            live.slot,
            live.generation,
            live.other_open,
        )
    }
}

// Copies of bodies.
fn copies_of(alloc: Global, bodies: &[Part<'_>]) -> Result<Vec<Vec<u8>>, AllocError>
    ensures { IfOk result (λ copies. bodies_of copies.items ≡ bodies.now) }
{
    let mut copies = Vec::with_capacity(alloc, bodies.len())?;
    for body in bodies {
        let copy = body.copy(alloc)?;
        copies.push(copy)?;
    }
    Ok(copies)
}

// Whether slot A is open and its byte at offset 5 is 1: then the store has version 1, and slot B isn't looked at.
fn is_of_version_one(a: &[u8]) -> bool
    ensures version { MatchBool result (IsOne a.now) (¬ IsOne a.now) }
{
    a.len() > 5 && a[0] == 1 && a[5] == 1
}

// The live slot of a store of version 2, its generation, and whether the other slot is open too.
#[derive(Clone, Copy, Drop)]
struct Live {
    slot: Slot,
    generation: u64,
    other_open: bool,
}

// Which slot is live in a store of version 2, by what the slots begin with: the open one of the greater generation.
fn live_of(a: &[u8], b: &[u8]) -> Result<Live, LogFault>
    ensures live { IfOk result (λ live. (images : Images) → AreHeads a.now b.now images
        → OtherRests Two live.slot live.generation live.other_open
        (at_slot (other live.slot) images) × IsOpened (at_slot live.slot images)
        live.generation) }
    ensures none { IfOk result (λ live. (images : Images) → AreHeads a.now b.now images
        → ((end : ℕ) (bodies : List (List ℕ)) → ¬ HasRecords
        (at_slot live.slot images) 2 live.generation end bodies) → (bodies : List (List ℕ))
        → ¬ HasBodiesTwo images bodies) }
    ensures empty { IsErrOf result LogFault.Empty → IsEmptyStore (images_of a.now b.now) }
    ensures full { ¬ IsErrOf result LogFault.Empty → ¬ IsEmptyStore (images_of a.now b.now) }
    ensures broken { IsErrOf result LogFault.Broken → (images : Images)
        → AreHeads a.now b.now images
        → (bodies : List (List ℕ)) → ¬ HasBodiesTwo images bodies }
    ensures range { IfOk result (λ live. (0 < live.generation) × (live.generation < 2 ^ 64)) }
    ensures faults { IsErr result → IsErrOf result LogFault.Empty ⊎ IsErrOf result LogFault.Broken }
{
    if !is_open(a) && !is_open(b) {
        return Err(LogFault::Empty);
    }
    let in_a = generation_of(a)?;
    let in_b = generation_of(b)?;
    match (in_a, in_b) {
        (Some(g), Some(h)) => newer_of(g, h),
        (Some(g), None) => Ok(Live {
            slot: Slot::A,
            generation: g,
            other_open: false,
        }),
        (None, Some(h)) => Ok(Live {
            slot: Slot::B,
            generation: h,
            other_open: false,
        }),
        (None, None) => Err(LogFault::Empty),
    }
}

// The newer of two open slots, by their generations.
fn newer_of(in_a: u64, in_b: u64) -> Result<Live, LogFault>
    ensures newer { IfOk result (λ live. (live.other_open ≡ true)
        × IsNewer live.slot live.generation in_a in_b) }
    ensures same { IsErr result → (in_a ≡ in_b) × IsErrOf result LogFault.Broken }
{
    if in_a > in_b {
        return Ok(Live {
            slot: Slot::A,
            generation: in_a,
            other_open: true,
        });
    }
    if in_b > in_a {
        return Ok(Live {
            slot: Slot::B,
            generation: in_b,
            other_open: true,
        });
    }
    Err(LogFault::Broken)
}

fn is_open(bytes: &[u8]) -> bool
    ensures gate { MatchBool result (IsOpen bytes.now) (¬ IsOpen bytes.now) }
{
    !bytes.is_empty() && bytes[0] == 1
}

// The generation of an open slot of version 2, or none where the slot is closed.
fn generation_of(bytes: &[u8]) -> Result<Option<u64>, LogFault>
    ensures slot { IfOk result (λ found. MatchOption found (IsClosed bytes.now)
        (λ generation. IsOpened bytes.now generation)) }
    ensures only { IsErr result → IsErrOf result LogFault.Broken }
    ensures broken { IsErr result → ¬ IsSlotOfTwo bytes.now }
{
    let Some((gate, _)) = bytes.split_first() else {
        return Err(LogFault::Broken);
    };
    if *gate != 1 {
        return Ok(None);
    }
    let Some((version, generation)) = head_of(bytes) else {
        return Err(LogFault::Broken);
    };
    if version != 2 {
        return Err(LogFault::Broken);
    }
    if generation == 0 {
        return Err(LogFault::Broken);
    }
    Ok(Some(generation))
}

// Reads the live slot of a store, and gives its log and its bodies.
fn open<'a, S: Site>(
    alloc: Global,
    site: &mut S,
    room: &'a mut Vec<u8>,
    version: Version,
    live: Slot,
    generation: u64,
    other_open: bool,
) -> Result<(Log, Vec<Part<'a>>), LogFault>
    requires above { 0 < generation }
    requires first { version ≡ One → generation ≡ 1 }
    ensures { IsLive S.Site site.old site.new version live generation other_open result }
{
    let bytes = read_slot(alloc, site, live)?;
    *room = bytes;
    live_log(
        alloc,
        room.as_slice(),
        version,
        live,
        generation,
        other_open,
    )
}

// The log of a live slot with these bytes, and its bodies.
fn live_log<'a>(
    alloc: Global,
    bytes: &'a [u8],
    version: Version,
    live: Slot,
    generation: u64,
    other_open: bool,
) -> Result<(Log, Vec<Part<'a>>), LogFault>
    requires above { 0 < generation }
    requires first { version ≡ One → generation ≡ 1 }
    ensures broken { IsErrOf result LogFault.Broken → (end : ℕ) (bodies : List (List ℕ))
        → ¬ HasRecords bytes.now (number_of version) generation end bodies }
    ensures records { IfOk result (λ found. HasRecords bytes.now (number_of version) generation
        found.0.end found.1.items) }
    ensures counts { IfOk result (λ found. Counts found.0.first found.0.behind
        found.1.items) }
    ensures log { IfOk result (λ found. (found.0.version ≡ version) × (found.0.live ≡ live)
        × (found.0.generation ≡ generation) × (found.0.other_open ≡ other_open)) }
    ensures unsettled { IfOk result (λ found. (found.0.settled ≡ false) × (found.0.spent ≡ false)) }
    ensures only { OnlyBroken result }
{
    if !begins_with(bytes, version.number(), generation) {
        return Err(LogFault::Broken);
    }
    let records = records_of(alloc, &bytes[RECORDS..])?;
    let log = Log {
        alloc,
        version,
        live,
        generation,
        end: RECORDS as u64 + records.end as u64,
        first: records.first,
        behind: records.behind,
        other_open,
        settled: false,
        spent: false,
    };
    Ok((log, records.bodies))
}

// Whether a slot is open, and of this version and generation.
fn begins_with(bytes: &[u8], version: u8, generation: u64) -> bool
    ensures head { MatchBool result ((bytes.now ≡ opened version generation (drop 14 bytes.now))
        × (14 ≤ length bytes.now))
        ((rest : List ℕ) → ¬ (bytes.now ≡ opened version generation rest)) }
{
    match head_of(bytes) {
        Some((found, of)) => found == version && of == generation,
        None => false,
    }
}
