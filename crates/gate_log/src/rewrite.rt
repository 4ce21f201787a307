//! Putting one body in the place of all, in the slot that isn't live.

ghost use Rattle.std.specs.Prelude.{◌≡◌, ◌≤◌, ℕ, List, ◌+◌, ◌^◌, ◌<◌, ◌∷◌, [], ◌++◌, length, drop, IfSome, IfOk};
ghost use Rattle.std.specs.Prelude.{OnOk, IsErr, MatchBool};
ghost use Rattle.site_io.specs.Counts.{HasRisen};
ghost use Rattle.site_io.specs.Told.{BothTold, StaysTold};
ghost use Rattle.site_io.specs.Disk.{GoesOn, LeavesSame, LeavesTorn};
ghost use Rattle.gate_log.specs.Layout.{before_body, snapshot, snapshot_end};
ghost use Rattle.gate_log.specs.Moments.{Leaves, LastsWhole};
ghost use Rattle.gate_log.specs.Rewriting.{must_close, is_one, is_two, Closes, Prepared};
ghost use Rattle.site_io.specs.Outside.{TouchesSlots};
ghost use Rattle.gate_log.specs.Store.{other, HasBodies, OldOrWhole, Rests};
ghost use Rattle.gate_log.specs.declared.version.Version.TheVariants.{Two};

use crate::layout::ROOM;
use crate::step::set;
use crate::version::Version;
use site_io::{Failed, Site, Slot};
use std::alloc::{AllocError, Global};

const MAGIC: [u8; 4] = *b"ADSD";

// How many bytes stand about the body, after the first gate.
const HEAD_AND_GATES: usize = 23;

/// The slot that isn't this one.
pub(crate) fn other_of(slot: Slot) -> Slot
    ensures { result ≡ other slot }
{
    match slot {
        Slot::A => Slot::B,
        Slot::B => Slot::A,
    }
}

// What stands between the gate of a slot and its one body of this length.
fn put_head(into: &mut Vec<u8>, generation: u64, length: u64) -> Result<(), AllocError>
    ensures { OnOk result (into.new.items ≡ into.old.items ++ before_body generation length) }
{
    into.extend_from_slice(&MAGIC)?;
    into.push(2)?;
    into.extend_from_slice(&generation.to_be_bytes())?;
    into.push(1)?;
    into.extend_from_slice(&length.to_be_bytes())
}

/// What stands behind the gate of a slot with one body.
pub(crate) fn snapshot_of(
    alloc: Global,
    generation: u64,
    body: &[u8],
) -> Result<Vec<u8>, AllocError>
    ensures { IfOk result (λ bytes. bytes.items ≡ snapshot generation body.now) }
{
    let mut bytes = Vec::with_capacity(alloc, body.len().saturating_add(HEAD_AND_GATES))?;
    put_head(&mut bytes, generation, body.len() as u64)?;
    bytes.extend_from_slice(body)?;
    bytes.push(0)?;
    Ok(bytes)
}

// Writes these bytes over the first ones.
fn put_over(into: &mut [u8], front: &[u8])
    requires { length front.now ≤ length into.old }
    ensures { into.new ≡ front.now ++ drop (length front.now) into.old }
{
    into[..front.len()].copy_from_slice(front);
}

/// The same, in the memory of a body that has room before it.
pub(crate) fn headed(alloc: Global, generation: u64, bytes: Vec<u8>) -> Result<Vec<u8>, AllocError>
    requires { 22 ≤ length bytes.items }
    ensures { IfOk result (λ whole. whole.items ≡ snapshot generation (drop 22 bytes.items)) }
{
    let mut head = Vec::with_capacity(alloc, ROOM)?;
    put_head(&mut head, generation, (bytes.len() - ROOM) as u64)?;
    let mut whole = bytes;
    put_over(&mut whole, &head);
    whole.push(0)?;
    Ok(whole)
}

/// The body in these bytes.
pub(crate) fn body_in(whole: &[u8]) -> &[u8]
    requires { 23 ≤ length whole.now }
    ensures { (generation : ℕ) (body : List ℕ) → whole.now ≡ snapshot generation body → result.now
        ≡ body }
{
    &whole[ROOM..whole.len() - 1]
}

/// Closes the gate of a slot, where that is asked.
fn close<S: Site>(site: &mut S, slot: Slot, asked: bool) -> Result<(), Failed>
    ensures held { OnOk result (BothTold (S.reads site.old) (S.reads site.new)
        (Closes asked slot)) }
    ensures images { MatchBool asked
        (LeavesTorn slot 0 1 (S.now site.old) (S.left site.old) (S.left site.new))
        (LeavesSame (S.now site.old) (S.left site.old) (S.left site.new)) }
    ensures lasts { OnOk result (LastsWhole (S.reads site.old) (S.now site.old) (S.left site.old)
        → LastsWhole (S.reads site.new) (S.now site.new) (S.left site.new)) }
    ensures outside { TouchesSlots S.Site site.old site.new }
    ensures cause { IsErr result → HasRisen (S.slot_faults site.old) (S.slot_faults site.new) }
{
    if asked {
        return set(site, slot, 0, &[0]);
    }
    Ok(())
}

/// Whether the slot that isn't live has to be closed first.
fn has_to_close(version: Version, other_open: bool) -> bool
    ensures { result ≡ must_close version other_open }
{
    match version {
        Version::One => true,
        Version::Two => other_open,
    }
}

fn is_first(version: Version) -> bool
    ensures { result ≡ is_one version }
{
    match version {
        Version::One => true,
        Version::Two => false,
    }
}

pub(crate) fn is_second(version: Version) -> bool
    ensures { result ≡ is_two version }
{
    match version {
        Version::One => false,
        Version::Two => true,
    }
}

/// The first two steps: the other slot is closed, and a snapshot is written behind its gate.
pub(crate) fn prepare<S: Site>(
    site: &mut S,
    version: Version,
    live: Slot,
    generation: u64,
    other_open: bool,
    body: &[u8],
    bytes: &[u8],
) -> Result<(), Failed>
    requires spelled { bytes.now ≡ snapshot (generation + 1) body.now }
    requires rests { IfSome (S.reads site.old) (λ held. (end : ℕ) × (bodies : List (List ℕ))
        × Rests version live generation end other_open held bodies) }
    requires lasts { LastsWhole (S.reads site.old) (S.now site.old) (S.left site.old) }
    ensures prepared { OnOk result (BothTold (S.reads site.old) (S.reads site.new) (λ before after.
        (end : ℕ) (bodies : List (List ℕ)) → Rests version live generation end other_open before
        bodies
        → Prepared version live generation end after bodies body.now)) }
    ensures any_moment { IfSome (S.reads site.old) (λ held.
        (end : ℕ) (bodies : List (List ℕ)) → Rests version live generation end other_open held
        bodies
        → Leaves (S.now site.old) (S.now site.new) (S.left site.old) (S.left site.new)
        (λ images. HasBodies images bodies)) }
    ensures lasts { OnOk result (LastsWhole (S.reads site.new) (S.now site.new) (S.left site.new)) }
    ensures small { OnOk result (length body.now < 2 ^ 63) }
    ensures outside { TouchesSlots S.Site site.old site.new }
    ensures cause { IsErr result → HasRisen (S.slot_faults site.old) (S.slot_faults site.new) }
{
    let beside = other_of(live);
    close(site, beside, has_to_close(version, other_open))?;
    set(site, beside, 1, bytes)
}

/// The last two steps: the other slot is opened, and slot A of a store of version 1 is closed.
pub(crate) fn switch<S: Site>(
    site: &mut S,
    version: Version,
    live: Slot,
    generation: u64,
    body: &[u8],
) -> Result<(), Failed>
    requires above { 0 < generation }
    requires below { generation + 1 < 2 ^ 64 }
    requires small { length body.now < 2 ^ 63 }
    requires lasts { LastsWhole (S.reads site.old) (S.now site.old) (S.left site.old) }
    ensures switched { OnOk result (BothTold (S.reads site.old) (S.reads site.new) (λ before after.
        (end : ℕ) (bodies : List (List ℕ)) → Prepared version live generation end before bodies
        body.now
        → Rests Two (other live) (generation + 1) (snapshot_end body.now) (is_two version) after
        (body.now ∷ []))) }
    ensures any_moment { IfSome (S.reads site.old) (λ held.
        (end : ℕ) (bodies : List (List ℕ)) → Prepared version live generation end held bodies
        body.now
        → Leaves (S.now site.old) (S.now site.new) (S.left site.old) (S.left site.new)
        (OldOrWhole bodies body.now)) }
    ensures lasts { OnOk result (LastsWhole (S.reads site.new) (S.now site.new) (S.left site.new)) }
    ensures outside { TouchesSlots S.Site site.old site.new }
    ensures cause { IsErr result → HasRisen (S.slot_faults site.old) (S.slot_faults site.new) }
{
    let beside = other_of(live);
    set(site, beside, 0, &[1])?;
    close(site, live, is_first(version))
}
