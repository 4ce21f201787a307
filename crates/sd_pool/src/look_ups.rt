//! What is looked up in a pool's fields: the slots, their bytes, and the id that has some bytes. It takes no memory.

ghost use Rattle.std.specs.Prelude.{◌≡◌, ◌+◌, ◌*◌, ◌≤◌, ◌<◌, true, length, get_or};
ghost use Rattle.std.specs.Bool.{Decides};
ghost use Rattle.std.specs.Option.{ForSome, option_map};
ghost use Rattle.sd_pool.specs.declared.slot.Slot.{Slot as SlotOf};
ghost use Rattle.sd_pool.specs.Pool.{with_bytes, extent_of, is_live};
ghost use Rattle.sd_pool.specs.Slots.{bytes_of, AreWithin};
ghost use Rattle.sd_pool.specs.Tallies as Tallies;
ghost use Rattle.sd_pool.specs.Kept.{live_of, IsStoredPool, IsHeldAt, FindsHolder, FindsOrHashes};

use crate::parts::{BLOCK, Parts};
use crate::slot::Slot;
use crate::tally;

/// The slot of an id.
pub(crate) fn slot_at(slots: &[Slot], id: usize) -> Slot
    requires { id < length slots.now }
    ensures { (d : SlotOf) → result ≡ get_or slots.now id d }
{
    slots[id]
}

/// The bytes of a slot.
pub(crate) fn bytes_in(region: &[u8], slot: Slot) -> &[u8]
    requires { 64 * slot.block + slot.len ≤ length region.now }
    ensures { result.now ≡ bytes_of region.now slot }
{
    &region[BLOCK * slot.block..][..slot.len]
}

// Whether the slot of the id is used and has these bytes.
fn is_held_at(parts: &Parts, bytes: &[u8], id: usize) -> bool
    requires region { 64 * parts.now.blocks ≤ length parts.now.region.items }
    requires within { AreWithin parts.now.blocks parts.now.slots.items }
    ensures { Decides result (IsHeldAt parts.now.region.items parts.now.slots.items bytes.now id) }
{
    if parts.slots.len() <= id {
        return false;
    }
    let slot = slot_at(&parts.slots, id);
    slot.sharers != 0 && bytes_in(&parts.region, slot) == bytes
}

// The first used slot with these bytes, by going over all.
fn scanned(parts: &Parts, bytes: &[u8]) -> Option<usize>
    requires region { 64 * parts.now.blocks ≤ length parts.now.region.items }
    requires within { AreWithin parts.now.blocks parts.now.slots.items }
    ensures { FindsHolder parts.now.region.items parts.now.slots.items bytes.now result }
{
    for id in 0..parts.slots.len() {
        if is_held_at(parts, bytes, id) {
            return Some(id);
        }
    }
    None
}

// A used slot with these bytes, whose hash this is.
fn holder_of(parts: &Parts, bytes: &[u8], hash: u128) -> Option<usize>
    requires kept { IsStoredPool parts.now }
    requires hash { hash ≡ Tallies.hash bytes.now }
    ensures { FindsHolder parts.now.region.items parts.now.slots.items bytes.now result }
{
    let Some(last) = tally::last_of(&parts.tallies, hash) else {
        return None;
    };
    if is_held_at(parts, bytes, last as usize) {
        return Some(last as usize);
    }
    scanned(parts, bytes)
}

/// A used slot with these bytes, or else their hash. The one slot is looked at before any hash is made.
pub(crate) fn holder_or_hash(parts: &Parts, bytes: &[u8], recent: usize) -> Result<usize, u128>
    requires { IsStoredPool parts.now }
    ensures { FindsOrHashes parts.now.region.items parts.now.slots.items bytes.now result }
{
    if is_held_at(parts, bytes, recent) {
        return Ok(recent);
    }
    let hash = tally::hash_of(bytes);
    match holder_of(parts, bytes, hash) {
        Some(id) => Ok(id),
        None => Err(hash),
    }
}

/// The live id that has the bytes. None exactly where none has. The one slot is looked at first.
pub(crate) fn find(parts: &Parts, bytes: &[u8], recent: usize) -> Option<u32>
    requires { IsStoredPool parts.now }
    ensures { result ≡ option_map (λ extent. extent.id) (with_bytes (live_of parts.now) bytes.now) }
{
    match holder_or_hash(parts, bytes, recent) {
        Ok(id) => Some(id as u32),
        Err(_) => None,
    }
}

/// The bytes of a live id.
pub(crate) fn bytes(parts: &Parts, id: u32) -> &[u8]
    requires kept { IsStoredPool parts.now }
    requires live { is_live (live_of parts.now) id ≡ true }
    ensures { ForSome (extent_of (live_of parts.now) id) (λ extent. result.now ≡ extent.bytes) }
{
    let slot = slot_at(&parts.slots, id as usize);
    bytes_in(&parts.region, slot)
}

/// How many share the bytes of a live id.
pub(crate) fn sharers(parts: &Parts, id: u32) -> u32
    requires kept { IsStoredPool parts.now }
    requires live { is_live (live_of parts.now) id ≡ true }
    ensures { ForSome (extent_of (live_of parts.now) id) (λ extent. result ≡ extent.sharers) }
{
    slot_at(&parts.slots, id as usize).sharers
}
