//! The fields of a pool, and what is done to them.

ghost use Rattle.std.specs.Prelude.{◌≡◌, ℕ, ◌+◌, ◌*◌, ◌-◌, ◌^◌, ◌<◌, ◌≤◌, true, false, None, Some, Ok, [], ◌++◌};
ghost use Rattle.std.specs.Prelude.{length, take, drop, get_or, slice_set, ◌==◌};
ghost use Rattle.std.specs.Prelude.{if◌then◌else◌, ◌↔◌, IfOk, OnOk, OnErr, IsOkAnd, IsErrOf};
ghost use Rattle.std.specs.BTreeMap.{get};
ghost use Rattle.std.specs.Ordering.{nat_cmp};
ghost use Rattle.sd_pool.specs.declared.fault.PoolFault.TheVariants as PoolFault;
ghost use Rattle.sd_pool.specs.Blocks.{Extent};
ghost use Rattle.std.specs.Option.{IfSome};
ghost use Rattle.sd_pool.specs.declared.slot.Slot.{Slot as SlotOf};
ghost use Rattle.sd_pool.specs.Blocks.{blocks_for};
ghost use Rattle.sd_pool.specs.Pool.{IsPool, with_bytes, extent_of, is_live, with_live, IsPut, shared, given_back};
ghost use Rattle.sd_pool.specs.Slots.{AreUsedBelow};
ghost use Rattle.sd_pool.specs.Tallies as Tallies;
ghost use Rattle.sd_pool.specs.Kept.{live_of, pool_of, IsLaid, IsStoredPool, FirstUnused, with_slot, IsReady};

use crate::fault::PoolFault;
use crate::holes::{self, Hole};
use crate::id::SdId;
use crate::look_ups::{bytes_in, holder_or_hash, slot_at};
use crate::slot::Slot;
use crate::tally::{self, Tally};
use std::alloc::{AllocError, Global};
use std::collections::BTreeMap;

/// How many bytes a block has.
pub(crate) const BLOCK: usize = 64;

/// All of a pool.
#[derive(Debug, Drop)]
pub(crate) struct Parts {
    // Blocks of bytes, at least so many.
    pub region: Vec<u8>,
    pub blocks: usize,
    // A slot for each id.
    pub slots: Vec<Slot>,
    // Each id below this one is live.
    pub lowest: usize,
    // How many ids are live.
    pub live: u32,
    pub holes: Vec<Hole>,
    pub tallies: BTreeMap<u128, Tally>,
}

/// Nothing. It takes no memory.
pub(crate) fn empty(alloc: Global) -> Parts
    ensures kept { IsStoredPool result }
    ensures live { live_of result ≡ [] }
    ensures blocks { result.blocks ≡ 0 }
{
    Parts {
        region: Vec::new(alloc),
        blocks: 0,
        slots: Vec::new(alloc),
        lowest: 0,
        live: 0,
        holes: Vec::new(alloc),
        tallies: BTreeMap::new(alloc),
    }
}

/// How many blocks so many bytes take: at least one.
pub(crate) fn blocks_of(len: usize) -> usize
    ensures { result ≡ blocks_for len }
{
    len.saturating_sub(1) / BLOCK + 1
}

fn set_slot(slots: &mut Vec<Slot>, id: usize, slot: Slot)
    requires { id < length slots.old.items }
    ensures { slots.new.items ≡ slice_set slots.old.items id slot }
{
    slots[id] = slot;
}

/// What holds of every pool.
pub(crate) fn is_one(parts: &Parts)
    requires { IsStoredPool parts.now }
    ensures { IsPool (pool_of parts.now) }
{}

/// One sharer more of a live id.
pub(crate) fn share(parts: &mut Parts, id: u32)
    requires kept { IsStoredPool parts.old }
    requires live { is_live (live_of parts.old) id ≡ true }
    requires few { IfSome (extent_of (live_of parts.old) id)
        (λ extent. extent.sharers < 2 ^ 32 - 1) }
    ensures kept { IsStoredPool parts.new }
    ensures live { live_of parts.new ≡ shared id (live_of parts.old) }
    ensures blocks { parts.new.blocks ≡ parts.old.blocks }
{
    let slot = slot_at(&parts.slots, id as usize);
    let more = Slot {
        block: slot.block,
        len: slot.len,
        sharers: slot.sharers + 1,
    };
    set_slot(&mut parts.slots, id as usize, more);
}

/// One sharer less of a live id. With the last the id is free, and its blocks are a hole. It takes no memory.
pub(crate) fn give_back(parts: &mut Parts, id: u32)
    requires kept { IsStoredPool parts.old }
    requires live { is_live (live_of parts.old) id ≡ true }
    ensures kept { IsStoredPool parts.new }
    ensures live { live_of parts.new ≡ given_back id (live_of parts.old) }
    ensures blocks { parts.new.blocks ≡ parts.old.blocks }
{
    let slot = slot_at(&parts.slots, id as usize);
    if slot.sharers == 1 {
        drop_last(parts, id as usize, slot);
    } else {
        take_one_off(parts, id as usize, slot);
    }
}

// One of several sharers goes.
fn take_one_off(parts: &mut Parts, id: usize, slot: Slot)
    requires kept { IsStoredPool parts.old }
    requires live { is_live (live_of parts.old) id ≡ true }
    requires slot { (d : SlotOf) → slot ≡ get_or parts.old.slots.items id d }
    requires more { (slot.sharers == 1) ≡ false }
    ensures kept { IsStoredPool parts.new }
    ensures live { live_of parts.new ≡ given_back id (live_of parts.old) }
    ensures blocks { parts.new.blocks ≡ parts.old.blocks }
{
    let less = Slot {
        block: slot.block,
        len: slot.len,
        sharers: slot.sharers - 1,
    };
    set_slot(&mut parts.slots, id, less);
}

// The last sharer goes.
fn drop_last(parts: &mut Parts, id: usize, slot: Slot)
    requires kept { IsStoredPool parts.old }
    requires live { is_live (live_of parts.old) id ≡ true }
    requires slot { (d : SlotOf) → slot ≡ get_or parts.old.slots.items id d }
    requires last { slot.sharers ≡ 1 }
    ensures kept { IsStoredPool parts.new }
    ensures live { live_of parts.new ≡ given_back id (live_of parts.old) }
    ensures blocks { parts.new.blocks ≡ parts.old.blocks }
{
    let hash = tally::hash_of(bytes_in(&parts.region, slot));
    tally::count_off(&mut parts.tallies, hash);
    holes::give_back(
        &mut parts.holes,
        slot.block,
        slot.block + blocks_of(slot.len),
    );
    let free = Slot {
        block: slot.block,
        len: slot.len,
        sharers: 0,
    };
    set_slot(&mut parts.slots, id, free);
    parts.live -= 1;
    parts.lowest = parts.lowest.min(id);
}

// The first free id from this one on, where each id below it is live.
fn first_unused(slots: &[Slot], lowest: usize) -> usize
    requires { AreUsedBelow lowest slots.now }
    ensures { FirstUnused slots.now result }
{
    for id in lowest..slots.len() {
        if slot_at(slots, id).sharers == 0 {
            return id;
        }
    }
    slots.len()
}

// Makes the region long enough for so many blocks from this one on. Where memory runs out it stays.
fn grow(region: &mut Vec<u8>, block: usize, count: usize) -> Result<(), AllocError>
    ensures begins { take (length region.old.items) region.new.items ≡ region.old.items }
    ensures ok { OnOk result (64 * (block + count) ≤ length region.new.items) }
{
    let Some(end) = block.checked_add(count) else {
        return Err(AllocError);
    };
    let Some(len) = end.checked_mul(BLOCK) else {
        return Err(AllocError);
    };
    if region.len() < len {
        region.resize(len, 0)?;
    }
    Ok(())
}

// Writes the bytes from this block on.
fn write(region: &mut Vec<u8>, block: usize, bytes: &[u8])
    requires { 64 * block + length bytes.now ≤ length region.old.items }
    ensures { region.new.items ≡ take (64 * block) region.old.items ++ bytes.now
        ++ drop (64 * block + length bytes.now) region.old.items }
{
    write_in(region, block, bytes);
}

fn write_in(region: &mut [u8], block: usize, bytes: &[u8])
    requires { 64 * block + length bytes.now ≤ length region.old }
    ensures whole { region.new ≡ take (64 * block) region.old ++ bytes.now
        ++ drop (64 * block + length bytes.now) region.old }
    ensures len { length region.new ≡ length region.old }
{
    let at = BLOCK * block;
    region[at..at + bytes.len()].copy_from_slice(bytes);
}

// A slot for the first free id, if there is none yet.
fn make_slot(slots: &mut Vec<Slot>, id: usize) -> Result<(), AllocError>
    requires { id ≤ length slots.old.items }
    ensures ok { OnOk result (slots.new.items ≡ with_slot id slots.old.items) }
    ensures err { OnErr result (slots.new.items ≡ slots.old.items) }
{
    if id == slots.len() {
        slots.push(Slot {
            block: 0,
            len: 0,
            sharers: 0,
        })?;
    }
    Ok(())
}

/// Where new bytes are put: under this id, into so many blocks from this one on, which is that of this hole, if it
/// is one's.
#[derive(Clone, Copy, Debug)]
pub(crate) struct Spot {
    pub id: usize,
    pub place: Option<usize>,
    pub block: usize,
    pub count: usize,
}

/// Puts bytes: where live ones are equal they get one sharer more, and else they get an id and room of their own.
/// The one slot is looked at first.
///
/// # Errors
///
/// `Full` exactly where all ids are live and none has the bytes, and `Memory`. The pool stays as it was.
pub(crate) fn put(parts: &mut Parts, bytes: &[u8], recent: usize) -> Result<SdId, PoolFault>
    requires kept { IsStoredPool parts.old }
    requires few { IfSome (with_bytes (live_of parts.old) bytes.now)
        (λ extent. extent.sharers < 2 ^ 32 - 1) }
    ensures kept { IsStoredPool parts.new }
    ensures again { (extent : Extent) → with_bytes (live_of parts.old) bytes.now ≡ Some extent
        → IsOkAnd result (λ id. id.0 ≡ extent.id) × (pool_of parts.new
        ≡ with_live (shared extent.id (live_of parts.old)) (pool_of parts.old)) }
    ensures put { IfOk result (λ id. with_bytes (live_of parts.old) bytes.now ≡ None
        → IsPut (pool_of parts.old) (pool_of parts.new) id.0 bytes.now) }
    ensures full { IsErrOf result PoolFault.Full
        ↔ ((with_bytes (live_of parts.old) bytes.now ≡ None)
        × (length (live_of parts.old) ≡ 2 ^ 32 - 1)) }
    ensures err { OnErr result (pool_of parts.new ≡ pool_of parts.old) }
{
    match holder_or_hash(parts, bytes, recent) {
        Ok(id) => {
            share(parts, id as u32);
            Ok(SdId(id as u32))
        }
        Err(hash) => put_own(parts, bytes, hash),
    }
}

// Puts bytes that no live id has.
fn put_own(parts: &mut Parts, bytes: &[u8], hash: u128) -> Result<SdId, PoolFault>
    requires kept { IsStoredPool parts.old }
    requires hash { hash ≡ Tallies.hash bytes.now }
    requires new { with_bytes (live_of parts.old) bytes.now ≡ None }
    ensures kept { IsStoredPool parts.new }
    ensures put { IfOk result (λ id. IsPut (pool_of parts.old) (pool_of parts.new) id.0 bytes.now) }
    ensures full { IsErrOf result PoolFault.Full ↔ (length (live_of parts.old) ≡ 2 ^ 32 - 1) }
    ensures err { OnErr result (pool_of parts.new ≡ pool_of parts.old) }
{
    if parts.live == u32::MAX {
        return Err(PoolFault::Full);
    }
    Ok(SdId(put_new(parts, bytes, hash)?))
}

// Puts bytes that no live id has, while an id is free.
fn put_new(parts: &mut Parts, bytes: &[u8], hash: u128) -> Result<u32, AllocError>
    requires kept { IsStoredPool parts.old }
    requires hash { hash ≡ Tallies.hash bytes.now }
    requires new { with_bytes (live_of parts.old) bytes.now ≡ None }
    requires free { parts.old.live < 2 ^ 32 - 1 }
    ensures kept { IsStoredPool parts.new }
    ensures put { IfOk result (λ id. IsPut (pool_of parts.old) (pool_of parts.new) id bytes.now) }
    ensures err { OnErr result (pool_of parts.new ≡ pool_of parts.old) }
{
    let spot = make_room(parts, bytes.len())?;
    tally::count_on(&mut parts.tallies, hash, spot.id as u32)?;
    let id = spot.id as u32;
    put_at(parts, bytes, spot);
    Ok(id)
}

// Makes room for so many bytes, and a slot. Nothing of it is seen.
fn make_room(parts: &mut Parts, len: usize) -> Result<Spot, AllocError>
    requires kept { IsStoredPool parts.old }
    requires free { parts.old.live < 2 ^ 32 - 1 }
    ensures kept { IsStoredPool parts.new }
    ensures same { pool_of parts.new ≡ pool_of parts.old }
    ensures live { parts.new.live ≡ parts.old.live }
    ensures ok { IfOk result (IsReady parts.new len) }
{
    parts.lowest = first_unused(&parts.slots, parts.lowest);
    make_slot(&mut parts.slots, parts.lowest)?;
    parts.holes.reserve(parts.live as usize + 1)?;
    let count = blocks_of(len);
    let place = holes::first_fit(&parts.holes, parts.blocks, count);
    let block = holes::block_at(&parts.holes, place, parts.blocks);
    grow(&mut parts.region, block, count)?;
    Ok(Spot {
        id: parts.lowest,
        place,
        block,
        count,
    })
}

// Puts the bytes, whose hash is counted already, where there is room. It takes no memory.
fn put_at(parts: &mut Parts, bytes: &[u8], spot: Spot)
    requires laid { IsLaid parts.old }
    requires few { parts.old.live < 2 ^ 32 - 1 }
    requires tallied { (h : ℕ) → Tallies.count_in (get nat_cmp parts.old.tallies h)
        ≡ (if Tallies.hash bytes.now == h then 1 else 0) + Tallies.count_of_hash h
        (live_of parts.old) }
    requires new { with_bytes (live_of parts.old) bytes.now ≡ None }
    requires ready { IsReady parts.old (length bytes.now) spot }
    ensures kept { IsStoredPool parts.new }
    ensures put { IsPut (pool_of parts.old) (pool_of parts.new) spot.id bytes.now }
{
    holes::take(&mut parts.holes, spot.place, spot.count);
    write(&mut parts.region, spot.block, bytes);
    let slot = Slot {
        block: spot.block,
        len: bytes.len(),
        sharers: 1,
    };
    set_slot(&mut parts.slots, spot.id, slot);
    parts.blocks = parts.blocks.max(spot.block + spot.count);
    parts.live += 1;
}
