//! The pool as a contract sees it, and its calls.

ghost use Rattle.std.specs.Prelude.{◌≡◌, ◌<◌, ◌-◌, ◌^◌, ◌↔◌, true, None, Some, Ok, [], length, OnErr, IfOk, IsOkAnd};
ghost use Rattle.std.specs.Prelude.{IsErrOf};
ghost use Rattle.std.specs.Option.{IfSome, ForSome, option_map};
ghost use Rattle.sd_pool.specs.declared.fault.PoolFault.TheVariants as PoolFault;
ghost use Rattle.sd_pool.specs.Blocks.{Extent};
ghost use Rattle.sd_pool.specs.Pool.{with_bytes, extent_of, is_live, with_live, shared, given_back, IsPut, IsPool};

use crate::fault::PoolFault;
use crate::id::SdId;
use crate::parts::{self, Parts};
use crate::{look_ups, tally};
use std::alloc::Global;
use std::collections::BTreeMap;
use std::marker::Model;

/// A pool of bytes. A contract sees the list of its live ids and the length of its region in blocks.
#[derive(Debug, Drop)]
pub struct SdPool {
    parts: Parts,
    // The id that was put last: equal bytes often come one after the other.
    recent: usize,
}

impl Model for SdPool {
    ghost use Rattle.sd_pool.specs.Pool.{Pool};
    ghost use Rattle.sd_pool.specs.Kept.{pool_of, IsStoredPool};

    ghost Value = { Pool };

    ghost view = { λ pool. pool_of pool.parts };

    ghost invariant = { λ pool. IsStoredPool pool.parts };
}

// The id that was put, or else this one.
fn put_or(put: &Result<SdId, PoolFault>, other: usize) -> usize {
    match put {
        Ok(id) => id.0 as usize,
        Err(_) => other,
    }
}

impl SdPool {
    /// The pool without any bytes. It takes no memory.
    pub fn new(alloc: Global) -> SdPool
        ensures live { result.live ≡ [] }
        ensures blocks { result.blocks ≡ 0 }
    {
        SdPool {
            parts: parts::empty(alloc),
            recent: 0,
        }
    }

    /// Puts bytes. Where a live id has equal bytes, it gets one sharer more, and no memory is taken. Else the bytes
    /// get the least free id with one sharer, in the least room that meets no live bytes. Equal live bytes have
    /// fewer than 4,294,967,295 sharers.
    ///
    /// # Errors
    ///
    /// `Full` exactly where no live id has the bytes and 4,294,967,295 ids are live, and `Memory`. The pool stays
    /// as it was.
    pub fn put(&mut self, bytes: &[u8]) -> Result<SdId, PoolFault>
        requires { IfSome (with_bytes self.old.live bytes.now)
            (λ extent. extent.sharers < 2 ^ 32 - 1) }
        ensures again { (extent : Extent) → with_bytes self.old.live bytes.now ≡ Some extent
            → IsOkAnd result (λ id. id.0 ≡ extent.id) × (self.new
            ≡ with_live (shared extent.id self.old.live) self.old) }
        ensures put { IfOk result (λ id. with_bytes self.old.live bytes.now ≡ None
            → IsPut self.old self.new id.0 bytes.now) }
        ensures full { IsErrOf result PoolFault.Full
            ↔ ((with_bytes self.old.live bytes.now ≡ None) × (length self.old.live ≡ 2 ^ 32 - 1)) }
        ensures err { OnErr result (self.new ≡ self.old) }
    {
        let put = parts::put(&mut self.parts, bytes, self.recent);
        self.recent = put_or(&put, self.recent);
        put
    }

    /// The live id that has these bytes. None exactly where none has. It takes no memory.
    pub fn find(&self, bytes: &[u8]) -> Option<SdId>
        ensures { option_map (λ id. id.0) result ≡ option_map (λ extent. extent.id)
            (with_bytes self.now.live bytes.now) }
    {
        look_ups::find(&self.parts, bytes, self.recent).map(SdId)
    }

    /// The bytes of a live id.
    pub fn bytes(&self, id: SdId) -> &[u8]
        requires { is_live self.now.live id.0 ≡ true }
        ensures { ForSome (extent_of self.now.live id.0) (λ extent. result.now ≡ extent.bytes) }
    {
        look_ups::bytes(&self.parts, id.0)
    }

    /// How many share the bytes of a live id.
    pub fn sharers(&self, id: SdId) -> u32
        requires { is_live self.now.live id.0 ≡ true }
        ensures { ForSome (extent_of self.now.live id.0) (λ extent. result ≡ extent.sharers) }
    {
        look_ups::sharers(&self.parts, id.0)
    }

    /// One sharer more of a live id, which has fewer than 4,294,967,295.
    pub fn share(&mut self, id: SdId)
        requires live { is_live self.old.live id.0 ≡ true }
        requires few { IfSome (extent_of self.old.live id.0)
            (λ extent. extent.sharers < 2 ^ 32 - 1) }
        ensures { self.new ≡ with_live (shared id.0 self.old.live) self.old }
    {
        parts::share(&mut self.parts, id.0);
    }

    /// One sharer less of a live id. With the last the id is free, and its blocks are taken again. It takes no
    /// memory.
    pub fn give_back(&mut self, id: SdId)
        requires { is_live self.old.live id.0 ≡ true }
        ensures { self.new ≡ with_live (given_back id.0 self.old.live) self.old }
    {
        parts::give_back(&mut self.parts, id.0);
    }

    /// How many ids are live.
    pub fn live(&self) -> u32
        ensures { result ≡ length self.now.live }
    {
        self.parts.live
    }

    /// The length of the region in blocks of 64 bytes.
    pub fn blocks(&self) -> u64
        ensures { result ≡ self.now.blocks }
    {
        self.parts.blocks as u64
    }

    /// What holds of every pool: ids rise, each has a sharer and lies in the region, no two share a block, and no
    /// two have equal bytes.
    pub fn is_one(&self)
        ensures { IsPool self.now }
    {
        parts::is_one(&self.parts);
    }
}
