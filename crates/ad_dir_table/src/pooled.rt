//! The pool of descriptors, by the sharers and the bytes of each id.

ghost use Rattle.std.specs.Prelude.{◌≡◌, ◌<◌, ◌-◌, ◌^◌, true, length, OnErr, IfOk};
ghost use Rattle.std.specs.Option.{IfSome, IfNone};
ghost use Rattle.sd_pool.specs.Pool.{with_bytes, is_live};
ghost use Rattle.sd_pool.specs.Sharers.{bytes_at, IsAdded, IsTaken};

use sd_pool::{PoolFault, SdId, SdPool};
use std::alloc::AllocError;

/// The bytes of a live id.
pub(crate) fn bytes_at(pool: &SdPool, id: SdId) -> &[u8]
    requires { is_live pool.now.live id.0 ≡ true }
    ensures { result.now ≡ bytes_at pool.now.live id.0 }
{
    pool.bytes(id)
}

/// Inserts bytes, while ids and sharers are left: their id gets one sharer more.
///
/// # Errors
///
/// Out of memory. The pool stays as it was.
pub(crate) fn put(pool: &mut SdPool, bytes: &[u8]) -> Result<SdId, AllocError>
    requires few { IfSome (with_bytes pool.old.live bytes.now)
        (λ extent. extent.sharers < 2 ^ 32 - 1) }
    requires free { length pool.old.live < 2 ^ 32 - 1 }
    ensures ok { IfOk result (λ id. IsAdded pool.old.live pool.new.live id.0 bytes.now) }
    ensures err { OnErr result (pool.new ≡ pool.old) }
{
    pool.is_one();
    match pool.put(bytes) {
        Ok(id) => Ok(id),
        Err(PoolFault::Memory) => Err(AllocError),
        Err(PoolFault::Full) => unreachable!(),
    }
}

/// A live id gets one sharer less. It takes no memory.
pub(crate) fn give_back(pool: &mut SdPool, id: SdId)
    requires { is_live pool.old.live id.0 ≡ true }
    ensures { IsTaken pool.old.live pool.new.live id.0 }
{
    pool.is_one();
    pool.give_back(id);
}

/// The same, if there is one.
pub(crate) fn give_back_if(pool: &mut SdPool, id: Option<SdId>)
    requires { IfSome id (λ was. is_live pool.old.live was.0 ≡ true) }
    ensures taken { IfSome id (λ was. IsTaken pool.old.live pool.new.live was.0) }
    ensures none { IfNone id (pool.new ≡ pool.old) }
{
    if let Some(id) = id {
        give_back(pool, id);
    }
}
