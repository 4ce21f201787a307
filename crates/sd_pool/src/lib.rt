//! One growing region for the bytes of all security descriptors. Equal bytes lie in it once, under one id that
//! counts its sharers. The room of bytes that nobody shares any more is taken again.
//!
//! A contract sees a pool as the list of its live ids, each with its first block, its bytes and its sharers, and
//! the length of the region. The rules are in `specs/Pool.antt` and `specs/Blocks.antt`.
//!
//! # Example
//!
//! ```text
//! let id = pool.put(bytes)?;
//! let bytes = pool.bytes(id);
//! pool.give_back(id);
//! ```
//!
//! # Proved
//!
//! Equal bytes get one id and no memory is asked for; other bytes get the least free id and the least room from
//! which their blocks meet no live bytes. `Full` comes exactly where 2^32 - 1 ids are live. No two live ids share a
//! block or have equal bytes.
//!
//! # The caller owes
//!
//! Live ids, and fewer than 2^32 - 1 sharers of one id.
//!
//! # Cost
//!
//! To find equal bytes takes one hash of them and a look-up, and a comparison with each live id of that hash. New
//! bytes are copied once. `bytes`, `share` and `sharers` take the same time whatever the pool's size.
#![tactic(auto)]

mod fault;
mod holes;
mod id;
mod look_ups;
mod parts;
mod pool;
mod slot;
mod tally;

pub use fault::PoolFault;
pub use id::SdId;
pub use pool::SdPool;
