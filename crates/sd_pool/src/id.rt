//! The id of bytes in a pool.

/// The id of bytes in a pool.
#[derive(Clone, Copy, Debug, PartialEq, Eq)]
pub struct SdId(pub u32);
