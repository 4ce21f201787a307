//! Why the parts of a directory aren't sound.

ghost use Rattle.std.specs.Prelude.{◌≡◌};
ghost use Rattle.ad_rows_sound.specs.declared.fault.SoundnessFault.TheVariants.{Memory as NoMemory};

use std::alloc::{AllocError, AllocFailed};
use thiserror::Error;

/// Why the parts of a directory aren't sound.
#[derive(Clone, Copy, Debug, PartialEq, Eq, Error)]
pub enum SoundnessFault {
    /// 0 represents the schema, the counters, the limits and a missing root; else it is the least number of an
    /// object at which a sentence fails; else the first bad parent of the pending list.
    #[error("the directory isn't sound at {0}")]
    Unsound(u32),
    /// There is no memory.
    #[error("out of memory")]
    Memory,
}

impl From<AllocError> for SoundnessFault {
    ghost from_gives = { λ _ e. e ≡ NoMemory };

    fn from(_: AllocError) -> Self {
        SoundnessFault::Memory
    }
}

impl<T: Drop> From<AllocFailed<T>> for SoundnessFault {
    ghost from_gives = { λ _ e. e ≡ NoMemory };

    fn from(_: AllocFailed<T>) -> Self {
        SoundnessFault::Memory
    }
}
