//! Why rows aren't those of a sound directory.

ghost use Rattle.std.specs.Prelude.{◌≡◌};
ghost use Rattle.ad_rows.specs.Faults.{of_row, of_soundness};
ghost use Rattle.ad_rows.specs.declared.fault.RowFault.TheVariants.{Memory as NoMemoryHere};
ghost use Rattle.ad_rows.specs.declared.fault.RowsFault.TheVariants.{Memory as NoMemory};

use ad_rows_sound::SoundnessFault;
use std::alloc::{AllocError, AllocFailed};
use thiserror::Error;

/// Why rows aren't those of a sound directory.
#[derive(Clone, Copy, Debug, PartialEq, Eq, Error)]
pub enum RowsFault {
    /// The row of this kind and number isn't of its form, and each before it is. The pending list and the counters,
    /// kinds 2 and 3 with number 0, count as such where they aren't there.
    #[error("the row {0} {1} isn't of its form")]
    Row(u8, u64),
    /// All rows are of their forms, and the directory isn't sound. 0 represents the schema, the counters, the
    /// limits and a missing root; else it is the least number of an object at which a sentence fails; else the
    /// first bad parent of the pending list.
    #[error("the directory isn't sound at {0}")]
    Unsound(u32),
    /// There is no memory.
    #[error("out of memory")]
    Memory,
}

/// The fault of rows whose directory was judged.
pub(crate) fn of_soundness(fault: SoundnessFault) -> RowsFault
    ensures { result ≡ of_soundness fault }
{
    match fault {
        SoundnessFault::Unsound(number) => RowsFault::Unsound(number),
        SoundnessFault::Memory => RowsFault::Memory,
    }
}

/// Why rows aren't taken in.
#[derive(Clone, Copy, Debug, PartialEq, Eq)]
pub(crate) enum RowFault {
    /// The row of this kind and number isn't of its form.
    Row(u8, u64),
    /// There is no memory.
    Memory,
}

impl From<AllocError> for RowFault {
    ghost from_gives = { λ _ e. e ≡ NoMemoryHere };

    fn from(_: AllocError) -> Self {
        RowFault::Memory
    }
}

impl<T: Drop> From<AllocFailed<T>> for RowFault {
    ghost from_gives = { λ _ e. e ≡ NoMemoryHere };

    fn from(_: AllocFailed<T>) -> Self {
        RowFault::Memory
    }
}

impl From<RowFault> for RowsFault {
    ghost from_gives = { λ fault e. e ≡ of_row fault };

    fn from(fault: RowFault) -> Self {
        match fault {
            RowFault::Row(kind, number) => RowsFault::Row(kind, number),
            RowFault::Memory => RowsFault::Memory,
        }
    }
}

impl From<AllocError> for RowsFault {
    ghost from_gives = { λ _ e. e ≡ NoMemory };

    fn from(_: AllocError) -> Self {
        RowsFault::Memory
    }
}

impl<T: Drop> From<AllocFailed<T>> for RowsFault {
    ghost from_gives = { λ _ e. e ≡ NoMemory };

    fn from(_: AllocFailed<T>) -> Self {
        RowsFault::Memory
    }
}
