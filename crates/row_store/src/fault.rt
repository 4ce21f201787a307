//! Why a call on a store failed.

ghost use Rattle.std.specs.Prelude.{◌≡◌};
ghost use Rattle.row_store.specs.Faults.{of_log, of_rows};
ghost use Rattle.row_store.specs.declared.fault.StoreFault.TheVariants.{Memory as NoMemory};

use crate::reading::RowFault;
use gate_log::LogFault;
use std::alloc::{AllocError, AllocFailed};
use thiserror::Error;

/// Why a call on a store failed.
#[derive(Clone, Copy, Debug, PartialEq, Eq, Error)]
pub enum StoreFault {
    /// A slot isn't empty.
    #[error("a slot isn't empty")]
    Taken,
    /// No slot is open.
    #[error("the store is empty")]
    Empty,
    /// The slots aren't those of a store, or a body isn't a batch.
    #[error("the store is broken")]
    Broken,
    /// An earlier call on this store answered `Site`.
    #[error("an earlier call on the store failed")]
    Spent,
    /// The site failed, which its count tells.
    #[error("the site failed")]
    Site,
    /// There is no memory.
    #[error("out of memory")]
    Memory,
}

impl From<LogFault> for StoreFault {
    ghost from_gives = { λ fault e. e ≡ of_log fault };

    fn from(fault: LogFault) -> Self {
        match fault {
            LogFault::Taken => StoreFault::Taken,
            LogFault::Empty => StoreFault::Empty,
            LogFault::Broken => StoreFault::Broken,
            LogFault::Spent => StoreFault::Spent,
            LogFault::Site => StoreFault::Site,
            LogFault::Memory => StoreFault::Memory,
        }
    }
}

impl From<RowFault> for StoreFault {
    ghost from_gives = { λ fault e. e ≡ of_rows fault };

    fn from(fault: RowFault) -> Self {
        match fault {
            RowFault::Bad => StoreFault::Broken,
            RowFault::Memory => StoreFault::Memory,
        }
    }
}

impl From<AllocError> for StoreFault {
    ghost from_gives = { λ _ e. e ≡ NoMemory };

    fn from(_: AllocError) -> Self {
        StoreFault::Memory
    }
}

impl<T: Drop> From<AllocFailed<T>> for StoreFault {
    ghost from_gives = { λ _ e. e ≡ NoMemory };

    fn from(_: AllocFailed<T>) -> Self {
        StoreFault::Memory
    }
}
