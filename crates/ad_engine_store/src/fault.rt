//! Why no engine was made.

ghost use Rattle.std.specs.Prelude.{◌≡◌};
ghost use Rattle.ad_engine_store.specs.Opening.{of_rows, of_store};
ghost use Rattle.ad_engine_store.specs.declared.fault.OpenFault.TheVariants.{Memory as NoMemory};

use ad_rows::RowsFault;
use row_store::StoreFault;
use std::alloc::AllocError;
use thiserror::Error;

/// Why no engine was made.
#[derive(Clone, Copy, Debug, PartialEq, Eq, Error)]
pub enum OpenFault {
    /// A slot isn't empty.
    #[error("a slot isn't empty")]
    Taken,
    /// No slot is open.
    #[error("the store is empty")]
    Empty,
    /// The slots aren't those of a store, or a body isn't a batch.
    #[error("the store is broken")]
    Broken,
    /// The row of this kind and number isn't of the form of a directory's rows; none before it is so.
    #[error("row {0} {1} isn't of its form")]
    Row(u8, u64),
    /// All rows are of their forms, and the directory isn't sound: 0 for the schema, the counters, the limits or a
    /// missing root, else the number of an object.
    #[error("the directory is unsound at {0}")]
    Unsound(u32),
    /// The site failed, which its count tells.
    #[error("the site failed")]
    Site,
    /// Memory ran out.
    #[error("out of memory")]
    Memory,
}

impl From<StoreFault> for OpenFault {
    ghost from_gives = { λ fault e. e ≡ of_store fault };

    // No store is poisoned as it is made or opened.
    fn from(fault: StoreFault) -> OpenFault {
        match fault {
            StoreFault::Taken => OpenFault::Taken,
            StoreFault::Empty => OpenFault::Empty,
            StoreFault::Broken => OpenFault::Broken,
            StoreFault::Spent | StoreFault::Site => OpenFault::Site,
            StoreFault::Memory => OpenFault::Memory,
        }
    }
}

impl From<RowsFault> for OpenFault {
    ghost from_gives = { λ fault e. e ≡ of_rows fault };

    fn from(fault: RowsFault) -> OpenFault {
        match fault {
            RowsFault::Row(kind, number) => OpenFault::Row(kind, number),
            RowsFault::Unsound(number) => OpenFault::Unsound(number),
            RowsFault::Memory => OpenFault::Memory,
        }
    }
}

impl From<AllocError> for OpenFault {
    ghost from_gives = { λ _ e. e ≡ NoMemory };

    fn from(_: AllocError) -> OpenFault {
        OpenFault::Memory
    }
}
