//! Why a call on an engine failed.

ghost use Rattle.std.specs.Prelude.{◌≡◌};
ghost use Rattle.ad_engine_store.specs.Faults.{of_commit};
ghost use Rattle.ad_engine_store.specs.declared.engine_fault.EngineFault.TheVariants.{Memory as NoMemory};

use row_store::StoreFault;
use std::alloc::AllocError;
use thiserror::Error;

/// Why a call on an engine failed.
#[derive(Clone, Copy, Debug, PartialEq, Eq, Error)]
pub enum EngineFault {
    /// An earlier call on this engine answered a fault.
    #[error("an earlier call on the engine failed")]
    Spent,
    /// The site failed, which its count tells.
    #[error("the site failed")]
    Site,
    /// Memory ran out.
    #[error("out of memory")]
    Memory,
}

impl From<StoreFault> for EngineFault {
    ghost from_gives = { λ fault e. e ≡ of_commit fault };

    // A commit finds no slot taken, empty or broken.
    fn from(fault: StoreFault) -> EngineFault {
        match fault {
            StoreFault::Taken => EngineFault::Spent,
            StoreFault::Empty => EngineFault::Spent,
            StoreFault::Broken => EngineFault::Spent,
            StoreFault::Spent => EngineFault::Spent,
            StoreFault::Site => EngineFault::Site,
            StoreFault::Memory => EngineFault::Memory,
        }
    }
}

impl From<AllocError> for EngineFault {
    ghost from_gives = { λ _ e. e ≡ NoMemory };

    fn from(_: AllocError) -> EngineFault {
        EngineFault::Memory
    }
}
