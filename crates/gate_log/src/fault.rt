//! Why a call on a log failed.

ghost use Rattle.std.specs.Prelude.{◌≡◌};
ghost use Rattle.gate_log.specs.declared.fault.LogFault.TheVariants.{Memory, Site as SiteFailed};

use site_io::Failed;
use std::alloc::{AllocError, AllocFailed};
use thiserror::Error;

/// Why a call on a log failed.
#[derive(Clone, Copy, Debug, PartialEq, Eq, Error)]
pub enum LogFault {
    /// A slot isn't empty.
    #[error("a slot isn't empty")]
    Taken,
    /// No slot is open.
    #[error("the store is empty")]
    Empty,
    /// The slots aren't those of a store.
    #[error("the store is broken")]
    Broken,
    /// An earlier call on this log answered `Site`.
    #[error("an earlier call on the log failed")]
    Spent,
    /// The site failed, which its count tells.
    #[error("the site failed")]
    Site,
    /// There is no memory.
    #[error("memory ran out")]
    Memory,
}

impl From<Failed> for LogFault {
    ghost from_gives = { λ _ e. e ≡ SiteFailed };

    fn from(_: Failed) -> Self {
        LogFault::Site
    }
}

impl From<AllocError> for LogFault {
    ghost from_gives = { λ _ e. e ≡ Memory };

    fn from(_: AllocError) -> Self {
        LogFault::Memory
    }
}

impl<T: Drop> From<AllocFailed<T>> for LogFault {
    ghost from_gives = { λ _ e. e ≡ Memory };

    fn from(_: AllocFailed<T>) -> Self {
        LogFault::Memory
    }
}
