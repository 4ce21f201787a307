//! Why a list has no bytes.

ghost use Rattle.std.specs.Prelude.{◌≡◌};
ghost use Rattle.ad_acl.specs.declared.write_fault.AclWriteFault.TheVariants.{Memory};

use std::alloc::{AllocError, AllocFailed};
use thiserror::Error;

/// Why a list isn't written.
#[derive(Clone, Copy, Debug, PartialEq, Eq, Error)]
pub enum AclWriteFault {
    /// The list takes more than 65,535 bytes, so that no size says it.
    #[error("the access control list is too long")]
    TooLong,
    /// Memory ran out.
    #[error("memory ran out")]
    Memory,
}

impl From<AllocError> for AclWriteFault {
    ghost from_gives = { λ _ e. e ≡ Memory };

    fn from(_: AllocError) -> AclWriteFault {
        AclWriteFault::Memory
    }
}

impl<T: Drop> From<AllocFailed<T>> for AclWriteFault {
    ghost from_gives = { λ _ e. e ≡ Memory };

    fn from(_: AllocFailed<T>) -> AclWriteFault {
        AclWriteFault::Memory
    }
}
