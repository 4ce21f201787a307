//! Why a text names no principal, and why one has no token.

ghost use Rattle.std.specs.Prelude.{◌≡◌};
ghost use Rattle.ad_principals.specs.declared.fault.TokenFault.TheVariants as token_fault;
ghost use Rattle.ad_principals.specs.declared.fault.NameFault.TheVariants as name_fault;

use std::alloc::AllocError;
use thiserror::Error;

/// Why a directory gives an object no token.
#[derive(Clone, Copy, Debug, PartialEq, Eq, Error)]
pub enum TokenFault {
    /// The object isn't live, or has no objectSid.
    #[error("the object has no security identifier")]
    NoSid,
    /// It has more than 1,024 groups.
    #[error("the object has more than 1,024 groups")]
    TooMany,
    /// Memory ran out.
    #[error("memory ran out")]
    Memory,
}

impl From<AllocError> for TokenFault {
    ghost from_gives = { λ _ e. e ≡ token_fault.Memory };

    fn from(_: AllocError) -> TokenFault {
        TokenFault::Memory
    }
}

/// Why a text names no object.
#[derive(Clone, Copy, Debug, PartialEq, Eq, Error)]
pub enum NameFault {
    /// There is no object of this name.
    #[error("no object has this name")]
    NoObject,
    /// It is the name of several accounts.
    #[error("several objects have this name")]
    Several,
    /// Memory ran out.
    #[error("memory ran out")]
    Memory,
}

impl From<AllocError> for NameFault {
    ghost from_gives = { λ _ e. e ≡ name_fault.Memory };

    fn from(_: AllocError) -> NameFault {
        NameFault::Memory
    }
}
