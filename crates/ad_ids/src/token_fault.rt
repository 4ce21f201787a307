//! Why bytes are no token.

ghost use Rattle.std.specs.Prelude.{◌≡◌};
ghost use Rattle.ad_ids.specs.declared.token_fault.TokenFault.TheVariants as fault;

use crate::sid::SidFault;
use ad_bytes::Short;
use std::alloc::AllocError;
use thiserror::Error;

/// Why bytes are no access token: the fault that stands first from the left.
#[derive(Clone, Copy, Debug, PartialEq, Eq, Error)]
pub enum TokenFault {
    /// The bytes end before a field other than an identifier does.
    #[error("the token is cut short")]
    Short,
    /// The version is neither 1 nor 2.
    #[error("the token has version {0}")]
    Version(u8),
    /// A privilege that isn't known is set.
    #[error("the token has privileges {0:#x}")]
    Privileges(u8),
    /// An identifier can't be read, also where the bytes end within it.
    #[error("{0}")]
    Sid(SidFault),
    /// There are more than 1,024 groups, of both marks together.
    #[error("the token has {0} groups")]
    Groups(u16),
    /// The mark of a group is neither 0 nor 1.
    #[error("a group has the mark {0}")]
    Mark(u8),
    /// There are more than 1,024 restricting identifiers.
    #[error("the token has {0} restricting identifiers")]
    Restricting(u16),
    /// Bytes stand after the token.
    #[error("bytes stand after the token")]
    Rest,
    /// The owner is neither the user nor an enabled group.
    #[error("the owner is neither the user nor an enabled group")]
    Owner,
    /// Out of memory.
    #[error("out of memory")]
    Memory,
}

impl From<Short> for TokenFault {
    ghost from_gives = { λ _ e. e ≡ fault.Short };

    fn from(_: Short) -> TokenFault {
        TokenFault::Short
    }
}

impl From<SidFault> for TokenFault {
    ghost from_gives = { λ sid e. e ≡ fault.Sid sid };

    fn from(fault: SidFault) -> TokenFault {
        TokenFault::Sid(fault)
    }
}

impl From<AllocError> for TokenFault {
    ghost from_gives = { λ _ e. e ≡ fault.Memory };

    fn from(_: AllocError) -> TokenFault {
        TokenFault::Memory
    }
}
