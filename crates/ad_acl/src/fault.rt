//! Why bytes are no access control list.

ghost use Rattle.std.specs.Prelude.{◌≡◌};
ghost use Rattle.ad_acl.specs.declared.fault.AclFault.TheVariants.{Short as ListShort, Sid as SidOf, Memory};

use ad_bytes::Short;
use ad_ids::SidFault;
use std::alloc::{AllocError, AllocFailed};
use thiserror::Error;

/// Why bytes are no access control list: the fault that stands first from the left.
#[derive(Clone, Copy, Debug, PartialEq, Eq, Error)]
pub enum AclFault {
    /// The bytes end before the list's header of 8 bytes does.
    #[error("the access control list is cut short")]
    Short,
    /// The revision is neither 2 nor 4.
    #[error("the access control list has revision {0}")]
    Revision(u8),
    /// The size that the header tells is below 8 bytes or above the bytes given.
    #[error("the size of the access control list is wrong")]
    Size,
    /// An entry has another type than the six.
    #[error("an access control entry has type {0}")]
    AceKind(u8),
    /// An entry's size is below its header or passes the list, or its fields pass the entry.
    #[error("the size of an access control entry is wrong")]
    AceSize,
    /// The security identifier of an entry is none.
    #[error("in an access control entry: {0}")]
    Sid(SidFault),
    /// Memory ran out.
    #[error("memory ran out")]
    Memory,
}

impl From<Short> for AclFault {
    ghost from_gives = { λ _ e. e ≡ ListShort };

    fn from(_: Short) -> AclFault {
        AclFault::Short
    }
}

impl From<SidFault> for AclFault {
    ghost from_gives = { λ fault e. e ≡ SidOf fault };

    fn from(fault: SidFault) -> AclFault {
        AclFault::Sid(fault)
    }
}

impl From<AllocError> for AclFault {
    ghost from_gives = { λ _ e. e ≡ Memory };

    fn from(_: AllocError) -> AclFault {
        AclFault::Memory
    }
}

impl<T: Drop> From<AllocFailed<T>> for AclFault {
    ghost from_gives = { λ _ e. e ≡ Memory };

    fn from(_: AllocFailed<T>) -> AclFault {
        AclFault::Memory
    }
}
