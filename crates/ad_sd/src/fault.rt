//! Why bytes are no descriptor.

ghost use Rattle.std.specs.Prelude.{◌≡◌};
ghost use Rattle.ad_sd.specs.declared.fault.SdFault.TheVariants.{Short as SdShort};

use ad_acl::AclFault;
use ad_bytes::Short;
use ad_ids::SidFault;
use thiserror::Error;

/// Why bytes are no self-relative descriptor: the fault that stands first in the order in which it is read.
#[derive(Clone, Copy, Debug, PartialEq, Eq, Error)]
pub enum SdFault {
    /// There are fewer than the 20 bytes of the header.
    #[error("the security descriptor is cut short")]
    Short,
    /// The revision is not 1.
    #[error("the security descriptor has revision {0}")]
    Revision(u8),
    /// The offset of a part is at the end of the bytes or after it: 1 of the owner, 2 of the group, 8 of the
    /// SACL, 4 of the DACL.
    #[error("the offset of part {0} of the security descriptor is past its end")]
    Offset(u8),
    /// The owner is no security identifier.
    #[error("in the owner: {0}")]
    Owner(SidFault),
    /// The group is no security identifier.
    #[error("in the group: {0}")]
    Group(SidFault),
    /// The SACL is none.
    #[error("in the system list: {0}")]
    Sacl(AclFault),
    /// The DACL is said to be there, and its offset is 0: such a descriptor grants everything.
    #[error("the discretionary list is null")]
    NullDacl,
    /// The DACL is none.
    #[error("in the discretionary list: {0}")]
    Dacl(AclFault),
    /// The owner is absent.
    #[error("the security descriptor has no owner")]
    NoOwner,
    /// The group is absent.
    #[error("the security descriptor has no group")]
    NoGroup,
    /// The DACL is absent.
    #[error("the security descriptor has no discretionary list")]
    NoDacl,
    /// Memory ran out.
    #[error("memory ran out")]
    Memory,
}

impl From<Short> for SdFault {
    ghost from_gives = { λ _ e. e ≡ SdShort };

    fn from(_: Short) -> SdFault {
        SdFault::Short
    }
}
