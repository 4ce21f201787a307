//! Why bytes are no LDAP message.

ghost use Rattle.std.specs.Prelude.{◌≡◌};
ghost use Rattle.ad_ldap.specs.declared.fault.LdapFault.TheVariants as fault;

use ad_ber::BerFault;
use std::alloc::AllocError;
use thiserror::Error;

/// Why bytes are no LDAP message: the fault that stands first.
#[derive(Clone, Copy, Debug, PartialEq, Eq, Error)]
pub enum LdapFault {
    /// An element, or an integer, isn't one of BER.
    #[error("{0}")]
    Ber(BerFault),
    /// No message has there what begins at this offset, or lacks what would.
    #[error("no message goes on at byte {0}")]
    Form(usize),
    /// A filter stands within 64 others.
    #[error("the filter is deeper than 64")]
    Deep,
    /// Memory ran out.
    #[error("memory ran out")]
    Memory,
}

impl From<BerFault> for LdapFault {
    ghost from_gives = { λ ber e. e ≡ fault.Ber ber };

    fn from(fault: BerFault) -> LdapFault {
        LdapFault::Ber(fault)
    }
}

impl From<AllocError> for LdapFault {
    ghost from_gives = { λ _ e. e ≡ fault.Memory };

    fn from(_: AllocError) -> LdapFault {
        LdapFault::Memory
    }
}
