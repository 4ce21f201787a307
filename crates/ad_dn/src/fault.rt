//! Why a text is no distinguished name.

ghost use Rattle.std.specs.Prelude.{◌≡◌};
ghost use Rattle.ad_dn.specs.declared.fault.DnFault.TheVariants as fault;

use std::alloc::AllocError;
use thiserror::Error;

/// Why a text is no name's.
#[derive(Clone, Copy, Debug, PartialEq, Eq, Error)]
pub enum DnFault {
    /// The text goes wrong at this place: so many bytes of it begin some name's text, and no more.
    #[error("no name's text has this at place {place}")]
    Bad { place: usize },
    /// Memory ran out.
    #[error("memory ran out")]
    Memory,
}

impl From<AllocError> for DnFault {
    ghost from_gives = { λ _ e. e ≡ fault.Memory };

    fn from(_: AllocError) -> DnFault {
        DnFault::Memory
    }
}
