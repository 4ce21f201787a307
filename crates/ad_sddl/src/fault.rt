//! Why a text is no descriptor's: the kind and the place.

ghost use Rattle.std.specs.Prelude.{◌≡◌};
ghost use Rattle.ad_sddl.specs.declared.fault.ParseError.TheVariants.{Memory as NoMemory};
ghost use Rattle.ad_sddl.specs.declared.fault.SddlFault.TheVariants.{Memory as FaultMemory};

use std::alloc::AllocError;
use thiserror::Error;

/// What is wrong at the place of a fault.
#[derive(Clone, Copy, Debug, PartialEq, Eq)]
pub enum SddlKind {
    /// No part begins here.
    Part,
    /// A part begins here that was there before.
    Repeated,
    /// No security identifier and no alias begins here.
    Sid,
    /// An alias of a domain's principal stands here, and no domain is given or the given one has 15 sub-authorities.
    Domain,
    /// No type of an entry begins here.
    AceKind,
    /// Neither a flag nor the end of the flags stands here.
    Flag,
    /// Neither a right nor the end of the rights stands here.
    Rights,
    /// Neither a GUID nor the end of its field stands here, or a GUID stands here in an entry that has none.
    Guid,
    /// The `;` or `)` that has to stand here doesn't.
    Shape,
}

/// Why a text is no security descriptor's: the fault that stands first.
#[derive(Clone, Copy, Debug, PartialEq, Eq, Error)]
pub enum SddlFault {
    /// The text goes wrong.
    #[error("at place {place} the text of the security descriptor goes wrong: {kind:?}")]
    Bad {
        /// The number of bytes before the fault.
        place: usize,
        kind: SddlKind,
    },
    /// Memory ran out.
    #[error("memory ran out")]
    Memory,
}

// Where reading stops: a fault with the number of bytes from it to the end.
#[derive(Clone, Copy, Debug, PartialEq, Eq)]
pub(crate) enum ParseError {
    Bad(SddlKind, usize),
    Memory,
}

impl From<AllocError> for ParseError {
    ghost from_gives = { λ _ e. e ≡ NoMemory };

    fn from(_: AllocError) -> ParseError {
        ParseError::Memory
    }
}

impl From<AllocError> for SddlFault {
    ghost from_gives = { λ _ e. e ≡ FaultMemory };

    fn from(_: AllocError) -> SddlFault {
        SddlFault::Memory
    }
}
