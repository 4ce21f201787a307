//! Why a text is no LDIF.

ghost use Rattle.std.specs.Prelude.{◌≡◌};
ghost use Rattle.ad_ldif.specs.declared.fault.LdifFault.TheVariants.{Memory};

use std::alloc::{AllocError, AllocFailed};
use thiserror::Error;

/// What is wrong with a line. Its text is the word by which a fault is told to people.
#[derive(Clone, Copy, Debug, PartialEq, Eq, Error)]
pub enum LdifKind {
    /// The line has no colon, a NUL, or a name with other bytes than letters, digits, `-` and
    /// `;`; or it continues a line where none stands before it.
    #[error("line")]
    Line,
    /// The value after `::` is no base64 with padding (RFC 4648, section 4).
    #[error("base64")]
    Base64,
    /// A record doesn't begin with `dn`. Of a record of `version: 1` alone the line is that one.
    #[error("no dn")]
    NoDn,
    /// The version is not `1`.
    #[error("version")]
    Version,
    /// A value is given by a URL, after `:<`.
    #[error("url")]
    Url,
    /// The change is not `add`.
    #[error("changetype")]
    ChangeType,
    /// A value has more than 1,048,576 bytes.
    #[error("too long")]
    TooLong,
}

/// Why there is no next record.
#[derive(Clone, Copy, Debug, PartialEq, Eq, Error)]
pub enum LdifFault {
    /// The first fault of the text. `line` is the number of the physical line where its logical
    /// line begins; the first of a text is 1.
    #[error("line {line} {kind}")]
    Bad { line: u32, kind: LdifKind },
    /// Memory ran out.
    #[error("memory ran out")]
    Memory,
}

impl From<AllocError> for LdifFault {
    ghost from_gives = { λ _ e. e ≡ Memory };

    fn from(_e: AllocError) -> LdifFault {
        LdifFault::Memory
    }
}

impl<T: Drop> From<AllocFailed<T>> for LdifFault {
    ghost from_gives = { λ _ e. e ≡ Memory };

    fn from(_e: AllocFailed<T>) -> LdifFault {
        LdifFault::Memory
    }
}
