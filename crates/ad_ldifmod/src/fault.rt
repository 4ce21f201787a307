//! Why a text gives no messages.

ghost use Rattle.std.specs.Prelude.{◌≡◌};
ghost use Rattle.ad_ldifmod.specs.declared.fault.GrantFault.TheVariants.{Memory as FaultMemory};
ghost use Rattle.ad_ldifmod.specs.declared.fault.GrantKind.TheVariants.{TooLong as IsTooLong};
ghost use Rattle.ad_ldifmod.specs.declared.fault.Refusal.TheVariants.{Memory as NoMemory, Bad as IsBad};

use std::alloc::{AllocError, AllocFailed};
use thiserror::Error;

/// What is wrong at a line.
#[derive(Clone, Copy, Debug, PartialEq, Eq)]
pub enum GrantKind {
    /// Neither `grant <entry> <name>` nor `deny <entry> <name>` nor `revoke <identifier> <name>`, parted by one
    /// blank.
    Form,
    /// The entry isn't one, isn't of the line's kind, or says that it was inherited, or the identifier isn't one.
    Entry,
    /// The name isn't one, or no object has it.
    Name,
    /// The list takes more than 65,535 bytes, or the message more than 1,048,576.
    TooLong,
}

/// Why a text gives no messages: the first faulty line.
#[derive(Clone, Copy, Debug, PartialEq, Eq, Error)]
pub enum GrantFault {
    /// A line goes wrong; lines are counted from 1.
    #[error("line {line} goes wrong: {kind:?}")]
    Bad { line: u32, kind: GrantKind },
    /// Memory ran out.
    #[error("memory ran out")]
    Memory,
}

// Why a line gives no message.
#[derive(Clone, Copy, Debug, PartialEq, Eq)]
pub(crate) enum Refusal {
    Bad(GrantKind),
    Memory,
}

impl From<AllocError> for Refusal {
    ghost from_gives = { λ _ e. e ≡ NoMemory };

    fn from(_: AllocError) -> Refusal {
        Refusal::Memory
    }
}

impl From<AllocError> for GrantFault {
    ghost from_gives = { λ _ e. e ≡ FaultMemory };

    fn from(_: AllocError) -> GrantFault {
        GrantFault::Memory
    }
}

impl<T: Drop> From<AllocFailed<T>> for GrantFault {
    ghost from_gives = { λ _ e. e ≡ FaultMemory };

    fn from(_: AllocFailed<T>) -> GrantFault {
        GrantFault::Memory
    }
}
