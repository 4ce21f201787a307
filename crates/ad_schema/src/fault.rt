//! Why records are no schema.

ghost use Rattle.std.specs.Prelude.{◌≡◌};
ghost use Rattle.ad_schema.specs.declared.fault.SchemaFault.TheVariants.{Memory};

use ad_bytes::Bytes;
use std::alloc::{AllocError, AllocFailed};
use thiserror::Error;

/// Why records are no schema.
#[derive(Debug, Drop, Error)]
pub enum SchemaFault {
    /// A record has no line of this name, which its kind requires.
    #[error("a record lacks a required line")]
    Missing(Bytes),
    /// A line of this name has a value that can't be read, or is one too many.
    #[error("a line has a wrong value")]
    Value(Bytes),
    /// There is an attribute or a class of this name already, or a right of the GUID of this one.
    #[error("a name or GUID is used twice")]
    Repeated(Bytes),
    /// An attribute or class of this name is named, but there is none.
    #[error("an attribute or class is missing")]
    Unknown(Bytes),
    /// The superclasses of the class of this name never end.
    #[error("the superclasses of a class never end")]
    Loop(Bytes),
    /// Memory ran out.
    #[error("memory ran out")]
    Memory,
}

impl From<AllocError> for SchemaFault {
    ghost from_gives = { λ _ e. e ≡ Memory };

    fn from(_: AllocError) -> SchemaFault {
        SchemaFault::Memory
    }
}

impl<T: Drop> From<AllocFailed<T>> for SchemaFault {
    ghost from_gives = { λ _ e. e ≡ Memory };

    fn from(_: AllocFailed<T>) -> SchemaFault {
        SchemaFault::Memory
    }
}
