//! Why bytes are no value.

ghost use Rattle.std.specs.Prelude.{◌≡◌};
ghost use Rattle.ad_value.specs.declared.fault.ValueFault.TheVariants as fault;

use std::alloc::AllocError;
use thiserror::Error;

/// Why bytes are no value of a syntax.
#[derive(Clone, Copy, Debug, PartialEq, Eq, Error)]
pub enum ValueFault {
    /// They are more than 1,048,576.
    #[error("the value has more than 1,048,576 bytes")]
    TooLong,
    /// They haven't the form of the syntax.
    #[error("the value isn't of its attribute's syntax")]
    Syntax,
    /// Memory ran out.
    #[error("memory ran out")]
    Memory,
}

impl From<AllocError> for ValueFault {
    ghost from_gives = { λ _ e. e ≡ fault.Memory };

    fn from(_: AllocError) -> ValueFault {
        ValueFault::Memory
    }
}
