//! Why there is no next frame.

ghost use Rattle.std.specs.Prelude.{◌≡◌};
ghost use Rattle.ad_frames.specs.Fault.{token_fault};
ghost use Rattle.ad_frames.specs.declared.fault.FrameFault.TheVariants as fault;

use ad_bytes::Short;
use ad_ids::TokenFault;
use site_io::Failed;
use std::alloc::AllocError;
use thiserror::Error;

/// Why there is no next frame: the fault that stands first.
#[derive(Clone, Copy, Debug, PartialEq, Eq, Error)]
pub enum FrameFault {
    /// The kind is none of 1 to 4.
    #[error("a frame has kind {0}")]
    Kind(u8),
    /// The connection is 1,024 or above.
    #[error("a frame has connection {0}")]
    Connection(u16),
    /// The length of the body is above 1,048,576, or not 4 for steps, or not 0 for a run.
    #[error("a frame has a body of {0} bytes")]
    Length(u32),
    /// The number of steps is 0 or above 1,000,000.
    #[error("a frame asks for {0} steps")]
    Steps(u32),
    /// The body is no token.
    #[error("{0}")]
    Token(TokenFault),
    /// The input ends within the header or the body.
    #[error("a frame is cut short")]
    Truncated,
    /// The source failed, which its count tells.
    #[error("the source failed")]
    Source,
    /// Memory ran out.
    #[error("memory ran out")]
    Memory,
}

impl From<Short> for FrameFault {
    ghost from_gives = { λ _ e. e ≡ fault.Truncated };

    fn from(_: Short) -> FrameFault {
        FrameFault::Truncated
    }
}

impl From<Failed> for FrameFault {
    ghost from_gives = { λ _ e. e ≡ fault.Source };

    fn from(_: Failed) -> FrameFault {
        FrameFault::Source
    }
}

impl From<TokenFault> for FrameFault {
    ghost from_gives = { λ t e. e ≡ token_fault t };

    fn from(fault: TokenFault) -> FrameFault {
        match fault {
            TokenFault::Memory => FrameFault::Memory,
            other => FrameFault::Token(other),
        }
    }
}

impl From<AllocError> for FrameFault {
    ghost from_gives = { λ _ e. e ≡ fault.Memory };

    fn from(_: AllocError) -> FrameFault {
        FrameFault::Memory
    }
}
