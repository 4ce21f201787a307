//! Why checks of values aren't gone on with.

ghost use Rattle.std.specs.Prelude.{◌≡◌, IfOk};
ghost use Rattle.ad_change_values.specs.declared.refusal.Refusal.TheVariants as refusal;

use std::alloc::AllocError;

/// Why checks are not gone on with.
#[derive(Drop)]
pub enum Refusal {
    /// The first that fails gives this code of RFC 4511.
    Code(u8),
    /// Memory ran out.
    Memory,
}

impl From<AllocError> for Refusal {
    ghost from_gives = { λ _ e. e ≡ refusal.Memory };

    fn from(_: AllocError) -> Refusal {
        Refusal::Memory
    }
}

/// The code at which the checks stop, unless memory ran out.
pub fn code_of(why: Refusal) -> Result<u8, AllocError>
    ensures { IfOk result (λ code. why ≡ refusal.Code code) }
{
    match why {
        Refusal::Code(code) => Ok(code),
        Refusal::Memory => Err(AllocError),
    }
}
