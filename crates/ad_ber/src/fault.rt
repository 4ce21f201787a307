//! Why bytes are no element.

ghost use Rattle.std.specs.Prelude.{◌≡◌};
ghost use Rattle.ad_ber.specs.declared.fault.BerFault.TheVariants as fault;

use thiserror::Error;

/// Why bytes are no element, or no integer: the fault that stands first.
#[derive(Clone, Copy, Debug, PartialEq, Eq, Error)]
pub enum BerFault {
    /// The bytes end before the element does.
    #[error("the element is cut short")]
    Short,
    /// The tag's number is above 30.
    #[error("the number of the tag is above 30")]
    Tag,
    /// The length has the indefinite form.
    #[error("the length is indefinite")]
    Indefinite,
    /// The length is above 2^32 - 1.
    #[error("the length is above 2^32 - 1")]
    Long,
    /// An integer has no bytes, or more than eight.
    #[error("an integer has no bytes, or more than eight")]
    Integer,
}

impl From<ad_bytes::Short> for BerFault {
    ghost from_gives = { λ _ e. e ≡ fault.Short };

    fn from(_: ad_bytes::Short) -> BerFault {
        BerFault::Short
    }
}
