//! That what a slice holds are bytes, which a contract can't see from outside. These functions do nothing.

ghost use Rattle.std.specs.List.{AllByRecursion};
ghost use Rattle.ad_bytes.specs.Reading.{IsBytes};

use crate::bytes::Bytes;

/// What a slice of bytes holds are numbers below 256.
pub fn is_bytes(bytes: &[u8])
    ensures { IsBytes bytes.now }
{
    let _ = bytes;
}

/// So it is of each of these.
pub fn are_bytes(values: &[Bytes])
    ensures { AllByRecursion IsBytes values.now }
{
    for value in values {
        is_bytes(value.as_slice());
    }
}
