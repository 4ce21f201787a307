//! Integers: the body of an element becomes a number.

ghost use Rattle.std.specs.Prelude.{◌≡◌};
ghost use Rattle.ad_ber.specs.Integer.{integer_of};

use crate::fault::BerFault;
use byteorder::{BigEndian, ByteOrder};

/// The integer that the body of an element encodes (X.690 8.3): two's complement in one to eight bytes, the most
/// significant first. It may have more bytes than it needs. It takes no memory.
///
/// # Errors
///
/// `Integer` where there are no bytes, or more than eight.
pub fn integer(body: &[u8]) -> Result<i64, BerFault>
    ensures { result ≡ integer_of body.now }
{
    let len = body.len();
    if len == 0 || len > 8 {
        return Err(BerFault::Integer);
    }
    Ok(BigEndian::read_int(body, len))
}
