//! Values that are numbers.

ghost use Rattle.std.specs.Prelude.{◌≡◌, ◌≢◌, ℤ, FitsSigned, MatchOption, MatchBool, IsTrue, ◌↔◌};
ghost use Rattle.std.specs.Int.{w32, w64};
ghost use Rattle.std.specs.Fmt.{signed_decimal};
ghost use Rattle.ad_value.specs.Value.{value};
ghost use Rattle.ad_value.specs.declared.value.Key.TheVariants as key;
ghost use Rattle.ad_value.specs.Normal.{IsNumber};
ghost use Rattle.ad_value.specs.Reading.{Reads};

use crate::fault::ValueFault;
use crate::value::Value;
use itoa::Buffer;
use std::alloc::Global;

// Whether these bytes are what is written for the number in decimal.
fn is_written(number: i64, bytes: &[u8]) -> bool
    ensures { MatchBool result (bytes.now ≡ signed_decimal number)
        (bytes.now ≢ signed_decimal number) }
{
    Buffer::new().format(number).as_bytes() == bytes
}

/// The number of 64 bits that is written so.
pub(crate) fn number(bytes: &[u8]) -> Option<i64>
    ensures { MatchOption result
        ((n : ℤ) → FitsSigned w64 n → bytes.now ≢ signed_decimal n)
        (λ n. bytes.now ≡ signed_decimal n) }
{
    let text = match str::from_utf8(bytes) {
        Ok(text) => text,
        Err(_) => return None,
    };
    let number = match text.parse::<i64>() {
        Ok(number) => number,
        Err(_) => return None,
    };
    if is_written(number, bytes) {
        Some(number)
    } else {
        None
    }
}

fn fits_32(number: i64) -> bool
    ensures { IsTrue result ↔ FitsSigned w32 number }
{
    i32::try_from(number).is_ok()
}

fn of_number(alloc: Global, bytes: &[u8], number: i64) -> Result<Value, ValueFault>
    requires { bytes.now ≡ signed_decimal number }
    ensures { Reads (λ v. v ≡ value bytes.now (key.Number number)) result }
{
    Ok(Value::of_number(alloc, bytes, number)?)
}

/// A number of 64 bits.
pub fn large(alloc: Global, bytes: &[u8]) -> Result<Value, ValueFault>
    ensures { Reads (IsNumber w64 bytes.now) result }
{
    match number(bytes) {
        Some(number) => of_number(alloc, bytes, number),
        None => Err(ValueFault::Syntax),
    }
}

/// A number of 32 bits.
pub fn integer(alloc: Global, bytes: &[u8]) -> Result<Value, ValueFault>
    ensures { Reads (IsNumber w32 bytes.now) result }
{
    let number = match number(bytes) {
        Some(number) => number,
        None => return Err(ValueFault::Syntax),
    };
    if !fits_32(number) {
        return Err(ValueFault::Syntax);
    }
    of_number(alloc, bytes, number)
}
