//! Hexadecimal digits, one at a time.

ghost use Rattle.std.specs.Prelude.{◌≡◌, ◌<◌, IfSome};
ghost use Rattle.uuid.specs.Text.{hex_digit_value};
ghost use Rattle.ad_bytes.specs.Hex.{hex_digit};

const HEX_DIGITS: [u8; 16] = *b"0123456789abcdef";

/// What a hexadecimal digit is worth, in either case: 0 to 15. None for any other byte.
pub fn hex_value(byte: u8) -> Option<u8>
    ensures value { result ≡ hex_digit_value byte }
    ensures below { IfSome result (λ value. value < 16) }
{
    match byte {
        b'0'..=b'9' => Some(byte - b'0'),
        b'a'..=b'f' => Some(byte - b'a' + 10),
        b'A'..=b'F' => Some(byte - b'A' + 10),
        _ => None,
    }
}

/// The hexadecimal digit of a number below 16, in lower case.
pub fn hex_char(digit: u8) -> char
    requires { digit < 16 }
    ensures digit { result ≡ hex_digit digit }
    ensures ascii { result < 128 }
{
    char::from(HEX_DIGITS[usize::from(digit)])
}
