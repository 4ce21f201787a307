//! The size of a sample, read from a word.

ghost use Rattle.std.specs.Prelude.{◌≡◌, ◌≤◌, IfSome};
ghost use Rattle.cmd_words.specs.Size.{is_digit, is_first, size_of, max_size};

/// The largest size.
const MAX_SIZE: u32 = 1000;

// Whether a byte is a decimal digit.
fn is_digit(byte: u8) -> bool
    ensures { result ≡ is_digit byte }
{
    byte >= b'0' && byte <= b'9'
}

// Whether it is one that a number may begin with.
fn is_first(byte: u8) -> bool
    ensures { result ≡ is_first byte }
{
    byte >= b'1' && byte <= b'9'
}

/// The size that a word names: a number from 1 to 1,000 in decimal, without leading zero.
pub fn size_of(word: &str) -> Option<u32>
    ensures value { result ≡ size_of word.now }
    ensures few { IfSome result (λ n. n ≤ max_size) }
{
    match *word.as_bytes() {
        [a] if is_first(a) => Some(u32::from(a - b'0')),
        [a, b] if is_first(a) && is_digit(b) => {
            Some(u32::from(a - b'0') * 10 + u32::from(b - b'0'))
        }
        [a, b, c] if is_first(a) && is_digit(b) && is_digit(c) => {
            Some((u32::from(a - b'0') * 10 + u32::from(b - b'0')) * 10 + u32::from(c - b'0'))
        }
        [b'1', b'0', b'0', b'0'] => Some(MAX_SIZE),
        _ => None,
    }
}
