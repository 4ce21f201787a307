//! The size of a sample, read from a word.

ghost use Rattle.std.specs.Prelude.{◌≡◌, ◌≤◌, ◌<◌, ◌+◌, IfSome};
ghost use Rattle.std.specs.Option.{option_and_then};
ghost use Rattle.ad_schema.specs.Numbers.{if_below, digits_behind, number_below};
ghost use Rattle.cmd_store_serve.specs.Size.{size_of, max_size};

use ad_gen::MAX_UNITS;

/// One more than the largest size.
const LIMIT: u32 = MAX_UNITS + 1;

// The number that digits encode, where it is below the limit.
#[tactic(auto, unfolding(ad_schema::specs::Numbers::digits_behind))]
fn digits_below(text: &[u8]) -> Option<u32>
    ensures value { result ≡ option_and_then (if_below (max_size + 1)) (digits_behind 0 text.now) }
    ensures below { IfSome result (λ n. n < max_size + 1) }
{
    let mut number = 0;
    for byte in text {
        if !byte.is_ascii_digit() {
            return None;
        }
        number = number * 10 + u32::from(*byte - b'0');
        if number >= LIMIT {
            return None;
        }
    }
    Some(number)
}

// The number of a text of decimal digits without leading zero, where it is below the limit.
#[tactic(auto, unfolding(ad_schema::specs::Numbers::number_below, ad_schema::specs::Numbers::number))]
fn number_below(text: &[u8]) -> Option<u32>
    ensures value { result ≡ number_below (max_size + 1) text.now }
    ensures below { IfSome result (λ n. n < max_size + 1) }
{
    match text {
        [] | [b'0', _, ..] => None,
        _ => digits_below(text),
    }
}

/// The size that a word names: a number from 1 to 1,000 in decimal, without leading zero.
pub fn size_of(word: &str) -> Option<u32>
    ensures value { result ≡ size_of word.now }
    ensures few { IfSome result (λ n. n ≤ max_size) }
{
    match number_below(word.as_bytes()) {
        Some(0) => None,
        other => other,
    }
}
