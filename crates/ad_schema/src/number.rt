//! Numbers and truth values as texts.

ghost use Rattle.std.specs.Prelude.{◌≡◌, ◌<◌, ◌≤◌, ◌^◌, IfSome};
ghost use Rattle.std.specs.Option.{option_and_then};
ghost use Rattle.ad_schema_classes.specs.Names.{same_name};
ghost use Rattle.ad_schema.specs.Numbers.{if_below, digits_behind, number_below};
ghost use Rattle.ad_schema.specs.Numbers.{signed_bits, truth_of};
ghost use Rattle.ad_ids.specs.GuidText.{guid_of_text};

use ad_schema_classes::same_name;

/// The number that digits encode, where it is below the limit.
#[tactic(auto, unfolding(crate::specs::Numbers::digits_behind))]
fn digits_below(limit: u64, text: &[u8]) -> Option<u64>
    requires some { 0 < limit }
    requires small { limit ≤ 2 ^ 32 }
    ensures value { result ≡ option_and_then (if_below limit) (digits_behind 0 text.now) }
    ensures below { IfSome result (λ n. n < limit) }
{
    let mut number = 0;
    for byte in text {
        if !byte.is_ascii_digit() {
            return None;
        }
        number = number * 10 + u64::from(*byte - b'0');
        if number >= limit {
            return None;
        }
    }
    Some(number)
}

/// The number of a text of decimal digits without sign or leading zero, where it is below the limit.
#[tactic(auto, unfolding(crate::specs::Numbers::number_below, crate::specs::Numbers::number))]
pub fn number_below(limit: u64, text: &[u8]) -> Option<u64>
    requires some { 0 < limit }
    requires small { limit ≤ 2 ^ 32 }
    ensures value { result ≡ number_below limit text.now }
    ensures below { IfSome result (λ n. n < limit) }
{
    match text {
        [] | [b'0', _, ..] => None,
        _ => digits_below(limit, text),
    }
}

/// The 32 bits of a signed number of 32 bits, in decimal without leading zero or `-0`.
#[tactic(auto, unfolding(crate::specs::Numbers::signed_bits))]
pub fn signed_bits(text: &[u8]) -> Option<u64>
    ensures { result ≡ signed_bits text.now }
{
    match text {
        [] => None,
        [b'-', digits @ ..] => match number_below((1 << 31) + 1, digits) {
            None | Some(0) => None,
            Some(number) => Some((1 << 32) - number),
        },
        _ => number_below(1 << 31, text),
    }
}

/// TRUE or FALSE, in either case.
#[tactic(auto, unfolding(crate::specs::Numbers::truth_of))]
pub fn truth_of(text: &[u8]) -> Option<bool>
    ensures { result ≡ truth_of text.now }
{
    if same_name(text, b"TRUE") {
        return Some(true);
    }
    if same_name(text, b"FALSE") {
        return Some(false);
    }
    None
}
