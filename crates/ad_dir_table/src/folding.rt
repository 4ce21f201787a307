//! Whether bytes are those of a text after case folding, without any memory.

ghost use Rattle.std.specs.Prelude.{◌≡◌, ℕ, ◌++◌, List, false, encode_utf8_all};
ghost use Rattle.std.specs.Char.{encode_utf8};
ghost use Rattle.std.specs.Option.{option_map_or};
ghost use Rattle.std.specs.Str.{bytes_eq};
ghost use Rattle.ucd_case.specs.CaseFolding.{full_fold};
ghost use Rattle.ad_dn.specs.Fold.{folded};

use ucd_case::full_folding;

// What stands behind the character, where the bytes begin with it.
fn past_char(bytes: &[u8], character: char) -> Option<&[u8]>
    ensures { (more : List ℕ) → bytes_eq (encode_utf8 character ++ more) bytes.now
        ≡ option_map_or (λ rest. bytes_eq more rest.now) result false }
{
    let mut place = [0; 4];
    bytes.strip_prefix(character.encode_utf8(&mut place).as_bytes())
}

// Behind these characters.
fn past_all<'a>(bytes: &'a [u8], characters: &[char]) -> Option<&'a [u8]>
    ensures { (more : List ℕ) → bytes_eq (encode_utf8_all characters.now ++ more) bytes.entry.now
        ≡ option_map_or (λ rest. bytes_eq more rest.now) result false }
{
    let mut rest = bytes;
    for character in characters {
        match past_char(rest, *character) {
            Some(more) => rest = more,
            None => return None,
        }
    }
    Some(rest)
}

// Behind what the character is folded to.
fn past_folded(bytes: &[u8], character: char) -> Option<&[u8]>
    ensures { (more : List ℕ) → bytes_eq (encode_utf8_all (full_fold character) ++ more) bytes.now
        ≡ option_map_or (λ rest. bytes_eq more rest.now) result false }
{
    let folded = full_folding(character);
    if folded.is_empty() {
        return past_char(bytes, character);
    }
    past_all(bytes, folded)
}

/// Whether the bytes are the text after case folding.
pub(crate) fn is_folding(text: &str, bytes: &[u8]) -> bool
    ensures { result ≡ bytes_eq (folded text.now) bytes.now }
{
    let mut rest = text.chars();
    let mut left = bytes;
    'walk: loop {
        match rest.next() {
            Some(character) => match past_folded(left, character) {
                Some(more) => left = more,
                None => return false,
            },
            None => return left.is_empty(),
        }
    }
}
