//! The lines of a text, and the parts of a line.

ghost use Rattle.std.specs.Prelude.{◌≡◌, ◌==◌, ◌<◌, List, ℕ, length, Option, Some, None, IfSome};
ghost use Rattle.std.specs.Option.{option_map};
ghost use Rattle.std.specs.List.{position_from};
ghost use Rattle.ad_ldifmod.specs.Lines.{says_nothing, divided, verb_of, parts_of};
ghost use Rattle.ad_ldifmod.specs.Steps.{parts_seen, IsFirstLine};

/// The byte that ends a line.
const LINE_FEED: u8 = 10;

/// The byte between the parts of a line.
const BLANK: u8 = 32;

/// The word that a line begins with.
#[derive(Clone, Copy, Debug)]
pub(crate) enum Verb {
    Grant,
    Deny,
    Revoke,
}

/// The parts of a line: its word, an entry or an identifier, and a name.
#[derive(Clone, Copy)]
pub(crate) struct PartsIn<'a> {
    pub verb: Verb,
    pub what: &'a [u8],
    pub name: &'a [u8],
}

fn place_of(bytes: &[u8], byte: u8) -> Option<usize>
    ensures place { result ≡ position_from (λ b. b == byte) 0 bytes.now }
    ensures within { IfSome result (λ at. at < length bytes.now) }
{
    bytes.iter().position(|b| *b == byte)
}

// The bytes before the first of this kind, and those after it; none where there is none.
fn divided(bytes: &[u8], byte: u8) -> Option<(&[u8], &[u8])>
    ensures { option_map (λ parts. (parts.0.now, parts.1.now)) result ≡ divided byte bytes.now }
{
    match place_of(bytes, byte) {
        Some(at) => Some((&bytes[..at], &bytes[at + 1..])),
        None => None,
    }
}

/// The first line of a text that isn't empty, without its end, and the text after it.
pub(crate) fn first_line(text: &[u8]) -> (&[u8], &[u8])
    requires { 0 < length text.now }
    ensures { IsFirstLine text.now result.0.now result.1.now }
{
    match divided(text, LINE_FEED) {
        Some((line, behind)) => (line, behind),
        None => (text, &[]),
    }
}

/// Whether the line is empty or begins with `#`.
pub(crate) fn says_nothing(line: &[u8]) -> bool
    ensures { result ≡ says_nothing line.now }
{
    match line.first() {
        Some(byte) => *byte == b'#',
        None => true,
    }
}

fn verb_of(word: &[u8]) -> Option<Verb>
    ensures { result ≡ verb_of word.now }
{
    if word == b"grant".as_slice() {
        return Some(Verb::Grant);
    }
    if word == b"deny".as_slice() {
        return Some(Verb::Deny);
    }
    if word == b"revoke".as_slice() {
        return Some(Verb::Revoke);
    }
    None
}

/// The parts of a line; none where it has another form.
#[tactic(auto, unfolding(crate::specs::Lines::parts_of))]
pub(crate) fn parts_of(line: &[u8]) -> Option<PartsIn<'_>>
    ensures { option_map parts_seen result ≡ parts_of line.now }
{
    let (word, rest) = divided(line, BLANK)?;
    let (what, name) = divided(rest, BLANK)?;
    let verb = verb_of(word)?;
    Some(PartsIn { verb, what, name })
}
