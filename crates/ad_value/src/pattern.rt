//! Patterns of pieces, and which values they fit.

ghost use Rattle.std.specs.Prelude.{◌≡◌, ◌↔◌, ◌++◌, [], List, ℕ, IsTrue, MatchOption, unwrap_or};
ghost use Rattle.ad_value.specs.Pieces.{Stand, FitsText, Fits, fits_key};
ghost use Rattle.ad_value.specs.Search.{IsLeftmost, IsNowhere};

use crate::value::Value;
use ad_bytes::{Bytes, List};
use memchr::memmem;

/// A list of pieces, which a contract sees as one.
pub type Pieces = List<Bytes>;

/// What a value is searched for (RFC 4511 4.5.1.7.2, the initial, any and final substrings): pieces of keys, so of
/// a text after case folding.
#[derive(Debug, Drop)]
pub struct Pattern {
    /// The initial piece: what the value begins with.
    pub first: Option<Bytes>,
    /// The other pieces: what stands between, in this order and without overlap.
    pub middle: Pieces,
    /// The final piece: what the value ends with.
    pub last: Option<Bytes>,
}

// What stands after the initial piece, where the text begins with it.
fn after_initial<'a>(first: &Option<Bytes>, text: &'a [u8]) -> Option<&'a [u8]>
    ensures { MatchOption result ((rest : List ℕ) → text.now ≡ unwrap_or first.now [] ++ rest → ⊥)
        (λ rest. text.now ≡ unwrap_or first.now [] ++ rest.now) }
{
    match first {
        None => Some(text),
        Some(first) => match text.strip_prefix(first.as_slice()) {
            Some(rest) => Some(rest),
            None => None,
        },
    }
}

// What stands before the final piece, where the text ends with it.
fn before_final<'a>(last: &Option<Bytes>, text: &'a [u8]) -> Option<&'a [u8]>
    ensures { MatchOption result ((prefix : List ℕ) → text.now ≡ prefix ++ unwrap_or last.now []
        → ⊥)
        (λ prefix. text.now ≡ prefix.now ++ unwrap_or last.now []) }
{
    match last {
        None => Some(text),
        Some(last) => match text.strip_suffix(last.as_slice()) {
            Some(prefix) => Some(prefix),
            None => None,
        },
    }
}

// What stands after a piece, taken as far to the left as it stands in the text.
fn after_piece<'a>(piece: &[u8], text: &'a [u8]) -> Option<&'a [u8]>
    ensures { MatchOption result (IsNowhere piece.now text.now)
        (λ after. IsLeftmost piece.now text.now after.now) }
{
    match memmem::find(text, piece) {
        Some(offset) => Some(&text[offset + piece.len()..]),
        None => None,
    }
}

// Whether the pieces stand in the text in this order: each is taken as far to the left as it can be.
fn stand(pieces: &[Bytes], text: &[u8]) -> bool
    ensures { IsTrue result ↔ Stand pieces.now text.now }
{
    let mut rest = text;
    for piece in pieces {
        match after_piece(piece.as_slice(), rest) {
            Some(after) => rest = after,
            None => return false,
        }
    }
    true
}

fn fits_text(text: &[u8], parts: &Pattern) -> bool
    ensures { IsTrue result ↔ FitsText parts.now text.now }
{
    match after_initial(&parts.first, text) {
        None => false,
        Some(after) => match before_final(&parts.last, after) {
            None => false,
            Some(middle) => stand(parts.middle.as_slice(), middle),
        },
    }
}

/// Whether a value's key is the initial piece, a text in which the others stand in their order and
/// without overlap, and the final piece. A number fits no pattern. It takes no memory, and time in
/// proportion to the key and the pieces.
///
/// Whether the values of a syntax are searched for pieces at all is told by
/// [`Syntax::has_pieces`](crate::Syntax::has_pieces).
pub fn fits(value: &Value, parts: &Pattern) -> bool
    ensures fits { IsTrue result ↔ Fits parts.now value.now.key }
    ensures decided { result ≡ fits_key parts.now value.now.key }
{
    match value.key_bytes() {
        Some(text) => fits_text(text, parts),
        None => false,
    }
}
