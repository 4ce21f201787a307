//! The identifier whose text a text begins with.

ghost use Rattle.std.specs.Prelude.{◌≡◌, ◌≤◌, length, IfSome, IfNone};
ghost use Rattle.ad_bytes.specs.Prefix.{IsLongestPrefix, HasNoPrefix};
ghost use Rattle.ad_ids.specs.SidFront.{longest_front, with_length};
ghost use Rattle.ad_ids.specs.SidGrammar.{SpellsSidText};

use super::Sid;

impl Sid {
    /// The identifier of the longest prefix of the bytes that is an identifier's text, as [`Sid::from_text`] reads
    /// it, and the length of that prefix. None where no prefix is such a text. It takes no memory.
    pub fn from_text_front(text: &[u8]) -> Option<(Sid, usize)>
        // The longest prefix that encodes an identifier, and which.
        ensures found { IfSome result (λ found. IsLongestPrefix SpellsSidText found.0 found.1 text.now) }
        ensures none { IfNone result (HasNoPrefix SpellsSidText text.now) }
        // The same as a function of the text.
        ensures longest { with_length text.now result ≡ longest_front text.now }
        ensures within { IfSome result (λ found. found.1 ≤ length text.now) }
    {
        longest_prefix(text)
    }
}

fn longest_prefix(text: &[u8]) -> Option<(Sid, usize)>
    ensures longest { with_length text.now result ≡ longest_front text.now }
    ensures within { IfSome result (λ found. found.1 ≤ length text.now) }
{
    let end = match Sid::from_text(text) {
        Ok(sid) => return Some((sid, text.len())),
        Err(fault) => fault.place,
    };
    // Without a hyphen at its end what begins an identifier's text is one, unless it ends within the authority. So
    // few prefixes are tried.
    for len in (1..=end).rev() {
        if let Ok(sid) = Sid::from_text(&text[..len]) {
            return Some((sid, len));
        }
    }
    None
}
