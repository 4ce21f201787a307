//! Physical lines: a text up to the next LF or CR LF.

ghost use Rattle.std.specs.Prelude.{◌≡◌, ◌<◌, ◌∷◌, length};
ghost use Rattle.ad_ldif.specs.Lines.{begins_with, physical};
ghost use Rattle.ad_ldif.specs.Cut.{without_cr};

use memchr::memchr;

/// Whether a text begins with this byte.
pub fn begins_with(text: &[u8], byte: u8) -> bool
    ensures { result ≡ begins_with byte text.now }
{
    match text.first() {
        Some(first) => *first == byte,
        None => false,
    }
}

/// The line without the CR that is part of its end.
fn drop_cr(line: &[u8]) -> &[u8]
    ensures { result.now ≡ without_cr line.now }
{
    if line.is_empty() {
        return line;
    }
    let last = line.len() - 1;
    if line[last] == b'\r' {
        &line[..last]
    } else {
        line
    }
}

/// The first line of a text that is not empty, without its end, and what stands after its end.
pub fn cut(text: &[u8]) -> (&[u8], &[u8])
    requires { 0 < length text.now }
    ensures line { physical text.now ≡ result.0.now ∷ physical result.1.now }
    ensures shorter { length result.1.now < length text.now }
{
    match memchr(b'\n', text) {
        None => (text, &text[text.len()..]),
        Some(end) => (drop_cr(&text[..end]), &text[end + 1..]),
    }
}
