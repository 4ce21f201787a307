//! A text as it is shown: it stays on its line, and no terminal turns it round.

ghost use Rattle.std.specs.Prelude.{◌<◌};

use std::fmt;

/// A text in which each byte of a control, of a separator of lines and of a mark of direction stands as `\` and two
/// upper-case hexadecimal digits.
#[derive(Clone, Copy)]
pub struct Shown<'a> {
    pub text: &'a str,
}

// Whether a character is a control, separates lines, or is a mark of direction.
fn is_hidden(c: u32) -> bool {
    c <= 0x1f
        || (0x7f <= c && c <= 0x9f)
        || c == 0x61c
        || c == 0x200e
        || c == 0x200f
        || (0x2028 <= c && c <= 0x202e)
        || (0x2066 <= c && c <= 0x2069)
        || c == 0xfeff
}

fn digit(n: u8) -> char
    requires { n < 16 }
{
    if n < 10 {
        char::from(b'0' + n)
    } else {
        char::from(b'A' + (n - 10))
    }
}

fn put_byte<W: fmt::Write>(f: &mut fmt::Formatter<W>, byte: u8) -> fmt::Result {
    f.write_char('\\')?;
    f.write_char(digit(byte / 16))?;
    f.write_char(digit(byte % 16))
}

// Puts the bytes of a character, which are three at most where it is hidden.
fn put_bytes<W: fmt::Write>(f: &mut fmt::Formatter<W>, c: u32) -> fmt::Result {
    if c < 0x80 {
        return put_byte(f, (c % 256) as u8);
    }
    if c < 0x800 {
        put_byte(f, (0xc0 + c / 64 % 32) as u8)?;
        return put_byte(f, (0x80 + c % 64) as u8);
    }
    put_byte(f, (0xe0 + c / 4096 % 16) as u8)?;
    put_byte(f, (0x80 + c / 64 % 64) as u8)?;
    put_byte(f, (0x80 + c % 64) as u8)
}

fn put_char<W: fmt::Write>(f: &mut fmt::Formatter<W>, c: char) -> fmt::Result {
    if is_hidden(u32::from(c)) {
        return put_bytes(f, u32::from(c));
    }
    f.write_char(c)
}

impl fmt::Display for Shown<'_> {
    fn fmt<W: fmt::Write>(&self, f: &mut fmt::Formatter<W>) -> fmt::Result {
        for c in self.text.chars() {
            put_char(f, c)?;
        }
        Ok(())
    }
}
