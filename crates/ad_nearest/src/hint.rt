//! What is told of a word that names nothing.

ghost use Rattle.std.specs.Prelude.{◌<◌};

use crate::shown::Shown;
use std::alloc::Global;
use std::fmt;

/// A word that names nothing, and the nearest names that something has.
#[derive(Drop)]
pub struct Hint<'a> {
    pub(crate) what: &'static str,
    pub(crate) word: &'a str,
    pub(crate) names: Vec<Vec<u8>>,
    pub(crate) remark: &'static str,
}

/// What is told where no name is near.
pub(crate) fn plain<'a>(
    alloc: Global,
    what: &'static str,
    word: &'a str,
    remark: &'static str,
) -> Hint<'a> {
    Hint {
        what,
        word,
        names: Vec::new(alloc),
        remark,
    }
}

// What stands before the name at a place, of so many.
fn before(place: usize, count: usize) -> &'static str
    requires { place < count }
{
    if place == 0 {
        ": did you mean "
    } else if place + 1 < count {
        ", "
    } else {
        " or "
    }
}

fn put_name<W: fmt::Write>(f: &mut fmt::Formatter<W>, name: &[u8]) -> fmt::Result {
    match str::from_utf8(name) {
        Ok(text) => fmt::Display::fmt(&Shown { text }, f),
        Err(_) => f.write_char('?'),
    }
}

fn put_names<W: fmt::Write>(f: &mut fmt::Formatter<W>, names: &[Vec<u8>]) -> fmt::Result {
    for i in 0..names.len() {
        f.write_str(before(i, names.len()))?;
        put_name(f, names[i].as_slice())?;
    }
    f.write_char('?')
}

// A blank and the word, where it isn't empty.
fn put_word<W: fmt::Write>(f: &mut fmt::Formatter<W>, word: &str) -> fmt::Result {
    if word.is_empty() {
        return Ok(());
    }
    f.write_char(' ')?;
    fmt::Display::fmt(&Shown { text: word }, f)
}

impl fmt::Display for Hint<'_> {
    fn fmt<W: fmt::Write>(&self, f: &mut fmt::Formatter<W>) -> fmt::Result {
        f.write_str(self.what)?;
        put_word(f, self.word)?;
        if !self.names.is_empty() {
            return put_names(f, self.names.as_slice());
        }
        f.write_str(self.remark)
    }
}
