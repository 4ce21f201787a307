//! The words that the program is called with.

use std::alloc::AllocGlobal;
use std::env::{self, FillError};
use std::io;
use std::rt::Env;

/// The environment of a program whose name is empty. By what path a program is called is none of its words, and the
/// path may be no Unicode.
#[derive(Drop)]
struct Nameless<'a, R> {
    rt: &'a R,
}

impl<R: Env> Env for Nameless<'_, R> {
    fn arg(&self, i: usize, buf: &mut [u8]) -> Result<usize, FillError> {
        if i == 0 { Ok(0) } else { self.rt.arg(i, buf) }
    }

    fn var(&self, name: &str, buf: &mut [u8]) -> Result<usize, FillError> {
        self.rt.var(name, buf)
    }

    fn var_at(&self, i: usize, buf: &mut [u8]) -> Result<usize, FillError> {
        self.rt.var_at(i, buf)
    }
}

/// The words after the program's name.
///
/// # Errors
///
/// `InvalidData` where a word is no UTF-8, and `OutOfMemory`.
pub fn words<R: Env + AllocGlobal>(rt: &R) -> io::Result<Vec<String>> {
    let mut words = Vec::new(rt.alloc());
    for word in env::args(&(Nameless { rt }, rt.alloc()))?.skip(1) {
        words.push(word)?;
    }
    Ok(words)
}
