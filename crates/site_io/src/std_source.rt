//! A source over a reader, as standard input is one.

ghost use Rattle.std.specs.Prelude.{◌≡◌, None};

use crate::{Failed, Source};
use std::io;
use std::io::{ErrorKind, Read};

/// A source over a reader. It tells no content, and remembers why it failed first.
#[derive(Drop)]
pub struct StdSource<R> {
    reader: R,
    faults: u64,
    cause: Option<io::Error>,
}

impl<R> StdSource<R> {
    /// The source of what the reader gives. Its count of faults begins at 0.
    pub fn new(reader: R) -> Self
        ensures counts { result.faults ≡ 0 }
        ensures cause { result.cause ≡ None }
    {
        StdSource {
            reader,
            faults: 0,
            cause: None,
        }
    }

    /// Why the first take that failed did.
    pub fn cause(&self) -> Option<io::Error>
        ensures { result ≡ self.now.cause }
    {
        self.cause
    }
}

impl<R: Read> Source for StdSource<R> {
    ghost rest = { λ _. None };

    ghost faults = { λ s. s.faults };

    ghost takes = { λ _. 0 };

    ghost fails = { λ _. None };

    fn take(&mut self, into: &mut [u8]) -> Result<usize, Failed> {
        for _ in 0..u64::MAX {
            match self.reader.read(into) {
                Ok(n) => return Ok(n),
                Err(e) => {
                    if e.kind() != ErrorKind::Interrupted {
                        self.cause = self.cause.or(Some(e));
                        break;
                    }
                }
            }
        }
        self.faults = self.faults.saturating_add(1);
        Err(Failed)
    }
}
