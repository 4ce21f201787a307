//! A source whose first bytes are noted.

use site_io::{Failed, Source};
use std::alloc::Global;

/// A source, and the first bytes that came of it.
#[derive(Drop)]
pub struct Noted<I: Drop> {
    source: I,
    first: Vec<u8>,
    most: usize,
}

fn note(first: &mut Vec<u8>, most: usize, bytes: &[u8]) {
    for byte in bytes {
        if first.len() >= most || first.push(*byte).is_err() {
            return;
        }
    }
}

impl<I: Source + Drop> Noted<I> {
    /// Nothing came of the source yet, and so many bytes will be noted.
    pub fn new(alloc: Global, source: I, most: usize) -> Noted<I> {
        Noted {
            source,
            first: Vec::new(alloc),
            most,
        }
    }

    /// The source.
    pub fn source(&self) -> &I {
        &self.source
    }

    /// The first bytes that came of it.
    pub fn first(&self) -> &[u8] {
        self.first.as_slice()
    }
}

impl<I: Source + Drop> Source for Noted<I> {
    ghost rest = { λ s. I.rest s.source };

    ghost faults = { λ s. I.faults s.source };

    ghost takes = { λ s. I.takes s.source };

    ghost fails = { λ s. I.fails s.source };

    fn take(&mut self, into: &mut [u8]) -> Result<usize, Failed> {
        let taken = self.source.take(into);
        if let Ok(n) = taken {
            note(&mut self.first, self.most, &into[..n]);
        }
        taken
    }
}
