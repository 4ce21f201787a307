//! A source over bytes in memory, for tests.

ghost use Rattle.std.specs.Prelude.{◌≡◌, ◌<◌, ◌≤◌, ◌++◌, [], length, take, drop, vec_len, Some, IfOk};

use crate::call::is_among;
use crate::{Failed, Source};
use std::alloc::{AllocError, Global};

/// A source over bytes in memory. It tells all, and fails at the takes that it was given and at no others.
#[derive(Drop)]
pub struct MemSource {
    bytes: Vec<u8>,
    at: usize,
    piece: u32,
    fail: Vec<u32>,
    takes: u32,
    faults: u64,
    ghost at_within: { at ≤ vec_len bytes },
    ghost piece_given: { 0 < piece },
}

impl MemSource {
    /// A source of these bytes. The calls of `take` whose numbers, from 0, are in `fail` fail.
    ///
    /// # Errors
    ///
    /// `AllocError` where there is no memory.
    pub fn new(alloc: Global, bytes: &[u8], fail: &[u32]) -> Result<MemSource, AllocError>
        ensures rest { IfOk result (λ source. ⟦<MemSource as Source>⟧.rest source
            ≡ Some bytes.now) }
        ensures faults { IfOk result (λ source. ⟦<MemSource as Source>⟧.faults source ≡ 0) }
        ensures takes { IfOk result (λ source. ⟦<MemSource as Source>⟧.takes source ≡ 0) }
        ensures fails { IfOk result (λ source. ⟦<MemSource as Source>⟧.fails source
            ≡ Some fail.now) }
    {
        MemSource::pieces(alloc, bytes, u32::MAX, fail)
    }

    /// The same source, which gives at most `piece` bytes at a `take`.
    ///
    /// # Errors
    ///
    /// `AllocError` where there is no memory.
    pub fn pieces(
        alloc: Global,
        bytes: &[u8],
        piece: u32,
        fail: &[u32],
    ) -> Result<MemSource, AllocError>
        requires { 0 < piece }
        ensures rest { IfOk result (λ source. ⟦<MemSource as Source>⟧.rest source
            ≡ Some bytes.now) }
        ensures faults { IfOk result (λ source. ⟦<MemSource as Source>⟧.faults source ≡ 0) }
        ensures takes { IfOk result (λ source. ⟦<MemSource as Source>⟧.takes source ≡ 0) }
        ensures fails { IfOk result (λ source. ⟦<MemSource as Source>⟧.fails source
            ≡ Some fail.now) }
    {
        Ok(MemSource {
            bytes: bytes.to_vec(alloc)?,
            at: 0,
            piece,
            fail: fail.to_vec(alloc)?,
            takes: 0,
            faults: 0,
        })
    }
}

// Copies the next bytes of what is left, at most so many, into a buffer.
fn give(rest: &[u8], most: usize, into: &mut [u8]) -> usize
    requires { 0 < most }
    ensures within { result ≤ length into.new }
    ensures left { result ≤ length rest.now }
    ensures next { rest.now ≡ take result into.new ++ drop result rest.now }
    ensures end { result ≡ 0 → 0 < length into.new → rest.now ≡ [] }
{
    let n = rest.len().min(into.len()).min(most);
    into[..n].copy_from_slice(&rest[..n]);
    n
}

impl Source for MemSource {
    ghost rest = { λ s. Some (drop s.at s.bytes.items) };

    ghost faults = { λ s. s.faults };

    ghost takes = { λ s. s.takes };

    ghost fails = { λ s. Some s.fail.items };

    fn take(&mut self, into: &mut [u8]) -> Result<usize, Failed> {
        let number = self.takes;
        self.takes = number.saturating_add(1);
        if is_among(&self.fail, number) {
            self.faults = self.faults.saturating_add(1);
            return Err(Failed);
        }
        let n = give(&self.bytes[self.at..], self.piece as usize, into);
        self.at += n;
        Ok(n)
    }
}
