//! Reading a whole input.

ghost use Rattle.std.specs.Prelude.{◌≡◌, ◌+◌, ◌<◌, ◌≤◌, ◌++◌, take, length, vec_len, OnOk, IfOk, IfSome, IsErrOf};
ghost use Rattle.site_io.specs.Counts.{HasRisen};
ghost use Rattle.site_io.specs.Whole.{LeavesAnEnd, ReadsWhole};
ghost use Rattle.site_io.specs.declared.whole.WholeFault.TheVariants.{Memory, Source as SourceFailed};

use crate::{Failed, Source};
use std::alloc::{AllocError, AllocFailed, Global};
use thiserror::Error;

const CHUNK: usize = 65_536;

/// Why a whole input wasn't read.
#[derive(Clone, Copy, Debug, PartialEq, Eq, Error)]
pub enum WholeFault {
    /// The source failed.
    #[error("the input could not be read")]
    Source,
    /// There is no memory.
    #[error("memory ran out")]
    Memory,
}

impl From<Failed> for WholeFault {
    ghost from_gives = { λ _ e. e ≡ SourceFailed };

    fn from(_: Failed) -> Self {
        WholeFault::Source
    }
}

impl From<AllocError> for WholeFault {
    ghost from_gives = { λ _ e. e ≡ Memory };

    fn from(_: AllocError) -> Self {
        WholeFault::Memory
    }
}

// A buffer for the bytes of one take.
fn room(alloc: Global) -> Result<Vec<u8>, AllocError>
    ensures { IfOk result (λ bytes. 0 < vec_len bytes) }
{
    vec![in alloc; 0u8; CHUNK]
}

// Appends the first n bytes of a chunk.
fn keep(whole: &mut Vec<u8>, chunk: &[u8], n: usize) -> Result<(), AllocError>
    requires { n ≤ length chunk.now }
    ensures grown { OnOk result (whole.new.items ≡ whole.old.items ++ take n chunk.now) }
    ensures length { OnOk result (vec_len whole.new ≡ vec_len whole.old + n) }
{
    whole.extend_from_slice(&chunk[..n])
}

/// Reads an input to its end. Some bytes come where it has at most `limit` of them, and None as soon as more than
/// `limit` bytes came.
///
/// # Errors
///
/// `Source` where the source failed, which its count tells; `Memory` where there is no memory.
pub fn read_whole<I: Source>(
    alloc: Global,
    source: &mut I,
    limit: usize,
) -> Result<Option<Vec<u8>>, WholeFault>
    ensures whole { ReadsWhole (I.rest source.old) (I.rest source.new) limit result }
    ensures within { IfOk result (λ whole. IfSome whole (λ bytes. vec_len bytes ≤ limit)) }
    ensures told { LeavesAnEnd (I.rest source.old) (I.rest source.new) }
    ensures never_falls { I.faults source.old ≤ I.faults source.new }
    ensures cause { IsErrOf result WholeFault.Source → HasRisen (I.faults source.old)
        (I.faults source.new) }
{
    let mut whole = Vec::new(alloc);
    let mut chunk = room(alloc)?;
    loop {
        let n = source.take(&mut chunk)?;
        if n == 0 {
            return Ok(Some(whole));
        }
        if n > limit - whole.len() {
            return Ok(None);
        }
        keep(&mut whole, &chunk, n)?;
    }
}
