//! The input of `load`, which is read in pieces: of its text no more is held than what the record that comes next
//! may need.

ghost use Rattle.std.specs.Prelude.{◌≡◌, ◌<◌, [], vec_len, IfOk, IfErr, IsErrOf};
ghost use Rattle.site_io.specs.Counts.{HasRisen};
ghost use Rattle.ad_load_records.specs.Pieces.{gives};
ghost use Rattle.cmd_call.specs.Outcome.{IsStopped};
ghost use Rattle.cmd_store.specs.Input.{IsRead, IsReadOf, AreFew};

use ad_load_records::{LoadCause, LoadFault, Pieces, Record};
use cmd_call::Outcome;
use site_io::{Failed, Source};
use std::alloc::{AllocError, Global};

// The number of bytes that are asked for in one take.
const CHUNK: usize = 65_536;

/// What is read of an input: its records, or the first fault among them and the line of it.
#[derive(Drop)]
pub(crate) enum Read {
    Records(Vec<Record>),
    Refusal(u32, LoadCause),
}

// A buffer for the bytes of one take.
fn room(alloc: Global) -> Result<Vec<u8>, AllocError>
    ensures { IfOk result (λ bytes. 0 < vec_len bytes) }
{
    vec![in alloc; 0u8; CHUNK]
}

// What a text gives that ended.
fn ended(alloc: Global, pieces: Pieces) -> Result<Read, AllocError>
    ensures read { IfOk result (λ read. IsRead read (gives pieces [])) }
    ensures few { IfOk result AreFew }
{
    match pieces.finish(alloc) {
        Ok(records) => Ok(Read::Records(records)),
        Err(LoadFault::Bad { line, cause }) => Ok(Read::Refusal(line, cause)),
        Err(LoadFault::Memory) => Err(AllocError),
    }
}

/// Reads records up to the end of the input, or until it is longer than a text may be.
pub(crate) fn read_input<I: Source>(alloc: Global, source: &mut I) -> Result<Read, Outcome>
    ensures read { IfOk result (λ read. IsReadOf (I.rest source.old) (I.rest source.new) read) }
    ensures few { IfOk result AreFew }
    ensures source_failed { IsErrOf result Outcome.SourceFailed → HasRisen (I.faults source.old)
        (I.faults source.new) }
    ensures only { IfErr result IsStopped }
{
    let mut chunk = room(alloc)?;
    let mut pieces = Pieces::new(alloc);
    loop {
        let n = match source.take(&mut chunk) {
            Ok(n) => n,
            Err(Failed) => return Err(Outcome::SourceFailed),
        };
        if n == 0 {
            return Ok(ended(alloc, pieces)?);
        }
        if !pieces.push(alloc, &chunk[..n])? {
            return Ok(Read::Refusal(0, LoadCause::TooLong));
        }
    }
}
