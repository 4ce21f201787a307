//! What an input is: a text of which each line gives its frame or says nothing, or one that goes wrong.

ghost use Rattle.std.specs.Prelude.{◌≤◌, length, IfOk, IfErr, IsErrOf};
ghost use Rattle.site_io.specs.Counts.{HasRisen};
ghost use Rattle.cmd_call.specs.Outcome.{IsStopped};
ghost use Rattle.cmd_grants.specs.Judged.{IsTooLong, IsJudgedText, IsJudged};

use crate::lines::grant_line;
use ad_dir::Dir;
use ad_ldifmod::{GrantFault, GrantKind, judge};
use cmd_call::Outcome;
use site_io::{Source, WholeFault, read_whole};
use std::alloc::{AllocError, Global};

/// The most bytes of a text.
const MAX_TEXT: usize = 1_048_576;

/// What an input is.
#[derive(Drop)]
pub(crate) enum Judged {
    /// The text, of which no line goes wrong.
    Good(Vec<u8>),
    /// The line that says what goes wrong.
    Wrong(Vec<u8>),
}

// What is told of a text above its limit.
fn too_long(alloc: Global) -> Result<Judged, AllocError>
    ensures { IfOk result IsTooLong }
{
    Ok(Judged::Wrong(grant_line(alloc, 0, GrantKind::TooLong)?))
}

// Judges a text, line by line.
fn judge_text(alloc: Global, dir: &Dir, text: Vec<u8>) -> Result<Judged, AllocError>
    requires { length text.items ≤ 1048576 }
    ensures { IfOk result (IsJudgedText dir.now text.items) }
{
    match judge(alloc, dir, &text) {
        Ok(()) => Ok(Judged::Good(text)),
        Err(GrantFault::Bad { line, kind }) => Ok(Judged::Wrong(grant_line(alloc, line, kind)?)),
        Err(GrantFault::Memory) => Err(AllocError),
    }
}

/// Reads the whole input and judges it.
pub(crate) fn judge_input<I: Source>(
    alloc: Global,
    source: &mut I,
    dir: &Dir,
) -> Result<Judged, Outcome>
    ensures judged { IfOk result (IsJudged dir.now (I.rest source.old) (I.rest source.new)) }
    ensures source_failed { IsErrOf result Outcome.SourceFailed → HasRisen (I.faults source.old)
        (I.faults source.new) }
    ensures only { IfErr result IsStopped }
{
    match read_whole(alloc, source, MAX_TEXT) {
        Ok(Some(text)) => Ok(judge_text(alloc, dir, text)?),
        Ok(None) => Ok(too_long(alloc)?),
        Err(WholeFault::Source) => Err(Outcome::SourceFailed),
        Err(WholeFault::Memory) => Err(Outcome::NoMemory),
    }
}
