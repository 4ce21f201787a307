//! The command `sddl`: the bytes of a descriptor that stands as a text, and its canonical text.

ghost use Rattle.std.specs.Prelude.{◌≡◌, true, ◌<◌, ◌+◌, ℕ, List, length, IfOk, IfErr, IsErrOf};
ghost use Rattle.std.specs.String.{string_bytes};
ghost use Rattle.site_io.specs.Counts.{HasRisen};
ghost use Rattle.cmd_call.specs.Outcome.{status_of, IsStopped};
ghost use Rattle.cmd_call.specs.declared.outcome.Outcome.TheVariants.{SourceFailed, SiteFailed};
ghost use Rattle.cmd_words.specs.Command.CommandValue.{Sddl};
ghost use Rattle.cmd_words.specs.Table.{may_end};
ghost use Rattle.cmd_plain.specs.Sddl.{SddlDoes, limit, text_of, word_of, refusal, lines_of};
ghost use Rattle.cmd_plain.specs.SddlReply.{IsReply, IsReplyFor, ReadToEnd};

use ad_acl::AclWriteFault;
use ad_sd::{SdParts, write_parts};
use ad_sddl::{SddlFault, SddlKind, print_parts};
use cmd_call::Outcome;
use site_io::{Failed, Site, Source, WholeFault, read_whole};
use std::alloc::{AllocError, Global};

/// The longest text, in bytes.
const MAX_TEXT_BYTES: usize = 1_048_576;

/// What a text is answered with: its two lines, or the line of its refusal.
#[derive(Debug, Drop)]
pub enum Reply {
    Lines(String),
    Refusal(String),
}

// The input without one line end at its end.
#[tactic(auto, unfolding(crate::specs::Sddl::text_of))]
fn text_of(input: &[u8]) -> &[u8]
    ensures { result.now ≡ text_of input.now }
{
    if !input.is_empty() && input[input.len() - 1] == b'\n' {
        &input[..input.len() - 1]
    } else {
        input
    }
}

fn word_of(kind: SddlKind) -> &'static str
    ensures { result.now ≡ word_of kind }
{
    match kind {
        SddlKind::Part => "part",
        SddlKind::Repeated => "repeated",
        SddlKind::Sid => "sid",
        SddlKind::Domain => "domain",
        SddlKind::AceKind => "type",
        SddlKind::Flag => "flag",
        SddlKind::Rights => "rights",
        SddlKind::Guid => "guid",
        SddlKind::Shape => "shape",
    }
}

fn refusal(alloc: Global, word: &str, place: usize) -> Result<String, AllocError>
    ensures { IfOk result (λ line. string_bytes line ≡ refusal word.now place) }
{
    let mut line = String::from_str(alloc, "refused ")?;
    line.push_str(word)?;
    line.push_str(" ")?;
    line.push_str(itoa::Buffer::new().format(place))?;
    line.push_str("\n")?;
    Ok(line)
}

fn lines(alloc: Global, parts: &SdParts, bytes: &[u8]) -> Result<String, AllocError>
    ensures { IfOk result (λ lines. string_bytes lines ≡ lines_of parts.now bytes.now) }
{
    let mut lines = hex::encode(alloc, bytes)?;
    lines.push_str("\n")?;
    lines.push_str(print_parts(alloc, parts)?.as_str())?;
    lines.push_str("\n")?;
    Ok(lines)
}

// The reply to a text.
fn reply_to(alloc: Global, input: &[u8]) -> Result<Reply, AllocError>
    ensures { IfOk result (λ reply. IsReply input.now reply) }
{
    let text = text_of(input);
    if text.len() > MAX_TEXT_BYTES {
        return Ok(Reply::Refusal(refusal(alloc, "long", MAX_TEXT_BYTES)?));
    }
    let parts = match ad_sddl::read(alloc, text, None) {
        Ok(parts) => parts,
        Err(SddlFault::Bad { place, kind }) => {
            return Ok(Reply::Refusal(refusal(alloc, word_of(kind), place)?));
        }
        Err(SddlFault::Memory) => return Err(AllocError),
    };
    match write_parts(alloc, &parts) {
        Ok(bytes) => Ok(Reply::Lines(lines(alloc, &parts, &bytes)?)),
        Err(AclWriteFault::TooLong) => Ok(Reply::Refusal(refusal(alloc, "long", text.len())?)),
        Err(AclWriteFault::Memory) => Err(AllocError),
    }
}

// The reply to more than the longest text and a line end.
fn long(alloc: Global) -> Result<Reply, AllocError>
    ensures { IfOk result (λ reply. (input : List ℕ) → limit + 1 < length input → IsReply input reply
        × ((behind : List ℕ) → ReadToEnd reply behind)) }
{
    Ok(Reply::Refusal(refusal(alloc, "long", MAX_TEXT_BYTES)?))
}

// The reply to the whole input.
fn reply_to_input<I: Source>(alloc: Global, source: &mut I) -> Result<Reply, Outcome>
    ensures replies { IfOk result (λ reply. IsReplyFor (I.rest source.old) (I.rest source.new)
        reply) }
    ensures source_failed { IsErrOf result Outcome.SourceFailed → HasRisen (I.faults source.old)
        (I.faults source.new) }
    ensures only { IfErr result (λ outcome. IsStopped outcome) }
    ensures status { IfErr result (λ outcome. may_end Sddl (status_of outcome) ≡ true) }
{
    // One line end may stand after the longest text.
    match read_whole(alloc, source, MAX_TEXT_BYTES + 1) {
        Ok(Some(input)) => Ok(reply_to(alloc, &input)?),
        Ok(None) => Ok(long(alloc)?),
        Err(WholeFault::Source) => Err(Outcome::SourceFailed),
        Err(WholeFault::Memory) => Err(Outcome::NoMemory),
    }
}

/// Reads the whole input, the text of a descriptor without a domain, and emits two lines: the descriptor's bytes in
/// lower-case hexadecimal, and its canonical text. One line end at the end of the input is no part of the text.
/// Where the input is no such text it emits the line `refused <kind> <place>` for the fault that comes first.
pub fn sddl<I: Source, S: Site>(alloc: Global, source: &mut I, site: &mut S) -> Outcome
    ensures does { SddlDoes (record {
      input = I.rest source.old;
      left = I.rest source.new;
      emitted_before = S.emitted site.old;
      emitted_after = S.emitted site.new;
      source_before = I.faults source.old;
      source_after = I.faults source.new;
      output_before = S.out_faults site.old;
      output_after = S.out_faults site.new;
    }) result }
    ensures source_failed { result ≡ SourceFailed → HasRisen (I.faults source.old)
        (I.faults source.new) }
    ensures site_failed { result ≡ SiteFailed → HasRisen (S.out_faults site.old)
        (S.out_faults site.new) }
    ensures status { may_end Sddl (status_of result) ≡ true }
    ensures slots { S.slot_faults site.new ≡ S.slot_faults site.old }
{
    match reply_to_input(alloc, source) {
        Ok(Reply::Lines(lines)) => match site.emit(lines.as_bytes()) {
            Ok(()) => Outcome::Done,
            Err(Failed) => Outcome::SiteFailed,
        },
        Ok(Reply::Refusal(line)) => match site.emit(line.as_bytes()) {
            Ok(()) => Outcome::NotOfForm,
            Err(Failed) => Outcome::SiteFailed,
        },
        Err(outcome) => outcome,
    }
}
