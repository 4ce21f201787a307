//! Change records as frames for `serve`.

ghost use Rattle.std.specs.Prelude.{◌≡◌, ◌++◌, ◌<◌, ◌≤◌, ℕ, List, length, if◌then◌else◌, IfOk, IfErr, IsErrOf, OnOk};
ghost use Rattle.std.specs.Prelude.{true};
ghost use Rattle.site_io.specs.Counts.{HasRisen};
ghost use Rattle.ad_ldif.specs.Change.{change_seen};
ghost use Rattle.ad_ldif.specs.Ranges.{HasItemOps};
ghost use Rattle.cmd_call.specs.Outcome.{status_of, IsStopped};
ghost use Rattle.cmd_call.specs.declared.outcome.Outcome.TheVariants.{SourceFailed, SiteFailed};
ghost use Rattle.cmd_words.specs.Command.CommandValue.{Change};
ghost use Rattle.cmd_words.specs.Table.{may_end};
ghost use Rattle.cmd_change.specs.Change.{ChangeDoes, frame, body_of, fits, word_of, refusal, line_of};
ghost use Rattle.cmd_change.specs.Reply.{IsReply, IsReplyFor, ReadToEnd};

use ad_ldif::{LdifChange, LdifFault, LdifKind, Reader, what_changes_have};
use ad_ldifmod_message::{message, what_a_change_asks, write_message};
use cmd_call::{Outcome, fault_line};
use site_io::{Failed, Site, Source, WholeFault, read_whole};
use std::alloc::{AllocError, Global};

/// The longest input, in bytes.
const MAX_INPUT_BYTES: usize = 67_108_864;

/// The longest message that a frame has room for, in bytes.
const MAX_BODY_BYTES: usize = 1_048_576;

/// What an input is answered with: the frames of its records, or the line of its refusal.
#[derive(Debug, Drop)]
pub enum Reply {
    Frames(Vec<u8>),
    Refusal(Vec<u8>),
}

fn word_of(kind: LdifKind) -> &'static str
    ensures { result.now ≡ word_of kind }
{
    match kind {
        LdifKind::Line => "line",
        LdifKind::Base64 => "base64",
        LdifKind::NoDn => "no dn",
        LdifKind::Version => "version",
        LdifKind::Url => "url",
        LdifKind::ChangeType => "changetype",
        LdifKind::TooLong => "too long",
    }
}

fn refusal(alloc: Global, line: u32, word: &str) -> Result<Vec<u8>, AllocError>
    ensures { IfOk result (λ text. text.items ≡ line_of (refusal line word.now)) }
{
    fault_line(alloc, line, word.as_bytes())
}

// The frame of a message on connection 0.
#[tactic(auto, unfolding(crate::specs::Change::frame))]
fn put_frame(into: &mut Vec<u8>, body: &[u8]) -> Result<(), AllocError>
    requires { length body.now ≤ 1048576 }
    ensures { OnOk result (into.new.items ≡ into.old.items ++ frame body.now) }
{
    into.extend_from_slice(&[2, 0, 0])?;
    into.extend_from_slice(&(body.len() as u32).to_be_bytes())?;
    into.extend_from_slice(body)?;
    Ok(())
}

// The frame of a record's message, where it has room for it. It tells whether it does.
fn put_change(
    alloc: Global,
    into: &mut Vec<u8>,
    change: &LdifChange,
    id: u32,
) -> Result<bool, AllocError>
    requires some { 0 < id }
    requires most { id < 2147483648 }
    requires ops { HasItemOps (change_seen change.now) }
    ensures fits { IfOk result (λ room. room ≡ fits (body_of (change_seen change.now) id)) }
    ensures put { IfOk result (λ room. into.new.items
        ≡ (if room then into.old.items ++ frame (body_of (change_seen change.now) id)
        else into.old.items)) }
{
    what_a_change_asks();
    let message = message(alloc, change, id)?;
    let body = write_message(alloc, &message)?;
    if body.len() > MAX_BODY_BYTES {
        return Ok(false);
    }
    put_frame(into, &body)?;
    Ok(true)
}

// The reply to an input that isn't too long.
fn reply_to(alloc: Global, input: &[u8]) -> Result<Reply, AllocError>
    requires { length input.now ≤ 67108864 }
    ensures { IfOk result (λ reply. IsReply input.now reply) }
{
    what_changes_have();
    let mut reader = Reader::over(input);
    let mut frames = Vec::new(alloc);
    let mut id = 1;
    'records: loop {
        match reader.next_change(alloc) {
            Ok(Some(change)) => {
                if !put_change(alloc, &mut frames, &change, id)? {
                    return Ok(Reply::Refusal(refusal(alloc, change.line, "long")?));
                }
                id += 1;
            }
            Ok(None) => return Ok(Reply::Frames(frames)),
            Err(LdifFault::Bad { line, kind }) => {
                return Ok(Reply::Refusal(refusal(alloc, line, word_of(kind))?));
            }
            Err(LdifFault::Memory) => return Err(AllocError),
        }
    }
}

// The reply to more than the longest input.
fn long(alloc: Global) -> Result<Reply, AllocError>
    ensures { IfOk result (λ reply. (input : List ℕ) → 67108864 < length input
        → IsReply input reply × ((behind : List ℕ) → ReadToEnd reply behind)) }
{
    Ok(Reply::Refusal(refusal(alloc, 0, "too long")?))
}

// The reply to the whole input.
fn reply_to_input<I: Source>(alloc: Global, source: &mut I) -> Result<Reply, Outcome>
    ensures replies { IfOk result (λ reply. IsReplyFor (I.rest source.old) (I.rest source.new)
        reply) }
    ensures source_failed { IsErrOf result Outcome.SourceFailed → HasRisen (I.faults source.old)
        (I.faults source.new) }
    ensures only { IfErr result (λ outcome. IsStopped outcome) }
    ensures status { IfErr result (λ outcome. may_end Change (status_of outcome) ≡ true) }
{
    match read_whole(alloc, source, MAX_INPUT_BYTES) {
        Ok(Some(input)) => Ok(reply_to(alloc, &input)?),
        Ok(None) => Ok(long(alloc)?),
        Err(WholeFault::Source) => Err(Outcome::SourceFailed),
        Err(WholeFault::Memory) => Err(Outcome::NoMemory),
    }
}

/// Reads the whole input, LDIF change records, and emits a frame for each record, in order, by one call: its
/// message has the record's operation, names, values and controls, and the number of the record, from 1. Where a
/// record is faulty or its message has no room in a frame, and where the input has more than 67,108,864 bytes, it
/// emits the line `line <n> <cause>` for the fault that comes first.
pub fn change<I: Source, S: Site>(alloc: Global, source: &mut I, site: &mut S) -> Outcome
    ensures does { ChangeDoes (record {
      input = I.rest source.old;
      left = I.rest source.new;
      emitted_before = S.emitted site.old;
      emitted_after = S.emitted site.new;
      source_before = I.faults source.old;
      source_after = I.faults source.new;
      output_before = S.out_faults site.old;
      output_after = S.out_faults site.new;
    }) result }
    ensures source_failed { result ≡ SourceFailed → HasRisen (I.faults source.old)
        (I.faults source.new) }
    ensures site_failed { result ≡ SiteFailed → HasRisen (S.out_faults site.old)
        (S.out_faults site.new) }
    ensures status { may_end Change (status_of result) ≡ true }
    ensures slots { S.slot_faults site.new ≡ S.slot_faults site.old }
{
    match reply_to_input(alloc, source) {
        Ok(Reply::Frames(frames)) => match site.emit(&frames) {
            Ok(()) => Outcome::Done,
            Err(Failed) => Outcome::SiteFailed,
        },
        Ok(Reply::Refusal(line)) => match site.emit(&line) {
            Ok(()) => Outcome::NotOfForm,
            Err(Failed) => Outcome::SiteFailed,
        },
        Err(outcome) => outcome,
    }
}
