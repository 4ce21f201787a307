//! The command `access`: the rights that a descriptor grants to a token.

ghost use Rattle.std.specs.Prelude.{◌≡◌, true, IfOk, IfErr, IsErrOf};
ghost use Rattle.site_io.specs.Counts.{HasRisen};
ghost use Rattle.cmd_call.specs.Outcome.{status_of, IsEarly};
ghost use Rattle.cmd_call.specs.declared.outcome.Outcome.TheVariants.{SourceFailed, SiteFailed};
ghost use Rattle.cmd_words.specs.Command.CommandValue.{Access};
ghost use Rattle.cmd_words.specs.Table.{may_end};
ghost use Rattle.cmd_plain.specs.Access.{IsGrantedMask, access_line, Answers, IsQuestion, IsLineFor, IsRefused};
ghost use Rattle.cmd_plain.specs.Access.{AccessDoes};
ghost use Rattle.cmd_plain.specs.RequestView.{question_seen};

use crate::request::{MAX_REQUEST_BYTES, Request, RequestFault};
use ad_access::granted;
use ad_acl::Aces;
use ad_sd::{AceList, NormalSd, Sd};
use ad_types::Path;
use cmd_call::Outcome;
use site_io::{Failed, Site, Source, WholeFault, read_whole};
use std::alloc::{AllocError, Global};

// The answer's line: eight lower-case hexadecimal digits and a line end.
fn line(mask: u32) -> [u8; 9]
    ensures { result ≡ access_line mask }
{
    let mut line = [b'\n'; 9];
    match hex::encode_to_slice(&mask.to_be_bytes(), &mut line[..8]) {
        Ok(()) => line,
        Err(_) => unreachable!(),
    }
}

// The mask of the granted rights. The question's owner and list are those of a descriptor, whose other parts say
// nothing here, and the check is made on its normal bytes.
fn granted_mask(alloc: Global, request: Request) -> Result<u32, AllocError>
    ensures { IfOk result (λ mask. IsGrantedMask (question_seen request) mask) }
{
    let Request {
        token,
        owner,
        dacl,
        want,
    } = request;
    let sd = Sd {
        owner,
        group: owner,
        dacl: AceList {
            protected: false,
            entries: Aces::from_vec(dacl),
        },
        sacl: AceList {
            protected: false,
            entries: Aces::new(alloc),
        },
    };
    let kept = NormalSd::of(alloc, &sd)?;
    Ok(granted(kept.view(), &token, None, &Path::empty(), want))
}

// The line that answers the question that all of the bytes encode.
fn answer(alloc: Global, bytes: &[u8]) -> Result<[u8; 9], RequestFault>
    ensures answers { IfOk result (λ line. Answers bytes.now line) }
    ensures refused { IsErrOf result RequestFault.Form → IsQuestion bytes.now → ⊥ }
{
    let request = Request::from_bytes(alloc, bytes)?;
    let mask = granted_mask(alloc, request)?;
    Ok(line(mask))
}

// The line that answers the whole input, where it is a question.
fn answer_whole<I: Source>(alloc: Global, source: &mut I) -> Result<[u8; 9], Outcome>
    ensures answers { IfOk result (λ line. IsLineFor (I.rest source.old) (I.rest source.new) line) }
    ensures refused { IsErrOf result Outcome.NotOfForm → IsRefused (I.rest source.old)
        (I.rest source.new) }
    ensures source_failed { IsErrOf result Outcome.SourceFailed → HasRisen (I.faults source.old)
        (I.faults source.new) }
    ensures only { IfErr result (λ outcome. IsEarly outcome) }
    ensures status { IfErr result (λ outcome. may_end Access (status_of outcome) ≡ true) }
{
    let bytes = match read_whole(alloc, source, MAX_REQUEST_BYTES) {
        Ok(Some(bytes)) => bytes,
        Ok(None) => return Err(Outcome::NotOfForm),
        Err(WholeFault::Source) => return Err(Outcome::SourceFailed),
        Err(WholeFault::Memory) => return Err(Outcome::NoMemory),
    };
    match answer(alloc, &bytes) {
        Ok(line) => Ok(line),
        Err(RequestFault::Form) => Err(Outcome::NotOfForm),
        Err(RequestFault::Memory) => Err(Outcome::NoMemory),
    }
}

/// Reads the whole input, a question, and emits the rights that are granted: eight lower-case hexadecimal
/// digits and a line end.
pub fn access<I: Source, S: Site>(alloc: Global, source: &mut I, site: &mut S) -> Outcome
    ensures does { AccessDoes (record {
      input = I.rest source.old;
      left = I.rest source.new;
      emitted_before = S.emitted site.old;
      emitted_after = S.emitted site.new;
      source_before = I.faults source.old;
      source_after = I.faults source.new;
      output_before = S.out_faults site.old;
      output_after = S.out_faults site.new;
    }) result }
    ensures source_failed { result ≡ SourceFailed → HasRisen (I.faults source.old)
        (I.faults source.new) }
    ensures site_failed { result ≡ SiteFailed → HasRisen (S.out_faults site.old)
        (S.out_faults site.new) }
    ensures status { may_end Access (status_of result) ≡ true }
    ensures slots { S.slot_faults site.new ≡ S.slot_faults site.old }
{
    match answer_whole(alloc, source) {
        Ok(line) => match site.emit(&line) {
            Ok(()) => Outcome::Done,
            Err(Failed) => Outcome::SiteFailed,
        },
        Err(outcome) => outcome,
    }
}
