//! The command `audit`.

ghost use Rattle.std.specs.Prelude.{◌≡◌, []};
ghost use Rattle.site_io.specs.Counts.{HasRisen};
ghost use Rattle.cmd_call.specs.Store.{HasFailed};
ghost use Rattle.cmd_call.specs.declared.outcome.Outcome.TheVariants.{SourceFailed, SiteFailed};
ghost use Rattle.cmd_audit.specs.Audit.{AuditDoes};
ghost use Rattle.cmd_audit.specs.Steps.{StandsOverNull, TellsText, TellsFrame, IsAuditedSince};

use crate::frames::next_lines;
use crate::replay::Replay;
use ad_engine::Engine;
use ad_frames::{Frame, next_frame};
use cmd_call::Outcome;
use cmd_store_open::{MAX_FRAMES, at_last, of_frame, outcome_of_open};
use site_io::{Failed, Site, Source};
use std::alloc::{AllocError, Global};

// Emits the lines of a frame by one call, where there are any.
fn tell_lines<S: Site>(site: &mut S, text: &[u8]) -> Result<(), Outcome>
    ensures { TellsText S.Site text.now site.old site.new result }
{
    if text.is_empty() {
        return Ok(());
    }
    match site.emit(text) {
        Ok(()) => Ok(()),
        Err(Failed) => Err(Outcome::SiteFailed),
    }
}

// Judges a frame, serves it, and emits its lines.
fn audit_frame<S: Site>(
    alloc: Global,
    site: &mut S,
    replay: &mut Replay,
    number: u32,
    frame: &Frame,
) -> Result<(), Outcome>
    ensures { TellsFrame S.Site replay.old replay.new number frame.now site.old site.new result }
{
    let text = match next_lines(alloc, replay, number, frame) {
        Ok(text) => text,
        Err(AllocError) => return Err(Outcome::NoMemory),
    };
    tell_lines(site, &text)
}

// The frames of the input, from a directory on at which no connection has a token.
fn audit_frames<I: Source, S: Site>(
    alloc: Global,
    source: &mut I,
    site: &mut S,
    replay: &mut Replay,
) -> Outcome
    requires { replay.old.tokens ≡ [] }
    ensures { IsAuditedSince I.Source S.Site replay.old.directory source.old source.new site.old
        site.new result }
{
    for done in 0..MAX_FRAMES {
        match next_frame(alloc, source) {
            Ok(Some(frame)) => match audit_frame(alloc, site, replay, done + 1, &frame) {
                Ok(()) => {}
                Err(outcome) => return outcome,
            },
            Ok(None) => return Outcome::Done,
            Err(fault) => return of_frame(fault),
        }
    }
    at_last(source)
}

// A store that was opened, which the session leaves as it is.
fn audit_opened<I: Source, S: Site>(
    alloc: Global,
    source: &mut I,
    site: &mut S,
    engine: Engine,
) -> Outcome
    requires stands { StandsOverNull engine }
    requires tokens { engine.tokens ≡ [] }
    ensures { IsAuditedSince I.Source S.Site engine.dir source.old source.new site.old site.new
        result }
{
    let mut replay = Replay::new(engine);
    audit_frames(alloc, source, site, &mut replay)
}

/// Opens the store, runs the frames of the input on a directory in memory that begins as the one that the store
/// represents, and emits the lines of the events that each frame's accesses leave, those of a frame by one call and
/// in the order of the frames. Each frame is judged by the directory and the tokens from before it. At most
/// 1,000,000 frames are run. A bad frame ends it after the lines of those before it. No slot is written, and where
/// the slots represent no directory nothing is emitted.
pub fn audit<I: Source, S: Site>(alloc: Global, source: &mut I, site: &mut S) -> Outcome
    ensures does { AuditDoes I.Source S.Site source.old source.new site.old site.new result }
    ensures source_failed { result ≡ SourceFailed → HasRisen (I.faults source.old)
        (I.faults source.new) }
    ensures site_failed { result ≡ SiteFailed → HasFailed S.Site site.old site.new }
{
    match Engine::resume(alloc, site) {
        Ok(engine) => audit_opened(alloc, source, site, engine),
        Err(fault) => outcome_of_open(fault),
    }
}
