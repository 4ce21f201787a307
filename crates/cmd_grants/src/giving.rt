//! The whole command.

ghost use Rattle.std.specs.Prelude.{◌≡◌, ◌≤◌, length};
ghost use Rattle.site_io.specs.Counts.{HasRisen};
ghost use Rattle.ad_ldifmod.specs.Taken.{GivesSome};
ghost use Rattle.cmd_call.specs.Store.{HasFailed};
ghost use Rattle.cmd_call.specs.declared.outcome.Outcome.TheVariants.{SourceFailed, SiteFailed};
ghost use Rattle.cmd_grants.specs.Grants.{GrantsDoes};
ghost use Rattle.cmd_grants.specs.Answering.{AnswersText, AnswersIn};

use crate::judging::{Judged, judge_input};
use crate::sending::send_frames;
use ad_dir::Dir;
use cmd_call::{Outcome, say};
use cmd_store_open::{DirStore, refuse};
use site_io::{Site, Source};
use std::alloc::Global;

// Emits the frames of a text of which no line goes wrong.
fn give_frames<S: Site>(alloc: Global, site: &mut S, dir: &Dir, text: &[u8]) -> Outcome
    requires few { length text.now ≤ 1048576 }
    requires some { GivesSome dir.now text.now }
    ensures { AnswersText S.Site dir.now text.now site.old site.new result }
{
    match send_frames(alloc, site, dir, text) {
        Ok(()) => Outcome::Done,
        Err(outcome) => outcome,
    }
}

// Emits what there is for the whole input.
fn give_in<I: Source, S: Site>(alloc: Global, source: &mut I, site: &mut S, dir: &Dir) -> Outcome
    ensures { AnswersIn I.Source S.Site dir.now source.old source.new site.old site.new result }
{
    match judge_input(alloc, source, dir) {
        Ok(Judged::Good(text)) => give_frames(alloc, site, dir, &text),
        Ok(Judged::Wrong(line)) => say(site, &line, Outcome::NotOfForm),
        Err(outcome) => outcome,
    }
}

/// Opens the store, reads the whole input, lines after dsacls, and judges it. Where each line gives a message or says
/// nothing the frames of the messages are emitted, each of kind 2 and connection 0: by one call where they take less
/// than 16 MiB, and else bit by bit, so that of them no more is held. Where a line gives none nothing of that comes, and
/// the line that says so is emitted, `line <n> <word>`. Where the slots represent no directory the line that says why
/// is emitted, and nothing is read. No slot is written.
pub fn grants<I: Source, S: Site>(alloc: Global, source: &mut I, site: &mut S) -> Outcome
    ensures does { GrantsDoes I.Source S.Site source.old source.new site.old site.new result }
    ensures source_failed { result ≡ SourceFailed → HasRisen (I.faults source.old)
        (I.faults source.new) }
    ensures site_failed { result ≡ SiteFailed → HasFailed S.Site site.old site.new }
{
    match DirStore::resume(alloc, site) {
        Ok(engine) => give_in(alloc, source, site, engine.dir()),
        Err(fault) => refuse(alloc, site, fault),
    }
}
