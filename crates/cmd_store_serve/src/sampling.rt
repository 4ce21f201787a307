//! The command `sample`: a directory of some size is loaded and sent frames, and what came of it is told in numbers.

ghost use Rattle.std.specs.Prelude.{◌≡◌, ◌≤◌, ◌++◌, [], ◌∷◌, false, IfOk, IfErr, IfSome, OnOk, IsErrOf};
ghost use Rattle.site_io.specs.Counts.{HasRisen};
ghost use Rattle.site_io.specs.Outside.{TouchesSlots};
ghost use Rattle.ad_dir_model.specs.Soundness.{IsSound};
ghost use Rattle.ad_engine_store.specs.Standing.{StandsIn};
ghost use Rattle.cmd_call.specs.Store.{HasFailed};
ghost use Rattle.cmd_call.specs.declared.outcome.Outcome.TheVariants.{SiteFailed};
ghost use Rattle.cmd_store_serve.specs.Sample.{sent, SampleDoes};
ghost use Rattle.cmd_store_serve.specs.SampleServing.{IsGiven, IsCutOff, IsServed, AreServed, TellsServed, Samples};
ghost use Rattle.cmd_store_serve.specs.SampleServing.{SamplesEmpty};
ghost use Rattle.cmd_store_serve.specs.Size.{max_size};

use crate::answers::text_of;
use crate::sent::sent_frames;
use ad_bytes::Bytes;
use ad_dir::Dir;
use ad_engine::Engine;
use ad_frames::Frame;
use ad_gen::ldif;
use ad_load::{LoadFault, directory_of};
use cmd_call::{Outcome, are_empty, say};
use cmd_store_open::{TAKEN, outcome_of_fault, refuse};
use site_io::{Failed, Site};
use std::alloc::{AllocError, Global};

// Serves a frame.
fn serve_one<S: Site>(site: &mut S, engine: &mut Engine, frame: &Frame) -> Result<Bytes, Outcome>
    requires stands { StandsIn engine.old (S.reads site.old) (S.now site.old) (S.left site.old) }
    requires unspent { engine.old.spent ≡ false }
    ensures served { IfOk result (λ output. IsServed S.Site engine.old engine.new frame.now output
        site.old site.new) }
    ensures outside { TouchesSlots S.Site site.old site.new }
    ensures cut { IfErr result IsCutOff }
    ensures cause { IsErrOf result Outcome.SiteFailed → HasRisen (S.slot_faults site.old)
        (S.slot_faults site.new) }
{
    match engine.serve_frame(site, frame) {
        Ok(output) => Ok(Bytes::from_vec(output)),
        Err(fault) => Err(outcome_of_fault(fault)),
    }
}

fn push(answers: &mut Vec<Bytes>, output: Bytes) -> Result<(), AllocError>
    ensures { OnOk result (answers.new.items ≡ answers.old.items ++ output ∷ []) }
{
    answers.push(output)?;
    Ok(())
}

// Serves frames one after the other, and gives the answers.
fn serve_all<S: Site>(
    alloc: Global,
    site: &mut S,
    engine: &mut Engine,
    frames: &[Frame],
) -> Result<Vec<Bytes>, Outcome>
    requires stands { StandsIn engine.old (S.reads site.old) (S.now site.old) (S.left site.old) }
    requires unspent { engine.old.spent ≡ false }
    requires tokens { engine.old.tokens ≡ [] }
    ensures served { IfOk result (λ answers. AreServed S.Site engine.old engine.new frames.now
        answers.items site.old site.new) }
    ensures outside { TouchesSlots S.Site site.old site.new }
    ensures cut { IfErr result IsCutOff }
    ensures cause { IsErrOf result Outcome.SiteFailed → HasRisen (S.slot_faults site.old)
        (S.slot_faults site.new) }
{
    let mut answers = Vec::new(alloc);
    for frame in frames {
        let output = serve_one(site, engine, frame)?;
        push(&mut answers, output)?;
    }
    Ok(answers)
}

// Serves the frames and tells the numbers.
fn serve_and_tell<S: Site>(
    alloc: Global,
    site: &mut S,
    engine: &mut Engine,
    frames: &[Frame],
) -> Outcome
    requires stands { StandsIn engine.old (S.reads site.old) (S.now site.old) (S.left site.old) }
    requires unspent { engine.old.spent ≡ false }
    requires tokens { engine.old.tokens ≡ [] }
    ensures { TellsServed S.Site engine.old.dir frames.now site.old site.new result }
{
    let answers = match serve_all(alloc, site, engine, frames) {
        Ok(answers) => answers,
        Err(outcome) => return outcome,
    };
    match text_of(alloc, answers.as_slice(), engine.dir()) {
        Ok(text) => say(site, &text, Outcome::Done),
        Err(AllocError) => Outcome::NoMemory,
    }
}

// Makes the store of a directory in slots that were empty, and sends it the frames.
fn keep<S: Site>(alloc: Global, site: &mut S, dir: Dir, frames: &[Frame]) -> Outcome
    requires { IsSound dir }
    ensures samples { Samples S.Site dir frames.now site.old site.new result }
{
    match Engine::create(alloc, site, dir) {
        Ok(mut engine) => serve_and_tell(alloc, site, &mut engine, frames),
        Err(fault) => refuse(alloc, site, fault),
    }
}

// The directory of the sample's text, where that is the text of one.
fn loaded(alloc: Global, n: u32) -> Result<Option<Dir>, AllocError>
    requires { n ≤ max_size }
    ensures given { IfOk result (IsGiven n) }
    ensures sound { IfOk result (λ dir. IfSome dir IsSound) }
{
    let text = ldif(alloc, n)?;
    match directory_of(alloc, &text) {
        Ok(dir) => Ok(Some(dir)),
        Err(LoadFault::Bad { .. }) => Ok(None),
        Err(LoadFault::Memory) => Err(AllocError),
    }
}

// Sends the frames to a directory whose slots were empty.
fn sample_loaded<S: Site>(alloc: Global, site: &mut S, n: u32, dir: Dir) -> Outcome
    requires { IsSound dir }
    ensures samples { Samples S.Site dir (sent n) site.old site.new result }
{
    match sent_frames(alloc, n) {
        Ok(frames) => keep(alloc, site, dir, frames.as_slice()),
        Err(AllocError) => Outcome::NoMemory,
    }
}

// Samples into slots that were empty.
fn sample_empty<S: Site>(alloc: Global, site: &mut S, n: u32) -> Outcome
    requires { n ≤ max_size }
    ensures { SamplesEmpty S.Site n site.old site.new result }
{
    match loaded(alloc, n) {
        Ok(Some(dir)) => sample_loaded(alloc, site, n, dir),
        Ok(None) => Outcome::NotOfForm,
        Err(AllocError) => Outcome::NoMemory,
    }
}

/// Loads the sample of a size into two empty slots, serves its frames there, and emits eight lines by one call: the
/// number of objects, how many steps of propagation the first steps frame made, how many objects the run changed,
/// how many are protected, how many steps were made after it, how many entries the search found, how many objects
/// have another descriptor than the one that is recomputed from the root, and how many are pending. Where a slot
/// isn't empty the line `store taken` is emitted, and no slot is written.
pub fn sample<S: Site>(alloc: Global, site: &mut S, n: u32) -> Outcome
    requires { n ≤ max_size }
    ensures does { SampleDoes S.Site n site.old site.new result }
    ensures site_failed { result ≡ SiteFailed → HasFailed S.Site site.old site.new }
{
    match are_empty(site) {
        Ok(true) => sample_empty(alloc, site, n),
        Ok(false) => say(site, TAKEN.as_bytes(), Outcome::NoStore),
        Err(Failed) => Outcome::SiteFailed,
    }
}
