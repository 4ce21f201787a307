//! The command `load`: the directory of a text of LDIF, and the store that represents it.

ghost use Rattle.std.specs.Prelude.{◌≡◌, ◌≤◌, ℕ, List, map, length, Ok, IfOk, IfErr, IsErrOf};
ghost use Rattle.site_io.specs.Counts.{HasRisen};
ghost use Rattle.ad_dir_model.specs.Soundness.{IsSound};
ghost use Rattle.ad_load_records.specs.Records.{records_in};
ghost use Rattle.ad_load_records.specs.Seen.{seen};
ghost use Rattle.cmd_call.specs.Store.{HasFailed, SaysUnless};
ghost use Rattle.cmd_call.specs.Outcome.{IsStopped, IsOfLoad};
ghost use Rattle.cmd_call.specs.declared.outcome.Outcome.TheVariants.{NotOfForm, SourceFailed, SiteFailed};
ghost use Rattle.cmd_store_open.specs.Lines.{objects_line};
ghost use Rattle.cmd_store.specs.Causes.{load_line};
ghost use Rattle.cmd_store.specs.Load.{LoadDoes};
ghost use Rattle.cmd_store.specs.Loading.{IsGiven, IsGivenFor, HasSound, Keeps, LoadsEmpty};
ghost use Rattle.ad_load_records.specs.Records.{most_lines};

use crate::causes::line_of_cause;
use crate::input::{Read, read_input};
use crate::storing::create_store;
use ad_load::{LoadCause, LoadFault, Parts, parts_of};
use ad_load_records::Record;
use cmd_call::{Outcome, are_empty, put_counted, say};
use cmd_store_open::{TAKEN, refuse};
use site_io::{Failed, Site, Source};
use std::alloc::{AllocError, Global};

/// What an input gives: a directory, or its first fault and the line of it.
#[derive(Drop)]
pub enum Given {
    Directory(Parts),
    Refusal(u32, LoadCause),
}

// What a text with these records gives.
fn given_by(alloc: Global, records: Vec<Record>) -> Result<Given, AllocError>
    requires read { (text : List ℕ) × (records_in text ≡ Ok (map seen records.items)) }
    requires few { length records.items ≤ most_lines }
    ensures given { IfOk result (λ given. (text : List ℕ) → records_in text
        ≡ Ok (map seen records.items) → IsGiven given text) }
    ensures sound { IfOk result HasSound }
{
    match parts_of(alloc, records) {
        Ok(dir) => Ok(Given::Directory(dir)),
        Err(LoadFault::Bad { line, cause }) => Ok(Given::Refusal(line, cause)),
        Err(LoadFault::Memory) => Err(AllocError),
    }
}

// What the whole input gives.
fn given_by_input<I: Source>(alloc: Global, source: &mut I) -> Result<Given, Outcome>
    ensures given { IfOk result (λ given. IsGivenFor (I.rest source.old) (I.rest source.new)
        given) }
    ensures sound { IfOk result HasSound }
    ensures source_failed { IsErrOf result Outcome.SourceFailed → HasRisen (I.faults source.old)
        (I.faults source.new) }
    ensures only { IfErr result IsStopped }
{
    match read_input(alloc, source)? {
        Read::Records(records) => Ok(given_by(alloc, records)?),
        Read::Refusal(line, cause) => Ok(Given::Refusal(line, cause)),
    }
}

// Emits the line of a fault.
fn refuse_line<S: Site>(alloc: Global, site: &mut S, line: u32, cause: &LoadCause) -> Outcome
    ensures { SaysUnless S.Site site.old site.new (load_line line cause.now) NotOfForm result }
{
    match line_of_cause(alloc, line, cause) {
        Ok(text) => say(site, &text, Outcome::NotOfForm),
        Err(AllocError) => Outcome::NoMemory,
    }
}

// The line that tells how many objects there are.
fn line_of(alloc: Global, dir: &Parts) -> Result<Vec<u8>, AllocError>
    ensures { IfOk result (λ line. line.items ≡ objects_line dir.now) }
{
    let mut line = Vec::new(alloc);
    put_counted(&mut line, "objects", dir.len() as u64)?;
    Ok(line)
}

// Makes the store of a directory in slots that were empty, and emits its line.
fn keep<S: Site>(alloc: Global, site: &mut S, dir: Parts) -> Outcome
    requires { IsSound dir }
    ensures keeps { Keeps S.Site dir site.old site.new result }
{
    let line = match line_of(alloc, &dir) {
        Ok(line) => line,
        Err(AllocError) => return Outcome::NoMemory,
    };
    match create_store(alloc, site, dir) {
        Ok(()) => say(site, &line, Outcome::Done),
        Err(fault) => refuse(alloc, site, fault),
    }
}

// Loads into slots that were empty.
fn load_empty<I: Source, S: Site>(alloc: Global, source: &mut I, site: &mut S) -> Outcome
    ensures does { LoadsEmpty I.Source S.Site source.old source.new site.old site.new result }
{
    match given_by_input(alloc, source) {
        Ok(Given::Directory(dir)) => keep(alloc, site, dir),
        Ok(Given::Refusal(line, cause)) => refuse_line(alloc, site, line, &cause),
        Err(outcome) => outcome,
    }
}

/// Reads the whole input, a text of LDIF, makes the store of its directory in two empty slots, and emits the number
/// of its objects. Where a slot isn't empty nothing is read, and the line `store taken` is emitted. Where the input
/// is the text of no directory the line of its first fault is emitted, `line <n> <cause>`, and no slot is written.
pub fn load<I: Source, S: Site>(alloc: Global, source: &mut I, site: &mut S) -> Outcome
    ensures does { LoadDoes I.Source S.Site source.old source.new site.old site.new result }
    ensures source_failed { result ≡ SourceFailed → HasRisen (I.faults source.old)
        (I.faults source.new) }
    ensures site_failed { result ≡ SiteFailed → HasFailed S.Site site.old site.new }
    ensures only { IsOfLoad result }
{
    match are_empty(site) {
        Ok(true) => load_empty(alloc, source, site),
        Ok(false) => say(site, TAKEN.as_bytes(), Outcome::NoStore),
        Err(Failed) => Outcome::SiteFailed,
    }
}
