//! `adsd`: a directory core with the access control of Active Directory.
//!
//! # Example
//!
//! ```text
//! let status = run::run(alloc, &words, &mut source, &mut site);
//! ```
//!
//! # Proved
//!
//! The status is that of the outcome of the command that the words ask for, which did with source and sites what its
//! record says; 2 comes exactly where the words are of no form, and then nothing is touched. `main` around it is
//! tested.
//!
//! # The caller owes
//!
//! Nothing: any words, any source, any two sites.
//!
//! # Cost
//!
//! What its command takes.
#![tactic(auto)]

mod beside;
mod command;
mod lines;
mod looks;
mod nearest;
mod noted;
mod reason;
mod run;
mod streams;
mod words;

use cmd_words::{Command, Opening, command_of};
use noted::Noted;
use site_io::{FileSite, OutSite, SiteFault, StdSource};
use std::alloc::{AllocError, Global};
use std::io;
use std::io::Stdout;
use std::process::ExitCode;
use streams::Streams;

/// The status where the input isn't of the command's form.
const NOT_OF_FORM: u8 = 1;

/// The status where the words aren't one of the forms: no text that isn't Unicode is in one.
const NO_FORM: u8 = 2;

/// The status where a store is refused.
const REFUSED: u8 = 3;

/// The status where the input failed.
const NO_INPUT: u8 = 4;

/// The status where the output or a slot failed.
const SITE_FAILED: u8 = 5;

/// So many of the first bytes of an input are noted, to say what it looks like.
const FIRST_BYTES: usize = 4096;

/// The most bytes of a text of lines, all of which are noted, to say what a line names that nothing has.
const LINES_BYTES: usize = 1_048_576;

/// The status where there is no memory for the words.
const NO_MEMORY: u8 = 6;

// The two files of a store.
fn paths(alloc: Global, store: &str) -> Result<(String, String), AllocError> {
    let a = String::from_str(alloc, store)?;
    let mut b = String::from_str(alloc, store)?;
    b.push_str(".b")?;
    Ok((a, b))
}

// The site of a store's files. Where nothing can be emitted or the command only looks, nothing is written either.
fn site_of(
    rt: &HostRuntime,
    store: &str,
    looks: bool,
) -> Result<FileSite<HostRuntime, Stdout>, AllocError> {
    let (a, b) = paths(rt.alloc(), store)?;
    let files = rt.clone()?;
    if looks {
        Ok(FileSite::reading(files, a, b, rt.stdout()))
    } else {
        Ok(FileSite::new(files, a, b, rt.stdout()))
    }
}

// Whether a store that a call made isn't whole: it is once the call began to emit its answer.
fn is_cut_short(status: u8, fault: Option<SiteFault>) -> bool {
    match fault {
        Some(SiteFault { slot: None, .. }) => false,
        _ => status != 0 && status != REFUSED,
    }
}

// Tells why a store is refused, or which word names nothing in it: it is opened once more for that, to be read.
fn tell_refused(
    rt: &HostRuntime,
    command: &Command<'_>,
    store: &str,
    makes_store: bool,
    site: &FileSite<HostRuntime, Stdout>,
) {
    reason::tell_refusal(rt, store, makes_store, site);
    if !makes_store {
        if let Ok(mut again) = site_of(rt, store, true) {
            nearest::tell_unknown(rt, command, &mut again);
        }
    }
}

// Whether the input are lines of grants.
fn reads_lines(command: &Command<'_>) -> bool {
    match command {
        Command::Grants { .. } => true,
        _ => false,
    }
}

// Tells which word of lines of grants names nothing in the store.
fn tell_lines(rt: &HostRuntime, text: &[u8], store: &str) {
    if let Ok(mut again) = site_of(rt, store, true) {
        lines::tell_unknown_in_lines(rt, text, &mut again);
    }
}

// Runs over the files of the store that the words name.
fn run_over(
    rt: &HostRuntime,
    streams: &Streams,
    words: &[String],
    command: &Command<'_>,
    store: &str,
) -> u8 {
    let opening = command.opening();
    let Ok(mut site) = site_of(rt, store, streams.lacks_output || opening == Opening::Reads) else {
        reason::tell_no_memory(rt);
        return NO_MEMORY;
    };
    let of_lines = reads_lines(command);
    let most = if of_lines { LINES_BYTES } else { FIRST_BYTES };
    let mut source = Noted::new(rt.alloc(), StdSource::new(rt.stdin()), most);
    let status = run::run(rt.alloc(), words, &mut source, &mut site);
    let makes_store = opening == Opening::Makes;
    if makes_store && is_cut_short(status, site.fault()) {
        let _ = site.remove_made();
    }
    match status {
        NOT_OF_FORM if makes_store => looks::tell_look(rt, source.first()),
        NOT_OF_FORM if of_lines => tell_lines(rt, source.first(), store),
        REFUSED => tell_refused(rt, command, store, makes_store, &site),
        NO_INPUT => reason::tell_input(rt, streams, source.source().cause()),
        SITE_FAILED => reason::tell_site(rt, streams, store, site.fault()),
        NO_MEMORY => reason::tell_no_memory(rt),
        _ => {}
    }
    status
}

// Runs over the files of the two stores that the words name, which are only looked at.
fn run_over_both(
    rt: &HostRuntime,
    streams: &Streams,
    words: &[String],
    first: &str,
    second: &str,
) -> u8 {
    let Ok(mut site) = site_of(rt, first, true) else {
        reason::tell_no_memory(rt);
        return NO_MEMORY;
    };
    let Ok(mut other) = site_of(rt, second, true) else {
        reason::tell_no_memory(rt);
        return NO_MEMORY;
    };
    let mut source = StdSource::new(rt.stdin());
    let status = beside::run_beside(rt.alloc(), words, &mut source, &mut site, &mut other);
    match status {
        REFUSED => {
            reason::tell_refusal(rt, first, false, &site);
            reason::tell_refusal(rt, second, false, &other);
        }
        SITE_FAILED => {
            reason::tell_site(rt, streams, first, site.fault());
            reason::tell_site(rt, streams, second, other.fault());
        }
        NO_MEMORY => reason::tell_no_memory(rt),
        _ => {}
    }
    status
}

// Runs without a store.
fn run_plain(rt: &HostRuntime, streams: &Streams, words: &[String]) -> u8 {
    let mut source = StdSource::new(rt.stdin());
    let mut site = OutSite::new(rt.stdout());
    let status = run::run(rt.alloc(), words, &mut source, &mut site);
    match status {
        NO_FORM => reason::tell_words(rt, words),
        NO_INPUT => reason::tell_input(rt, streams, source.cause()),
        SITE_FAILED => reason::tell_output(rt, streams, site.cause()),
        NO_MEMORY => reason::tell_no_memory(rt),
        _ => {}
    }
    status
}

fn main(rt: HostRuntime) -> ExitCode {
    let streams = streams::held(&rt);
    let words = match words::words(&rt) {
        Ok(words) => words,
        Err(error) => {
            return ExitCode::from(if error.kind() == io::ErrorKind::InvalidData {
                reason::tell_no_text(&rt);
                NO_FORM
            } else {
                reason::tell_no_memory(&rt);
                NO_MEMORY
            });
        }
    };
    let Some(command) = command_of(&words) else {
        return ExitCode::from(run_plain(&rt, &streams, &words));
    };
    ExitCode::from(match (command.store(), command.other_store()) {
        (Some(first), Some(second)) => run_over_both(&rt, &streams, &words, first, second),
        (Some(store), None) => run_over(&rt, &streams, &words, &command, store),
        _ => run_plain(&rt, &streams, &words),
    })
}
