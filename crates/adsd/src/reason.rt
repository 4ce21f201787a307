//! Why a call failed, as one line on standard error. No contract speaks of what is told.

ghost use Rattle.std.specs.Prelude.{◌<◌, IfSome};

use crate::streams::Streams;
use ad_nearest::Shown;
use cmd_words::FORMS;
use site_io::{FileSite, SiteFault, Slot};
use std::alloc::Global;
use std::io::{ErrorKind, Stdout};
use std::{fmt, io};
use strsim::osa_distance;

/// A command's name is no longer than this in bytes, with one letter more.
const LONGEST: usize = 10;

/// The file of a slot of a store.
#[derive(Drop)]
struct SlotFile<'a> {
    store: Shown<'a>,
    ending: &'static str,
}

impl<'a> SlotFile<'a> {
    fn new(store: &'a str, slot: Slot) -> SlotFile<'a> {
        SlotFile {
            store: Shown { text: store },
            ending: match slot {
                Slot::A => "",
                Slot::B => ".b",
            },
        }
    }
}

impl fmt::Display for SlotFile<'_> {
    fn fmt<W: fmt::Write>(&self, f: &mut fmt::Formatter<W>) -> fmt::Result {
        fmt::Display::fmt(&self.store, f)?;
        f.write_str(self.ending)
    }
}

// Whether a word is a command's name, but for one letter at most.
fn is_near(alloc: Global, word: &str, name: &str) -> bool {
    if word.len() > LONGEST {
        return false;
    }
    match osa_distance(alloc, word, name) {
        Ok(distance) => distance <= 1,
        Err(_) => false,
    }
}

// The number of the form whose command's name is nearest to a word, where one is near.
fn nearest(alloc: Global, word: &str) -> Option<usize>
    ensures { IfSome result (λ i. i < 20) }
{
    for i in 0..FORMS.len() {
        if is_near(alloc, word, FORMS[i].0) {
            return Some(i);
        }
    }
    None
}

/// Tells that the words are of no form, with the form that is nearest.
pub fn tell_words(rt: &HostRuntime, words: &[String]) {
    let first = match words {
        [] => "",
        [word, ..] => word.as_str(),
    };
    let _ = match nearest(rt.alloc(), first) {
        Some(i) => {
            let (name, others) = FORMS[i];
            if first == name {
                eprintln!(rt; "adsd: wrong arguments; the nearest form: adsd {name}{others}")
            } else {
                let word = Shown { text: first };
                eprintln!(rt;
                    "adsd: there is no command {word}; the nearest form: adsd {name}{others}"
                )
            }
        }
        None => tell_forms(rt, first),
    };
}

// Tells all forms.
fn tell_forms(rt: &HostRuntime, first: &str) -> io::Result<()> {
    if first.is_empty() {
        eprint!(rt; "adsd: no command is named")?;
    } else {
        let word = Shown { text: first };
        eprint!(rt; "adsd: there is no command {word}")?;
    }
    eprint!(rt; "; the commands: ")?;
    tell_names(rt)?;
    eprintln!(rt; "")
}

// Tells the names of all commands, first those without a store.
fn tell_names(rt: &HostRuntime) -> io::Result<()> {
    let mut has_store = false;
    for i in 0..FORMS.len() {
        let (name, others) = FORMS[i];
        if i > 0 {
            eprint!(rt; ", ")?;
        }
        if !has_store && !others.is_empty() {
            eprint!(rt; "and of a STORE ")?;
            has_store = true;
        }
        eprint!(rt; "{name}")?;
    }
    Ok(())
}

/// Tells that a word is no text.
pub fn tell_no_text(rt: &HostRuntime) {
    let _ = eprintln!(rt; "adsd: a word is no UTF-8; names of stores and objects have to be");
}

/// Tells that memory ended.
pub fn tell_no_memory(rt: &HostRuntime) {
    let _ = eprintln!(rt; "adsd: no memory left");
}

/// Tells why standard input couldn't be read.
pub fn tell_input(rt: &HostRuntime, streams: &Streams, cause: Option<io::Error>) {
    if streams.lacks_input {
        let _ = eprintln!(rt; "adsd: standard input is closed");
    } else if let Some(e) = cause {
        let _ = match e.kind() {
            ErrorKind::IsADirectory => eprintln!(rt; "adsd: standard input is a directory"),
            _ => eprintln!(rt; "adsd: standard input can't be read: {e}"),
        };
    }
}

/// Tells why nothing could be written to standard output.
pub fn tell_output(rt: &HostRuntime, streams: &Streams, cause: Option<io::Error>) {
    if streams.lacks_output {
        let _ = eprintln!(rt; "adsd: standard output is closed");
    } else if let Some(e) = cause {
        let _ = match e.kind() {
            ErrorKind::StorageFull => eprintln!(rt; "adsd: no space left for standard output"),
            ErrorKind::BrokenPipe => eprintln!(rt; "adsd: nobody reads standard output any more"),
            _ => eprintln!(rt; "adsd: standard output can't be written: {e}"),
        };
    }
}

/// Tells why the site of a store failed.
pub fn tell_site(rt: &HostRuntime, streams: &Streams, store: &str, fault: Option<SiteFault>) {
    match fault {
        Some(
            SiteFault {
                slot: Some(slot),
                cause,
            },
        ) => {
            if cause.kind() == ErrorKind::Unsupported {
                tell_output(rt, streams, None);
            } else {
                let _ = tell_slot(rt, SlotFile::new(store, slot), cause);
            }
        }
        Some(SiteFault { slot: None, cause }) => tell_output(rt, streams, Some(cause)),
        None => {}
    }
}

// Tells why a call on a slot's file failed.
fn tell_slot(rt: &HostRuntime, file: SlotFile<'_>, cause: io::Error) -> io::Result<()> {
    match cause.kind() {
        ErrorKind::WouldBlock => eprintln!(rt; "adsd: {file} is locked by another process"),
        ErrorKind::IsADirectory => eprintln!(rt; "adsd: {file} is a directory"),
        ErrorKind::PermissionDenied => eprintln!(rt; "adsd: no right to open {file}"),
        ErrorKind::ReadOnlyFilesystem => {
            eprintln!(rt; "adsd: {file} is on a read-only file system")
        }
        ErrorKind::StorageFull => eprintln!(rt; "adsd: no space left for {file}"),
        ErrorKind::QuotaExceeded => eprintln!(rt; "adsd: no space left in the quota for {file}"),
        ErrorKind::NotFound => eprintln!(rt; "adsd: there is no folder for {file}"),
        ErrorKind::AlreadyExists => { eprintln!(rt; "adsd: another process made {file} meanwhile") }
        _ => eprintln!(rt; "adsd: {file}: {cause}"),
    }
}

/// Tells why a store that is to be made or opened isn't, where the answer on standard output doesn't.
pub fn tell_refusal(
    rt: &HostRuntime,
    store: &str,
    makes_store: bool,
    site: &FileSite<HostRuntime, Stdout>,
) {
    let first = SlotFile::new(store, Slot::A);
    if makes_store {
        let _ = if site.is_missing(Slot::A) {
            eprintln!(rt; "adsd: {first}.b exists: remove it, or name another store")
        } else {
            let second = SlotFile::new(store, Slot::B);
            eprintln!(rt; "adsd: {first} exists: remove {first} and {second}, or name another")
        };
    } else if site.is_missing(Slot::A) {
        let _ = eprintln!(rt; "adsd: no such store {first}");
    }
}
