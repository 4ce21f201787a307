//! Which word of a question names nothing, where its answer says that there is nothing. No contract speaks of what is
//! told.

use ad_dir::Dir;
use ad_nearest::{Hint, unknown_identifier, unknown_name, unknown_object, unknown_right};
use cmd_store_open::DirStore;
use cmd_words::Command;
use site_io::FileSite;
use std::alloc::{AllocError, Global};
use std::io::Stdout;

// The first of further identifiers that is none.
fn in_identifiers<'a>(alloc: Global, words: &'a [String]) -> Option<Hint<'a>> {
    for word in words {
        let hint = unknown_identifier(alloc, word.as_str());
        if hint.is_some() {
            return hint;
        }
    }
    None
}

fn in_token<'a>(
    alloc: Global,
    dir: &Dir,
    name: &'a str,
    sids: &'a [String],
) -> Result<Option<Hint<'a>>, AllocError> {
    match unknown_name(alloc, dir, name, true)? {
        Some(hint) => Ok(Some(hint)),
        None => Ok(in_identifiers(alloc, sids)),
    }
}

fn in_who<'a>(
    alloc: Global,
    dir: &Dir,
    right: &'a str,
    name: &'a str,
) -> Result<Option<Hint<'a>>, AllocError> {
    match unknown_right(alloc, dir.schema(), right)? {
        Some(hint) => Ok(Some(hint)),
        None => unknown_name(alloc, dir, name, false),
    }
}

// A further name, if one is given.
fn in_base<'a>(
    alloc: Global,
    dir: &Dir,
    base: Option<&'a str>,
) -> Result<Option<Hint<'a>>, AllocError> {
    match base {
        Some(base) => unknown_name(alloc, dir, base, false),
        None => Ok(None),
    }
}

fn in_right_and_base<'a>(
    alloc: Global,
    dir: &Dir,
    right: &'a str,
    base: Option<&'a str>,
) -> Result<Option<Hint<'a>>, AllocError> {
    match unknown_right(alloc, dir.schema(), right)? {
        Some(hint) => Ok(Some(hint)),
        None => in_base(alloc, dir, base),
    }
}

fn in_can<'a>(
    alloc: Global,
    dir: &Dir,
    name: &'a str,
    right: &'a str,
    base: Option<&'a str>,
) -> Result<Option<Hint<'a>>, AllocError> {
    match unknown_name(alloc, dir, name, true)? {
        Some(hint) => Ok(Some(hint)),
        None => in_right_and_base(alloc, dir, right, base),
    }
}

// The words after the store, in the order in which the command judges them.
fn in_command<'a>(
    alloc: Global,
    dir: &Dir,
    command: &Command<'a>,
) -> Result<Option<Hint<'a>>, AllocError> {
    match *command {
        Command::List { name, .. } => unknown_object(alloc, dir, name),
        Command::Effective { name, .. } => unknown_object(alloc, dir, name),
        Command::Token { name, sids, .. } => in_token(alloc, dir, name, sids),
        Command::Who { right, name, .. } => in_who(alloc, dir, right, name),
        Command::Can {
            name,
            right,
            base,
            ..
        } => in_can(alloc, dir, name, right, base),
        Command::Rights { right, base, .. } => in_right_and_base(alloc, dir, right, base),
        Command::Control { name, .. } => unknown_name(alloc, dir, name, false),
        Command::Reach { name, .. } => unknown_name(alloc, dir, name, false),
        _ => Ok(None),
    }
}

/// Tells which word names nothing and what is nearest to it. The site is of the store's files, opened once more to be
/// read; where it represents no directory nothing is told.
pub fn tell_unknown(
    rt: &HostRuntime,
    command: &Command<'_>,
    site: &mut FileSite<HostRuntime, Stdout>,
) {
    if let Ok(engine) = DirStore::resume(rt.alloc(), site) {
        if let Ok(Some(hint)) = in_command(rt.alloc(), engine.dir(), command) {
            let _ = eprintln!(rt; "adsd: {hint}");
        }
    }
}
