//! Long folded lines come again: most records of a directory have the descriptor of the one before. So the
//! continuations of the last one are kept as they stand in the text, with what they add to their line, and are
//! passed over at once.

ghost use Rattle.std.specs.Prelude.{◌≡◌, ◌+◌, ◌≤◌, ◌++◌, ℕ, List, true, length, IfSome};
ghost use Rattle.ad_ldif.specs.Lines.{physical};
ghost use Rattle.ad_ldif.specs.Folds.{Folds};

use crate::physical::{begins_with, cut};
use std::alloc::{AllocError, Global};

// The lengths of the shortest and of the longest text that are kept.
const LEAST: usize = 1024;

const MOST: usize = 1_048_576;

/// Whole physical lines that all continue a line, what they add to it, and their number.
#[derive(Drop)]
pub(crate) struct Folded {
    raw: Vec<u8>,
    pub(crate) tail: Vec<u8>,
    pub(crate) count: u32,
    ghost folds: { Folds raw.items tail.items count },
    ghost few: { count ≤ length raw.items },
}

impl Folded {
    /// What stands after these lines, where a text begins with them.
    pub(crate) fn behind<'b>(&self, text: &'b [u8]) -> Option<&'b [u8]>
        ensures { IfSome result (λ after. text.now ≡ self.now.raw.items ++ after.now) }
    {
        behind(text, self.raw.as_slice())
    }
}

fn behind<'b>(text: &'b [u8], front: &[u8]) -> Option<&'b [u8]>
    ensures { IfSome result (λ after. text.now ≡ front.now ++ after.now) }
{
    if text.len() < front.len() {
        return None;
    }
    if &text[..front.len()] == front {
        return Some(&text[front.len()..]);
    }
    None
}

// Whether a text ends with the end of a line: then its lines are the same whatever stands after it.
fn is_whole(text: &[u8]) -> bool
    ensures { result ≡ true → (after : List ℕ) → physical (text.now ++ after) ≡ physical text.now
        ++ physical after }
{
    if text.is_empty() {
        return false;
    }
    let last = text.len() - 1;
    text[last] == b'\n'
}

// The lines of a text, where they all are whole and continue a line.
fn folded_of(alloc: Global, raw: &[u8]) -> Result<Option<Folded>, AllocError>
    requires { length raw.now ≤ 1048576 }
{
    if !is_whole(raw) {
        return Ok(None);
    }
    let mut tail = Vec::with_capacity(alloc, raw.len())?;
    let mut rest = raw;
    let mut count = 0;
    'lines: while begins_with(rest, b' ') {
        let (line, after) = cut(rest);
        tail.extend_from_slice(&line[1..])?;
        rest = after;
        count += 1;
    }
    if !rest.is_empty() {
        return Ok(None);
    }
    Ok(Some(Folded {
        raw: Vec::from_slice(alloc, raw)?,
        tail,
        count,
    }))
}

/// The last long continuations.
#[derive(Drop)]
pub(crate) struct LastFolded {
    seen: Option<Vec<u8>>,
    pub(crate) known: Option<Folded>,
}

impl LastFolded {
    /// None so far.
    pub(crate) fn none() -> LastFolded {
        LastFolded {
            seen: None,
            known: None,
        }
    }
}

// Whether this was the text.
fn is_seen(seen: &Option<Vec<u8>>, text: &[u8]) -> bool {
    match seen {
        Some(seen) => seen.as_slice() == text,
        None => false,
    }
}

/// Takes note of the lines from the beginning of a text up to its rest, if they are long. Where they come for the
/// second time, one after the other, they are kept: so lines that don't come again cost a comparison alone.
pub(crate) fn note(
    alloc: Global,
    last: &mut LastFolded,
    text: &[u8],
    rest: &[u8],
) -> Result<(), AllocError> {
    let raw = &text[..text.len().saturating_sub(rest.len())];
    if raw.len() < LEAST || raw.len() > MOST {
        return Ok(());
    }
    if !is_seen(&last.seen, raw) {
        last.seen = Some(Vec::from_slice(alloc, raw)?);
        return Ok(());
    }
    last.known = folded_of(alloc, raw)?;
    Ok(())
}
