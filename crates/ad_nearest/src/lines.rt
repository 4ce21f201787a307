//! The first line of grants that goes wrong, where a word of it names nothing.

use crate::entries::{in_entry, in_identifier};
use crate::hint::Hint;
use crate::objects::unknown_object;
use ad_dir::Dir;
use ad_ldifmod::{GrantFault, GrantKind, judge};
use std::alloc::{AllocError, Global};
use std::fmt;

/// The most bytes of a text of lines.
const MOST_BYTES: usize = 1_048_576;

/// What is told of a line. Lines are counted from 1.
#[derive(Drop)]
pub struct LineHint<'a> {
    line: u32,
    hint: Hint<'a>,
}

impl fmt::Display for LineHint<'_> {
    fn fmt<W: fmt::Write>(&self, f: &mut fmt::Formatter<W>) -> fmt::Result {
        f.write_str("line ")?;
        fmt::Display::fmt(&self.line, f)?;
        f.write_str(": ")?;
        fmt::Display::fmt(&self.hint, f)
    }
}

// The line of a number, where it is UTF-8.
fn line_at(text: &[u8], number: u32) -> Option<&str> {
    let mut before = number;
    for line in text.split(|byte| *byte == b'\n') {
        if before <= 1 {
            return str::from_utf8(line).ok();
        }
        before -= 1;
    }
    None
}

// The word of a line, the entry or the identifier, and the name.
fn parts_of(line: &str) -> Option<(&str, &str, &str)> {
    let (word, rest) = line.split_once(' ')?;
    let (what, name) = rest.split_once(' ')?;
    Some((word, what, name))
}

fn in_line<'a>(
    alloc: Global,
    dir: &Dir,
    line: &'a str,
    kind: GrantKind,
) -> Result<Option<Hint<'a>>, AllocError> {
    let Some((word, what, name)) = parts_of(line) else {
        return Ok(None);
    };
    match kind {
        GrantKind::Name => unknown_object(alloc, dir, name),
        GrantKind::Entry if word == "revoke" => in_identifier(alloc, dir, what),
        GrantKind::Entry => in_entry(alloc, dir, what),
        _ => Ok(None),
    }
}

fn in_line_at<'a>(
    alloc: Global,
    dir: &Dir,
    text: &'a [u8],
    number: u32,
    kind: GrantKind,
) -> Result<Option<LineHint<'a>>, AllocError> {
    let Some(line) = line_at(text, number) else {
        return Ok(None);
    };
    match in_line(alloc, dir, line, kind)? {
        Some(hint) => Ok(Some(LineHint { line: number, hint })),
        None => Ok(None),
    }
}

/// What is told of the first line of a text that goes wrong (`ad_ldifmod::judge`), where an object, a right, an
/// attribute or an account that it names isn't there.
///
/// # Errors
///
/// Memory ran out.
pub fn unknown_in_lines<'a>(
    alloc: Global,
    dir: &Dir,
    text: &'a [u8],
) -> Result<Option<LineHint<'a>>, AllocError> {
    if text.len() > MOST_BYTES {
        return Ok(None);
    }
    match judge(alloc, dir, text) {
        Ok(()) => Ok(None),
        Err(GrantFault::Bad { line, kind }) => in_line_at(alloc, dir, text, line, kind),
        Err(GrantFault::Memory) => Err(AllocError),
    }
}
