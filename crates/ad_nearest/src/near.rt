//! The names that are nearest to a word.

use std::alloc::{AllocError, Global};
use strsim::osa_distance;

/// A longer name is compared with nothing.
const LONGEST: usize = 1024;

/// No more names are told.
const MOST_NAMES: usize = 3;

/// So many pairs of letters are compared in all, whatever names there are.
const MOST_WORK: usize = 100_000_000;

/// A word, and how much work it may still take.
#[derive(Drop)]
pub(crate) struct Wanted {
    word: Vec<u8>,
    work: usize,
}

/// The nearest names so far, all equally far from a word.
#[derive(Drop)]
pub(crate) struct Nearest {
    wanted: Wanted,
    // A name that is this far is near where there is another one; one that is nearer always is.
    least: usize,
    names: Vec<Vec<u8>>,
}

fn folded(alloc: Global, name: &[u8]) -> Result<Vec<u8>, AllocError> {
    let mut small = Vec::new(alloc);
    for byte in name {
        small.push(byte.to_ascii_lowercase())?;
    }
    Ok(small)
}

/// A word, without regard to ASCII case.
pub(crate) fn want(alloc: Global, word: &[u8]) -> Result<Wanted, AllocError> {
    Ok(Wanted {
        word: folded(alloc, word)?,
        work: MOST_WORK,
    })
}

/// From how many edits on a name isn't near to a word of this length.
pub(crate) fn too_many(length: usize) -> usize {
    if length < 4 {
        2
    } else if length < 9 {
        3
    } else {
        4
    }
}

fn distance(alloc: Global, a: &[u8], b: &[u8]) -> Result<usize, AllocError> {
    match (str::from_utf8(a), str::from_utf8(b)) {
        (Ok(a), Ok(b)) => osa_distance(alloc, a, b),
        _ => Ok(LONGEST),
    }
}

// Whether lengths alone make a name too far.
fn differ_by(a: usize, b: usize, most: usize) -> bool {
    let more = if a < b { b - a } else { a - b };
    more > most || a > LONGEST || b > LONGEST
}

/// How far a name is from the word, where it is no farther than this.
pub(crate) fn far(
    alloc: Global,
    wanted: &mut Wanted,
    name: &[u8],
    most: usize,
) -> Result<Option<usize>, AllocError> {
    if differ_by(name.len(), wanted.word.len(), most) {
        return Ok(None);
    }
    let work = name
        .len()
        .saturating_add(1)
        .saturating_mul(wanted.word.len().saturating_add(1));
    if work > wanted.work {
        return Ok(None);
    }
    wanted.work -= work;
    let name = folded(alloc, name)?;
    let far = distance(alloc, wanted.word.as_slice(), name.as_slice())?;
    Ok(if far <= most { Some(far) } else { None })
}

/// Nothing yet, for a word.
pub(crate) fn nearest_to(alloc: Global, word: &[u8]) -> Result<Nearest, AllocError> {
    nearest_within(alloc, word, too_many(word.len()))
}

/// Nothing yet, for a word to which names up to this distance are near.
pub(crate) fn nearest_within(
    alloc: Global,
    word: &[u8],
    least: usize,
) -> Result<Nearest, AllocError> {
    Ok(Nearest {
        wanted: want(alloc, word)?,
        least,
        names: Vec::new(alloc),
    })
}

// Whether a name that is so far is one more of the nearest.
fn takes(nearest: &Nearest, far: usize) -> bool {
    let count = nearest.names.len();
    far < nearest.least || (far == nearest.least && count > 0 && count < MOST_NAMES)
}

/// Whether a name is one of the nearest so far; those that are farther are dropped then.
pub(crate) fn is_near(
    alloc: Global,
    nearest: &mut Nearest,
    name: &[u8],
) -> Result<bool, AllocError> {
    let most = nearest.least;
    let Some(far) = far(alloc, &mut nearest.wanted, name, most)? else {
        return Ok(false);
    };
    if !takes(nearest, far) {
        return Ok(false);
    }
    if far < nearest.least {
        nearest.least = far;
        nearest.names = Vec::new(alloc);
    }
    Ok(true)
}

/// Keeps what is told of a near name, unless the same is kept already.
pub(crate) fn keep(nearest: &mut Nearest, told: Vec<u8>) -> Result<(), AllocError> {
    for name in nearest.names.as_slice() {
        if name.as_slice() == told.as_slice() {
            return Ok(());
        }
    }
    nearest.names.push(told)?;
    Ok(())
}

/// What is told of the nearest.
pub(crate) fn names_of(nearest: Nearest) -> Vec<Vec<u8>> {
    let Nearest {
        wanted: _,
        least: _,
        names,
    } = nearest;
    names
}
