//! Requirements as values: each is a list of alternatives, of which one has to be granted.

ghost use Rattle.std.specs.Prelude.{◌≡◌, ◌∷◌, ◌++◌, [], IfOk, OnOk};
ghost use Rattle.ad_types.specs.Path.{guids_of};
ghost use Rattle.ad_needs_rules.specs.Needs.{needs};
ghost use Rattle.ad_questions.specs.Requirements.{alternative_seen, requirement_seen, requirements_seen};

use ad_types::Path;
use std::alloc::{AllocError, Global};

/// A right on an object, by its place in a mask, and on a path.
#[derive(Clone, Copy, Debug, PartialEq, Eq)]
pub struct Alternative {
    pub object: u32,
    pub bit: u32,
    pub path: Path,
}

/// A right on an object as a whole.
pub(crate) fn on_object(object: u32, bit: u32) -> Alternative
    ensures { alternative_seen result ≡ needs object bit [] }
{
    Alternative {
        object,
        bit,
        path: Path::empty(),
    }
}

/// A right on a path.
pub(crate) fn on_path(object: u32, bit: u32, path: Path) -> Alternative
    ensures { alternative_seen result ≡ needs object bit (guids_of path) }
{
    Alternative { object, bit, path }
}

// A requirement of one alternative.
fn one(alloc: Global, only: Alternative) -> Result<Vec<Alternative>, AllocError>
    ensures { IfOk result (λ found. requirement_seen found ≡ alternative_seen only ∷ []) }
{
    let mut found = Vec::new(alloc);
    found.push(only)?;
    Ok(found)
}

// A requirement of two.
fn two(
    alloc: Global,
    first: Alternative,
    second: Alternative,
) -> Result<Vec<Alternative>, AllocError>
    ensures { IfOk result (λ found. requirement_seen found
        ≡ alternative_seen first ∷ alternative_seen second ∷ []) }
{
    let mut found = Vec::new(alloc);
    found.push(first)?;
    found.push(second)?;
    Ok(found)
}

/// Puts a requirement after the others.
fn push(into: &mut Vec<Vec<Alternative>>, one: Vec<Alternative>) -> Result<(), AllocError>
    ensures { OnOk result (requirements_seen into.new.items
        ≡ requirements_seen into.old.items ++ requirement_seen one ∷ []) }
{
    into.push(one)?;
    Ok(())
}

/// Puts a requirement that nobody meets.
pub(crate) fn push_none(alloc: Global, into: &mut Vec<Vec<Alternative>>) -> Result<(), AllocError>
    ensures { OnOk result (requirements_seen into.new.items
        ≡ requirements_seen into.old.items ++ [] ∷ []) }
{
    push(into, Vec::new(alloc))
}

/// Puts a requirement of one alternative.
pub(crate) fn push_one(
    alloc: Global,
    into: &mut Vec<Vec<Alternative>>,
    only: Alternative,
) -> Result<(), AllocError>
    ensures { OnOk result (requirements_seen into.new.items
        ≡ requirements_seen into.old.items ++ (alternative_seen only ∷ []) ∷ []) }
{
    let requirement = one(alloc, only)?;
    push(into, requirement)
}

/// Puts a requirement of two.
pub(crate) fn push_two(
    alloc: Global,
    into: &mut Vec<Vec<Alternative>>,
    first: Alternative,
    second: Alternative,
) -> Result<(), AllocError>
    ensures { OnOk result (requirements_seen into.new.items ≡ requirements_seen into.old.items
        ++ (alternative_seen first ∷ alternative_seen second ∷ []) ∷ []) }
{
    let requirement = two(alloc, first, second)?;
    push(into, requirement)
}
