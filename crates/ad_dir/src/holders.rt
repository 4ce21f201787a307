//! The objects that hold links to a target.

ghost use Rattle.std.specs.Prelude.{◌≡◌, ◌++◌, [], ◌∷◌, map, IfOk, OnOk, if◌then◌else◌};
ghost use Rattle.std.specs.List.{list_any};
ghost use Rattle.ad_dir_model.specs.Object.{is_link_to, names};
ghost use Rattle.ad_dir_objects.specs.Seen.{stored_seen, held_seen};
ghost use Rattle.ad_dir.specs.Holders.{holders, is_holder};

use crate::dir::Dir;
use ad_bytes::OneOrMany;
use ad_dir_objects::Stored;
use ad_schema::AttrId;
use std::alloc::{AllocError, Global};

// Whether a value is a link to a target.
fn is_link_to(value: &Stored, target: u32) -> bool
    ensures { result ≡ is_link_to target (stored_seen value.now) }
{
    match value {
        Stored::Plain(_) => false,
        Stored::Link(number) => *number == target,
    }
}

// Whether one of the values is.
fn some_link_to(stored: &[Stored], target: u32) -> bool
    ensures { result ≡ names target (map stored_seen stored.now) }
{
    'each: for value in stored {
        if is_link_to(value, target) {
            return true;
        }
    }
    false
}

// Whether one of the values of attributes is.
fn any_link_to(values: &[(AttrId, OneOrMany<Stored>)], target: u32) -> bool
    ensures { result ≡ list_any (λ held. names target held.values) (map held_seen values.now) }
{
    'each: for held in values {
        if some_link_to(held.1.as_slice(), target) {
            return true;
        }
    }
    false
}

// Whether the object of a number is live and holds a link to a target.
fn is_holder(dir: &Dir, target: u32, number: u32) -> bool
    ensures { result ≡ is_holder dir.now.objects target number }
{
    match dir.object(number) {
        Some(object) => any_link_to(object.values.as_slice(), target),
        None => false,
    }
}

// Puts a number at the end, if its object holds a link to a target.
fn push_holder(dir: &Dir, target: u32, number: u32, found: &mut Vec<u32>) -> Result<(), AllocError>
    ensures { OnOk result (found.new.items ≡ found.old.items
        ++ (if is_holder dir.now.objects target number then number ∷ [] else [])) }
{
    if is_holder(dir, target, number) {
        found.push(number)?;
    }
    Ok(())
}

impl Dir {
    /// The live objects that hold a link to a target, by rising number. The others aren't looked at.
    ///
    /// # Errors
    ///
    /// Out of memory.
    pub fn holders(&self, alloc: Global, target: u32) -> Result<Vec<u32>, AllocError>
        ensures { IfOk result (λ all. all.items ≡ holders self.now.objects target) }
    {
        self.invariants();
        let mut found = Vec::new(alloc);
        let mut above = 0u32;
        'each: while let Some(next) = self.next_holder(target, above) {
            push_holder(self, target, next, &mut found)?;
            above = next;
        }
        Ok(found)
    }
}
