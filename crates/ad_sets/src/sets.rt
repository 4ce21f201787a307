//! Sets that are kept, each different one once.

ghost use Rattle.std.specs.Prelude.{◌≡◌, [], true, false, Some, slice_get, length, IfOk, OnOk};
ghost use Rattle.ad_sets.specs.Told.{stands_in};
ghost use Rattle.ad_sets.specs.Sets.{sets_of, set_at, Keeps, is_nobody, joins, IsJoined};

use indexmap::IndexSet;
use std::alloc::{AllocError, Global};

/// Sets of places, each different one once, under the place at which it was put.
#[derive(Drop)]
pub struct Sets {
    sets: IndexSet<Vec<bool>>,
}

impl Sets {
    /// No set.
    pub fn new(alloc: Global) -> Sets
        ensures { sets_of result ≡ [] }
    {
        Sets {
            sets: IndexSet::new(alloc),
        }
    }

    /// The place of a set, which is put where it isn't there yet.
    ///
    /// # Errors
    ///
    /// Out of memory.
    pub fn put(&mut self, set: Vec<bool>) -> Result<usize, AllocError>
        ensures place { IfOk result (λ place. slice_get (sets_of self.new) place ≡ Some set.items) }
        ensures kept { OnOk result (Keeps (sets_of self.old) (sets_of self.new)) }
    {
        let (place, _) = self.sets.insert_full(set)?;
        Ok(place)
    }

    /// The set at a place: for each place of its own whether it is in it.
    pub fn at(&self, place: usize) -> &[bool]
        ensures { result.now ≡ set_at (sets_of self.now) place }
    {
        match self.sets.get_index(place) {
            Some(set) => set.as_slice(),
            None => &[],
        }
    }

    /// The number of sets.
    pub fn count(&self) -> usize
        ensures { result ≡ length (sets_of self.now) }
    {
        self.sets.len()
    }
}

/// Whether a place is in a set; one beyond it isn't.
pub fn stands_in(set: &[bool], place: usize) -> bool
    ensures { result ≡ stands_in set.now place }
{
    match set.get(place) {
        Some(there) => *there,
        None => false,
    }
}

fn joins(both: bool, a: bool, b: bool) -> bool
    ensures { result ≡ joins both a b }
{
    if both { a && b } else { a || b }
}

/// Whether a set has nobody.
pub fn is_nobody(set: &[bool]) -> bool
    ensures { result ≡ is_nobody set.now }
{
    for there in set {
        if *there {
            return false;
        }
    }
    true
}

// Who is in both sets, or else in one of both.
fn joined(alloc: Global, both: bool, set: &[bool], others: &[bool]) -> Result<Vec<bool>, AllocError>
    ensures { IfOk result (λ joined. IsJoined both set.now others.now joined.items) }
{
    let mut found = Vec::with_capacity(alloc, set.len())?;
    for place in 0..set.len() {
        found.push(joins(both, set[place], stands_in(others, place)))?;
    }
    Ok(found)
}

/// Who is in one of both sets.
///
/// # Errors
///
/// Out of memory.
pub fn either(alloc: Global, set: &[bool], others: &[bool]) -> Result<Vec<bool>, AllocError>
    ensures { IfOk result (λ joined. IsJoined false set.now others.now joined.items) }
{
    joined(alloc, false, set, others)
}

/// Who is in both sets.
///
/// # Errors
///
/// Out of memory.
pub fn both(alloc: Global, set: &[bool], others: &[bool]) -> Result<Vec<bool>, AllocError>
    ensures { IfOk result (λ joined. IsJoined true set.now others.now joined.items) }
{
    joined(alloc, true, set, others)
}
