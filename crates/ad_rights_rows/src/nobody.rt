//! Whether nobody is in what a set tells with a sign, with each set looked through once.

ghost use Rattle.std.specs.Prelude.{◌≡◌, Bool, List, Some, true, is_some, nat_eq, slice_get, IfOk, OnOk};
ghost use Rattle.indexmap.specs.IndexMap.{get};
ghost use Rattle.ad_sets.specs.Sets.{sets_of, set_at, is_nobody};
ghost use Rattle.ad_rights_rows.specs.Steps.{is_added, IsFirst, AreFirsts, IsToldBy};

use crate::member::signed;
use ad_sets::{Sets, Sign};
use indexmap::IndexMap;
use std::alloc::{AllocError, Global};

/// By the place of a set, the place of its first member, or how long it is where it has none.
pub type Firsts = IndexMap<usize, usize>;

/// Nothing is known.
pub(crate) fn no_firsts(alloc: Global) -> Firsts
    ensures { (sets : List (List Bool)) → AreFirsts sets result }
{
    IndexMap::new(alloc)
}

fn first_of(set: &[bool]) -> usize
    ensures { IsFirst set.now result }
{
    for member in 0..set.len() {
        if set[member] {
            return member;
        }
    }
    set.len()
}

fn known(firsts: &IndexMap<usize, usize>, place: usize) -> Option<usize>
    ensures { result ≡ get nat_eq firsts.now place }
{
    firsts.get(&place).copied()
}

// Before which place of a set there is no member. It is looked for where it isn't known.
fn first_at(firsts: &mut Firsts, sets: &Sets, place: usize) -> Result<usize, AllocError>
    requires there { is_some (slice_get (sets_of sets.now) place) ≡ true }
    requires firsts { AreFirsts (sets_of sets.now) firsts.now }
    ensures firsts { OnOk result (AreFirsts (sets_of sets.now) firsts.new) }
    ensures first { IfOk result (IsFirst (set_at (sets_of sets.now) place)) }
{
    if let Some(first) = known(firsts, place) {
        return Ok(first);
    }
    let first = first_of(sets.at(place));
    firsts.insert(place, first)?;
    Ok(first)
}

// Whether the sign adds the object itself, at a place of the set.
fn is_added(set: &[bool], own: Option<usize>, sign: Sign) -> bool
    ensures { result ≡ is_added set.now own sign }
{
    match (sign, own) {
        (Sign::With, Some(own)) => own < set.len(),
        _ => false,
    }
}

// Whether nobody is in what a set tells with a sign.
fn tells_nobody(set: &[bool], own: Option<usize>, sign: Sign, first: usize) -> bool
    requires { IsFirst set.now first }
    ensures { (whole : List Bool) → IsToldBy set.now own sign whole → result ≡ is_nobody whole }
{
    if is_added(set, own, sign) {
        return false;
    }
    for member in first..set.len() {
        if signed(sign, own, member, set[member]) {
            return false;
        }
    }
    true
}

/// Whether nobody is in what the set of a place tells with a sign.
///
/// # Errors
///
/// Out of memory.
pub(crate) fn is_nobody_at(
    firsts: &mut Firsts,
    sets: &Sets,
    place: usize,
    own: Option<usize>,
    sign: Sign,
) -> Result<bool, AllocError>
    requires there { is_some (slice_get (sets_of sets.now) place) ≡ true }
    requires firsts { AreFirsts (sets_of sets.now) firsts.now }
    ensures firsts { OnOk result (AreFirsts (sets_of sets.now) firsts.new) }
    ensures nobody { IfOk result (λ nobody. (whole : List Bool) → IsToldBy (set_at (sets_of sets.now) place)
        own sign whole → nobody ≡ is_nobody whole) }
{
    let first = first_at(firsts, sets, place)?;
    Ok(tells_nobody(sets.at(place), own, sign, first))
}
