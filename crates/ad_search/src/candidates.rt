//! The objects of which the filter of a search may be true: from the indexes where those give them, so that the others
//! aren't looked at, and else by a look at what each stores.

ghost use Rattle.std.specs.Prelude.{◌≡◌, ◌<◌, ◌++◌, ℕ, true, nat_lt, if◌then◌else◌, IfOk, IfSome, OnOk};
ghost use Rattle.std.specs.Prelude.{IsTrue, IsFalse};
ghost use Rattle.std.specs.List.{AllByRecursion};
ghost use Rattle.ad_ldap.specs.MessageValue.{search_seen};
ghost use Rattle.ad_dir_model.specs.Objects.{is_live};
ghost use Rattle.ad_entries.specs.Places.{place_if};
ghost use Rattle.ad_search.specs.declared.index_plan.IndexPlan.{IndexPlan as Plan};
ghost use Rattle.ad_search.specs.Needles.{HaveSameEntries};
ghost use Rattle.ad_search.specs.Indexed.{IsBefore, IsLeftOfAll};
ghost use Rattle.ad_search.specs.Needed.{Shows, IsMet, HasMet, AreMet, IsNeededBy, IsNextOf};

use crate::index_plan::{IndexPlan, Leaf, may_meet, plan_of};
use crate::indexed::{lesser, next_shown};
use ad_dir::{Dir, ROOT};
use ad_ldap::Search;
use std::alloc::{AllocError, Global};

/// So many looks into an index are taken before the objects of a subtree are gone over, of which it isn't known how
/// many they are.
const MAX_LOOKS: usize = 1_000;

/// A look into an index takes the time in which so many objects are looked at.
const OBJECTS_PER_LOOK: usize = 8;

// ---- by the indexes

// The number after one.
fn after(above: u32) -> Option<u32>
    ensures above { IfSome result (λ next. above < next) }
    ensures nearest { (number : ℕ) → number < 4294967295 → above < number → IsBefore number result
        → ⊥ }
{
    if above < u32::MAX {
        return Some(above + 1);
    }
    None
}

fn greater(a: u32, b: u32) -> u32
    ensures { result ≡ (if nat_lt a b then b else a) }
{
    if a < b { b } else { a }
}

// The next object above a number that may show a value: any where there is no index for it.
fn next_of_one(dir: &Dir, leaf: &Leaf, above: u32) -> Option<u32>
    ensures { IsNextOf dir.now (λ number. Shows dir.now number leaf.now) above result }
{
    dir.invariants();
    match &leaf.query {
        Some(query) => next_shown(dir, query, above),
        None => after(above),
    }
}

// The next number, whatever is needed.
fn next_of_some(dir: &Dir, above: u32) -> Option<u32>
    ensures { (plan : Plan) → IsNextOf dir.now (λ number. IsMet dir.now number plan) above result }
{
    dir.invariants();
    after(above)
}

// The next object above a number that may show one of these.
#[cycle(next)]
fn next_of_any(dir: &Dir, plans: &[IndexPlan], above: u32) -> Option<u32>
    ensures { IsNextOf dir.now (λ number. HasMet dir.now number plans.now) above result }
{
    let mut next = None;
    'each: for plan in plans {
        next = lesser(next, next_of(dir, plan, above));
    }
    next
}

// The next object above a number that may show all of them.
#[cycle(next)]
fn next_of_all(dir: &Dir, plans: &[IndexPlan], above: u32) -> Option<u32>
    ensures { IsNextOf dir.now (λ number. AreMet dir.now number plans.now) above result }
{
    dir.invariants();
    let Some(mut next) = after(above) else {
        return None;
    };
    'each: for plan in plans {
        match next_of(dir, plan, above) {
            Some(one) => next = greater(next, one),
            None => return None,
        }
    }
    Some(next)
}

// The next object above a number that may show what is needed, by the indexes.
#[cycle(next)]
fn next_of(dir: &Dir, plan: &IndexPlan, above: u32) -> Option<u32>
    ensures { IsNextOf dir.now (λ number. IsMet dir.now number plan.now) above result }
{
    match plan {
        IndexPlan::One(leaf) => next_of_one(dir, leaf, above),
        IndexPlan::Present(_) => next_of_some(dir, above),
        IndexPlan::AnyOf(plans) => next_of_any(dir, plans.as_slice(), above),
        IndexPlan::AllOf(plans) => next_of_all(dir, plans.as_slice(), above),
    }
}

// ---- whether they are worth it

#[cycle(index)]
fn each_has_index(plans: &[IndexPlan]) -> bool {
    for plan in plans {
        if !has_index(plan) {
            return false;
        }
    }
    true
}

#[cycle(index)]
fn one_has_index(plans: &[IndexPlan]) -> bool {
    for plan in plans {
        if has_index(plan) {
            return true;
        }
    }
    false
}

// Whether the indexes leave out objects: of an Or where each item has one, and of an And where some item has.
#[cycle(index)]
fn has_index(plan: &IndexPlan) -> bool {
    match plan {
        IndexPlan::One(leaf) => leaf.query.is_some(),
        IndexPlan::Present(_) => false,
        IndexPlan::AnyOf(plans) => each_has_index(plans.as_slice()),
        IndexPlan::AllOf(plans) => one_has_index(plans.as_slice()),
    }
}

#[cycle(count)]
fn count_of_all(plans: &[IndexPlan]) -> usize {
    let mut count = 0usize;
    for plan in plans {
        count = count.saturating_add(count_of(plan));
    }
    count
}

// How many values are sought.
#[cycle(count)]
fn count_of(plan: &IndexPlan) -> usize {
    match plan {
        IndexPlan::One(_) => 1,
        IndexPlan::Present(_) => 1,
        IndexPlan::AnyOf(plans) => count_of_all(plans.as_slice()),
        IndexPlan::AllOf(plans) => count_of_all(plans.as_slice()),
    }
}

// How many times the next object may be sought before it is better to go over the objects that a scope leads to, where
// each time so many values are looked up.
fn rounds_of(dir: &Dir, scope: u8, base: u32, values: usize) -> usize {
    let each = values.max(1);
    if scope == 0 {
        return 0;
    }
    if scope == 1 {
        let children = dir.children(base).len();
        return (children / each).saturating_add(children / OBJECTS_PER_LOOK);
    }
    if base == ROOT {
        return (dir.len() / each).saturating_add(dir.len() / OBJECTS_PER_LOOK);
    }
    MAX_LOOKS / each
}

// ---- all of them

// Whether the object of a number is live and may be found.
fn is_candidate(dir: &Dir, plan: &IndexPlan, number: u32) -> bool
    ensures live { IsTrue result → is_live dir.now.objects number ≡ true }
    ensures never { IsFalse result → is_live dir.now.objects number ≡ true
        → IsMet dir.now number plan.now → ⊥ }
{
    if !dir.is_live(number) {
        return false;
    }
    may_meet(dir, number, plan)
}

fn push_number(numbers: &mut Vec<u32>, so: bool, number: u32) -> Result<(), AllocError>
    ensures { OnOk result (numbers.new.items ≡ numbers.old.items ++ place_if so number) }
{
    if so {
        numbers.push(number)?;
    }
    Ok(())
}

// The objects that may be found, or none where there are too many.
fn found_by(
    alloc: Global,
    dir: &Dir,
    search: &Search,
    plan: &IndexPlan,
    most: usize,
) -> Result<Option<Vec<u32>>, AllocError>
    requires needed { IsNeededBy dir.now (search_seen search.now).filter plan.now }
    ensures { IfOk result (λ found.
        IfSome found (λ left. IsLeftOfAll dir.now (search_seen search.now) left.items)) }
{
    dir.invariants();
    let mut left = Vec::new(alloc);
    let mut above = 0u32;
    let mut rounds = 0usize;
    'each: while let Some(next) = next_of(dir, plan, above) {
        if rounds >= most {
            return Ok(None);
        }
        rounds += 1;
        let so = is_candidate(dir, plan, next);
        push_number(&mut left, so, next)?;
        above = next;
    }
    Ok(Some(left))
}

/// The objects that may have an entry of which the filter may be true, where they are found without a look at the
/// others.
pub(crate) fn indexed_of(
    alloc: Global,
    dir: &Dir,
    search: &Search,
    base: u32,
) -> Result<Option<Vec<u32>>, AllocError>
    ensures { IfOk result (λ found.
        IfSome found (λ left. IsLeftOfAll dir.now (search_seen search.now) left.items)) }
{
    if search.scope == 0 {
        return Ok(None);
    }
    let Some(plan) = plan_of(alloc, dir, &search.filter)? else {
        return Ok(None);
    };
    if !has_index(&plan) {
        return Ok(None);
    }
    let most = rounds_of(dir, search.scope, base, count_of(&plan));
    found_by(alloc, dir, search, &plan, most)
}

// ---- by a look at each

fn those_left(
    alloc: Global,
    dir: &Dir,
    search: &Search,
    plan: &IndexPlan,
    numbers: &[u32],
) -> Result<Vec<u32>, AllocError>
    requires live { AllByRecursion (λ number. is_live dir.now.objects number ≡ true) numbers.now }
    requires needed { IsNeededBy dir.now (search_seen search.now).filter plan.now }
    ensures same { IfOk result (λ left. HaveSameEntries dir.now (search_seen search.now) left.items
        numbers.now) }
    ensures live { IfOk result (λ left.
        AllByRecursion (λ number. is_live dir.now.objects number ≡ true) left.items) }
{
    let mut left = Vec::new(alloc);
    'each: for number in numbers {
        let may = may_meet(dir, *number, plan);
        push_number(&mut left, may, *number)?;
    }
    Ok(left)
}

/// Those of the objects that may have an entry of which the filter may be true.
pub(crate) fn left_of(
    alloc: Global,
    dir: &Dir,
    search: &Search,
    numbers: Vec<u32>,
) -> Result<Vec<u32>, AllocError>
    requires { AllByRecursion (λ number. is_live dir.now.objects number ≡ true) numbers.items }
    ensures same { IfOk result (λ left. HaveSameEntries dir.now (search_seen search.now) left.items
        numbers.items) }
    ensures live { IfOk result (λ left.
        AllByRecursion (λ number. is_live dir.now.objects number ≡ true) left.items) }
{
    match plan_of(alloc, dir, &search.filter)? {
        Some(plan) => those_left(alloc, dir, search, &plan, numbers.as_slice()),
        None => Ok(numbers),
    }
}
