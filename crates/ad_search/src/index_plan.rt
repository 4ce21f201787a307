//! What an object has to show for the filter of a search to be true of it, so that most objects need no more than a
//! look at what they store.
//!
//! It is a tree as the filter is. An item of an And of which nothing is known is left out, and an Or of which one item
//! is such tells nothing.

ghost use Rattle.std.specs.Prelude.{◌≡◌, ℕ, ◌≤◌, ◌<◌, List, ◌++◌, true, length, map, slice_index_or, option_to_list};
ghost use Rattle.std.specs.Prelude.{IfOk, IfSome, OnOk, IsFalse};
ghost use Rattle.std.specs.List.{AllByRecursion};
ghost use Rattle.ad_value.specs.declared.pattern.Pattern.{Pattern as PatternValue};
ghost use Rattle.ad_ldap.specs.FilterValue.{FilterValue, filter_seen, filters_of, depth, depth_of_all};
ghost use Rattle.ad_ldap.specs.FilterValue as value;
ghost use Rattle.ad_dir_model.specs.Objects.{is_live};
ghost use Rattle.ad_dir_model.specs.Directory.{Directory};
ghost use Rattle.ad_search.specs.Needles.{IsNeedle};
ghost use Rattle.ad_search.specs.Needed.{IsMet, HasMet, AreMet, IsNeededBy};

use crate::indexed::{IndexQuery, query_of};
use crate::needles::{Needle, may_show, may_show_some, needle_of, plain_named};
use ad_dir::Dir;
use ad_ldap::{Filter, what_is_seen_of_filters};
use ad_schema::AttrId;
use std::alloc::{AllocError, Global};

/// A value, and what is sought for it where there is an index.
#[derive(Drop)]
pub(crate) struct Leaf {
    pub needle: Needle,
    pub query: Option<IndexQuery>,
}

/// What an object has to show.
#[derive(Drop)]
pub(crate) enum IndexPlan {
    One(Leaf),
    /// Some value of an attribute.
    Present(AttrId),
    AnyOf(Vec<IndexPlan>),
    AllOf(Vec<IndexPlan>),
}

// ---- of one item

// What is needed where a value is.
fn one_of(alloc: Global, dir: &Dir, needle: Needle) -> Result<IndexPlan, AllocError>
    ensures { IfOk result (λ plan. (filter : FilterValue) → IsNeedle dir.now.schema filter needle
        → IsNeededBy dir.now filter plan) }
{
    let query = query_of(alloc, dir, &needle)?;
    Ok(IndexPlan::One(Leaf { needle, query }))
}

// What an equality needs.
fn plan_of_equal(
    alloc: Global,
    dir: &Dir,
    name: &[u8],
    sent: &[u8],
) -> Result<Option<IndexPlan>, AllocError>
    ensures equal { IfOk result (λ plan.
        IfSome plan (IsNeededBy dir.now (value.Equal name.now sent.now))) }
    ensures like { IfOk result (λ plan.
        IfSome plan (IsNeededBy dir.now (value.Like name.now sent.now))) }
{
    match needle_of(alloc, dir.schema(), name, sent)? {
        Some(needle) => Ok(Some(one_of(alloc, dir, needle)?)),
        None => Ok(None),
    }
}

// What every other item needs that is about an attribute: a value of it.
fn plan_of_some(dir: &Dir, name: &[u8]) -> Option<IndexPlan>
    ensures present { IfSome result (IsNeededBy dir.now (value.Present name.now)) }
    ensures pieces { (sent : PatternValue) → IfSome result
        (IsNeededBy dir.now (value.Pieces name.now sent)) }
    ensures at_least { (sent : List ℕ) → IfSome result
        (IsNeededBy dir.now (value.AtLeast name.now sent)) }
    ensures at_most { (sent : List ℕ) → IfSome result
        (IsNeededBy dir.now (value.AtMost name.now sent)) }
{
    match plain_named(dir.schema(), name) {
        Some(attr) => Some(IndexPlan::Present(attr)),
        None => None,
    }
}

// ---- of a filter

// A filter of a list, which is no deeper than the list.
fn filter_at(filters: &[Filter], i: usize) -> &Filter
    requires { i < length filters.now }
    ensures at { result.now ≡ slice_index_or filters.entry.now i result.now }
    ensures less_deep { depth (filter_seen result.now)
        ≤ depth_of_all (filters_of (map filter_seen filters.entry.now)) }
{
    &filters[i]
}

fn push_if(plans: &mut Vec<IndexPlan>, plan: Option<IndexPlan>) -> Result<(), AllocError>
    ensures { OnOk result (plans.new.items ≡ plans.old.items ++ option_to_list plan) }
{
    if let Some(plan) = plan {
        plans.push(plan)?;
    }
    Ok(())
}

// All of these, where there are any.
fn all_of(plans: Vec<IndexPlan>) -> Option<IndexPlan>
    ensures { (dir : Directory) (filter : FilterValue)
        → AllByRecursion (IsNeededBy dir filter) plans.items
        → IfSome result (IsNeededBy dir filter) }
{
    if plans.is_empty() {
        return None;
    }
    Some(IndexPlan::AllOf(plans))
}

// What each of several filters needs needs whoever needs all of them.
#[cycle(plan)]
fn plan_of_all(
    alloc: Global,
    dir: &Dir,
    filters: &[Filter],
) -> Result<Option<IndexPlan>, AllocError>
    ensures { IfOk result (λ plan. IfSome plan
        (IsNeededBy dir.now (value.And (filters_of (map filter_seen filters.now))))) }
{
    let mut plans = Vec::new(alloc);
    'each: for i in 0..filters.len() {
        let plan = plan_of(alloc, dir, filter_at(filters, i))?;
        push_if(&mut plans, plan)?;
    }
    Ok(all_of(plans))
}

// Some filter of several needs one of what they need.
#[cycle(plan)]
fn plan_of_any(
    alloc: Global,
    dir: &Dir,
    filters: &[Filter],
) -> Result<Option<IndexPlan>, AllocError>
    ensures { IfOk result (λ plan. IfSome plan
        (IsNeededBy dir.now (value.Or (filters_of (map filter_seen filters.now))))) }
{
    let mut plans = Vec::new(alloc);
    'each: for i in 0..filters.len() {
        let Some(plan) = plan_of(alloc, dir, filter_at(filters, i))? else {
            return Ok(None);
        };
        plans.push(plan)?;
    }
    Ok(Some(IndexPlan::AnyOf(plans)))
}

/// What a filter needs, where that can be told from what is stored.
#[cycle(plan)]
pub(crate) fn plan_of(
    alloc: Global,
    dir: &Dir,
    filter: &Filter,
) -> Result<Option<IndexPlan>, AllocError>
    ensures { IfOk result (λ plan. IfSome plan (IsNeededBy dir.now (filter_seen filter.now))) }
{
    what_is_seen_of_filters();
    match filter {
        Filter::And(filters) => plan_of_all(alloc, dir, filters.as_slice()),
        Filter::Or(filters) => plan_of_any(alloc, dir, filters.as_slice()),
        Filter::Not(_) => Ok(None),
        Filter::Equal(name, sent) => plan_of_equal(alloc, dir, name.as_slice(), sent.as_slice()),
        Filter::Like(name, sent) => plan_of_equal(alloc, dir, name.as_slice(), sent.as_slice()),
        Filter::Pieces(name, _) => Ok(plan_of_some(dir, name.as_slice())),
        Filter::AtLeast(name, _) => Ok(plan_of_some(dir, name.as_slice())),
        Filter::AtMost(name, _) => Ok(plan_of_some(dir, name.as_slice())),
        Filter::Present(name) => Ok(plan_of_some(dir, name.as_slice())),
        Filter::Extensible => Ok(None),
    }
}

// ---- of an object

/// So many steps along an object's attributes and values are gone before it is left to the filter, so that many values
/// sent and many values stored don't take the one times the other.
const MAX_STEPS: usize = 4_000;

// Whether one step more is left, which is taken.
fn takes_step(steps: &mut usize) -> bool {
    if *steps == 0 {
        return false;
    }
    *steps -= 1;
    true
}

// Whether an object may show one of these.
#[cycle(look)]
fn may_meet_one(dir: &Dir, number: u32, plans: &[IndexPlan], steps: &mut usize) -> bool
    requires live { is_live dir.now.objects number ≡ true }
    ensures { IsFalse result → HasMet dir.now number plans.now → ⊥ }
{
    'each: for plan in plans {
        if may_meet_within(dir, number, plan, steps) {
            return true;
        }
    }
    false
}

// Whether it may show all of them.
#[cycle(look)]
fn may_meet_all(dir: &Dir, number: u32, plans: &[IndexPlan], steps: &mut usize) -> bool
    requires live { is_live dir.now.objects number ≡ true }
    ensures { IsFalse result → AreMet dir.now number plans.now → ⊥ }
{
    'each: for plan in plans {
        if !may_meet_within(dir, number, plan, steps) {
            return false;
        }
    }
    true
}

// Whether it may show what is needed, as far as these steps lead.
#[cycle(look)]
fn may_meet_within(dir: &Dir, number: u32, plan: &IndexPlan, steps: &mut usize) -> bool
    requires live { is_live dir.now.objects number ≡ true }
    ensures { IsFalse result → IsMet dir.now number plan.now → ⊥ }
{
    if !takes_step(steps) {
        return true;
    }
    match plan {
        IndexPlan::One(leaf) => may_show(dir, number, &leaf.needle, steps),
        IndexPlan::Present(attr) => may_show_some(dir, number, *attr, steps),
        IndexPlan::AnyOf(plans) => may_meet_one(dir, number, plans.as_slice(), steps),
        IndexPlan::AllOf(plans) => may_meet_all(dir, number, plans.as_slice(), steps),
    }
}

/// Whether an object may show what is needed, by a look at what it stores.
pub(crate) fn may_meet(dir: &Dir, number: u32, plan: &IndexPlan) -> bool
    requires live { is_live dir.now.objects number ≡ true }
    ensures { IsFalse result → IsMet dir.now number plan.now → ⊥ }
{
    let mut steps = MAX_STEPS;
    may_meet_within(dir, number, plan, &mut steps)
}
