//! What a filter says of an object.

ghost use Rattle.std.specs.Prelude.{◌≡◌, ◌<◌, ◌≤◌, None, length, slice_index_or, map, option_map, IfOk, IfSome, OnOk};
ghost use Rattle.std.specs.Prelude.{MatchOption};
ghost use Rattle.std.specs.Ordering.{nat_cmp};
ghost use Rattle.std.specs.BTreeMap.{get};
ghost use Rattle.ad_ldap.specs.FilterValue.{filter_seen, filters_of, depth, depth_of_all};
ghost use Rattle.ad_filter.specs.ThreeValues.{truth_of};
ghost use Rattle.ad_filter.specs.Filtering.{view_by, known, truth, all_of, some_of, of_known, of_readable};
ghost use Rattle.ad_filter.specs.Filtering.{says_pieces, says_present};
ghost use Rattle.ad_filter.specs.Comparing.{is_asked_of, says_compared};
ghost use Rattle.ad_filter.specs.Keeping.{IsOrdered, AreRead, IsKept, as_read};

use crate::comparison::{Comparison, any_fits, any_kept_passes, value_of};
use crate::outcome::Truth;
use crate::readable::{Readable, attr_known};
use crate::value_cache::{ValueCache, Values, keep, values_at};
use ad_ldap::{Filter, what_is_seen_of_filters};
use ad_schema::AttrId;
use ad_value::{Pattern, Syntax, sent_pattern};
use std::alloc::{AllocError, Global};
use std::collections::BTreeMap;

fn truth_of(holds: bool) -> Truth
    ensures { result ≡ truth_of holds }
{
    if holds { Truth::True } else { Truth::False }
}

// Whether values of the syntax are compared so: each has equality.
fn is_asked_of(comparison: Comparison, syntax: Syntax) -> bool
    ensures { result ≡ is_asked_of comparison syntax }
{
    match comparison {
        Comparison::Equal => true,
        Comparison::AtLeast | Comparison::AtMost => syntax.has_order(),
    }
}

// ---- what is said of values that were kept

fn compared(
    alloc: Global,
    values: &Values,
    comparison: Comparison,
    sent: &[u8],
) -> Result<Truth, AllocError>
    requires { IsOrdered values.now }
    ensures { IfOk result (λ t. t ≡ says_compared comparison sent.now (as_read values.now)) }
{
    if !is_asked_of(comparison, values.syntax) {
        return Ok(Truth::Undefined);
    }
    match value_of(alloc, values.syntax, sent)? {
        Some(sent) => {
            let any = any_kept_passes(alloc, values, comparison, &sent)?;
            Ok(truth_of(any))
        }
        None => Ok(Truth::Undefined),
    }
}

fn fitting(alloc: Global, values: &Values, sent: &Pattern) -> Result<Truth, AllocError>
    ensures { IfOk result (λ t. t ≡ says_pieces sent.now (as_read values.now)) }
{
    match sent_pattern(alloc, values.syntax, sent)? {
        Some(pattern) => {
            let any = any_fits(alloc, values.syntax, &pattern, values.all.as_slice())?;
            Ok(truth_of(any))
        }
        None => Ok(Truth::Undefined),
    }
}

// The same where there are some.
fn compared_if(
    alloc: Global,
    values: &Option<Values>,
    comparison: Comparison,
    sent: &[u8],
) -> Result<Truth, AllocError>
    requires { IfSome values.now IsOrdered }
    ensures { IfOk result (λ t. t ≡ of_known (option_map as_read values.now)
        (says_compared comparison sent.now)) }
{
    match values {
        Some(values) => compared(alloc, values, comparison, sent),
        None => Ok(Truth::Undefined),
    }
}

fn fitting_if(alloc: Global, values: &Option<Values>, sent: &Pattern) -> Result<Truth, AllocError>
    ensures { IfOk result (λ t. t ≡ of_known (option_map as_read values.now)
        (says_pieces sent.now)) }
{
    match values {
        Some(values) => fitting(alloc, values, sent),
        None => Ok(Truth::Undefined),
    }
}

fn present_if(values: &Option<Values>) -> Truth
    ensures { result ≡ of_known (option_map as_read values.now) says_present }
{
    match values {
        Some(values) => truth_of(!values.all.is_empty()),
        None => Truth::Undefined,
    }
}

// ---- items

// The attribute of a name, of which what may be read is kept then.
fn attr_kept<V: Readable>(
    alloc: Global,
    view: &V,
    kept: &mut ValueCache,
    name: &[u8],
) -> Result<Option<AttrId>, AllocError>
    requires { AreRead (V.shown view.now) kept.old }
    ensures read { OnOk result (AreRead (V.shown view.now) kept.new) }
    ensures kept { IfOk result (λ found.
        MatchOption found (known (view_by (V.named view.now) (V.shown view.now)) name.now ≡ None)
        (λ attr. IsKept (get nat_cmp kept.new attr.0)
        (known (view_by (V.named view.now) (V.shown view.now)) name.now))) }
{
    let Some(attr) = attr_known(view, name) else {
        return Ok(None);
    };
    keep(alloc, view, kept, attr)?;
    Ok(Some(attr))
}

fn of_comparison<V: Readable>(
    alloc: Global,
    view: &V,
    kept: &mut ValueCache,
    name: &[u8],
    comparison: Comparison,
    sent: &[u8],
) -> Result<Truth, AllocError>
    requires { AreRead (V.shown view.now) kept.old }
    ensures kept { OnOk result (AreRead (V.shown view.now) kept.new) }
    ensures says { IfOk result (λ t. t ≡ of_readable (view_by (V.named view.now) (V.shown view.now))
        name.now (says_compared comparison sent.now)) }
{
    match attr_kept(alloc, view, kept, name)? {
        Some(attr) => { compared_if(alloc, values_at(kept, attr), comparison, sent) }
        None => Ok(Truth::Undefined),
    }
}

fn of_pieces<V: Readable>(
    alloc: Global,
    view: &V,
    kept: &mut ValueCache,
    name: &[u8],
    sent: &Pattern,
) -> Result<Truth, AllocError>
    requires { AreRead (V.shown view.now) kept.old }
    ensures kept { OnOk result (AreRead (V.shown view.now) kept.new) }
    ensures says { IfOk result (λ t. t ≡ of_readable (view_by (V.named view.now) (V.shown view.now))
        name.now (says_pieces sent.now)) }
{
    match attr_kept(alloc, view, kept, name)? {
        Some(attr) => fitting_if(alloc, values_at(kept, attr), sent),
        None => Ok(Truth::Undefined),
    }
}

fn of_presence<V: Readable>(
    alloc: Global,
    view: &V,
    kept: &mut ValueCache,
    name: &[u8],
) -> Result<Truth, AllocError>
    requires { AreRead (V.shown view.now) kept.old }
    ensures kept { OnOk result (AreRead (V.shown view.now) kept.new) }
    ensures says { IfOk result (λ t. t ≡ of_readable (view_by (V.named view.now) (V.shown view.now))
        name.now says_present) }
{
    match attr_kept(alloc, view, kept, name)? {
        Some(attr) => Ok(present_if(values_at(kept, attr))),
        None => Ok(Truth::Undefined),
    }
}

// ---- filters

// A filter of a list, which is no deeper than the list.
fn filter_at(filters: &[Filter], i: usize) -> &Filter
    requires { i < length filters.now }
    ensures at { result.now ≡ slice_index_or filters.entry.now i result.now }
    ensures less_deep { depth (filter_seen result.now)
        ≤ depth_of_all (filters_of (map filter_seen filters.entry.now)) }
{
    &filters[i]
}

// False as soon as one of them is.
#[cycle(filter)]
fn all_of<V: Readable>(
    alloc: Global,
    filters: &[Filter],
    view: &V,
    kept: &mut ValueCache,
) -> Result<Truth, AllocError>
    requires { AreRead (V.shown view.now) kept.old }
    ensures kept { OnOk result (AreRead (V.shown view.now) kept.new) }
    ensures says { IfOk result (λ t. t ≡ all_of (view_by (V.named view.now) (V.shown view.now))
        (filters_of (map filter_seen filters.now))) }
{
    let mut so_far = Truth::True;
    'each: for i in 0..filters.len() {
        let next = truth_by(alloc, filter_at(filters, i), view, kept)?;
        if let Truth::False = next {
            return Ok(Truth::False);
        }
        so_far = so_far.and(next);
    }
    Ok(so_far)
}

// True as soon as one of them is.
#[cycle(filter)]
fn some_of<V: Readable>(
    alloc: Global,
    filters: &[Filter],
    view: &V,
    kept: &mut ValueCache,
) -> Result<Truth, AllocError>
    requires { AreRead (V.shown view.now) kept.old }
    ensures kept { OnOk result (AreRead (V.shown view.now) kept.new) }
    ensures says { IfOk result (λ t. t ≡ some_of (view_by (V.named view.now) (V.shown view.now))
        (filters_of (map filter_seen filters.now))) }
{
    let mut so_far = Truth::False;
    'each: for i in 0..filters.len() {
        let next = truth_by(alloc, filter_at(filters, i), view, kept)?;
        if let Truth::True = next {
            return Ok(Truth::True);
        }
        so_far = so_far.or(next);
    }
    Ok(so_far)
}

// What the filter says, with what was read so far.
#[cycle(filter)]
#[tactic(auto, unfolding(crate::specs::Filtering::truth))]
fn truth_by<V: Readable>(
    alloc: Global,
    filter: &Filter,
    view: &V,
    kept: &mut ValueCache,
) -> Result<Truth, AllocError>
    requires { AreRead (V.shown view.now) kept.old }
    ensures kept { OnOk result (AreRead (V.shown view.now) kept.new) }
    ensures says { IfOk result (λ t. t ≡ truth (view_by (V.named view.now) (V.shown view.now))
        (filter_seen filter.now)) }
{
    what_is_seen_of_filters();
    match filter {
        Filter::And(filters) => all_of(alloc, filters.as_slice(), view, kept),
        Filter::Or(filters) => some_of(alloc, filters.as_slice(), view, kept),
        Filter::Not(inner) => Ok(truth_by(alloc, inner, view, kept)?.not()),
        Filter::Equal(name, sent) | Filter::Like(name, sent) => {
            of_comparison(
                alloc,
                view,
                kept,
                name.as_slice(),
                Comparison::Equal,
                sent.as_slice(),
            )
        }
        Filter::Pieces(name, sent) => of_pieces(alloc, view, kept, name.as_slice(), sent),
        Filter::AtLeast(name, sent) => {
            of_comparison(
                alloc,
                view,
                kept,
                name.as_slice(),
                Comparison::AtLeast,
                sent.as_slice(),
            )
        }
        Filter::AtMost(name, sent) => {
            of_comparison(
                alloc,
                view,
                kept,
                name.as_slice(),
                Comparison::AtMost,
                sent.as_slice(),
            )
        }
        Filter::Present(name) => of_presence(alloc, view, kept, name.as_slice()),
        Filter::Extensible => Ok(Truth::Undefined),
    }
}

/// What the filter says of an object (RFC 4511 4.5.1.7), of which so much may be read. An attribute is read once at
/// most: where an item asks for it, up to the first filter of an and that is false, and of an or that is true. Of
/// many values those of the key that an item asks for are found by halving.
///
/// # Errors
///
/// Out of memory.
pub fn truth<V: Readable>(alloc: Global, filter: &Filter, view: &V) -> Result<Truth, AllocError>
    ensures { IfOk result (λ t. t ≡ truth (view_by (V.named view.now) (V.shown view.now))
        (filter_seen filter.now)) }
{
    let mut kept = BTreeMap::new(alloc);
    truth_by(alloc, filter, view, &mut kept)
}
