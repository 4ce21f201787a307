//! How the values of an attribute are compared with what was sent.

ghost use Rattle.std.specs.Prelude.{◌≡◌, ◌&&◌, true, false, is_ok, Contains, IfOk, MatchOption};
ghost use Rattle.std.specs.List.{list_any};
ghost use Rattle.std.specs.Result.{result_ok};
ghost use Rattle.ad_value.specs.Value.{same_key};
ghost use Rattle.ad_value.specs.ValueOf.{normal_or_fault};
ghost use Rattle.ad_value.specs.Pieces.{fits_key};
ghost use Rattle.ad_filter.specs.Filtering.{is_compared, is_less, is_greater};
ghost use Rattle.ad_filter.specs.Comparing.{passes, any_passes};
ghost use Rattle.ad_filter.specs.Keeping.{IsInOrder, IsOrdered};

use crate::value_cache::Values;
use ad_value::{
    Pattern, Syntax, Value, ValueFault, equal, fits, keys_are_ordered, least_first, normal,
};
use std::alloc::{AllocError, Global};
use std::cmp::Ordering;

/// How a value is compared with the one that was sent.
#[derive(Clone, Copy)]
pub(crate) enum Comparison {
    Equal,
    AtLeast,
    AtMost,
}

/// The value that the bytes are in the syntax, and none where they are none.
///
/// # Errors
///
/// Out of memory.
pub fn value_of(alloc: Global, syntax: Syntax, bytes: &[u8]) -> Result<Option<Value>, AllocError>
    ensures { IfOk result (λ value. value ≡ result_ok (normal_or_fault syntax bytes.now)) }
{
    match normal(alloc, syntax, bytes) {
        Ok(value) => Ok(Some(value)),
        Err(ValueFault::Memory) => Err(AllocError),
        Err(ValueFault::TooLong) => Ok(None),
        Err(ValueFault::Syntax) => Ok(None),
    }
}

// Whether the syntax reads what the value shows.
fn is_compared(alloc: Global, syntax: Syntax, value: &Value) -> Result<bool, AllocError>
    ensures { IfOk result (λ compared. compared ≡ is_compared syntax value.now) }
{
    match normal(alloc, syntax, value.shown()) {
        Ok(_) => Ok(true),
        Err(ValueFault::Memory) => Err(AllocError),
        Err(ValueFault::TooLong) => Ok(false),
        Err(ValueFault::Syntax) => Ok(false),
    }
}

fn is_less(order: Ordering) -> bool
    ensures { result ≡ is_less order }
{
    match order {
        Ordering::Less => true,
        Ordering::Equal | Ordering::Greater => false,
    }
}

fn is_greater(order: Ordering) -> bool
    ensures { result ≡ is_greater order }
{
    match order {
        Ordering::Greater => true,
        Ordering::Equal | Ordering::Less => false,
    }
}

fn passes(comparison: Comparison, sent: &Value, own: &Value) -> bool
    ensures { result ≡ passes comparison sent.now.key own.now.key }
{
    match comparison {
        Comparison::Equal => equal(own, sent),
        Comparison::AtLeast => !is_less(least_first(own, sent)),
        Comparison::AtMost => !is_greater(least_first(own, sent)),
    }
}

// A value that passes is compared where the syntax reads it.
fn is_one(
    alloc: Global,
    syntax: Syntax,
    comparison: Comparison,
    sent: &Value,
    own: &Value,
) -> Result<bool, AllocError>
    ensures { IfOk result (λ is. is
        ≡ (is_compared syntax own.now && passes comparison sent.now.key own.now.key)) }
{
    if !passes(comparison, sent, own) {
        return Ok(false);
    }
    is_compared(alloc, syntax, own)
}

/// Whether one of the values compares so with the one that was sent.
pub(crate) fn any_passes(
    alloc: Global,
    syntax: Syntax,
    comparison: Comparison,
    sent: &Value,
    values: &[Value],
) -> Result<bool, AllocError>
    ensures { IfOk result (λ any. any ≡ any_passes syntax (passes comparison sent.now.key)
        values.now) }
{
    for value in values {
        if is_one(alloc, syntax, comparison, sent, value)? {
            return Ok(true);
        }
    }
    Ok(false)
}

// A value of the key of the one that was sent, among values in order.
fn of_its_key<'a>(sent: &Value, values: &'a [Value]) -> Option<&'a Value>
    requires { IsInOrder values.now }
    ensures { MatchOption result (list_any (λ own. same_key own.key sent.now.key) values.entry.now
        ≡ false)
        (λ own. Contains values.entry.now own.now × (same_key own.now.key sent.now.key ≡ true)) }
{
    keys_are_ordered();
    match values.binary_search_by(|own| least_first(own, sent)) {
        Ok(place) => Some(&values[place]),
        Err(_) => None,
    }
}

// The same of equality, of values in order: none but those of its key are looked at.
fn any_of_its_key(
    alloc: Global,
    syntax: Syntax,
    sent: &Value,
    values: &[Value],
) -> Result<bool, AllocError>
    requires { IsInOrder values.now }
    ensures { IfOk result (λ any. any ≡ any_passes syntax (passes Comparison.Equal sent.now.key)
        values.now) }
{
    let Some(own) = of_its_key(sent, values) else {
        return Ok(false);
    };
    if is_compared(alloc, syntax, own)? {
        return Ok(true);
    }
    any_passes(alloc, syntax, Comparison::Equal, sent, values)
}

/// Whether one of the values that were kept compares so with the one that was sent.
pub(crate) fn any_kept_passes(
    alloc: Global,
    values: &Values,
    comparison: Comparison,
    sent: &Value,
) -> Result<bool, AllocError>
    requires { IsOrdered values.now }
    ensures { IfOk result (λ any. any ≡ any_passes values.now.syntax
        (passes comparison sent.now.key) values.now.all.items) }
{
    let all = values.all.as_slice();
    match comparison {
        Comparison::Equal if values.in_order => any_of_its_key(alloc, values.syntax, sent, all),
        _ => any_passes(alloc, values.syntax, comparison, sent, all),
    }
}

// A value that fits is compared where the syntax reads it.
fn is_fitting(
    alloc: Global,
    syntax: Syntax,
    pattern: &Pattern,
    own: &Value,
) -> Result<bool, AllocError>
    ensures { IfOk result (λ is. is
        ≡ (is_compared syntax own.now && fits_key pattern.now own.now.key)) }
{
    if !fits(own, pattern) {
        return Ok(false);
    }
    is_compared(alloc, syntax, own)
}

/// Whether one of the values fits the pattern.
pub(crate) fn any_fits(
    alloc: Global,
    syntax: Syntax,
    pattern: &Pattern,
    values: &[Value],
) -> Result<bool, AllocError>
    ensures { IfOk result (λ any. any ≡ any_passes syntax (fits_key pattern.now) values.now) }
{
    for value in values {
        if is_fitting(alloc, syntax, pattern, value)? {
            return Ok(true);
        }
    }
    Ok(false)
}

/// Whether one of the values is equal to the one that was sent, both of one syntax: whether it has its key, and the
/// syntax reads what it shows.
///
/// # Errors
///
/// Out of memory.
#[tactic(auto, unfolding(crate::specs::Comparing::any_passes))]
pub fn has_equal(
    alloc: Global,
    syntax: Syntax,
    sent: &Value,
    values: &[Value],
) -> Result<bool, AllocError>
    ensures { IfOk result (λ any. any
        ≡ list_any (λ own. is_compared syntax own && same_key own.key sent.now.key) values.now) }
{
    any_passes(alloc, syntax, Comparison::Equal, sent, values)
}
