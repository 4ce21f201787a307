//! What was read of an object, kept for all items of a filter: each attribute is read once, and found again by its
//! number.

ghost use Rattle.std.specs.Prelude.{◌≡◌, true, Some, IfOk, IsSome, OnOk, IsPermutation};
ghost use Rattle.std.specs.Ordering.{nat_cmp};
ghost use Rattle.std.specs.BTreeMap.{get};
ghost use Rattle.ad_filter.specs.Keeping.{IsInOrder, IsOf, IsRead, AreRead, IsKept};

use crate::readable::Readable;
use ad_schema::AttrId;
use ad_value::{Syntax, Value, keys_are_ordered, least_first};
use std::alloc::{AllocError, Global};
use std::collections::BTreeMap;

/// From so many values on they are put in order: fewer are compared one by one.
const MANY: usize = 32;

/// The values of an attribute, in order by their keys where they are many.
#[derive(Drop)]
pub(crate) struct Values {
    pub syntax: Syntax,
    pub all: Vec<Value>,
    pub in_order: bool,
}

/// What was read of attributes, by their numbers: none of one that may not be read.
pub(crate) type ValueCache = BTreeMap<u32, Option<Values>>;

// Puts many values in order by their keys, and says whether it did.
fn put_in_order(values: &mut Vec<Value>) -> bool
    ensures same { IsPermutation values.old.items values.new.items }
    ensures order { result ≡ true → IsInOrder values.new.items }
{
    keys_are_ordered();
    if values.len() < MANY {
        return false;
    }
    values.sort_unstable_by(|a, b| least_first(a, b));
    true
}

fn of_syntax(syntax: Syntax, mut all: Vec<Value>) -> Values
    ensures { IsOf result (record { syntax = syntax; values = all.items }) }
{
    let in_order = put_in_order(&mut all);
    Values {
        syntax,
        all,
        in_order,
    }
}

// What may be read of an attribute.
fn read<V: Readable>(alloc: Global, view: &V, attr: AttrId) -> Result<Option<Values>, AllocError>
    ensures { IfOk result (λ values. IsRead values (V.shown view.now attr)) }
{
    match view.values(alloc, attr)? {
        Some((syntax, all)) => Ok(Some(of_syntax(syntax, all))),
        None => Ok(None),
    }
}

/// Reads what may be read of an attribute, unless it was read before.
///
/// # Errors
///
/// Out of memory.
pub(crate) fn keep<V: Readable>(
    alloc: Global,
    view: &V,
    kept: &mut ValueCache,
    attr: AttrId,
) -> Result<(), AllocError>
    requires { AreRead (V.shown view.now) kept.old }
    ensures read { OnOk result (AreRead (V.shown view.now) kept.new) }
    ensures kept { OnOk result (IsKept (get nat_cmp kept.new attr.0) (V.shown view.now attr)) }
{
    if kept.contains_key(&attr.0) {
        return Ok(());
    }
    let values = read(alloc, view, attr)?;
    kept.insert(attr.0, values)?;
    Ok(())
}

/// What was read of an attribute.
pub(crate) fn values_at(kept: &ValueCache, attr: AttrId) -> &Option<Values>
    requires { IsSome (get nat_cmp kept.now attr.0) }
    ensures { get nat_cmp kept.entry.now attr.0 ≡ Some result.now }
{
    &kept[&attr.0]
}
