//! Whether a value is given twice.

ghost use Rattle.std.specs.Prelude.{◌≡◌, ◌||◌, not, IfOk, OnOk};
ghost use Rattle.std.specs.BTreeSet.{contains};
ghost use Rattle.ad_change_values.specs.StoredKeys.{same_by, stored_order};
ghost use Rattle.ad_change_values.specs.declared.keys.StoredKey.{StoredKey as KeyValue};
ghost use Rattle.ad_change_values.specs.Values as values;

use crate::keys::{StoredKey, value_key};
use crate::values::are_repeated;
use ad_value::Value;
use std::alloc::{AllocError, Global};
use std::collections::BTreeSet;

/// From so many values on it is worth to put their keys in order.
pub(crate) const MANY: usize = 32;

// Puts a key among those that came before it, and tells whether it is none of them.
fn is_new(keys: &mut BTreeSet<StoredKey>, key: StoredKey) -> Result<bool, AllocError>
    ensures new { IfOk result (λ new. new ≡ not (contains stored_order keys.old key)) }
    ensures keys { OnOk result ((other : KeyValue) → contains stored_order keys.new other
        ≡ (same_by key other || contains stored_order keys.old other)) }
{
    match keys.insert(key) {
        Ok(new) => Ok(new),
        Err(_) => Err(AllocError),
    }
}

fn one_comes_again(alloc: Global, read: &[Value]) -> Result<bool, AllocError>
    ensures { IfOk result (λ repeated. repeated ≡ values.are_repeated read.now) }
{
    let mut keys = BTreeSet::new(alloc);
    for value in read {
        let key = value_key(alloc, value)?;
        let new = is_new(&mut keys, key)?;
        if !new {
            return Ok(true);
        }
    }
    Ok(false)
}

/// Whether two of the values are equal. It takes n log n steps.
///
/// # Errors
///
/// Out of memory.
pub fn one_is_repeated(alloc: Global, read: &[Value]) -> Result<bool, AllocError>
    ensures { IfOk result (λ repeated. repeated ≡ values.are_repeated read.now) }
{
    if read.len() < MANY {
        return Ok(are_repeated(read));
    }
    one_comes_again(alloc, read)
}
