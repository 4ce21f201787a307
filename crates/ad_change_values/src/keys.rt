//! What stored values are compared by, in an order that a map can have.

ghost use Rattle.std.specs.Prelude.{◌≡◌, refl, IfOk};
ghost use Rattle.std.specs.Ordering.{as_partial_cmp, eq_by_cmp};
ghost use Rattle.std.specs.Cmp.{eq_by_cmp_equiv, partial_equiv_from_equiv, partial_order_from_total};
ghost use Rattle.ad_value.specs.Value.{key_order};
ghost use Rattle.ad_change_values.specs.StoredKeys.{key_of, stored_order, stored_total};
ghost use Rattle.ad_change_values.specs.declared.keys.StoredKey.TheVariants as by;

use ad_dir::Stored;
use ad_value::{Key, Value};
use std::alloc::{AllocError, Global};
use std::cmp::Ordering;

/// What a stored value is compared by, in memory of its own.
#[derive(Drop)]
pub(crate) enum StoredKey {
    /// The key of a value.
    Plain(Key),
    /// The number of the object that a link names.
    Link(u32),
}

fn key_cmp(a: &Key, b: &Key) -> Ordering
    ensures { result ≡ key_order a.now b.now }
{
    match (a, b) {
        (Key::Bytes(a), Key::Bytes(b)) => a.as_slice().cmp(b.as_slice()),
        (Key::Number(a), Key::Number(b)) => a.cmp(b),
        (Key::Number(_), Key::Bytes(_)) => Ordering::Less,
        (Key::Bytes(_), Key::Number(_)) => Ordering::Greater,
    }
}

fn stored_cmp(a: &StoredKey, b: &StoredKey) -> Ordering
    ensures { result ≡ stored_order a.now b.now }
{
    match (a, b) {
        (StoredKey::Plain(a), StoredKey::Plain(b)) => key_cmp(a, b),
        (StoredKey::Link(a), StoredKey::Link(b)) => a.cmp(b),
        (StoredKey::Plain(_), StoredKey::Link(_)) => Ordering::Less,
        (StoredKey::Link(_), StoredKey::Plain(_)) => Ordering::Greater,
    }
}

impl PartialEq for StoredKey {
    ghost eq = { eq_by_cmp stored_order };

    ghost laws = { partial_equiv_from_equiv (eq_by_cmp_equiv stored_total) };

    fn eq(&self, other: &StoredKey) -> bool {
        stored_cmp(self, other).is_eq()
    }
}

impl Eq for StoredKey {
    ghost laws = { eq_by_cmp_equiv stored_total };
}

impl PartialOrd for StoredKey {
    ghost partial_cmp = { as_partial_cmp stored_order };

    ghost laws = { partial_order_from_total stored_total };

    fn partial_cmp(&self, other: &StoredKey) -> Option<Ordering> {
        Some(stored_cmp(self, other))
    }
}

impl Ord for StoredKey {
    ghost cmp = { stored_order };

    ghost total = { stored_total };

    ghost matches_partial_cmp = { λ a b. refl };

    ghost matches_eq = { λ a b. refl };

    fn cmp(&self, other: &StoredKey) -> Ordering {
        stored_cmp(self, other)
    }
}

/// What a value is compared by.
pub(crate) fn value_key(alloc: Global, value: &Value) -> Result<StoredKey, AllocError>
    ensures { IfOk result (λ key. key ≡ by.Plain value.now.key) }
{
    Ok(StoredKey::Plain(value.key(alloc)?))
}

/// What a stored value is compared by.
pub(crate) fn key_of(alloc: Global, stored: &Stored) -> Result<StoredKey, AllocError>
    ensures { IfOk result (λ key. key ≡ key_of stored.now) }
{
    match stored {
        Stored::Plain(value) => value_key(alloc, value),
        Stored::Link(number) => Ok(StoredKey::Link(*number)),
    }
}
