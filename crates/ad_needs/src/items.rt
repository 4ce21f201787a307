//! Modify: the items of one attribute.

ghost use Rattle.std.specs.Prelude.{◌≡◌, ◌==◌, ◌&&◌, map, length, IfOk};
ghost use Rattle.std.specs.List.{list_any};
ghost use Rattle.ad_access_dir.specs.Passwords.{is_password};
ghost use Rattle.ad_needs_rules.specs.Modifying.{is_item_of, items_of, has_one, is_forced, is_changed};
ghost use Rattle.ad_needs.specs.ItemWords.{has_its_form};
ghost use Rattle.ad_ldap.specs.Choices.{replace_values};

use ad_access_dir::is_password;
use ad_ldap::{ADD_VALUES, DELETE_VALUES, Item, REPLACE_VALUES};
use ad_schema_classes::same_name;
use std::alloc::{AllocError, Global};

/// Whether one of the items is of the attribute of this name.
pub(crate) fn is_named_in(items: &[Item], name: &[u8]) -> bool
    ensures { result ≡ list_any (is_item_of name.now) items.now }
{
    'each: for item in items {
        if same_name(item.attr.as_slice(), name) {
            return true;
        }
    }
    false
}

/// The items of the attribute of a name.
///
/// # Errors
///
/// Memory ran out.
pub(crate) fn items_of<'a>(
    alloc: Global,
    items: &'a [Item],
    name: &[u8],
) -> Result<Vec<&'a Item>, AllocError>
    ensures { IfOk result (λ all. map (λ item. item.now) all.items ≡ items_of items.entry.now
        name.now) }
{
    let mut all = Vec::new(alloc);
    'each: for item in items {
        if !same_name(item.attr.as_slice(), name) {
            continue;
        }
        all.push(item)?;
    }
    Ok(all)
}

// ---- passwords

// Whether an item is this operation with one value.
fn is_of_one(item: &Item, op: u8) -> bool
    ensures { result ≡ (item.now.op == op && has_one item.now) }
{
    item.op == op && item.values.len() == 1
}

/// Whether the items force a password.
#[tactic(auto, unfolding(ad_needs_rules::specs::Modifying::is_forced))]
pub(crate) fn is_forced(items: &[&Item]) -> bool
    ensures { result ≡ is_forced (map (λ item. item.now) items.now) }
{
    match items {
        [item] => is_of_one(item, REPLACE_VALUES),
        _ => false,
    }
}

// Whether the items change a password.
#[tactic(auto, unfolding(ad_needs_rules::specs::Modifying::is_changed))]
fn is_changed(items: &[&Item]) -> bool
    ensures { result ≡ is_changed (map (λ item. item.now) items.now) }
{
    match items {
        [old, new] => is_of_one(old, DELETE_VALUES) && is_of_one(new, ADD_VALUES),
        _ => false,
    }
}

/// Whether the items of a name have a form that they may have: those of a password one of its two, those of any
/// other attribute each.
///
/// # Errors
///
/// Memory ran out.
pub(crate) fn has_its_form(alloc: Global, items: &[Item], name: &[u8]) -> Result<bool, AllocError>
    ensures { IfOk result (λ has. has ≡ has_its_form items.now name.now) }
{
    if !is_password(name) {
        return Ok(true);
    }
    let own = items_of(alloc, items, name)?;
    Ok(is_forced(own.as_slice()) || is_changed(own.as_slice()))
}

/// Whether an item replaces, and no other is of its attribute.
///
/// # Errors
///
/// Memory ran out.
pub(crate) fn replaces_alone(alloc: Global, items: &[Item], item: &Item) -> Result<bool, AllocError>
    ensures { IfOk result (λ is. is
        ≡ (item.now.op == replace_values && length (items_of items.now item.now.attr) == 1)) }
{
    if item.op != REPLACE_VALUES {
        return Ok(false);
    }
    let own = items_of(alloc, items, item.attr.as_slice())?;
    Ok(own.len() == 1)
}
