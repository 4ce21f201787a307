//! The items of a Modify, in their order: the checks of each on the values that those before it made, and what it
//! makes of them.

ghost use Rattle.std.specs.Prelude.{◌≡◌, ◌<◌, ◌==◌, ◌&&◌, not, true, false, if◌then◌else◌, map, length, IfOk};
ghost use Rattle.std.specs.List.{list_all, list_any, AllByRecursion};
ghost use Rattle.ad_schema.specs.Attributes.{attrs_of};
ghost use Rattle.ad_dir_objects.specs.Seen.{stored_seen, held_seen};
ghost use Rattle.ad_dir_model.specs.Soundness.{AttrsRiseFrom};
ghost use Rattle.ad_change_values.specs.Values.{is_among, is_given_twice, is_no_empty_password, all_stored};
ghost use Rattle.ad_change_values.specs.ByAttr.{by_attr};
ghost use Rattle.ad_change_values.specs.Items as modify;
ghost use Rattle.ad_change_values.specs.Judging.{Judges, checks_on, kept_checks, HasByteItem};
ghost use Rattle.ad_ldap.specs.Choices.{delete_values};
ghost use Rattle.ad_ldap.specs.ResultCodes.{constraint_violation, no_such_attribute};

use crate::held::Held;
use crate::pile::Pile;
use crate::refusal::Refusal;
use crate::repeated::one_is_repeated;
use crate::rows::{Rows, held_of, put_pile, rows_of, take_pile};
use crate::values::{has_no_empty_password, read_values, stored_values};
use ad_bytes::OneOrMany;
use ad_dir::{ActItem, Dir, Stored, is_password};
use ad_ldap::{ADD_VALUES, DELETE_VALUES, result_code};
use ad_schema::Schema;
use std::alloc::{AllocError, Global};

// ---- the checks of an item

// Whether one of the values is among those that are stored.
fn any_among(alloc: Global, stored: &Pile, new: &[Stored]) -> Result<bool, AllocError>
    ensures { IfOk result (λ any. any ≡ list_any (is_among (map stored_seen stored.now))
        (map stored_seen new.now)) }
{
    for one in new {
        let there = stored.has(alloc, one)?;
        if there {
            return Ok(true);
        }
    }
    Ok(false)
}

// Whether each of them is.
fn all_among(alloc: Global, stored: &Pile, new: &[Stored]) -> Result<bool, AllocError>
    ensures { IfOk result (λ all. all ≡ list_all (is_among (map stored_seen stored.now))
        (map stored_seen new.now)) }
{
    for one in new {
        let there = stored.has(alloc, one)?;
        if !there {
            return Ok(false);
        }
    }
    Ok(true)
}

// Whether no value that is added is there.
fn adds_new(alloc: Global, op: u8, new: &[Stored], stored: &Pile) -> Result<bool, AllocError>
    ensures { IfOk result (λ fine. fine ≡ modify.adds_new op (map stored_seen new.now)
        (map stored_seen stored.now)) }
{
    if op != ADD_VALUES {
        return Ok(true);
    }
    let any = any_among(alloc, stored, new)?;
    Ok(!any)
}

fn is_some(stored: &Pile) -> bool
    ensures { result ≡ not (length (map stored_seen stored.now) == 0) }
{
    !stored.is_empty()
}

// Whether the values that a deletion names are there, each once, and where it names none, whether there are some.
fn deletes_there(
    alloc: Global,
    item: &ActItem,
    twice: bool,
    new: &[Stored],
    stored: &Pile,
) -> Result<bool, AllocError>
    ensures { IfOk result (λ there. there
        ≡ (if length item.now.values == 0 then not (length (map stored_seen stored.now) == 0)
        else list_all (is_among (map stored_seen stored.now)) (map stored_seen new.now)
        && not twice)) }
{
    if item.values.is_empty() {
        return Ok(is_some(stored));
    }
    let all = all_among(alloc, stored, new)?;
    Ok(all && !twice)
}

// Whether no new password is empty.
fn is_filled(schema: &Schema, item: &ActItem) -> bool
    ensures { result ≡ list_all (is_no_empty_password schema.now item.now.attr.0) item.now.values }
{
    has_no_empty_password(schema, item.attr, item.values.as_slice())
}

// What a deletion of values that aren't there is answered.
fn absent(password: bool) -> u8
    ensures { result ≡ (if password then constraint_violation else no_such_attribute) }
{
    if password {
        result_code::CONSTRAINT_VIOLATION
    } else {
        result_code::NO_SUCH_ATTRIBUTE
    }
}

// The checks of a deletion after those of its values alone. It is said whether one of them is given twice.
fn judge_deletion(
    alloc: Global,
    schema: &Schema,
    item: &ActItem,
    twice: bool,
    new: &[Stored],
    stored: &Pile,
) -> Result<(), Refusal>
    requires op { (item.now.op == delete_values) ≡ true }
    requires twice { twice ≡ is_given_twice schema.now item.now.attr.0 item.now.values }
    ensures { Judges (kept_checks schema.now item.now (map stored_seen new.now)
        (map stored_seen stored.now))
        (λ _. Unit {0}) result }
{
    let there = deletes_there(alloc, item, twice, new, stored)?;
    if !there {
        return Err(Refusal::Code(absent(is_password(schema, item.attr))));
    }
    Ok(())
}

// The same of an addition and of a replacement.
fn judge_given(
    alloc: Global,
    schema: &Schema,
    item: &ActItem,
    twice: bool,
    new: &[Stored],
    stored: &Pile,
) -> Result<(), Refusal>
    requires op { (item.now.op == delete_values) ≡ false }
    requires twice { twice ≡ is_given_twice schema.now item.now.attr.0 item.now.values }
    ensures { Judges (kept_checks schema.now item.now (map stored_seen new.now)
        (map stored_seen stored.now))
        (λ _. Unit {0}) result }
{
    let fresh = adds_new(alloc, item.op, new, stored)?;
    if !fresh {
        return Err(Refusal::Code(result_code::ATTRIBUTE_OR_VALUE_EXISTS));
    }
    if twice {
        return Err(Refusal::Code(result_code::ATTRIBUTE_OR_VALUE_EXISTS));
    }
    if !is_filled(schema, item) {
        return Err(Refusal::Code(result_code::CONSTRAINT_VIOLATION));
    }
    Ok(())
}

// The same of an item, whatever it does.
fn judge_kept(
    alloc: Global,
    schema: &Schema,
    item: &ActItem,
    twice: bool,
    new: &[Stored],
    stored: &Pile,
) -> Result<(), Refusal>
    requires { twice ≡ is_given_twice schema.now item.now.attr.0 item.now.values }
    ensures { Judges (kept_checks schema.now item.now (map stored_seen new.now)
        (map stored_seen stored.now))
        (λ _. Unit {0}) result }
{
    if item.op == DELETE_VALUES {
        return judge_deletion(alloc, schema, item, twice, new, stored);
    }
    judge_given(alloc, schema, item, twice, new, stored)
}

// All checks of an item on the values of its attribute, and its values as they are stored.
fn judge_item(
    alloc: Global,
    dir: &Dir,
    stored: &Pile,
    item: &ActItem,
) -> Result<OneOrMany<Stored>, Refusal>
    requires { item.now.attr.0 < length (attrs_of dir.now.schema) }
    ensures { Judges (checks_on dir.now (map stored_seen stored.now) item.now)
        (λ new. (map stored_seen new ≡ all_stored dir.now item.now.attr.0 item.now.values)
        × HasByteItem item.now) result }
{
    let schema = dir.schema();
    let sent = item.values.as_slice();
    let read = read_values(alloc, schema, item.attr, sent)?;
    let twice = one_is_repeated(alloc, read.as_slice())?;
    let new = stored_values(alloc, dir, item.attr, sent, read)?;
    judge_kept(alloc, schema, item, twice, new.as_slice(), stored)?;
    Ok(new)
}

// ---- what an item makes

fn is_none(gone: &[Stored]) -> bool
    ensures { result ≡ (length gone.now == 0) }
{
    gone.is_empty()
}

// The stored values without these, or none where none are said.
fn taken_from(alloc: Global, stored: Pile, gone: &[Stored]) -> Result<Pile, AllocError>
    ensures { IfOk result (λ left. map stored_seen left ≡ modify.taken_from (map stored_seen stored)
        (map stored_seen gone.now)) }
{
    if is_none(gone) {
        return Ok(Pile::of(OneOrMany::new(alloc)));
    }
    let left = stored.without(alloc, gone)?;
    Ok(left)
}

#[tactic(auto, unfolding(crate::specs::Items::values_after))]
fn values_after(
    alloc: Global,
    op: u8,
    new: OneOrMany<Stored>,
    stored: Pile,
) -> Result<Pile, AllocError>
    ensures { IfOk result (λ after. map stored_seen after
        ≡ modify.values_after op (map stored_seen new) (map stored_seen stored)) }
{
    if op == ADD_VALUES {
        return stored.with(alloc, new);
    }
    if op == DELETE_VALUES {
        return taken_from(alloc, stored, new.as_slice());
    }
    Ok(Pile::of(new))
}

// The checks of an item, and what it makes of the attributes.
fn apply_item(alloc: Global, dir: &Dir, rows: &mut Rows, item: &ActItem) -> Result<(), Refusal>
    requires attr { item.now.attr.0 < length (attrs_of dir.now.schema) }
    requires rise { AttrsRiseFrom 0 (by_attr rows.old.entries) }
    ensures { Judges (modify.item_checks dir.now (by_attr rows.old.entries) item.now)
        (λ _. (by_attr rows.new.entries ≡ modify.after_item dir.now (by_attr rows.old.entries)
        item.now) × HasByteItem item.now) result }
{
    let taken = take_pile(alloc, rows, item.attr);
    let stored = taken.looked_at(alloc, item.values.len())?;
    let new = judge_item(alloc, dir, &stored, item)?;
    let after = values_after(alloc, item.op, new, stored)?;
    put_pile(rows, item.attr, after)?;
    Ok(())
}

// ---- all items

/// The checks of the items, and the attributes with their values after all of them. What was read of them were bytes.
pub fn judge_items(alloc: Global, dir: &Dir, held: Held, items: &[ActItem]) -> Result<Held, Refusal>
    requires attrs { AllByRecursion (λ item. item.attr.0 < length (attrs_of dir.now.schema))
        items.now }
    requires rise { AttrsRiseFrom 0 (map held_seen held.items) }
    ensures { Judges (modify.all_item_checks dir.now (map held_seen held.items) items.now)
        (λ after. (map held_seen after.items ≡ modify.after_items dir.now (map held_seen held.items)
        items.now) × AllByRecursion HasByteItem items.now) result }
{
    let mut rows = rows_of(held)?;
    for item in items {
        apply_item(alloc, dir, &mut rows, item)?;
    }
    let after = held_of(alloc, rows)?;
    Ok(after)
}
