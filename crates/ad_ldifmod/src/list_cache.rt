//! The lists of the objects that lines have named so far. A list is changed where it is kept; nothing of it is
//! copied for the next line.

ghost use Rattle.std.specs.Prelude.{◌≡◌, ◌≢◌, ◌++◌, [], ◌∷◌, ℕ, true, not, nat_eq, List, IfOk, OnOk, Some, is_some};
ghost use Rattle.std.specs.List.{filter};
ghost use Rattle.std.specs.HashMap.{get};
ghost use Rattle.ad_ids.specs.SidValue.{same_sid};
ghost use Rattle.ad_dir_model.specs.Objects.{is_live};
ghost use Rattle.ad_ldifmod.specs.Lists.{stored_list, changed, changed_list};
ghost use Rattle.ad_ldifmod.specs.Taken.{lists_in};

use crate::change::Change;
use ad_acl::{Ace, Aces};
use ad_dir::{Dir, live_sd};
use ad_ids::Sid;
use ad_sd::{AceList, Sd};
use std::alloc::{AllocError, Global};
use std::collections::HashMap;

/// The lists that lines have changed so far.
pub(crate) type ListCache = HashMap<u32, AceList>;

// The list of a live object as it is stored, without inherited entries.
fn stored_list(alloc: Global, dir: &Dir, number: u32) -> Result<AceList, AllocError>
    requires { is_live dir.now.objects number ≡ true }
    ensures { IfOk result (λ list. list ≡ stored_list dir.now number) }
{
    let Sd {
        owner: _,
        group: _,
        dacl,
        sacl: _,
    } = ad_inherit::explicit(alloc, live_sd(dir, number))?;
    Ok(dacl)
}

// Takes out all entries of an identifier.
fn take_out(entries: &mut Vec<Ace>, sid: Sid)
    ensures { entries.new.items ≡ filter (λ entry. not (same_sid entry.sid sid)) entries.old.items }
{
    entries.retain(|entry| !(entry.sid == sid));
}

// Puts an entry before the others.
fn put_front(entries: &mut Vec<Ace>, entry: Ace) -> Result<(), AllocError>
    ensures { OnOk result (entries.new.items ≡ entry ∷ entries.old.items) }
{
    entries.insert(0, entry)?;
    Ok(())
}

// Puts an entry after the others.
fn put_behind(entries: &mut Vec<Ace>, entry: Ace) -> Result<(), AllocError>
    ensures { OnOk result (entries.new.items ≡ entries.old.items ++ entry ∷ []) }
{
    entries.push(entry)?;
    Ok(())
}

fn make_change(entries: &mut Vec<Ace>, change: &Change) -> Result<(), AllocError>
    ensures { OnOk result (entries.new.items ≡ changed change.now entries.old.items) }
{
    match change {
        Change::Behind(entry) => put_behind(entries, *entry),
        Change::Front(entry) => put_front(entries, *entry),
        Change::Without(sid) => {
            take_out(entries, *sid);
            Ok(())
        }
    }
}

// The list, changed where it is.
fn changed_list(list: AceList, change: &Change) -> Result<AceList, AllocError>
    ensures { IfOk result (λ new. new ≡ changed_list change.now list) }
{
    let AceList { protected, entries } = list;
    let mut entries = entries.into_vec();
    make_change(&mut entries, change)?;
    Ok(AceList {
        protected,
        entries: Aces::from_vec(entries),
    })
}

// Takes the list of a live object from those that are kept, or as it is stored.
fn list_taken(
    alloc: Global,
    cache: &mut ListCache,
    dir: &Dir,
    number: u32,
) -> Result<AceList, AllocError>
    requires { is_live dir.now.objects number ≡ true }
    ensures list { IfOk result (λ list. list ≡ lists_in dir.now cache.old number) }
    ensures others { OnOk result ((n : ℕ) → n ≢ number → lists_in dir.now cache.new n
        ≡ lists_in dir.now cache.old n) }
{
    match cache.remove(&number) {
        Some(list) => Ok(list),
        None => stored_list(alloc, dir, number),
    }
}

fn keep(cache: &mut ListCache, number: u32, list: AceList) -> Result<(), AllocError>
    ensures here { OnOk result (get nat_eq cache.new number ≡ Some list) }
    ensures others { OnOk result ((n : ℕ) → n ≢ number → get nat_eq cache.new n
        ≡ get nat_eq cache.old n) }
{
    cache.insert(number, list)?;
    Ok(())
}

/// Changes the list of a live object.
pub(crate) fn change_list(
    alloc: Global,
    cache: &mut ListCache,
    dir: &Dir,
    number: u32,
    change: &Change,
) -> Result<(), AllocError>
    requires { is_live dir.now.objects number ≡ true }
    ensures here { OnOk result (get nat_eq cache.new number
        ≡ Some (changed_list change.now (lists_in dir.now cache.old number))) }
    ensures others { OnOk result ((n : ℕ) → n ≢ number → lists_in dir.now cache.new n
        ≡ lists_in dir.now cache.old n) }
{
    let list = list_taken(alloc, cache, dir, number)?;
    let list = changed_list(list, change)?;
    keep(cache, number, list)
}

/// The list of an object whose list is kept.
pub(crate) fn cached_list(cache: &ListCache, number: u32) -> &AceList
    requires { is_some (get nat_eq cache.now number) ≡ true }
    ensures { get nat_eq cache.entry.now number ≡ Some result.now }
{
    match cache.get(&number) {
        Some(list) => list,
        None => unreachable!(),
    }
}
