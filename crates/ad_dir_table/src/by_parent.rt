//! The numbers of objects by their parents: a rising list for each parent that has had children since it was empty.

ghost use Rattle.std.specs.Prelude.{◌≡◌, ℕ, ◌<◌, ◌≤◌, nat_lt, length, find, slice_get, vec_len, Some, OnOk};
ghost use Rattle.std.specs.List.{position_or_len};
ghost use Rattle.std.specs.Vec.{vec_capacity};
ghost use Rattle.ad_sd.specs.declared.parts.Sd.{Sd as SdValue};
ghost use Rattle.ad_dir_objects.specs.Seen.{object_seen};
ghost use Rattle.ad_dir_table.specs.Entry.{objects_in};
ghost use Rattle.ad_dir_table.specs.KeyChanges.{IsChange};
ghost use Rattle.ad_dir_table.specs.Lists.{listed, ListsRise, ListSame, HasPlace, Adds, Drops, RiseFrom, put_number};
ghost use Rattle.ad_dir_table.specs.Lists.{without_number};
ghost use Rattle.ad_dir_table.specs.Indexed.{was, parent_of};

use crate::Objects;
use crate::change::Change;
use ad_dir_objects::Object;
use indexmap::IndexMap;
use std::alloc::{AllocError, Global};

pub type Children = IndexMap<u32, Vec<u32>>;

// ---- one list

// How many numbers of a rising list aren't above one.
fn up_to(numbers: &[u32], number: u32) -> usize
    requires { RiseFrom 0 numbers.now }
    ensures place { result ≡ position_or_len (nat_lt number) numbers.now }
    ensures within { result ≤ length numbers.now }
{
    numbers.partition_point(|n| *n <= number)
}

// Inserts a number where it belongs, where there is room.
fn put_number(numbers: &mut Vec<u32>, number: u32)
    requires rise { RiseFrom 0 numbers.old.items }
    requires room { vec_len numbers.old < vec_capacity numbers.old }
    ensures { numbers.new.items ≡ put_number number numbers.old.items }
{
    let place = up_to(numbers.as_slice(), number);
    match numbers.insert(place, number) {
        Ok(()) => {}
        Err(_) => unreachable!(),
    }
}

// Removes a number out.
fn take_number(numbers: &mut Vec<u32>, number: u32)
    requires { RiseFrom 0 numbers.old.items }
    ensures { numbers.new.items ≡ without_number number numbers.old.items }
{
    let place = up_to(numbers.as_slice(), number);
    if place == 0 {
        return;
    }
    if numbers[place - 1] == number {
        let _was = numbers.remove(place - 1);
    }
}

fn number_at(numbers: &[u32], place: usize) -> Option<u32>
    ensures { result ≡ slice_get numbers.now place }
{
    numbers.get(place).copied()
}

// ---- all of them

fn moved(a: u32, b: u32) -> Change<u32>
    ensures { IsChange (Some a) (Some b) result.to result.from }
{
    if a == b {
        Change {
            to: None,
            from: None,
        }
    } else {
        Change {
            to: Some(b),
            from: Some(a),
        }
    }
}

/// How the parent of an object's number changes where it is put.
pub(crate) fn parent_change(objects: &Objects, object: &Object) -> Change<u32>
    ensures { (sd : SdValue) → IsChange
        (was parent_of (objects_in objects.now.entries) object.now.number)
        (parent_of (object_seen object.now sd)) result.to result.from }
{
    match objects.object(object.number) {
        Some(old) => moved(old.parent, object.parent),
        None => Change {
            to: Some(object.parent),
            from: None,
        },
    }
}

// Makes room for one child more of a parent.
fn make_place(alloc: Global, children: &mut Children, parent: u32) -> Result<(), AllocError>
    ensures place { OnOk result (HasPlace (Some parent) children.new.entries) }
    ensures same { ListSame (listed children.old.entries) (listed children.new.entries) }
{
    if let Some(numbers) = children.get_mut(&parent) {
        return numbers.reserve(1);
    }
    children.insert(parent, Vec::with_capacity(alloc, 1)?)?;
    Ok(())
}

/// Makes room for one child more of a parent, if there is one.
///
/// # Errors
///
/// Out of memory. The lists stay.
pub(crate) fn make_place_if(
    alloc: Global,
    children: &mut Children,
    to: Option<u32>,
) -> Result<(), AllocError>
    ensures place { OnOk result (HasPlace to children.new.entries) }
    ensures same { ListSame (listed children.old.entries) (listed children.new.entries) }
{
    match to {
        Some(parent) => make_place(alloc, children, parent),
        None => Ok(()),
    }
}

/// Inserts a number under a parent, if there is one, where there is room.
pub(crate) fn add_child(children: &mut Children, to: Option<u32>, number: u32)
    requires place { HasPlace to children.old.entries }
    requires rise { ListsRise children.old.entries }
    ensures { Adds to number (listed children.old.entries) (listed children.new.entries) }
{
    if let Some(parent) = to {
        match children.get_mut(&parent) {
            Some(numbers) => put_number(numbers, number),
            None => unreachable!(),
        }
    }
}

// Removes a number out under a parent.
fn take_child(children: &mut Children, parent: u32, number: u32)
    requires { ListsRise children.old.entries }
    ensures { Drops (Some parent) number (listed children.old.entries)
        (listed children.new.entries) }
{
    if let Some(numbers) = children.get_mut(&parent) {
        take_number(numbers, number);
    }
}

// Drops the list of a parent that has no children.
fn drop_empty(children: &mut Children, parent: u32)
    ensures { ListSame (listed children.old.entries) (listed children.new.entries) }
{
    if children_of(children, parent).is_empty() {
        let _was = children.swap_remove(&parent);
    }
}

/// Removes a number out under a parent, if there is one. It takes no memory.
pub(crate) fn drop_child(children: &mut Children, from: Option<u32>, number: u32)
    requires { ListsRise children.old.entries }
    ensures { Drops from number (listed children.old.entries) (listed children.new.entries) }
{
    if let Some(parent) = from {
        take_child(children, parent, number);
        drop_empty(children, parent);
    }
}

/// The numbers under a parent. It takes no memory.
pub fn children_of(children: &Children, parent: u32) -> &[u32]
    ensures { result.now ≡ listed children.entry.now.entries parent }
{
    match children.get(&parent) {
        Some(numbers) => numbers.as_slice(),
        None => &[],
    }
}

/// The least number under a parent above one. It takes no memory.
pub fn next_child(children: &Children, parent: u32, above: u32) -> Option<u32>
    requires { ListsRise children.now.entries }
    ensures { result ≡ find (nat_lt above) (listed children.now.entries parent) }
{
    let numbers = children_of(children, parent);
    number_at(numbers, up_to(numbers, above))
}
