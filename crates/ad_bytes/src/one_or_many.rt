//! A list that mostly has one value.

ghost use Rattle.std.specs.Prelude.{◌≡◌, ◌++◌, ◌==◌, [], ◌∷◌, length, OnOk, OnErr, IfOk};
ghost use Rattle.ad_bytes.specs.Lists.{items_in};

use std::alloc::{AllocError, Global};
use std::marker::Model;
use std::mem;

#[derive(Debug, Drop)]
enum Items<T: Drop> {
    One([T; 1]),
    Many(Vec<T>),
}

/// A list that mostly has one value: one alone stands in the list itself, more stand in memory of their own. A
/// contract sees it as a list.
#[derive(Debug)]
pub struct OneOrMany<T: Drop> {
    alloc: Global,
    items: Items<T>,
}

// Written out, so that what lies above drops a list in one step.
impl<T: Drop> Drop for OneOrMany<T> {
    fn drop(self) {
        let OneOrMany { alloc: _, items } = self;
        drop(items);
    }
}

impl<T: Drop> Model for OneOrMany<T> {
    ghost use Rattle.std.specs.Prelude.{List as Values};
    ghost use Rattle.ad_bytes.specs.Lists.{items_in};

    ghost Value = { Values T };

    ghost view = { λ few. items_in few.items };
}

fn items_in<T: Drop>(items: &Items<T>) -> &[T]
    ensures { result.now ≡ items_in items.now }
{
    match items {
        Items::One(one) => one.as_slice(),
        Items::Many(all) => all.as_slice(),
    }
}

// One value and another after it. Out of memory, one alone.
fn two<T: Drop>(alloc: Global, first: T, second: T) -> (Items<T>, Result<(), AllocError>)
    ensures ok { OnOk result.1 (items_in result.0 ≡ first ∷ second ∷ []) }
    ensures err { OnErr result.1 (items_in result.0 ≡ first ∷ []) }
{
    let mut all = match Vec::with_capacity(alloc, 2) {
        Ok(all) => all,
        Err(AllocError) => return (Items::One([first]), Err(AllocError)),
    };
    if let Err(failed) = all.push(first) {
        return (Items::One([failed.value]), Err(AllocError));
    }
    match all.push(second) {
        Ok(()) => (Items::Many(all), Ok(())),
        Err(_) => (Items::Many(all), Err(AllocError)),
    }
}

// Values and one more.
fn behind<T: Drop>(alloc: Global, items: Items<T>, item: T) -> (Items<T>, Result<(), AllocError>)
    ensures ok { OnOk result.1 (items_in result.0 ≡ items_in items ++ item ∷ []) }
    ensures err { OnErr result.1 (items_in result.0 ≡ items_in items) }
{
    match items {
        Items::One([first]) => two(alloc, first, item),
        Items::Many(all) => {
            let mut all = all;
            if all.is_empty() {
                return (Items::One([item]), Ok(()));
            }
            match all.push(item) {
                Ok(()) => (Items::Many(all), Ok(())),
                Err(_) => (Items::Many(all), Err(AllocError)),
            }
        }
    }
}

fn items_of<T: Drop>(all: Vec<T>) -> Items<T>
    ensures { items_in result ≡ all.items }
{
    let mut all = all;
    if all.len() != 1 {
        return Items::Many(all);
    }
    match all.pop() {
        Some(item) => Items::One([item]),
        None => Items::Many(all),
    }
}

fn vec_of<T: Drop>(alloc: Global, items: Items<T>) -> Result<Vec<T>, AllocError>
    ensures { IfOk result (λ all. all.items ≡ items_in items) }
{
    match items {
        Items::Many(all) => Ok(all),
        Items::One([item]) => {
            let mut all = Vec::with_capacity(alloc, 1)?;
            all.push(item)?;
            Ok(all)
        }
    }
}

impl<T: Drop> OneOrMany<T> {
    /// The empty list. It takes no memory.
    pub fn new(alloc: Global) -> OneOrMany<T>
        ensures { result ≡ [] }
    {
        OneOrMany {
            alloc,
            items: Items::Many(Vec::new(alloc)),
        }
    }

    /// A list of one value. It takes no memory.
    pub fn one(alloc: Global, item: T) -> OneOrMany<T>
        ensures { result ≡ item ∷ [] }
    {
        OneOrMany {
            alloc,
            items: Items::One([item]),
        }
    }

    /// The values in order.
    pub fn as_slice(&self) -> &[T]
        ensures { result.now ≡ self.now }
    {
        items_in(&self.items)
    }

    /// The number of values.
    pub fn len(&self) -> usize
        ensures { result ≡ length self.now }
    {
        self.as_slice().len()
    }

    /// Whether there is none.
    pub fn is_empty(&self) -> bool
        ensures { result ≡ (length self.now == 0) }
    {
        self.as_slice().is_empty()
    }

    /// Puts a value at the end. Out of memory, the list stays as it was.
    pub fn push(&mut self, item: T) -> Result<(), AllocError>
        ensures ok { OnOk result (self.new ≡ self.old ++ item ∷ []) }
        ensures err { OnErr result (self.new ≡ self.old) }
    {
        let items = mem::replace(&mut self.items, Items::Many(Vec::new(self.alloc)));
        let (items, pushed) = behind(self.alloc, items, item);
        self.items = items;
        pushed
    }

    /// The values in memory of their own.
    ///
    /// # Errors
    ///
    /// Out of memory, where one value stands in the list itself.
    pub fn into_vec(self) -> Result<Vec<T>, AllocError>
        ensures { IfOk result (λ all. all.items ≡ self) }
    {
        let OneOrMany { alloc, items } = self;
        vec_of(alloc, items)
    }

    /// The list of these values. More than one stay in the memory that they have.
    pub fn from_vec(items: Vec<T>) -> OneOrMany<T>
        ensures { result ≡ items.items }
    {
        let alloc = *items.allocator();
        OneOrMany {
            alloc,
            items: items_of(items),
        }
    }
}
