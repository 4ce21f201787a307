//! An index over the entries. It tells nothing that the entries don't: it only makes looking for a parent fast.
//!
//! Each entry has a number, and the numbers rise along the queue. So a number stays right when entries before it
//! are taken off, and its offset is found by a binary search. What stands there is looked at, so that a wrong
//! number would cost time and nothing else.

ghost use Rattle.std.specs.Prelude.{◌≡◌, ℕ, ◌<◌, ◌∷◌, ◌++◌, [], true, false, List, length, drop, get_or, IfOk};
ghost use Rattle.std.specs.List.{position_from};
ghost use Rattle.prop_queue.specs.declared.pending.Pending.{Pending as Entry};
ghost use Rattle.prop_queue.specs.Pending.{is_of, is_pending, AreDistinct};
ghost use Rattle.prop_queue.specs.Places.{IsFoundAt};
ghost use Rattle.prop_queue.specs.Numbers.{AreKnown, AreKnownIf};

use crate::pending::Pending;
use std::alloc::{AllocError, Global};
use std::collections::{HashMap, VecDeque};

// A shorter queue is scanned sooner than an index is made.
const SHORT: usize = 32;

// A longer one is scanned so often before its index is made, since a queue that is copied for one mark needs none.
const SCANS: u32 = 8;

/// The numbers of the pending parents, where they are kept.
#[derive(Debug, Drop)]
pub(crate) struct Index {
    pub numbers: Option<HashMap<u32, u64>>,
    // The numbers of the entries in their order, where numbers are kept.
    pub in_order: VecDeque<u64>,
    // The number of the next entry that is put last.
    pub next: u64,
    // How often a queue that isn't short was scanned.
    pub scans: u32,
}

impl Index {
    /// No numbers.
    pub fn new(alloc: Global) -> Index
        ensures { (queue : List Entry) → AreKnownIf result.numbers queue }
    {
        Index {
            numbers: None,
            in_order: VecDeque::new(alloc),
            next: 0,
            scans: 0,
        }
    }

    /// The entry of this parent was taken off at this offset.
    pub fn take_off(&mut self, offset: usize, parent: u32)
        ensures { (queue : List Entry) → is_pending parent queue ≡ false
            → AreKnownIf self.old.numbers queue → AreKnownIf self.new.numbers queue }
    {
        let Some(numbers) = self.numbers.take() else {
            return;
        };
        let _number = self.in_order.remove(offset);
        self.numbers = Some(without_number(numbers, parent));
    }

    /// A parent is put last.
    pub fn put_last(&mut self, parent: u32)
        ensures { (queue : List Entry) (entry : Entry) → entry.parent ≡ parent
            → AreKnownIf self.old.numbers queue
            → AreKnownIf self.new.numbers (queue ++ entry ∷ []) }
    {
        let Some(numbers) = self.numbers.take() else {
            return;
        };
        let number = self.next;
        self.next = number.saturating_add(1);
        self.numbers = with_number(numbers, &mut self.in_order, parent, number);
    }

    /// Makes the numbers, where there are none and the queue isn't short and was scanned before. Where memory runs
    /// out there are none.
    pub fn prepare(&mut self, entries: &VecDeque<Pending>)
        requires { AreKnownIf self.old.numbers entries.now.items }
        ensures { AreKnownIf self.new.numbers entries.now.items }
    {
        if self.numbers.is_some() || entries.len() < SHORT {
            return;
        }
        if self.scans < SCANS {
            self.scans += 1;
            return;
        }
        self.next = entries.len() as u64;
        self.in_order.clear();
        self.numbers = numbers_of(entries, &mut self.in_order).ok();
    }
}

// The numbers with one more, or none where memory ran out.
fn with_number(
    mut numbers: HashMap<u32, u64>,
    in_order: &mut VecDeque<u64>,
    parent: u32,
    number: u64,
) -> Option<HashMap<u32, u64>>
    ensures { (queue : List Entry) (entry : Entry) → entry.parent ≡ parent → AreKnown numbers queue
        → AreKnownIf result (queue ++ entry ∷ []) }
{
    if in_order.push_back(number).is_err() {
        return None;
    }
    match numbers.insert(parent, number) {
        Ok(_) => Some(numbers),
        Err(_) => None,
    }
}

// The numbers without that of this parent.
fn without_number(mut numbers: HashMap<u32, u64>, parent: u32) -> HashMap<u32, u64>
    ensures { (queue : List Entry) → is_pending parent queue ≡ false → AreKnown numbers queue
        → AreKnown result queue }
{
    let _number = numbers.remove(&parent);
    numbers
}

// The numbers of all parents, from 0 on, also in their order.
fn numbers_of(
    entries: &VecDeque<Pending>,
    in_order: &mut VecDeque<u64>,
) -> Result<HashMap<u32, u64>, AllocError>
    ensures { IfOk result (λ numbers. AreKnown numbers entries.now.items) }
{
    let mut numbers = HashMap::with_capacity(*entries.allocator(), entries.len())?;
    for offset in 0..entries.len() {
        in_order.push_back(offset as u64)?;
        numbers.insert(entries[offset].parent, offset as u64)?;
    }
    Ok(numbers)
}

// The offset of the parent, by going over the entries.
fn scanned(entries: &VecDeque<Pending>, parent: u32) -> Option<usize>
    ensures { result ≡ position_from (is_of parent) 0 entries.now.items }
{
    entries.iter().position(|entry| entry.parent == parent)
}

// Whether the entry at the offset is that of the parent.
fn stands_at(entries: &VecDeque<Pending>, offset: usize, parent: u32) -> bool
    requires { AreDistinct entries.now.items }
    ensures { result ≡ true → IsFoundAt (Some offset) parent entries.now.items }
{
    match entries.get(offset) {
        Some(entry) => entry.parent == parent,
        None => false,
    }
}

// The offset of a parent that has this number.
fn looked_up(
    entries: &VecDeque<Pending>,
    in_order: &VecDeque<u64>,
    number: u64,
    parent: u32,
) -> Option<usize>
    requires { AreDistinct entries.now.items }
    ensures { IsFoundAt result parent entries.now.items }
{
    if let Ok(offset) = in_order.binary_search(&number) {
        if stands_at(entries, offset, parent) {
            return Some(offset);
        }
    }
    scanned(entries, parent)
}

// The offset of the parent, by its number.
fn by_number(
    entries: &VecDeque<Pending>,
    numbers: &HashMap<u32, u64>,
    in_order: &VecDeque<u64>,
    parent: u32,
) -> Option<usize>
    requires distinct { AreDistinct entries.now.items }
    requires known { AreKnown numbers.now entries.now.items }
    ensures { IsFoundAt result parent entries.now.items }
{
    match numbers.get(&parent) {
        Some(number) => looked_up(entries, in_order, *number, parent),
        None => None,
    }
}

/// The offset of the parent: by its number where numbers are kept, and else by going over the entries. It takes no
/// memory.
pub(crate) fn place_of(entries: &VecDeque<Pending>, index: &Index, parent: u32) -> Option<usize>
    requires distinct { AreDistinct entries.now.items }
    requires known { AreKnownIf index.now.numbers entries.now.items }
    ensures { IsFoundAt result parent entries.now.items }
{
    match &index.numbers {
        Some(numbers) => by_number(entries, numbers, &index.in_order, parent),
        None => scanned(entries, parent),
    }
}
