//! The pending list, and what each call makes of it.

ghost use Rattle.std.specs.Option.{ForSome};
ghost use Rattle.std.specs.Prelude.{◌≡◌, ◌<◌, ◌==◌, ◌++◌, ◌∷◌, ℕ, true, false, [], List, length, drop, slice_get};
ghost use Rattle.std.specs.Prelude.{IsOk, OnOk, OnErr};
ghost use Rattle.prop_queue.specs.Pending.{is_pending, AreDistinct, from_the_start, marked, advanced, without};
ghost use Rattle.prop_queue.specs.Places.{StandsAt};

use crate::index::{Index, place_of};
use crate::pending::Pending;
use std::alloc::{AllocError, Global};
use std::collections::VecDeque;
use std::marker::Model;

/// The pending parents in the order in which they are worked off, each once. A contract sees the list of its entries.
#[derive(Debug, Drop)]
pub struct Queue {
    entries: VecDeque<Pending>,
    index: Index,
}

impl Model for Queue {
    ghost use Rattle.std.specs.Prelude.{List};
    ghost use Rattle.prop_queue.specs.declared.pending.Pending.{Pending};
    ghost use Rattle.prop_queue.specs.Pending.{AreDistinct};
    ghost use Rattle.prop_queue.specs.Numbers.{AreKnownIf};

    ghost Value = { List Pending };

    ghost view = { λ queue. queue.entries.items };

    ghost invariant = { λ queue. AreDistinct queue.entries.items × AreKnownIf queue.index.numbers
        queue.entries.items };
}

impl Queue {
    /// The empty queue. It takes no memory before the first mark.
    pub fn new(alloc: Global) -> Queue
        ensures { result ≡ [] }
    {
        Queue {
            entries: VecDeque::new(alloc),
            index: Index::new(alloc),
        }
    }

    /// The queue of these entries in their order, in the memory that they have. No parent may stand twice.
    pub fn of(entries: Vec<Pending>) -> Queue
        requires { AreDistinct entries.items }
        ensures { result ≡ entries.items }
    {
        let alloc = *entries.allocator();
        Queue {
            entries: VecDeque::from_vec(entries),
            index: Index::new(alloc),
        }
    }

    /// The entries in order, in the memory that they have. No parent stands twice.
    pub fn into_entries(self) -> Vec<Pending>
        ensures entries { result.items ≡ self }
        ensures distinct { AreDistinct result.items }
    {
        let Queue { entries, index: _ } = self;
        entries.into_vec()
    }

    /// The number of entries. No parent stands twice among them.
    pub fn len(&self) -> usize
        ensures len { result ≡ length self.now }
        ensures distinct { AreDistinct self.now }
    {
        self.entries.len()
    }

    /// Whether there is none.
    pub fn is_empty(&self) -> bool
        ensures { result ≡ (length self.now == 0) }
    {
        self.entries.is_empty()
    }

    /// The entry at this place, counted from 0 at the head, and none exactly at and past the end.
    pub fn at(&self, i: usize) -> Option<Pending>
        ensures { result ≡ slice_get self.now i }
    {
        self.entries.get(i).copied()
    }

    /// Marks the parent: where it is pending it keeps its place and starts again, with the cursor 0; else it is put
    /// last with the cursor 0.
    ///
    /// # Errors
    ///
    /// Memory ran out, and the queue stays as it was. Where the parent is pending no memory is taken, and none can
    /// run out.
    pub fn mark(&mut self, parent: u32) -> Result<(), AllocError>
        ensures ok { OnOk result (self.new ≡ marked parent self.old) }
        ensures err { OnErr result (self.new ≡ self.old) }
        ensures pending { is_pending parent self.old ≡ true → IsOk result }
    {
        self.index.prepare(&self.entries);
        match place_of(&self.entries, &self.index, parent) {
            Some(place) => start_again(&mut self.entries, place),
            None => {
                put_last(&mut self.entries, parent)?;
                self.index.put_last(parent);
            }
        }
        Ok(())
    }

    /// Sets the cursor of the head to the child. There is a head, and its cursor is below the child.
    pub fn advance(&mut self, child: u32)
        requires not_empty { 0 < length self.old }
        requires above { ForSome (slice_get self.old 0) (λ head. head.cursor < child) }
        ensures { self.new ≡ advanced child self.old }
    {
        set_cursor(&mut self.entries, child);
    }

    /// Takes the head off. There is one.
    pub fn drop_head(&mut self)
        requires { 0 < length self.old }
        ensures { self.new ≡ drop 1 self.old }
    {
        let parent = take_head(&mut self.entries);
        self.index.take_off(0, parent);
    }

    /// Takes the entry of the parent out, if it is pending. The others keep their order.
    pub fn remove(&mut self, parent: u32)
        ensures { self.new ≡ without parent self.old }
    {
        if let Some(place) = place_of(&self.entries, &self.index, parent) {
            take_out(&mut self.entries, place);
            self.index.take_off(place, parent);
        }
    }
}

// Sets the cursor at the place of the parent to 0.
fn start_again(entries: &mut VecDeque<Pending>, place: usize)
    ensures { (parent : ℕ) → StandsAt parent place entries.old.items → entries.new.items
        ≡ marked parent entries.old.items }
{
    if let Some(entry) = entries.get_mut(place) {
        entry.cursor = 0;
    }
}

fn put_last(entries: &mut VecDeque<Pending>, parent: u32) -> Result<(), AllocError>
    ensures ok { OnOk result (entries.new.items ≡ entries.old.items ++ from_the_start parent ∷ []) }
    ensures err { OnErr result (entries.new.items ≡ entries.old.items) }
{
    entries.push_back(Pending { parent, cursor: 0 })?;
    Ok(())
}

fn set_cursor(entries: &mut VecDeque<Pending>, child: u32)
    ensures { entries.new.items ≡ advanced child entries.old.items }
{
    if let Some(head) = entries.front_mut() {
        head.cursor = child;
    }
}

// Takes the head off, and tells its parent, which isn't pending then.
fn take_head(entries: &mut VecDeque<Pending>) -> u32
    requires { 0 < length entries.old.items }
    ensures taken { entries.new.items ≡ drop 1 entries.old.items }
    ensures absent { AreDistinct entries.old.items → is_pending result entries.new.items ≡ false }
{
    match entries.pop_front() {
        Some(head) => head.parent,
        None => unreachable!(),
    }
}

// Takes out the entry at the place of the parent.
fn take_out(entries: &mut VecDeque<Pending>, place: usize)
    ensures { (parent : ℕ) → StandsAt parent place entries.old.items → AreDistinct entries.old.items
        → entries.new.items ≡ without parent entries.old.items }
{
    let _entry = entries.remove(place);
}
