//! Copies of the pending list, and marks in them.

ghost use Rattle.std.specs.Prelude.{◌≡◌, if◌then◌else◌, IfOk, OnOk};
ghost use Rattle.prop_queue.specs.Pending.{marked};

use prop_queue::Queue;
use std::alloc::{AllocError, Global};

/// The same list in memory of its own.
pub fn copied(alloc: Global, queue: &Queue) -> Result<Queue, AllocError>
    ensures { IfOk result (λ copy. copy ≡ queue.now) }
{
    let len = queue.len();
    let mut entries = Vec::with_capacity(alloc, len)?;
    for i in 0..len {
        match queue.at(i) {
            Some(entry) => entries.push(entry)?,
            None => unreachable!(),
        }
    }
    Ok(Queue::of(entries))
}

/// Marks the object where it changed.
pub fn mark_if(changed: bool, queue: &mut Queue, number: u32) -> Result<(), AllocError>
    ensures { OnOk result (queue.new ≡ (if changed then marked number queue.old else queue.old)) }
{
    if changed {
        queue.mark(number)?;
    }
    Ok(())
}
