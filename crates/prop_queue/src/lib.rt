//! The pending list of propagation: the parents whose children are still to take over what the parent passes down,
//! each with the child that was done last.
//!
//! The rule is written in `docs/profile/inheritance.md`, and defined on plain lists in `specs/Pending.antt`.
//!
//! # Example
//!
//! ```text
//! queue.mark(parent)?;
//! queue.advance(child);
//! queue.drop_head();
//! ```
//!
//! # Proved
//!
//! Each call gives the list that the rule says: a mark of a pending parent sets its cursor to 0 in its place, any
//! other one puts it last. No parent stands twice. A mark of a pending parent takes no memory.
//!
//! # The caller owes
//!
//! For `advance` a head whose cursor is below the child, for `drop_head` a head, for `of` distinct parents.
//!
//! # Cost
//!
//! The head is reached at once. A mark scans a short list, and a longer one through an index: a look-up and a
//! search by halving. `remove` is linear in the list.
#![tactic(auto)]

mod index;
mod laws;
mod pending;
mod queue;

pub use laws::parents_stay_distinct;
pub use pending::Pending;
pub use queue::Queue;
