//! What each write of a descriptor needs: the GUID of a class, whether the descriptor is another one then, and marks
//! in a copy of the pending list. The rules are written in `docs/profile/propagation.md`.
//!
//! # Example
//!
//! ```text
//! let changed = ad_dir_write::is_another(&dir, number, &normal_bytes);
//! ad_dir_write::mark_if(changed, &mut queue, number)?;
//! ```
//!
//! # Proved
//!
//! The bytes are of another descriptor exactly where they aren't those that the object has. The object is marked
//! exactly where it changed.
//!
//! # The caller owes
//!
//! Live numbers, and a class of the schema.
//!
//! # Cost
//!
//! A look-up, a comparison of bytes, and a mark. A copy of the pending list is linear in it.
#![tactic(auto)]

mod object;
mod queue;

pub use object::is_another;
pub use queue::{copied, mark_if};
