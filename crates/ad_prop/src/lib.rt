//! Propagation: the edits of one step, by which what a descriptor passes down reaches one child more. The rules are
//! written in `docs/profile/propagation.md`.
//!
//! # Example
//!
//! ```text
//! let Some(edits) = ad_prop::step(alloc, &dir)? else { .. };
//! ```
//!
//! # Proved
//!
//! The edits may be applied one after the other and make the directory after one step; where nothing is pending
//! there are none. `step_beside` says the same of a pending list that is kept beside the directory, and `turn_beside`
//! of the one descriptor that it gives, without an edit.
//!
//! # The caller owes
//!
//! A sound directory.
//!
//! # Cost
//!
//! A step takes one descriptor that is computed, and a look-up for the next child. `step` copies the pending list,
//! `step_beside` changes it in its place. `turn_beside` copies no object either, and takes the last descriptor again
//! where the next child is like the one before: it compares bytes then, and computes nothing.
#![tactic(auto)]

mod child;
mod stepping;
mod turning;

pub use ad_inherit::WholeSd;
pub use stepping::{step, step_beside};
pub use turning::{Turn, turn_beside};
