//! Causes: what was put in, taken out or changed from one directory to another that can make rights differ, each in a
//! line. Objects are the same by their names.
//!
//! The rules are written in `docs/profile/diff.md`, and defined in `specs/` apart from the code.
//!
//! # Example
//!
//! ```text
//! let text = ad_causes::causes(alloc, &before, &after)?;
//! ```
//!
//! # Proved
//!
//! The text is that of exactly the causes of the rules, in their order. From a sound directory to itself there is none.
//!
//! # The caller owes
//!
//! Nothing: any two directories.
//!
//! # Cost
//!
//! Linear in the objects, their explicit entries and their values, and in the lines of both schemas: entries, members and
//! records are sought in tables. A name costs a look-up for each of its parts.
#![tactic(auto)]

mod alone;
mod counting;
mod descriptors;
mod entries;
mod laws;
mod members;
mod objects;
mod pieces;
mod records;
mod schemas;
mod telling;

pub use laws::equal_directories_have_no_cause;
pub use telling::causes;
