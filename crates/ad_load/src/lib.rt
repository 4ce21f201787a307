//! An LDIF file becomes a directory, in four phases: records and schema, as `ad_load_records` reads them, objects,
//! as `ad_load_objects` makes drafts of them, and links.
//!
//! # Example
//!
//! ```text
//! let dir = ad_load::directory_of(alloc, text)?;
//! ```
//!
//! # Proved
//!
//! The directory is the one that the four phases define, or the fault is the first one with its line. It is sound,
//! nothing is pending, and each descriptor is the one that is recomputed from the root.
//!
//! # The caller owes
//!
//! Nothing for a text; for `parts_of` at most 67,108,864 records, as they were read of a text.
//!
//! # Cost
//!
//! Linear in the text and its objects, n log n in the values of one object, and a look-up a link. Each descriptor
//! is computed once, and what is inherited is kept from one child to the next.
#![tactic(auto)]

mod before_inheritance;
mod by_attr;
mod counters;
mod descriptors;
mod directory;
mod limits;
mod links;
mod parts;
mod settle;

pub use ad_load_records::{LoadCause, LoadFault};
pub use directory::{directory_of, parts_of};
pub use parts::Parts;
