//! The rows of a directory in a store, as they are written: which rows represent it, and which rows an edit
//! changes.
//!
//! # Layout
//!
//! By kind: 1 an object, by its number; 2 the pending list; 3 the counters with the name above the root; 4 a record
//! of the schema, from 0 on. Numbers in a body have their most significant byte first; what each body has is in
//! `docs/profile/store.md`.
//!
//! # Example
//!
//! ```text
//! let rows = ad_rows_write::rows_of(alloc, &dir)?;
//! let batch = ad_rows_write::batch(alloc, &edits)?;
//! ```
//!
//! # Proved
//!
//! The rows represent the directory, and come by rising kind and number, each with a body. A batch has at most one
//! row of a kind and number, that of the last edit of it.
//!
//! # The caller owes
//!
//! Normal bytes in the edits (`HasNormal`), and in `write_parts` objects by rising number.
//!
//! # Cost
//!
//! Linear in what is written; a batch takes n log n of its edits.
#![tactic(auto)]

mod edits;
mod listing;
mod noting;
mod parts;
mod room;
mod row_list;
mod rows;
mod writing;

pub use edits::batch;
pub use listing::{rows_of, write_rows};
pub use noting::Batch;
pub use parts::write_parts;
pub use rows::row_of;
