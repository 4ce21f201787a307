//! A directory as rows of a store: the rows are read back, or refused with the first of them that is wrong.
//!
//! # Example
//!
//! ```text
//! let dir = ad_rows::read_dir_in(alloc, &rows)?;
//! ```
//!
//! # Proved
//!
//! The directory that is read is sound, the rows represent it, and they represent no other sound one. The rows of a
//! sound directory are read unless memory runs out. A refusal names the least row that isn't of its form, or the
//! object at which the directory first isn't sound. After the row of an edit, or the batch of a list of edits, the
//! rows represent the edited directory.
//!
//! # The caller owes
//!
//! Rows by rising kind and number, none twice, each with a body, as `row_store` gives them.
//!
//! # Cost
//!
//! Linear in the rows, with what `ad_rows_sound` takes for each object. `read_dir_in` reads the rows where they lie,
//! without a copy of them.
#![tactic(auto)]

mod all_rows;
mod attributes;
mod descriptors;
mod fault;
mod laws;
mod parsing;
mod reading;
mod taking;

pub use ad_rows_write::{Batch, batch, row_of, rows_of, write_parts, write_rows};
pub use fault::RowsFault;
pub use laws::{a_batch_follows_its_edits, a_row_follows_its_edit, rows_stand_for_one_directory};
pub use reading::{read_dir, read_dir_in};
