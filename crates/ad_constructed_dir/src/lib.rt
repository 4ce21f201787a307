//! What a token may change at an object of a directory: the names of the attributes that it may write, those of the
//! classes of which it may create objects below, and the parts of the descriptor that it may write.
//!
//! # Example
//!
//! ```text
//! let names = ad_constructed_dir::attributes_written(alloc, &dir, &token, number)?;
//! let parts = ad_constructed_dir::parts_written(&dir, &token, number);
//! ```
//!
//! # Proved
//!
//! The names are those of the rules, in the order of the schema, and the number is that of the parts.
//!
//! # The caller owes
//!
//! A live object.
//!
//! # Cost
//!
//! One sweep over the descriptor for all attributes, a check for each class, and no memory for the parts.
#![tactic(auto)]

mod changing;
mod object_rights;

pub use changing::{attributes_written, children_created};
pub use object_rights::parts_written;
