//! The third phase of loading: the objects of the records, each with its parent, its class, its values and its
//! descriptor, before their links are known.
//!
//! # Example
//!
//! ```text
//! let drafts = ad_load_objects::drafts_of(alloc, &schema, records)?;
//! let number = ad_load_objects::number_in(alloc, &drafts.names, &name)?;
//! ```
//!
//! # Proved
//!
//! The drafts are those of the definition, by rising number of parts of their names, or the first fault with its
//! line. Each is found by its name.
//!
//! # The caller owes
//!
//! At most 67,108,864 records, and for `number_in` the names of drafts.
//!
//! # Cost
//!
//! Linear in the records' bytes, with a look-up by name for each; they are sorted by the number of parts once.
#![tactic(auto)]

mod above;
mod attributes;
mod classes;
mod drafts;
mod found;
mod index;
mod kept_values;
mod objects;
mod order;
mod repeated;
mod seen_values;
mod values;

pub use drafts::{Draft, Drafts, Given, draft_sid, naming_value};
pub use index::number_in;
pub use objects::drafts_of;
