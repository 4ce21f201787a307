//! How the items of a Modify and the values of an addition are judged, and what they make of the values of an
//! object. The rules are written in `docs/profile/changes.md`.
//!
//! # Example
//!
//! ```text
//! let read = ad_change_values::read_values(alloc, &schema, attr, &sent)?;
//! let held = ad_change_values::judge_items(alloc, &dir, held, &items)?;
//! ```
//!
//! # Proved
//!
//! What the items make of the values, or the first check that fails, is the definition's: item by item, each on
//! what those before it made.
//!
//! # The caller owes
//!
//! Attributes and a class of the schema, held values whose attributes rise, and for `put_stored` an attribute of
//! which none is held.
//!
//! # Cost
//!
//! n log n in the values that are sent and those that are held; a value is found by a look-up in a sorted map.
#![tactic(auto)]

mod counts;
mod finals;
mod held;
mod items;
mod keys;
mod pile;
mod places;
mod refusal;
mod repeated;
mod rows;
mod values;

pub use finals::{are_too_many, judge_attrs};
pub use held::{Held, put_stored, take_stored};
pub use items::judge_items;
pub use refusal::{Refusal, code_of};
pub use repeated::one_is_repeated;
pub use values::{are_repeated, has_no_empty_password, is_lacking, read_values, stored_values};
