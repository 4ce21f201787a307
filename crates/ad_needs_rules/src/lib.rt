//! What an operation needs of a directory, and how a required right that is missing is told: its checks up to these
//! rights, rights that are asked for, what the names and the descriptor in a request represent, and validated writes
//! ([MS-ADTS] 3.1.1.5). The rules are written in `docs/profile/changes.md`.
//!
//! # Example
//!
//! ```text
//! let found = ad_needs_rules::visible(alloc, &dir, &token, &name)?;
//! if let Some(refusal) = ad_needs_rules::unless_granted(alloc, &dir, &token, &ask)? { .. }
//! ```
//!
//! # Proved
//!
//! A name leads to its object exactly where the token sees it, and else what is told is the nearest name above that
//! it sees; `number_of_name` finds it whoever asks. A required right is missing exactly where none of its alternatives
//! is granted, and its text is that of the rules. A validated write is found exactly where all items of the attribute
//! are one.
//!
//! # The caller owes
//!
//! Live objects; classes and attributes of the schema.
//!
//! # Cost
//!
//! A name takes a look-up a part, and a right one sweep over its object's descriptor.
#![tactic(auto)]

mod asking;
mod descriptor;
mod hosts;
mod missing;
mod naming;
mod need;
mod outcome;
mod telling;
mod validated;

pub use asking::{Ask, Right, is_granted, mask_of, on_children, on_object, to_do, to_write};
pub use descriptor::{asked_in, asked_of, has_asked_part, has_owner_or_group, sd_in_one};
pub use missing::{unless_either, unless_granted};
pub use naming::{is_descriptor, matched, number_of_name, read_name, visible};
pub use need::{Need, Want};
pub use outcome::Verdict;
pub use telling::text;
pub use validated::validated_write;
