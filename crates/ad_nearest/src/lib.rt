//! What a word names that nothing has, and the nearest names that something has: for a line on standard error, where an
//! answer has said that there is nothing. What is told is no part of any answer.
//!
//! # Example
//!
//! ```text
//! if let Some(hint) = ad_nearest::unknown_right(alloc, dir.schema(), "WP:members")? {
//!     let _ = eprintln!(rt; "adsd: {hint}");
//! }
//! ```
//!
//! # Proved
//!
//! That each call ends and is safe. Which names are near is tested.
//!
//! # The caller owes
//!
//! Nothing: any directory, any word.
//!
//! # Cost
//!
//! A look at each name of the schema, or at each object; a word or a name of more than 256 bytes is near to nothing. Lines
//! of grants are judged once more, up to the first that goes wrong.
#![tactic(auto)]

mod entries;
mod hint;
mod lines;
mod near;
mod objects;
mod rights;
mod shown;

pub use hint::Hint;
pub use lines::{LineHint, unknown_in_lines};
pub use objects::{unknown_identifier, unknown_name, unknown_object};
pub use rights::unknown_right;
pub use shown::Shown;
