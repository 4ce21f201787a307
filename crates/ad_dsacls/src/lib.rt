//! What stands in the descriptor of an object of a directory, and what a token may do at it, as lines of text after
//! dsacls.
//!
//! The lines are written in `docs/profile/listings.md`, and defined in `specs/`.
//!
//! # Example
//!
//! ```text
//! let lines = ad_dsacls::list(alloc, &dir, number)?;
//! let rights = ad_dsacls::effective(alloc, &dir, &token, number)?;
//! ```
//!
//! # Proved
//!
//! The bytes are exactly those of the rules: each entry of both lists in the codes of the descriptor's canonical
//! text; a code in a line exactly where its right is granted on the path of the line.
//!
//! # The caller owes
//!
//! A live object.
//!
//! # Cost
//!
//! The list is linear in the entries. What is effective is linear in the attributes and classes of the schema, with
//! a sweep for each tree of attributes.
#![tactic(auto)]

mod asking;
mod entries;
mod lines;
mod listing;
mod pieces;
mod rights;
mod words;

pub use listing::list;
pub use rights::effective;
