//! The answers to searches and compares of a directory: exactly what a token may see (RFC 4511 4.5, 4.10, [MS-ADTS]
//! 3.1.1.4). The rules are in `specs/`: `Seen` says what a token sees of a directory, and `Search` and `Compare`
//! what the answers are, from that and from the schema alone.
//!
//! # Example
//!
//! ```text
//! let bytes = ad_search::answer(alloc, &dir, &token, message.id, &search, settings.sd_flags)?;
//! ```
//!
//! # Proved
//!
//! The messages are, byte for byte, those of the rules, by rising number of their objects. A token that sees the
//! same of two directories of one schema gets the same answers. What was tried to read is what the definition says,
//! of the entries of the answer.
//!
//! # The caller owes
//!
//! Nothing: any request over any directory.
//!
//! # Cost
//!
//! Where an equality of the filter, or one in an And, or each item of an Or leads to objects by an index, linear in
//! those. Else linear in the objects in scope, of which those that can't be among the entries by what they store are
//! left out by a look at it. An entry takes a sweep over its descriptor.
#![tactic(auto)]

mod candidates;
mod comparing;
mod finding;
mod index_plan;
mod indexed;
mod joining;
mod laws;
mod naming;
mod needles;
mod observing;
mod parents;
mod searching;
mod subtree;
mod tried_compared;

pub use comparing::compare;
pub use laws::{
    a_subtree_is_what_is_in_its_scope, what_a_token_sees_decides_a_compare,
    what_a_token_sees_decides_a_search, what_is_tried_is_of_the_entries_of_the_answer,
    whatever_has_a_name_is_found_by_it,
};
pub use searching::{answer, reads};
pub use tried_compared::compared;
