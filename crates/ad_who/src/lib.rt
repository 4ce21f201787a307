//! Who can do what, by the tokens that follow from a directory: what decides a right for a token on an object, why a
//! token is told yes to a question, and the lines that tell it.
//!
//! The rules are written in `docs/profile/who.md`, and defined in `specs/` apart from the code.
//!
//! # Example
//!
//! ```text
//! let told = ad_who::can(alloc, &dir, name, right, base)?;
//! let decider = ad_who::decider_on(&dir, &token, number, &path, bit);
//! ```
//!
//! # Proved
//!
//! The lines are those of the rules. What decides a right for a token is the first thing that the rules name, and
//! the right is granted exactly where that grants.
//!
//! # The caller owes
//!
//! A live object, and a right that is no generic one.
//!
//! # Cost
//!
//! One sweep over a descriptor for each principal or object that is asked about.
#![tactic(auto)]

mod decider;
mod fault;
mod having;
mod identity;
mod laws;
mod pieces;
mod reaching;
mod reason;
mod tokens;
mod told;

pub use decider::{Decider, decider_on};
pub use laws::{
    a_line_stands_where_the_token_is_told_yes, a_right_is_granted_where_what_decides_it_grants,
    a_right_is_told_by_what_decides_it, no_question_is_both_answered_and_refused,
};
pub use pieces::put_reason;
pub use reason::{Reason, reason_on};
pub use told::{Answer, can, token, who};
