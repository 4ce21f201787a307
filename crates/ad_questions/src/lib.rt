//! What one asks of a directory before one does it: which question a text asks, which rights the request that it is
//! about needs at an object, and whether a token has them. A question is for a plain right, or for what one intends: to
//! see an object, to read or replace an attribute, to reset a password, to join a group, to add, to delete, to replace
//! the DACL or the owner.
//!
//! The rules are written in `docs/profile/questions.md`, and defined in `specs/` apart from the code.
//!
//! # Example
//!
//! ```text
//! let Some(question) = ad_questions::question_of(dir.schema(), b"reset") else { .. };
//! let needed = ad_questions::requirements(alloc, &dir, question, number)?;
//! ```
//!
//! # Proved
//!
//! The requirements of a question are those to see the object, and then exactly those that are checked where the
//! request is made. So a token is told yes exactly where it sees the object and the request isn't refused for want of a
//! right.
//!
//! # The caller owes
//!
//! A live object, and a question of the directory's schema.
//!
//! # Cost
//!
//! A text is read with a look-up a name. Requirements are a handful of rights.
#![tactic(auto)]

mod alternative;
mod asked;
mod asking;
mod codes;
mod laws;
mod needed;
mod possible;
mod question;

pub use alternative::Alternative;
pub use asked::{Asked, On, path_at, path_on, right_asked};
pub use laws::{
    a_question_asks_for_what_the_request_needs, a_right_is_asked_for_by_its_text,
    an_object_is_seen_where_what_that_needs_is_met, reading_is_told_where_a_search_shows_it,
    the_words_are_read, yes_is_told_where_no_right_is_wanting,
    yes_is_told_where_the_object_is_seen_and_the_request_has_what_it_needs,
};
pub use needed::{are_met, is_allowed, is_met, requirements};
pub use possible::is_for;
pub use question::{Question, question_of};
