//! Lines after dsacls become messages: each gives the object that it names the list that the object has after it.
//!
//! The lines are written in `docs/profile/grants.md`, and defined in `specs/`.
//!
//! # Example
//!
//! ```text
//! let messages = ad_ldifmod::grants(alloc, &dir, text)?;
//! let (message, behind) = ad_ldifmod::next_message(alloc, &mut taken, &dir, text)?;
//! ```
//!
//! # Proved
//!
//! A message for each line that says something, numbered from 1: a Modify of the line's object by the list that it
//! has after the line; or the first faulty line, with the first of its four kinds. Each message can be written in
//! at most 1,048,576 bytes. That they are answered 0 isn't claimed. One by one they are the same messages, and whoever
//! takes them so keeps none.
//!
//! # The caller owes
//!
//! At most 1,048,576 bytes of text.
//!
//! # Cost
//!
//! A line takes a look-up by name, and is linear in its object's list. `grants` keeps each message with its list;
//! `judge` and `next_message` keep one list for each object that was named.
#![tactic(auto)]

mod change;
mod fault;
mod lines;
mod list_cache;
mod messages;
mod next;
mod steps;
mod taking;
mod texts;

pub use ad_ldifmod_message::write_message;
pub use fault::{GrantFault, GrantKind};
pub use next::{Taken, next_message};
pub use taking::{grants, judge};
